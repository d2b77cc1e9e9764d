// What is asked for with one word more, and behind the last one.
//
// The contracts cite `words/specs/Words.antt`. That the words come in any order is proved in `words/proofs/Order.antt`. No function
// has a `requires`.
#![tactic(auto)]

ghost use Rattle.std.specs.Prelude.{◌≡◌};
ghost use Rattle.words.specs.Words.{named as Words·named, formatted as Words·formatted, heard as Words·heard, closed as Words·closed};

use words::{Asked, Place, Takes, Word, awaited, unserved};

// A name at a place, of at most so many: the first, the second, the third, the fourth, or one too many.
fn named(a: Asked, place: usize, most: usize) -> Asked
    ensures { result ≡ Words·named a place most }
{
    let name = Some(place);
    if a.first.is_none() && most > 0 {
        Asked { first: name, ..a }
    } else if a.second.is_none() && most > 1 {
        Asked { second: name, ..a }
    } else if a.third.is_none() && most > 2 {
        Asked { third: name, ..a }
    } else if a.fourth.is_none() && most > 3 {
        Asked { fourth: name, ..a }
    } else {
        unserved(a, place)
    }
}

// A format at a place. Where the words before it asked for another one, it is not served. Of format 1, which is meant where none is
// asked for, nothing is kept.
fn formatted(a: Asked, place: usize, n: u8) -> Asked
    ensures { result ≡ Words·formatted a place n }
{
    match a.format {
        Some(other) if other != n => unserved(a, place),
        _ => Asked {
            format: (n != 1).then_some(n),
            ..a
        },
    }
}

/// What is asked for with one word more, at a place, by what a program takes.
pub fn heard(a: Asked, place: usize, w: Word, t: Takes) -> Asked
    ensures { result ≡ Words·heard a place w t }
{
    match w {
        Word::Format(n) => formatted(a, place, n),
        Word::Help => Asked { help: true, ..a },
        Word::Setting => awaited(a, place, t.setting),
        Word::Number => Asked {
            setting: Place::At(place),
            ..a
        },
        Word::Name => named(a, place, t.names),
        Word::Unknown => unserved(a, place),
    }
}

/// What is asked for by all words. A last one -s, which has no number, is not served.
pub fn closed(a: Asked) -> Asked
    ensures { result ≡ Words·closed a }
{
    match a.setting {
        Place::Awaited(place) => unserved(a, place),
        Place::Unasked | Place::At(_) => a,
    }
}
