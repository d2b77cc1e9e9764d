// The command line: its words heard as `words` says, and where they are not served or help is asked for the program's usage text.
//
// What stands on the command line is the operating system's: of these functions it is proved that they are safe and end, that numbers
// and settings are up to their largest, and that no program goes on past a word that is not served or a call for help.
#![tactic(auto)]

ghost use Rattle.std.specs.Prelude.{◌≡◌, ◌≤◌, length, None, Some, Ok, true, false, IsSome, IfSome, IfOk};
ghost use Rattle.words.specs.Words.{is_unasked, awaits_number};

use std::env::{Env, FillError};
use std::io::Print;
use text::Stop;
use words::{Asked, Place, Takes};

/// The bytes that a word has room for: they hold any path.
pub const WORD: usize = 4096;

/// Inner. The word at a place; nothing where there is none, and where it is too long for a word of any kind.
pub fn word_at<'a>(rt: &impl Env, place: usize, room: &'a mut [u8; WORD]) -> &'a [u8]
    ensures in_bounds { length result.now ≤ 4096 }
{
    match rt.arg(place, room) {
        Ok(n) => &room[..n],
        Err(_) => &[],
    }
}

// What is asked for with the word at a place, none behind the last one. One that is too long for a word of any kind is not served.
fn listened(rt: &impl Env, a: Asked, place: usize, t: Takes) -> Option<Asked> {
    let mut room = [0; WORD];
    match rt.arg(place, &mut room) {
        Ok(n) => {
            let word = spelling::word_of(a.awaits_number(), &room[..n]);
            Some(hearing::heard(a, place, word, t))
        }
        Err(FillError::TooLong) => Some(words::unserved(a, place)),
        Err(FillError::NotPresent) => None,
    }
}

/// What all words of the command line ask for, by what a program takes.
pub fn asked_for(rt: &impl Env, t: Takes) -> Asked {
    let mut asked = words::nothing();
    for place in 1..usize::MAX {
        let Some(more) = listened(rt, asked, place, t) else {
            break;
        };
        asked = more;
    }
    hearing::closed(asked)
}

// What is wrong with the words, and the usage text, on standard error.
fn refuse(rt: &HostRuntime, what: &str, word: &[u8], usage: &str) -> Stop {
    let err = rt.stderr();
    let _ = err.write_all(what.as_bytes());
    let _ = err.write_all(word);
    let _ = err.write_all(b"\n");
    let _ = err.write_all(usage.as_bytes());
    Stop::Told
}

/// A word is missing: the usage text says which there are.
pub fn refuse_missing(rt: &HostRuntime, what: &str, usage: &str) -> Stop {
    refuse(rt, what, b"", usage)
}

/// The word at a place is refused, with the usage text.
pub fn refuse_word(rt: &HostRuntime, what: &str, place: usize, usage: &str) -> Stop {
    let mut room = [0; WORD];
    refuse(rt, what, word_at(rt, place, &mut room), usage)
}

/// Whether the program is to go on with what its words ask for. A word that is not served is refused with the usage text on standard
/// error; where help is asked for, the usage text is all that is written.
pub fn goes_on(rt: &HostRuntime, asked: &Asked, usage: &str) -> Result<(), Stop>
    ensures { IfOk result (λ _. (asked.now.wrong ≡ None) × (asked.now.help ≡ false)) }
{
    if let Some(place) = asked.wrong {
        return Err(refuse_word(rt, "not a word of this program: ", place, usage));
    }
    if asked.help {
        let _ = rt.write_all(usage.as_bytes());
        return Err(Stop::Told);
    }
    Ok(())
}

/// The number that the word at a place says, or what is meant where there is no word; none where the word is no number up to
/// `words::MOST`.
pub fn number_at(rt: &impl Env, place: Option<usize>, otherwise: u64) -> Option<u64>
    ensures meant { place ≡ None → result ≡ Some otherwise }
    ensures bound { IsSome place → IfSome result (λ n. n ≤ 1000000) }
{
    match place {
        Some(place) => {
            let mut room = [0; WORD];
            words::number(word_at(rt, place, &mut room))
        }
        None => Some(otherwise),
    }
}

/// The number that the word at a place says, up to the largest that is meant. Another word is refused with the usage text.
pub fn number_up_to(
    rt: &HostRuntime,
    place: usize,
    most: u64,
    what: &str,
    usage: &str,
) -> Result<u64, Stop>
    ensures { IfOk result (λ n. n ≤ most) }
{
    match number_at(rt, Some(place), 0) {
        Some(n) if n <= most => Ok(n),
        _ => Err(refuse_word(rt, what, place, usage)),
    }
}

// Where the word stands that is to be the setting: that of a -s which still awaits it is -s.
fn place_of(setting: Place) -> Option<usize> {
    match setting {
        Place::Unasked => None,
        Place::Awaited(place) | Place::At(place) => Some(place),
    }
}

/// The setting that is asked for, 0 where none is; none where the word is no setting.
pub fn setting_at(rt: &impl Env, setting: Place) -> Option<u8>
    ensures { IfSome result (λ k. k ≤ 6) }
{
    match place_of(setting) {
        Some(place) => {
            let mut room = [0; WORD];
            spelling::setting_of(word_at(rt, place, &mut room))
        }
        None => Some(0),
    }
}

/// The setting that is asked for, 0 where none is. A -s that still awaits its number asks for none; behind the last word it is one that
/// is not served, and `goes_on` refuses it. A word that is no setting is refused with the usage text.
pub fn setting_or_refused(rt: &HostRuntime, setting: Place, usage: &str) -> Result<u8, Stop>
    ensures unasked { is_unasked setting ≡ true → result ≡ Ok 0 }
    ensures awaited { awaits_number setting ≡ true → result ≡ Ok 0 }
    ensures bound { IfOk result (λ k. k ≤ 6) }
{
    match setting {
        Place::Unasked => Ok(0),
        Place::Awaited(_) => Ok(0),
        Place::At(place) => setting_at(rt, setting).ok_or_else(|| refuse_word(
            rt,
            "not a setting, 0 to 6: ",
            place,
            usage,
        )),
    }
}

#[test]
fn a_setting_is_refused_only_where_a_word_is_to_say_it(rt: HostRuntime) {
    for setting in [Place::Unasked, Place::Awaited(1)] {
        let answer = setting_or_refused(&rt, setting, "usage\n");
        assert!(rt; answer.is_ok_and(|k| k == 0));
    }
    // so many words a test is not given: what stands there is no setting
    assert!(rt; setting_or_refused(&rt, Place::At(1000), "usage\n").is_err());
}
