// The words of a command line, for all programs in one place: the record of what they ask for, and how it is changed. They come
// in any order. What a word is stands in `spelling`, what is asked for with one word more in `hearing`; `command` takes the words
// from the operating system.
//
// The contracts cite `specs/Words.antt`, which has the definitions of all three. No function has a `requires`.
#![tactic(auto)]

ghost use Rattle.std.specs.Prelude.{◌≡◌, ◌≤◌, IfSome};
ghost use Rattle.words.specs.Words.{nothing_asked, awaiting, awaits_number, unserved as Words·unserved};

/// A word of a command line.
#[derive(Clone, Copy, Debug, PartialEq, Eq)]
pub enum Word {
    /// -2 or -3, which ask for a format.
    Format(u8),
    /// --help.
    Help,
    /// -s.
    Setting,
    /// The number behind -s.
    Number,
    /// The name of a file, or a number.
    Name,
    /// Another that opens with a minus sign.
    Unknown,
}

/// Which words a program takes beside -2, -3 and --help: at most so many names, and whether -s.
#[derive(Clone, Copy, Debug, PartialEq, Eq)]
pub struct Takes {
    pub names: usize,
    pub setting: bool,
}

/// Where the setting stands.
#[derive(Clone, Copy, Debug, PartialEq, Eq)]
pub enum Place {
    /// None is asked for.
    Unasked,
    /// At this place -s awaits its number.
    Awaited(usize),
    /// At this place the number stands.
    At(usize),
}

/// What the words ask for: the format, none for format 1, which is meant where none is asked for; whether it is help; the setting; the
/// places of the first four names, and that of the first word that is not served. Places count from 1: the program's own name stands
/// at 0.
#[derive(Clone, Copy, Debug, PartialEq, Eq)]
pub struct Asked {
    pub format: Option<u8>,
    pub help: bool,
    pub setting: Place,
    pub first: Option<usize>,
    pub second: Option<usize>,
    pub third: Option<usize>,
    pub fourth: Option<usize>,
    pub wrong: Option<usize>,
}

impl Asked {
    /// Whether the next word is the number of a -s, whatever it says.
    pub fn awaits_number(&self) -> bool
        ensures { result ≡ awaits_number self.now.setting }
    {
        matches!(self.setting, Place::Awaited(_))
    }
}

/// Before the first word.
pub fn nothing() -> Asked
    ensures { result ≡ nothing_asked }
{
    Asked {
        format: None,
        help: false,
        setting: Place::Unasked,
        first: None,
        second: None,
        third: None,
        fourth: None,
        wrong: None,
    }
}

/// The word at a place is not served. The first such word is kept.
pub fn unserved(a: Asked, place: usize) -> Asked
    ensures { result ≡ Words·unserved a place }
{
    Asked {
        wrong: a.wrong.or(Some(place)),
        ..a
    }
}

/// Inner. -s at a place, which awaits its number. It is served once, by a program that takes it.
pub fn awaited(a: Asked, place: usize, taken: bool) -> Asked
    ensures { result ≡ awaiting a place taken }
{
    match a.setting {
        Place::Unasked if taken => Asked {
            setting: Place::Awaited(place),
            ..a
        },
        _ => unserved(a, place),
    }
}

/// The largest number that a word can be.
pub const MOST: u64 = 1000000;

/// The number that decimal digits write, up to MOST; none where it is larger or something else stands there.
pub fn number(text: &[u8]) -> Option<u64>
    ensures { IfSome result (λ n. n ≤ 1000000) }
{
    if text.is_empty() {
        return None;
    }
    let mut value = 0;
    for byte in text {
        if !byte.is_ascii_digit() {
            return None;
        }
        value = value * 10 + u64::from(*byte - b'0');
        if MOST < value {
            return None;
        }
    }
    Some(value)
}
