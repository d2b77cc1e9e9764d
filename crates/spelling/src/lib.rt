// What a word of a command line is, by its bytes: which word, and which setting.
//
// The contracts cite `words/specs/Words.antt`. No function has a `requires`.
#![tactic(auto)]

ghost use Rattle.std.specs.Prelude.{◌≡◌};
ghost use Rattle.words.specs.Words.{is_option, known, word_of, setting_of};

use words::Word;

// Whether a text opens with a minus sign and goes on. A minus sign alone is the name of standard input.
fn is_option(text: &[u8]) -> bool
    ensures { result ≡ is_option text.now }
{
    matches!(text, [b'-', _, ..])
}

// Which of the words that there are a text is.
#[tactic(auto, using(crate::proofs::Laws::same_reads))]
fn known(text: &[u8]) -> Option<Word>
    ensures { result ≡ known text.now }
{
    match text {
        b"-2" => Some(Word::Format(2)),
        b"-3" => Some(Word::Format(3)),
        b"--help" => Some(Word::Help),
        b"-s" => Some(Word::Setting),
        _ => None,
    }
}

/// What a text is. Where -s awaits its number it is that, whatever it says.
pub fn word_of(awaited: bool, text: &[u8]) -> Word
    ensures { result ≡ word_of awaited text.now }
{
    if awaited {
        return Word::Number;
    }
    match known(text) {
        Some(word) => word,
        None if is_option(text) => Word::Unknown,
        None => Word::Name,
    }
}

/// The setting that a text is, one digit 0 to 6.
pub fn setting_of(text: &[u8]) -> Option<u8>
    ensures { result ≡ setting_of text.now }
{
    match text {
        [digit @ b'0'..=b'6'] => Some(digit - b'0'),
        _ => None,
    }
}
