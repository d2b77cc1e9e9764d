// A recording played to the reader: opened by the words of the command line, read in pieces, and handed on line by line. The
// programs that say something of each line stand on it.
//
// What it reads is the operating system's, and no contract can speak of it: of these functions it is proved that they are
// safe and end, that the places in the piece are right, and that `named` plays with a setting of 0 to 6. What a line is is proved of
// `reader`.
//
// A piece is a buffer of a fixed size, which the program lends: the programs take no memory.
#![tactic(auto)]

ghost use Rattle.std.specs.Prelude.{◌≡◌, ◌≤◌, true, IfOk};
ghost use Rattle.words.specs.Words.{is_unasked, awaits_number};
ghost use Rattle.player.specs.Playing.{started};

use reader_line::Reading;
use reader_record::State;
use std::io;
use std::io::Read;
use text::Stop;
use words::{Asked, Takes};

mod rest;
mod source;

pub use rest::{PIECE, Rest};
pub use source::Source;

/// Where the playing stands: the source, none behind the recording's end; the format, the setting, the reader's record, and the bytes
/// of the piece that are still to read, none where it is used up.
#[derive(Drop)]
pub struct Player {
    pub source: Option<Source>,
    pub format: u8,
    pub setting: u8,
    pub state: State,
    pub rest: Option<Rest>,
}

/// A recording from its first byte.
pub fn start(source: Source, format: u8, setting: u8) -> Player
    ensures { result ≡ started source format setting }
{
    Player {
        source: Some(source),
        format,
        setting,
        state: reader_record::fresh(),
        rest: None,
    }
}

impl Player {
    // The next piece, in one call of the system's. Nothing is the recording's end.
    fn refill(&mut self, piece: &mut [u8; PIECE]) -> io::Result<()>
        ensures { self.new.setting ≡ self.old.setting }
    {
        let got = match &mut self.source {
            Some(source) => source.read(piece)?,
            None => 0,
        };
        if got == 0 {
            self.source = None;
        }
        self.rest = Rest::first(got);
        Ok(())
    }

    /// On to the next line that is complete, in the buffer that is lent; false where the recording is at its end. One that breaks off
    /// is told, and so is a refusal of the reader, of which there is none with a full-size line buffer.
    pub fn next(
        &mut self,
        rt: &HostRuntime,
        piece: &mut [u8; PIECE],
        line: &mut [u8],
    ) -> Result<bool, Stop> {
        for _ in 0..u64::MAX {
            if self.rest.is_none() {
                self.refill(piece)
                    .map_err(|error| text::fail(rt, b"the recording broke off", &error))?;
            }
            let Some(rest) = self.rest else {
                break;
            };
            let read = reader::read(
                self.format,
                self.setting,
                self.state,
                rest.bytes(piece),
                line,
            );
            match read {
                Ok(Reading::More { taken, state }) => {
                    self.state = state;
                    self.rest = rest.without(taken);
                }
                Ok(Reading::Line { taken, state }) => {
                    self.state = state;
                    self.rest = rest.without(taken);
                    return Ok(true);
                }
                Err(refusal) => return Err(text::told(rt, format_args!("the reader {refusal}"))),
            }
        }
        Ok(false)
    }

    /// A recording that stops inside a line is told.
    pub fn ended(&self, rt: &HostRuntime) {
        if self.state.in_line {
            let bits = self.state.position;
            let _ = eprintln!(rt; "an unfinished line, {bits} of 354848 bits");
        }
    }
}

// The recording of a name, with its first piece: a folder opens as a file does, and cannot be read.
fn begun(
    rt: &HostRuntime,
    name: &[u8],
    format: u8,
    setting: u8,
    piece: &mut [u8; PIECE],
) -> io::Result<Player>
    ensures { IfOk result (λ p. p.setting ≡ setting) }
{
    let mut player = start(Source::open(rt, name)?, format, setting);
    player.refill(piece)?;
    Ok(player)
}

/// The recording that the words ask for, [-2] [-s K] [FILE] in any order, with its first piece. What is wrong with it is told, with
/// the usage text where it is the words.
pub fn opened(rt: &HostRuntime, usage: &str, piece: &mut [u8; PIECE]) -> Result<Player, Stop> {
    let takes = Takes {
        names: 1,
        setting: true,
    };
    let asked = command::asked_for(rt, takes);
    command::goes_on(rt, &asked, usage)?;
    named(rt, &asked, asked.first, usage, piece)
}

// The name that the word at a place is, a minus sign where there is none.
fn name_at<'a>(
    rt: &HostRuntime,
    place: Option<usize>,
    room: &'a mut [u8; command::WORD],
) -> &'a [u8] {
    match place {
        Some(place) => command::word_at(rt, place, room),
        None => b"-",
    }
}

/// The recording that the word at a place names, of words that are served; standard input where there is none. A -s that still awaits
/// its number asks for no setting.
pub fn named(
    rt: &HostRuntime,
    asked: &Asked,
    place: Option<usize>,
    usage: &str,
    piece: &mut [u8; PIECE],
) -> Result<Player, Stop>
    ensures unasked { is_unasked asked.now.setting ≡ true → IfOk result (λ p. p.setting ≡ 0) }
    ensures awaited { awaits_number asked.now.setting ≡ true → IfOk result (λ p. p.setting ≡ 0) }
    ensures bound { IfOk result (λ p. p.setting ≤ 6) }
{
    let setting = command::setting_or_refused(rt, asked.setting, usage)?;
    let format = asked.format.unwrap_or(1);
    let mut room = [0; command::WORD];
    let name = name_at(rt, place, &mut room);
    begun(rt, name, format, setting, piece).map_err(|error| text::fail(
        rt,
        source::called(name),
        &error,
    ))
}

#[test]
fn a_recording_is_played_before_its_setting_is_said(rt: HostRuntime) {
    let asked = Asked {
        setting: words::Place::Awaited(1),
        ..words::nothing()
    };
    let mut piece = [0; PIECE];
    // the word at place 0 is the name of the program that runs, whose bytes are a recording like any other
    let player = named(&rt, &asked, Some(0), "usage\n", &mut piece);
    assert!(rt; player.is_ok_and(|p| p.setting == 0));
}
