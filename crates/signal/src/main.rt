// signal [-2|-3] [N [FORMAT [W [T]]]]: a training recording on standard output, for a class that plays when the card is away.
// USAGE says what its words are; `pattern` says what stands in a line, `wrong` which bits of its tail come wrong.
//
// The program only makes bytes and hands them on: what a sector and a line on the wire are is proved of `sector_writer` and
// `writer`. Of its own functions it is proved that they are safe and end.
#![tactic(auto)]

ghost use Rattle.std.specs.Prelude.{◌≤◌, ◌<◌, IfOk};

use refusals::Refusal;
use std::io::Print;
use text::Stop;
use words::{Asked, MOST, Takes};

mod pattern;
mod wrong;

const USAGE: &str = "usage: signal [-2|-3] [N [FORMAT [W [T]]]]
Writes a training recording of N lines, 0 to 1000000, to standard output; 10 where N is left out.
  FORMAT   1 is S-VISSR 2.0, as where it is left out, 2 is HiRID, 3 is 1 with a check that starts from ones
  W        so many bits, 0 to 64, are wrong in each line's tail; 0 where it is left out
  T        new tables come with line T, 1 to 1000000; with 0, as where it is left out, none come
  -2, -3   the same as FORMAT 2, FORMAT 3
Standard error says `total N` where all of it was written.
";

// Line k of the pattern on the wire, with w wrong bits and new tables from line t on; how many bytes it has.
fn made(format: u8, k: u64, w: u64, t: u64, wire: &mut [u8; 49500]) -> Result<usize, Refusal>
    requires { (k < 1000000) × (w ≤ 64) }
{
    let mut line = [0; 44356];
    pattern::fill(format, k, t, &mut line)?;
    let bytes = writer::write_line(format, &line, wire)?;
    wrong::put(format, k, w, wire);
    Ok(bytes)
}

// The number that the word at a place says, up to the largest that is meant, or what is meant where there is none.
fn number_at(
    rt: &HostRuntime,
    place: Option<usize>,
    meant: u64,
    most: u64,
    what: &str,
) -> Result<u64, Stop>
    requires { meant ≤ most }
    ensures { IfOk result (λ n. n ≤ most) }
{
    match place {
        Some(place) => command::number_up_to(rt, place, most, what, USAGE),
        None => Ok(meant),
    }
}

// The format that the words ask for; refused where they do not agree.
fn format_of(rt: &HostRuntime, asked: &Asked) -> Result<u8, Stop> {
    let Some(place) = asked.second else {
        return Ok(asked.format.unwrap_or(1));
    };
    let what = "not the format, 1 to 3: ";
    let format = command::number_up_to(rt, place, 3, what, USAGE)? as u8;
    if format == 0 || asked.format.is_some_and(|other| other != format) {
        return Err(command::refuse_word(rt, what, place, USAGE));
    }
    Ok(format)
}

// As many lines as the words ask for, up to the first that cannot be written. The recording has no room for a last line of text: it
// is told.
fn play(rt: &HostRuntime) -> Result<(), Stop> {
    let takes = Takes {
        names: 4,
        setting: false,
    };
    let asked = command::asked_for(rt, takes);
    command::goes_on(rt, &asked, USAGE)?;
    let lines = number_at(
        rt,
        asked.first,
        10,
        MOST,
        "not a number of lines, 0 to 1000000: ",
    )?;
    let format = format_of(rt, &asked)?;
    let what = "not a number of wrong bits, 0 to 64: ";
    let wrong = number_at(rt, asked.third, 0, wrong::MOST, what)?;
    let what = "not the line of new tables, 0 to 1000000: ";
    let tables = number_at(rt, asked.fourth, 0, MOST, what)?;
    let mut wire = [0; 49500];
    for k in 0..lines {
        let bytes = made(format, k, wrong, tables, &mut wire).map_err(|refusal| text::told(
            rt,
            format_args!("a line is {refusal}"),
        ))?;
        rt.write_all(&wire[..bytes.min(wire.len())])?;
    }
    let _ = eprintln!(rt; "total {lines}");
    Ok(())
}

fn main(rt: HostRuntime) {
    text::end(&rt, play(&rt));
}
