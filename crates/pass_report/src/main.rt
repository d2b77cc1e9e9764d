// report [-2|-3] [-s K] [FILE]: the pass report of a recording. USAGE says what its words are and what it writes.
//
// It keeps one line buffer, one piece of the recording and one report, however long the recording is. What the lines are and
// what their report is is proved of `reader` and `report`; of its own functions it is proved that they are safe and end.
#![tactic(auto)]

use report_record::{Range, Report};
use std::fmt;
use text::Stop;

const USAGE: &str = "usage: report [-2|-3] [-s K] [FILE]
Reports on a pass: on the recording FILE, or on standard input where FILE is - or left out.
  -2     the recording is HiRID, format 2; else it is S-VISSR 2.0, format 1
  -3     it is S-VISSR 2.0 from a card whose check starts from ones, format 3
  -s K   up to K of the 64 bits of a line's tail may be wrong, K 0 to 6; 0 where it is left out
It writes at the end, where all of the recording was read
  lines N
  sector S accepted A remainder R id I filler F
  IR1 pixels P sum T least L largest G
N lines were found. Sector S, 1 to 12, was accepted in A of them, refused with 5 in R and with 6 in I; F of its filler bits
are set. P pixels of ten bits are those of the lines in which both sectors of IR1, IR2 or IR3, or that of IR4, are accepted;
none stands for L and G where there are none. A report takes 100000 lines: line 100001 is refused with 15, and nothing is
written.
";

// The whole report: a row for all lines, one for each sector, and one for each channel.
fn write_report(rt: &HostRuntime, report: &Report) -> Result<(), Stop> {
    text::row(rt, format_args!("lines {}", report.lines))?;
    for (sector, tally) in (1..).zip(report.sectors.iter()) {
        text::row(
            rt,
            format_args!(
                "sector {sector} accepted {} remainder {} id {} filler {}",
                tally.accepted, tally.remainder, tally.id, tally.filler,
            ),
        )?;
    }
    for (channel, pixels) in (1..).zip(report.channels.iter()) {
        text::row(
            rt,
            format_args!(
                "IR{channel} pixels {} sum {} {}",
                pixels.count,
                pixels.sum,
                Limits(pixels.range),
            ),
        )?;
    }
    Ok(())
}

// The least and the largest pixel of a channel.
#[derive(Clone, Copy)]
struct Limits(Option<Range>);

impl fmt::Display for Limits {
    fn fmt<W: fmt::Write>(&self, f: &mut fmt::Formatter<W>) -> fmt::Result {
        match self.0 {
            Some(Range { least, largest }) => write!(f, "least {least} largest {largest}"),
            None => write!(f, "least none largest none"),
        }
    }
}

fn report(rt: &HostRuntime) -> Result<(), Stop> {
    let mut line = [0; 44356];
    let mut piece = [0; player::PIECE];
    let mut player = player::opened(rt, USAGE, &mut piece)?;
    let mut report = report::empty();
    for number in 1..u64::MAX {
        if !player.next(rt, &mut piece, &mut line)? {
            player.ended(rt);
            write_report(rt, &report)?;
            break;
        }
        let reported = report::with_line(player.format, report, &line);
        reported.answer.map_err(|refusal| {
            text::told(
                rt,
                format_args!("line {number} is one more than a report takes: {refusal}"),
            )
        })?;
        report = reported.report;
    }
    Ok(())
}

fn main(rt: HostRuntime) {
    text::end(&rt, report(&rt));
}
