// fields [-2|-3] [-s K] [FILE]: what the documentation sectors of a recording say. USAGE says what its words are and what it
// writes.
//
// What the numbers are is proved of `document`, `document_stamps`, `segments`, `entries` and `calibration`; of its own
// functions it is proved that they are safe and end.
#![tactic(auto)]

use five::Five;
use line::Fields;
use text::Stop;

mod blocks_at_end;
mod five;
mod line;
mod said;

const USAGE: &str = "usage: fields [-2|-3] [-s K] [FILE]
Says what the documentation sectors of a recording hold: of FILE, or of standard input where FILE is - or left out.
  -2     the recording is HiRID, format 2; else it is S-VISSR 2.0, format 1
  -3     it is S-VISSR 2.0 from a card whose check starts from ones, format 3
  -s K   up to K of the 64 bits of a line's tail may be wrong, K 0 to 6; 0 where it is left out
It writes for each line, counted from 1
  line N mode M mirror R set A reset B count C position P date D segment S repeat T blocks a b c d e
mode full, limited or single; mirror 1-A, 1-B, 2-A or 2-B; set line, reset line, scan count and line position; date and
time; which segment of the five blocks the line carries and which repeat; and for each block 0 where the segment was added,
else the number of its refusal. What cannot be read is `refused K`, K as in docs/REFUSALS.md. At the end it writes how many
of its 25 segments each block has; of MANAM and calibration also `revision R`, the revision of a finished block's tables, and
`foreign M`, how many lines were of another one; some entries of the finished blocks; and, where all of the recording was read
  total N
";

// The bytes of a line, and those of the five blocks in all.
const LINE: usize = 44356;

const ROOM: usize = 47950;

fn say(rt: &HostRuntime) -> Result<(), Stop> {
    let mut plain = [0; LINE];
    let mut piece = [0; player::PIECE];
    let mut room = [0; ROOM];
    let mut five = Five::fresh();
    let mut player = player::opened(rt, USAGE, &mut piece)?;
    for number in 1..u64::MAX {
        if !player.next(rt, &mut piece, &mut plain)? {
            player.ended(rt);
            blocks_at_end::show(rt, player.format, &five, &room)?;
            text::row(rt, format_args!("total {}", number - 1))?;
            break;
        }
        five.add(player.format, &plain, &mut room);
        let fields = Fields::of(player.format, &plain);
        text::row(rt, format_args!("line {number} {fields} {five}"))?;
    }
    Ok(())
}

fn main(rt: HostRuntime) {
    text::end(&rt, say(&rt));
}
