// listing [-2|-3] [-s K] [FILE]: the lines of a recording. USAGE says what its words are and what it writes.
//
// It keeps one line buffer and one piece of the recording, however long that is. What the lines and the sectors are is proved
// of `reader` and `sectors`; of its own functions it is proved that they are safe and end.
#![tactic(auto)]

use text::Stop;

const USAGE: &str = "usage: listing [-2|-3] [-s K] [FILE]
Lists the lines of a recording: of FILE, or of standard input where FILE is - or left out.
  -2     the recording is HiRID, format 2; else it is S-VISSR 2.0, format 1
  -3     it is S-VISSR 2.0 from a card whose check starts from ones, format 3
  -s K   up to K of the 64 bits of a line's tail may be wrong, K 0 to 6; 0 where it is left out
It writes for each line
  line N good G filler F
N counts from 1, G is how many of its twelve sectors are accepted, F how many filler bits of all twelve are set;
and at the end, where all of the recording was read
  total N
";

// The filler bits set in all twelve sectors.
fn fillers(format: u8, line: &[u8]) -> usize {
    (1..=12).fold(0, |sum: usize, sector| {
        sum.wrapping_add(sectors::check::filler(format, line, sector).unwrap_or(0))
    })
}

fn list(rt: &HostRuntime) -> Result<(), Stop> {
    let mut line = [0; 44356];
    let mut piece = [0; player::PIECE];
    let mut player = player::opened(rt, USAGE, &mut piece)?;
    for number in 1..u64::MAX {
        if !player.next(rt, &mut piece, &mut line)? {
            player.ended(rt);
            text::row(rt, format_args!("total {}", number - 1))?;
            break;
        }
        let good = looks::goods(player.format, &line);
        let filler = fillers(player.format, &line);
        text::row(
            rt,
            format_args!("line {number} good {good} filler {filler}"),
        )?;
    }
    Ok(())
}

fn main(rt: HostRuntime) {
    text::end(&rt, list(&rt));
}
