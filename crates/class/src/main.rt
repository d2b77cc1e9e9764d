// class [-2|-3] [-s K] SLOTS PREVIEW CAPTURE [FILE]: a class over a recording. A feeder, a preview and a capture share an area of
// slots through the line desk, by a timetable. USAGE says what its words are and what it writes; the crate `looks` has what a
// consumer sees of a line.
//
// It keeps one area, one piece of the recording and one desk, however long the recording is. What a holder reads is proved of
// `reader`, `desk` and `feeding`; of its own functions it is proved that they are safe and end.
#![tactic(auto)]

use consumer::Consumer;
use desk_record::Desk;
use event::Event;
use player::Player;
use refusals::Refusal;
use text::Stop;
use words::Takes;

mod consumer;
mod event;

const USAGE: &str = "usage: class [-2|-3] [-s K] SLOTS PREVIEW CAPTURE [FILE]
Plays a class over the recording FILE, or standard input where FILE is - or left out: a feeder, a preview and a capture share
SLOTS slots, 2 to 8, of one line each. Preview and capture release a line PREVIEW and CAPTURE line times after it is published.
  -2     the recording is HiRID, format 2; else it is S-VISSR 2.0, format 1
  -3     it is S-VISSR 2.0 from a card whose check starts from ones, format 3
  -s K   up to K of the 64 bits of a line's tail may be wrong, K 0 to 6; 0 where it is left out
It writes each event of line time T, from 1, and of slot S under serial N
  time T feeder takes slot S serial N
  time T feeder publishes slot S serial N
  time T preview sees slot S serial N good G sum X
  time T preview releases slot S serial N
G of its twelve sectors are accepted, X is the sum of its IR1 pixels. Where no slot is free the feeder waits for a line time
  time T feeder takes refused 16
In the end each consumer releases its last line once more, the fault that once mixed lines
  time T preview releases slot S serial N refused 17
and, where all of the recording was read, it writes how often the feeder waited, and the lines published
  waits W
  total N
";

// The bytes of the area, eight slots, and of one.
const AREA: usize = 354848;

const LINE: usize = 44356;

// How a class stands after a line time: the playing of the recording, how that ended, none while it goes on, and the desk; the
// consumers; when the line in each slot was published; how often the feeder waited, how many lines are published, and the line time.
#[derive(Drop)]
struct Class {
    player: Player,
    fed: Option<Result<(), Stop>>,
    desk: Desk,
    preview: Consumer,
    capture: Consumer,
    published: [u64; 8],
    waits: u64,
    lines: u32,
    time: u64,
}

impl Class {
    // Whether there is more to do: a line to feed, or to see.
    fn goes_on(&self) -> bool {
        self.fed.is_none() || self.preview.next <= self.lines || self.capture.next <= self.lines
    }

    // One line time: the feeder's turn, and then those of the consumers. A row that could not be written is told where it arose; the
    // line time goes on, and the class ends behind it.
    fn line_time(
        &mut self,
        rt: &HostRuntime,
        piece: &mut [u8; player::PIECE],
        area: &mut [u8; AREA],
    ) -> Result<(), Stop> {
        self.time = self.time.wrapping_add(1);
        let fed = if self.fed.is_none() {
            self.feed(rt, piece, area)
        } else {
            Ok(())
        };
        let now = self.time;
        let format = self.player.format;
        let preview = self
            .preview
            .turn(rt, &mut self.desk, &self.published, now, format, area);
        let capture = self
            .capture
            .turn(rt, &mut self.desk, &self.published, now, format, area);
        fed.and(preview).and(capture)
    }

    // The feeder's turn: it takes a slot, fills it and publishes the line. Where no slot is free it waits; where a take is refused for
    // another reason, as with the last serial number, the class ends without its last rows.
    fn feed(
        &mut self,
        rt: &HostRuntime,
        piece: &mut [u8; player::PIECE],
        area: &mut [u8; AREA],
    ) -> Result<(), Stop> {
        let time = self.time;
        let took = desk::take(self.desk, AREA);
        self.desk = took.desk;
        let taken = match took.answer {
            Ok(taken) => taken,
            Err(refusal) => {
                text::row(rt, format_args!("time {time} feeder takes {refusal}"))?;
                self.waits = self.waits.wrapping_add(1);
                return if refusal == Refusal::NoSlot {
                    Ok(())
                } else {
                    Err(Stop::Told)
                };
            }
        };
        let event = Event {
            time,
            who: "feeder",
            does: "takes",
            slot: taken.slot,
            serial: taken.serial,
        };
        text::row(rt, event)?;
        // the slot that was taken is one of the eight
        let Some(slot) = area.chunks_exact_mut(LINE).nth(taken.slot) else {
            return Ok(());
        };
        match self.player.next(rt, piece, slot) {
            Ok(true) => self.publish(rt, event),
            Ok(false) => {
                self.fed = Some(Ok(()));
                Ok(())
            }
            Err(stop) => {
                self.fed = Some(Err(stop));
                Ok(())
            }
        }
    }

    // The line in a slot that the feeder took is complete.
    fn publish(&mut self, rt: &HostRuntime, took: Event) -> Result<(), Stop> {
        let event = Event {
            does: "publishes",
            ..took
        };
        let changed = desk::publish(self.desk, AREA, took.slot, took.serial);
        self.desk = changed.desk;
        if let Some(time) = self.published.get_mut(took.slot) {
            *time = self.time;
        }
        self.lines = took.serial;
        event.answered(rt, changed.answer)
    }

    // The last rows: each consumer releases its last line once more, the old fault.
    fn close(&self, rt: &HostRuntime) -> Result<(), Stop> {
        self.player.ended(rt);
        self.preview.again(rt, self.desk, self.time)?;
        self.capture.again(rt, self.desk, self.time)?;
        text::row(rt, format_args!("waits {}", self.waits))?;
        text::row(rt, format_args!("total {}", self.lines))
    }
}

// The line times that the word at a place says.
fn lag(rt: &HostRuntime, place: usize) -> Result<u64, Stop> {
    command::number_up_to(
        rt,
        place,
        words::MOST,
        "not a number of line times: ",
        USAGE,
    )
}

// A desk of as many slots as the word at a place says.
fn desk_of(rt: &HostRuntime, place: usize) -> Result<Desk, Stop> {
    let slots = command::number_at(rt, Some(place), 0).unwrap_or(0);
    desk::fresh_or_refused(slots as usize).map_err(|refusal| {
        text::told(rt, format_args!("a desk has 2 to 8 slots: {refusal}"))
    })
}

fn play(rt: &HostRuntime) -> Result<(), Stop> {
    let takes = Takes {
        names: 4,
        setting: true,
    };
    let asked = command::asked_for(rt, takes);
    command::goes_on(rt, &asked, USAGE)?;
    let (Some(slots), Some(preview), Some(capture)) = (asked.first, asked.second, asked.third)
    else {
        return Err(command::refuse_missing(rt, "SLOTS, PREVIEW and CAPTURE are needed", USAGE));
    };
    let preview = Consumer::arrived("preview", desk::PREVIEW, lag(rt, preview)?);
    let capture = Consumer::arrived("capture", desk::CAPTURE, lag(rt, capture)?);
    let desk = desk_of(rt, slots)?;
    let mut area = [0; AREA];
    let mut piece = [0; player::PIECE];
    let player = player::named(rt, &asked, asked.fourth, USAGE, &mut piece)?;
    let mut class = Class {
        // for an empty recording no slot is taken
        fed: player.rest.is_none().then_some(Ok(())),
        player,
        desk,
        preview,
        capture,
        published: [0; 8],
        waits: 0,
        lines: 0,
        time: 0,
    };
    for _ in 0..u64::MAX {
        if !class.goes_on() {
            break;
        }
        class.line_time(rt, &mut piece, &mut area)?;
    }
    match class.fed {
        Some(Ok(())) => class.close(rt),
        Some(Err(stop)) => Err(stop),
        None => Ok(()),
    }
}

fn main(rt: HostRuntime) {
    text::end(&rt, play(&rt));
}
