// The calls of `rack_desk` for C.
ghost use Rattle.std.specs.Prelude.{◌≡◌};
ghost use Rattle.rack_desk.specs.LineDesk.{fresh_of, take_of, publish_of, release_of, seen_of};

use rack_desk::{DeskAnswer, LineDesk, SeenAnswer, TakenAnswer};

#[unsafe(no_mangle)]
pub extern "C" fn hansobrik_fresh_desk(count: u32) -> DeskAnswer
    ensures { result ≡ fresh_of count }
{
    rack_desk::hansobrik_fresh_desk(count)
}

#[unsafe(no_mangle)]
pub extern "C" fn hansobrik_take(desk: LineDesk, area: usize) -> TakenAnswer
    ensures { result ≡ take_of desk area }
{
    rack_desk::hansobrik_take(desk, area)
}

#[unsafe(no_mangle)]
pub extern "C" fn hansobrik_publish(
    desk: LineDesk,
    area: usize,
    slot: usize,
    serial: u32,
) -> DeskAnswer
    ensures { result ≡ publish_of desk area slot serial }
{
    rack_desk::hansobrik_publish(desk, area, slot, serial)
}

#[unsafe(no_mangle)]
pub extern "C" fn hansobrik_release(
    desk: LineDesk,
    area: usize,
    consumer: u8,
    slot: usize,
    serial: u32,
) -> DeskAnswer
    ensures { result ≡ release_of desk area consumer slot serial }
{
    rack_desk::hansobrik_release(desk, area, consumer, slot, serial)
}

#[unsafe(no_mangle)]
pub extern "C" fn hansobrik_seen(
    desk: LineDesk,
    area: usize,
    consumer: u8,
    slot: usize,
    serial: u32,
) -> SeenAnswer
    ensures { result ≡ seen_of desk area consumer slot serial }
{
    rack_desk::hansobrik_seen(desk, area, consumer, slot, serial)
}
