// Where the twelve sectors lie in a line.
ghost use Rattle.std.specs.Prelude.{◌≡◌, ◌≤◌};
ghost use Rattle.sector_table.specs.Layout.{layout_of, bytes_of, Sound};

// A sector of a line: where it starts and how many bits it has in all, its ID and the bits of it, the bits of its
// data, and how many pixels of which width these are. The data of DOC are 2,291 bytes, and no pixels.
#[derive(Clone, Copy, Debug, PartialEq, Eq)]
pub struct Layout {
    pub start: usize,
    pub bits: usize,
    pub id_bits: usize,
    pub id: u16,
    pub data_bits: usize,
    pub count: usize,
    pub width: usize,
}

// Behind the data of every sector.
pub const CHECK_BITS: usize = 16;

pub const FILLER_BITS: usize = 2048;

// Inner. The ID of a sector.
fn id_of(sector: u8) -> u16
    requires { (1 ≤ sector) × (sector ≤ 12) }
    ensures { result ≡ (layout_of sector).id }
{
    match sector {
        1 => 0x0000,
        2 => 0x1111,
        3 => 0x2222,
        4 => 0x4444,
        5 => 0x6DB,
        6 => 0xB6D,
        7 => 0xDB6,
        8 => 0xFFF,
        9 => 0x8888,
        10 => 0x9999,
        11 => 0xAAAA,
        _ => 0xBBBB,
    }
}

// Inner. The layout of a sector: DOC, IR1-3 upper, VIS1-4, IR1-3 lower, IR4.
pub fn layout_of(sector: u8) -> Layout
    requires { (1 ≤ sector) × (sector ≤ 12) }
    ensures { result ≡ layout_of sector }
{
    let id = id_of(sector);
    let n = sector as usize;
    match n {
        1 => Layout {
            start: 0,
            bits: 20408,
            id_bits: 16,
            id: id,
            data_bits: 18328,
            count: 2291,
            width: 8,
        },
        2..=4 => Layout {
            start: 20408 + (n - 2) * 20408,
            bits: 20408,
            id_bits: 16,
            id: id,
            data_bits: 18328,
            count: 2291,
            width: 8,
        },
        5..=8 => Layout {
            start: 81632 + (n - 5) * 57060,
            bits: 57060,
            id_bits: 12,
            id: id,
            data_bits: 54984,
            count: 9164,
            width: 6,
        },
        9..=11 => Layout {
            start: 309872 + (n - 9) * 6662,
            bits: 6662,
            id_bits: 16,
            id: id,
            data_bits: 4582,
            count: 2291,
            width: 2,
        },
        _ => Layout {
            start: 329858,
            bits: 24990,
            id_bits: 16,
            id: id,
            data_bits: 22910,
            count: 2291,
            width: 10,
        },
    }
}

// Inner. How many bytes the data of a sector are: the last one has two spare low bits in sectors 9 to 12.
pub fn data_bytes(l: Layout) -> usize
    requires { Sound l }
    ensures { result ≡ bytes_of l }
{
    (l.data_bits + 7) / 8
}
