// A point of the mapping grid: its bytes at a row and a column of a mapping block, and its degrees, which are in `degrees`. The call
// itself, which refuses what this asks of its caller, is in `entries`.
//
// The contract cites `specs/Points.antt`. The function is inner.
#![tactic(auto)]

ghost use Rattle.std.specs.Prelude.{◌≡◌, ◌≤◌, length};
ghost use Rattle.grid_points.specs.Points.{grid_at};

use degrees::{latitude, longitude};
use octets::integer_at;

// A point of the grid: the image line and pixel at a latitude in degrees north and a longitude in degrees east. South and west
// are below 0.
#[derive(Clone, Copy, Debug, PartialEq, Eq)]
pub struct Grid {
    pub line: u16,
    pub pixel: u16,
    pub latitude: i16,
    pub longitude: i16,
}

// Inner. The point of a row and a column.
pub fn grid_at(format: u8, block: &[u8], row: u16, column: u16) -> Grid
    requires { (row ≤ 24) × (column ≤ 24) × (2500 ≤ length block.now) }
    ensures { result ≡ grid_at format block.now row column }
{
    let i = row as usize;
    let j = column as usize;
    let place = 100 * i + 4 * j + 1;
    Grid {
        line: integer_at(block, place),
        pixel: integer_at(block, place + 2),
        latitude: latitude(row),
        longitude: longitude(format, column),
    }
}
