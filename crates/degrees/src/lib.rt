// The degrees of a point of the mapping grid: the latitude of a row, and the longitude of a column in each format.
//
// The contracts cite `specs/Degrees.antt`. All functions are inner.
#![tactic(auto)]

ghost use Rattle.std.specs.Prelude.{◌≡◌, ◌≤◌};
ghost use Rattle.degrees.specs.Degrees.{latitude_of, first_longitude, west_above180, longitude_of};

// Inner. The latitude of a row: 60 north down to 60 south.
#[tactic(auto, using(crate::proofs::Degrees::sub_fits, crate::proofs::Degrees::sub_is))]
pub fn latitude(row: u16) -> i16
    requires { row ≤ 24 }
    ensures { result ≡ latitude_of row }
{
    let below = 5 * row;
    60 - (below as i16)
}

// The longitude of the first column, degrees east: HiRID begins at 80, every other format at 45.
#[tactic(auto, unfolding(crate::specs::Degrees::first_longitude))]
fn first_longitude(format: u8) -> u16
    ensures { result ≡ first_longitude format }
{
    match format {
        2 => 80,
        _ => 45,
    }
}

// Inner. Longitudes above 180 are given as west.
#[tactic(auto, using(crate::proofs::Degrees::sub_fits, crate::proofs::Degrees::sub_is, crate::proofs::Degrees::pos_is, crate::proofs::Degrees::stays_east, crate::proofs::Degrees::turns_west))]
fn west_above_180(east: u16) -> i16
    requires { east ≤ 360 }
    ensures { result ≡ west_above180 east }
{
    let degrees = east as i16;
    if east > 180 { degrees - 360 } else { degrees }
}

// Inner. The longitude of a column.
#[tactic(auto, using(crate::proofs::Degrees::first_most, crate::proofs::Degrees::back, crate::proofs::Degrees::longitude_fits))]
pub fn longitude(format: u8, column: u16) -> i16
    requires { column ≤ 24 }
    ensures { result ≡ longitude_of format column }
{
    west_above_180(first_longitude(format) + 5 * column)
}
