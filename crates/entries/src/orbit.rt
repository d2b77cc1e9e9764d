// The orbital elements.
ghost use Rattle.std.specs.Prelude.{◌≡◌, ◌≤◌, length};
ghost use Rattle.entries.specs.Entries.{elements_in, ElementsOk};

use crate::entry::{entry_asked, float_at};
use blocks::assembly::Assembly;
use blocks::block::ORBIT;
use refusals::Refusal;

// The orbital elements, in the order of source 000's table 12, words 157 to 198: epoch (MJD), semi-major axis (km),
// eccentricity, inclination, longitude of the ascending node, argument of perigee, mean anomaly (degrees).
#[derive(Clone, Copy, Debug, PartialEq)]
pub struct Orbit {
    pub epoch: f64,
    pub axis: f64,
    pub eccentricity: f64,
    pub inclination: f64,
    pub node: f64,
    pub perigee: f64,
    pub anomaly: f64,
}

// Inner. The elements of an orbit block: seven R*6 numbers, m 8 but 10 for the eccentricity.
#[tactic(auto, unfolding(crate::specs::Entries::elements_in, crate::specs::Entries::element_at, numbers::specs::Reals::no_real))]
fn elements_in(block: &[u8]) -> Orbit
    requires { 3200 ≤ length block.now }
    ensures { result ≡ elements_in block.now }
{
    Orbit {
        epoch: float_at(block, 157, 6, 8),
        axis: float_at(block, 163, 6, 8),
        eccentricity: float_at(block, 169, 6, 10),
        inclination: float_at(block, 175, 6, 8),
        node: float_at(block, 181, 6, 8),
        perigee: float_at(block, 187, 6, 8),
        anomaly: float_at(block, 193, 6, 8),
    }
}

// The orbital elements of a finished orbit block. Refused with 1, 12, 2, 9.
#[tactic(auto, using(refusals::proofs::Numbers::answers_err, refusals::proofs::Numbers::answers_ok, crate::proofs::Known::orbit_room))]
pub fn elements(format: u8, assembly: Assembly, block: &[u8]) -> Result<Orbit, Refusal>
    ensures { ElementsOk format assembly.marks block.now result }
{
    entry_asked(format, assembly.marks, ORBIT, Ok(()), Ok(()), block.len())?;
    Ok(elements_in(block))
}
