// The sun of Meeus over a range of minutes, what the prayer conditions need of its place in the sky, and the sun that is chosen.
// Contract: `meeus_sun(m)` is the grid form of Meeus's formulas over the minutes of m, `chosen_sun` that of the choice, and each sun is sound.
#![tactic(auto)]

mod chosen;
mod kept;
pub mod laws;
mod lines;
mod polynomials;
mod ranges;
mod scaled;
mod sun;

pub use chosen::chosen_sun;
pub use kept::KeptSun;
pub use sun::meeus_sun;
