// Tests of the crates of numbers: intervals, series, the sun, the values, the methods.
// Contract: none; the crate has tests alone.
#![tactic(auto)]

#[cfg(test)]
mod altitudes;
#[cfg(test)]
mod intervals;
#[cfg(test)]
mod methods;
#[cfg(test)]
mod series;
#[cfg(test)]
mod shadows;
#[cfg(test)]
mod suns;
#[cfg(test)]
mod vectors;
