// The sine of narrow ranges of angles, one after the other round the circle, as a search judges them.

use crate::sums::{low_bits, mixed};
use trig_series::{Angle, sine};

const STEP: u64 = 7_919_000_003;

const CIRCLE: u64 = 51_840_000_000_000;

const WIDTH: i128 = 18_000;

pub fn sines(count: u64) -> u64 {
    let mut sum = 0;
    for i in 0..count {
        let low = i128::from(i.wrapping_mul(STEP) % CIRCLE);
        let found = sine(Angle::new(low, low + WIDTH));
        sum = mixed(sum, found.lo).wrapping_add(low_bits(found.hi));
    }
    sum
}
