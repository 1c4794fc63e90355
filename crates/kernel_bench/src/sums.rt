// The sum over results, in their order.

/// The sum with one number more.
pub fn mixed(sum: u64, number: i128) -> u64 {
    sum.wrapping_mul(31).wrapping_add(low_bits(number))
}

pub fn low_bits(number: i128) -> u64 {
    (number & i128::from(u64::MAX)) as u64
}
