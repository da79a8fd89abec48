// Small arithmetic.

// No coefficient of the program is further from 0.
const MOST_COEFFICIENT: i64 = 1 << 15;

/// A number that looks drawn, made of another one (after SplitMix64, Steele, Lea and Flood 2014).
pub(crate) fn mixed(number: u64) -> u64 {
    let number = number.wrapping_mul(0x9E37_79B9_7F4A_7C15);
    let number = (number ^ (number >> 29)).wrapping_mul(0xBF58_476D_1CE4_E5B9);
    number ^ (number >> 32)
}

/// A count as a coefficient of the program.
pub(crate) fn coefficient(count: i64) -> i32 {
    count.clamp(-MOST_COEFFICIENT, MOST_COEFFICIENT) as i32
}
