// Numbers in fixed point, with 40 fraction bits. What leaves the range is held at its border.
ghost use Rattle.std.specs.Prelude.{◌^◌, ◌≤◌, pos, neg_ℤ, ◌≤ℤ◌, IsTrue};
ghost use Rattle.std.specs.Int.RustNames.{unsigned_abs};

/// 1 in fixed point.
pub(crate) const ONE: i64 = 1 << 40;

// The fraction bits.
const BITS: u32 = 40;

// Half of the last place of a product.
const HALF: i128 = 1 << 39;

// Numbers that are at most this far from 0 are near: their products fit in 64 bits. Nearly all entries are.
const NEAR: i64 = 1 << 50;

// Numbers are at most this far from 0.
const BORDER: i128 = 1 << 61;

// Entries nearer to 0, 2^-30, are taken as 0: that keeps a tableau sparse, and stops noise.
const LEAST_ENTRY: u64 = 1 << 10;

// The number itself where it is within the range, or else the border.
fn clamped(number: i128) -> i64 {
    number.clamp(-BORDER, BORDER) as i64
}

/// The product of two numbers, which needs twice the bits.
pub(crate) fn product(a: i64, b: i64) -> i128 {
    i128::from(a) * i128::from(b)
}

// A product in fixed point, rounded to the nearest.
fn rounded(a: i64, b: i64) -> i128
    ensures high { result ≤ℤ pos (2 ^ 88) }
    ensures low { neg_ℤ (pos (2 ^ 88)) ≤ℤ result }
{
    let halves = product(a, b) >> (BITS - 1);
    (halves + 1) >> 1
}

/// A number and a product, which is rounded.
pub(crate) fn plus_product(number: i64, a: i64, b: i64) -> i64 {
    clamped(i128::from(number) + rounded(a, b))
}

// Whether the number is near.
fn is_near(number: i64) -> bool
    ensures { IsTrue result → unsigned_abs number ≤ 2 ^ 50 }
{
    -NEAR <= number && number <= NEAR
}

// The product of two numbers that are near.
fn near_product(a: i64, b: i64) -> i128
    requires a { unsigned_abs a ≤ 2 ^ 50 }
    requires b { unsigned_abs b ≤ 2 ^ 50 }
    ensures high { result ≤ℤ pos (2 ^ 100) }
    ensures low { neg_ℤ (pos (2 ^ 100)) ≤ℤ result }
{
    i128::from(a) * i128::from(b)
}

// The product of two numbers that are near, rounded to the nearest.
fn near_rounded(a: i64, b: i64) -> i64
    requires a { unsigned_abs a ≤ 2 ^ 50 }
    requires b { unsigned_abs b ≤ 2 ^ 50 }
    ensures high { result ≤ℤ pos (2 ^ 61) }
    ensures low { neg_ℤ (pos (2 ^ 61)) ≤ℤ result }
{
    ((near_product(a, b) + HALF) >> BITS) as i64
}

/// A number less a product, which is rounded.
pub(crate) fn less_product(number: i64, a: i64, b: i64) -> i64 {
    if is_near(number) && is_near(a) && is_near(b) {
        number - near_rounded(a, b)
    } else {
        clamped(i128::from(number) - rounded(a, b))
    }
}

/// A number by a divisor above 0.
pub(crate) fn quotient(number: i64, divisor: i64) -> i64
    requires { pos 1 ≤ℤ divisor }
{
    clamped(product(number, ONE) / i128::from(divisor))
}

/// An entry of a tableau, or 0 if it is too small.
pub(crate) fn entry(number: i64) -> i64 {
    if number.unsigned_abs() < LEAST_ENTRY {
        0
    } else {
        number
    }
}
