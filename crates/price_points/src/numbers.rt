// Numbers of a price set, and sums that stay within them.
ghost use Rattle.std.specs.Prelude.{◌≤◌, ◌≤ℤ◌, pos, All};
ghost use Rattle.route_pricing.specs.Pricing.{IsServicePrice};

/// The denominator of the sets that are proposed.
pub const UNIT: u64 = 1_000_000;

/// One service or one deadhead, in the parts in which tours are averaged.
pub const PARTS: i64 = 1 << 20;

// No number of a price set is greater, and none is less than the negative of it.
const MOST: i128 = 1_000_000_000_000_000;

/// The number itself if it is within 10^15 either way, and else the border of that range.
pub fn clamped(number: i128) -> i64
    ensures { IsServicePrice result }
{
    number.clamp(-MOST, MOST) as i64
}

/// A number by a divisor above 0, rounded down.
pub fn floor(number: i128, divisor: u64) -> i128
    requires { 1 ≤ divisor }
{
    let divisor = i128::from(divisor);
    let quotient = number / divisor;
    if number % divisor < 0 {
        quotient.saturating_sub(1)
    } else {
        quotient
    }
}

/// A number by a divisor above 0, rounded towards 0.
pub fn quotient(number: i128, divisor: i128) -> i128
    requires { pos 1 ≤ℤ divisor }
{
    number / divisor
}

/// The number at a place, and 0 past the end.
pub fn number_at(numbers: &[i64], place: usize) -> i64
    ensures { All IsServicePrice numbers.now → IsServicePrice result }
{
    if place < numbers.len() {
        numbers[place]
    } else {
        0
    }
}

/// Adds to the number at a place, if there is one.
pub fn add_at(numbers: &mut [i64], place: usize, more: i64) {
    if place < numbers.len() {
        numbers[place] = numbers[place].saturating_add(more);
    }
}
