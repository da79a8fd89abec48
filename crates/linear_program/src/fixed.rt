// Numbers in fixed point, with 40 fraction bits. What leaves the range is held at its border.
ghost use Rattle.std.specs.Prelude.{◌≡◌, ◌≤◌, ◌^◌, ◌≤ℤ◌, IsTrue, pos, neg_ℤ};
ghost use Rattle.std.specs.Int.RustNames.{unsigned_abs};

/// 1 in fixed point.
pub(crate) const ONE: i64 = 1 << 40;

/// The least entry by which is divided, 2^-12.
pub(crate) const LEAST_PIVOT: i64 = 1 << 28;

// The fraction bits.
const BITS: u32 = 40;

// Half of the last place of a product.
const HALF: i128 = 1 << 39;

// Amounts are at most this far from 0.
const BORDER: i128 = 1 << 61;

// Fractions are at most this far from 0: 2^15.
const FRACTION_BORDER: i64 = 1 << 55;

// Fractions nearer to 0 than 2^-37 are taken as 0. That keeps an inverse sparse, and stops noise.
const LEAST_FRACTION: u64 = 1 << 3;

// A multiple that is at most this far from 0, 2^7, is near: its product with a fraction fits in 64 bits.
const NEAR: u64 = 1 << 47;

/// A number of an inverse, in fixed point: at most 2^15 from 0.
#[derive(Clone, Copy)]
pub(crate) struct Fraction {
    value: i64,
    ghost in_range: { unsigned_abs value ≤ 2 ^ 55 },
}

/// An activity in fixed point, or a multiplier or a cost in whole units: at most 2^61 from 0.
#[derive(Clone, Copy)]
pub(crate) struct Amount {
    value: i64,
    ghost in_range: { unsigned_abs value ≤ 2 ^ 61 },
}

/// The product of two numbers, which needs twice the bits.
pub(crate) fn product(a: i64, b: i64) -> i128 {
    i128::from(a) * i128::from(b)
}

// A product in fixed point, rounded to the nearest.
fn rounded(a: i64, b: i64) -> i128
    ensures high { result ≤ℤ pos (2 ^ 88) }
    ensures low { neg_ℤ (pos (2 ^ 88)) ≤ℤ result }
{
    let halves = product(a, b) >> (BITS - 1);
    (halves + 1) >> 1
}

// The product of a near number and a fraction.
fn near_product(a: i64, b: i64) -> i128
    requires a { unsigned_abs a ≤ 2 ^ 47 }
    requires b { unsigned_abs b ≤ 2 ^ 55 }
    ensures high { result ≤ℤ pos (2 ^ 102) }
    ensures low { neg_ℤ (pos (2 ^ 102)) ≤ℤ result }
{
    i128::from(a) * i128::from(b)
}

// The product of a near number and a fraction, rounded to the nearest.
fn near_rounded(a: i64, b: i64) -> i64
    requires a { unsigned_abs a ≤ 2 ^ 47 }
    requires b { unsigned_abs b ≤ 2 ^ 55 }
    ensures high { result ≤ℤ pos (2 ^ 62) }
    ensures low { neg_ℤ (pos (2 ^ 62)) ≤ℤ result }
{
    ((near_product(a, b) + HALF) >> BITS) as i64
}

/// A number divided by another one, in fixed point, or 0 if that is 0.
pub(crate) fn quotient(number: i64, divisor: i64) -> Amount {
    match product(number, ONE).checked_div(i128::from(divisor)) {
        Some(quotient) => Amount::clamped(quotient),
        None => Amount::ZERO,
    }
}

impl Fraction {
    pub(crate) const ZERO: Fraction = Fraction { value: 0 };

    pub(crate) const ONE: Fraction = Fraction { value: ONE };

    /// The number itself where it is within the range, or else the border, and 0 if it is too small.
    pub(crate) fn entry(number: i64) -> Fraction {
        if number.unsigned_abs() < LEAST_FRACTION {
            Fraction::ZERO
        } else {
            Fraction {
                value: number.clamp(-FRACTION_BORDER, FRACTION_BORDER),
            }
        }
    }

    pub(crate) fn value(self) -> i64
        ensures { unsigned_abs result ≤ 2 ^ 55 }
    {
        self.value
    }

    pub(crate) fn negative(self) -> Fraction {
        Fraction { value: -self.value }
    }

    /// Whether its product with any fraction fits in 64 bits.
    pub(crate) fn is_near(self) -> bool
        ensures { IsTrue result → unsigned_abs self.value ≤ 2 ^ 47 }
    {
        self.value.unsigned_abs() <= NEAR
    }

    /// This number less the product of a near multiple and a factor.
    pub(crate) fn less_near(self, multiple: Fraction, factor: Fraction) -> Fraction
        requires { unsigned_abs multiple.value ≤ 2 ^ 47 }
    {
        Fraction::entry(self.value - near_rounded(multiple.value, factor.value))
    }

    /// This number less the product of any multiple and a factor.
    pub(crate) fn less_product(self, multiple: Fraction, factor: Fraction) -> Fraction {
        let left = i128::from(self.value) - rounded(multiple.value, factor.value);
        Fraction::entry(Amount::clamped(left).value)
    }
}

impl Amount {
    pub(crate) const ZERO: Amount = Amount { value: 0 };

    /// The number itself where it is within the range, or else the border.
    pub(crate) fn clamped(number: i128) -> Amount {
        Amount {
            value: number.clamp(-BORDER, BORDER) as i64,
        }
    }

    /// The number itself where it is within the range, or else the border.
    pub(crate) fn of(number: i64) -> Amount {
        Amount::clamped(i128::from(number))
    }

    pub(crate) fn value(self) -> i64
        ensures small { unsigned_abs result ≤ 2 ^ 61 }
        ensures same { result ≡ self.value }
    {
        self.value
    }

    pub(crate) fn negative(self) -> Amount {
        Amount { value: -self.value }
    }

    /// The sum of two amounts, within the range.
    pub(crate) fn plus(self, other: Amount) -> Amount {
        Amount::of(self.value + other.value)
    }

    /// The difference of two amounts, within the range.
    pub(crate) fn less(self, other: Amount) -> Amount {
        Amount::of(self.value - other.value)
    }

    /// This amount and a product in fixed point, within the range.
    pub(crate) fn plus_product(self, a: i64, b: i64) -> Amount {
        Amount::clamped(i128::from(self.value) + rounded(a, b))
    }

    /// This amount less a product in fixed point, within the range.
    pub(crate) fn less_product(self, a: i64, b: i64) -> Amount {
        Amount::clamped(i128::from(self.value) - rounded(a, b))
    }
}
