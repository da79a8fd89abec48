// Numbers of at most 18 digits.
ghost use Rattle.std.specs.Prelude.{◌≡◌, ◌≤◌, ◌<◌, length, MatchOption};
ghost use Rattle.std.specs.Char.{is_ascii_digit};
ghost use Rattle.std.specs.Str.Parse.{digits_value};
ghost use Rattle.dat_text.specs.Lines.{Each};

/// A number has at most so many digits.
const MOST_DIGITS: usize = 18;

/// The number of at most 18 digits.
fn short_value(digits: &[u8]) -> u64
    requires digits { Each is_ascii_digit digits.now }
    requires short { length digits.now ≤ 18 }
    ensures { result ≡ digits_value 10 digits.now }
{
    let mut value = 0;
    for digit in digits {
        value = 10 * value + u64::from(*digit - b'0');
    }
    value
}

/// The number that digits write, if there are at most 18 of them.
pub(crate) fn value_of(digits: &[u8]) -> Option<u64>
    requires { Each is_ascii_digit digits.now }
    ensures { MatchOption result (18 < length digits.now) (λ n. (length digits.now ≤ 18) × (n ≡ digits_value 10 digits.now)) }
{
    if digits.len() > MOST_DIGITS {
        return None;
    }
    Some(short_value(digits))
}
