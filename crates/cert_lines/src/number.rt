// Numbers, as digits spell them.
ghost use Rattle.std.specs.Prelude.{◌≡◌, ℕ, List, ◌↔◌, min, true, IsTrue, MatchOption, IfSome, ◌≤◌};
ghost use Rattle.std.specs.List.{list_all};
ghost use Rattle.std.specs.Char.{is_ascii_digit};
ghost use Rattle.std.specs.Str.Parse.{digits_value};
ghost use Rattle.cert_lines.specs.Numbers.{IsNatural, IsNoNatural, IsNumeral, limit};
ghost use Rattle.cert_lines.specs.Words.{IsCut};

// 10^18: a greater number is read as this one.
const LIMIT: u64 = 1_000_000_000_000_000_000;

/// The number that a text spells, or the limit if that is less. `None` says that it spells none. `front` is the front
/// of the text, `more` says whether more bytes follow, and `digits` whether these are all digits.
pub(crate) fn natural_in(front: &[u8], more: bool, digits: bool) -> Option<u64>
    ensures small { IfSome result (λ told. told ≤ limit) }
    ensures told { (text : List ℕ) → IsCut 19 front.now more digits text → MatchOption result (IsNoNatural text) (IsNatural text) }
{
    if !digits {
        return None;
    }
    if !is_numeral(front) {
        return None;
    }
    if !more {
        return Some(value_of(front));
    }
    Some(LIMIT)
}

// Whether bytes spell a number.
fn is_numeral(text: &[u8]) -> bool
    ensures { IsTrue result ↔ IsNumeral text.now }
{
    if text.is_empty() {
        return false;
    }
    all_digits(text) && (text[0] != b'0' || text.len() == 1)
}

// Whether all bytes are digits.
fn all_digits(text: &[u8]) -> bool
    ensures { result ≡ list_all is_ascii_digit text.now }
{
    text.iter().all(|b| b.is_ascii_digit())
}

// The number that digits write, or the limit if that is less.
fn value_of(digits: &[u8]) -> u64
    requires { list_all is_ascii_digit digits.now ≡ true }
    ensures { result ≡ min (digits_value 10 digits.now) limit }
{
    let mut value = 0;
    for b in digits {
        value = (10 * value + u64::from(*b - b'0')).min(LIMIT);
    }
    value
}
