// One line of edits, read from left to right.
ghost use Rattle.std.specs.Prelude.{◌≡◌, ◌≤◌, length};
ghost use Rattle.std.specs.List.{prefix_len};
ghost use Rattle.std.specs.Option.{option_map};
ghost use Rattle.std.specs.Char.{is_ascii_digit};
ghost use Rattle.std.specs.Str.Parse.{digits_value, AllDigits};
ghost use Rattle.instance_edits.specs.Reading.{after_byte, number_before, keyword_at, closing_at, adding_at, line_at, edit_of, is_numeral};

// A number has at most so many digits.
const MOST_DIGITS: usize = 12;

// What a line says is done to an edge.
#[derive(Clone, Copy)]
pub(crate) enum Keyword {
    Cost,
    Service,
    Demand,
    Close,
}

// What a line says. Nothing is added if the edge is closed.
#[derive(Clone, Copy)]
pub(crate) struct Line {
    pub(crate) keyword: Keyword,
    pub(crate) edge: u64,
    pub(crate) add: u64,
}

// The line at the front of a text, and what follows it, unless the text begins with no line of an edit.
#[tactic(auto, unfolding(crate::specs::Reading::line_at))]
pub(crate) fn line_at(text: &[u8]) -> Option<(Line, &[u8])>
    ensures { option_map (λ p. (edit_of p.0, p.1.now)) result ≡ line_at text.now }
{
    let (keyword, rest) = keyword_at(text)?;
    match keyword {
        Keyword::Cost | Keyword::Service | Keyword::Demand => adding_at(keyword, rest),
        Keyword::Close => closing_at(rest),
    }
}

// An edge and what is added.
fn adding_at(keyword: Keyword, text: &[u8]) -> Option<(Line, &[u8])>
    ensures { option_map (λ p. (edit_of p.0, p.1.now)) result ≡ adding_at keyword text.now }
{
    let (edge, rest) = number_before(text, b' ')?;
    let (add, rest) = number_before(rest, b'\n')?;
    let line = Line { keyword, edge, add };
    Some((line, rest))
}

// Only an edge.
fn closing_at(text: &[u8]) -> Option<(Line, &[u8])>
    ensures { option_map (λ p. (edit_of p.0, p.1.now)) result ≡ closing_at text.now }
{
    let (edge, rest) = number_before(text, b'\n')?;
    let line = Line {
        keyword: Keyword::Close,
        edge,
        add: 0,
    };
    Some((line, rest))
}

// The word at the front of a text with the blank behind it, and what follows.
#[tactic(auto, unfolding(crate::specs::Reading::keyword_at))]
fn keyword_at(text: &[u8]) -> Option<(Keyword, &[u8])>
    ensures { option_map (λ p. (p.0, p.1.now)) result ≡ keyword_at text.now }
{
    if let Some(rest) = text.strip_prefix(b"cost ") {
        return Some((Keyword::Cost, rest));
    }
    if let Some(rest) = text.strip_prefix(b"service ") {
        return Some((Keyword::Service, rest));
    }
    if let Some(rest) = text.strip_prefix(b"demand ") {
        return Some((Keyword::Demand, rest));
    }
    if let Some(rest) = text.strip_prefix(b"close ") {
        return Some((Keyword::Close, rest));
    }
    None
}

// The number at the front of a text that stands before this byte, and what follows the byte.
#[tactic(auto, unfolding(crate::specs::Reading::number_before))]
fn number_before(text: &[u8], end: u8) -> Option<(u64, &[u8])>
    ensures { option_map (λ p. (p.0, p.1.now)) result ≡ number_before end text.now }
{
    let (digits, rest) = text.split_at(digit_count(text));
    if !is_numeral(digits) {
        return None;
    }
    let rest = after_byte(rest, end)?;
    Some((value_of(digits), rest))
}

fn digit_count(text: &[u8]) -> usize
    ensures count { result ≡ prefix_len is_ascii_digit text.now }
    ensures within { result ≤ length text.now }
{
    text.iter().take_while(|byte| byte.is_ascii_digit()).count()
}

// Whether digits spell a number in the one way that is allowed.
fn is_numeral(digits: &[u8]) -> bool
    ensures { result ≡ is_numeral digits.now }
{
    match digits {
        [] => false,
        [first, ..] => digits.len() <= MOST_DIGITS && (*first != b'0' || digits.len() == 1),
    }
}

fn after_byte(text: &[u8], byte: u8) -> Option<&[u8]>
    ensures { option_map (λ r. r.now) result ≡ after_byte byte text.now }
{
    match text {
        [first, rest @ ..] if *first == byte => Some(rest),
        _ => None,
    }
}

// The number that digits write.
fn value_of(digits: &[u8]) -> u64
    requires digits { AllDigits 10 digits.now }
    requires short { length digits.now ≤ 12 }
    ensures { result ≡ digits_value 10 digits.now }
{
    let mut value = 0;
    for digit in digits {
        value = 10 * value + u64::from(*digit - b'0');
    }
    value
}
