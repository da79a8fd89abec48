// The shape of an edge line.
ghost use Rattle.std.specs.Prelude.{◌≡◌, ◌<◌, length, IfSome, IsNone, MatchOption, MatchResult, ◌↔◌, IsTrue, ◌==◌, IsSomeAnd};
ghost use Rattle.std.specs.Option.{option_map_or};
ghost use Rattle.std.specs.List.{AllByRecursion};
ghost use Rattle.std.specs.Str.Parse.{digits_value};
ghost use Rattle.std.specs.Char.{is_ascii_digit};
ghost use Rattle.dat_text.specs.Lines.{Each, IsNumber, EdgeNumbers, FitsList, IsEdgeLine, IsShort, AreShort, numbers_of, edge_of};
ghost use Rattle.std.specs.Option.{option_map};
ghost use Rattle.dat_text.specs.Reading.{is_blank_line, labelled_at, optional_at, ends_at, edge_line_at};
ghost use Rattle.dat_text.specs.Kinds.{edge_numbers, ReadsEdge, FailsEdge};

use crate::Key;
use crate::fault::LineFault;
use crate::number::value_of;
use crate::parts::{after_byte, after_word, number_at, skip_blanks};
use carp_base::RawEdge;

/// The numbers of an edge line, by their digits.
#[derive(Clone, Copy)]
pub(crate) struct EdgeLine<'a> {
    pub u: &'a [u8],
    pub v: &'a [u8],
    pub cost: &'a [u8],
    pub demand: Option<&'a [u8]>,
    pub service: Option<&'a [u8]>,
}

fn is_blank_line(text: &[u8]) -> bool
    ensures { result ≡ is_blank_line text.now }
{
    skip_blanks(text).is_empty()
}

/// The number behind a word, and what follows it.
#[tactic(auto, unfolding(crate::specs::Reading::labelled_at))]
fn labelled_at<'a>(text: &'a [u8], label: &[u8]) -> Option<(&'a [u8], &'a [u8])>
    ensures { option_map (λ p. (p.0.now, p.1.now)) result ≡ labelled_at label.now text.now }
{
    let rest = after_word(text, label)?;
    number_at(rest)
}

/// The number behind a word, if the line does not end before, and what follows it.
#[tactic(auto, unfolding(crate::specs::Reading::optional_at))]
fn optional_at<'a>(text: &'a [u8], label: &[u8]) -> Option<(Option<&'a [u8]>, &'a [u8])>
    ensures { option_map (λ p. (option_map (λ d. d.now) p.0, p.1.now)) result ≡ optional_at label.now text.now }
{
    if is_blank_line(text) {
        return Some((None, text));
    }
    let (digits, rest) = labelled_at(text, label)?;
    Some((Some(digits), rest))
}

/// Both ends of an edge, and what follows them.
#[tactic(auto, unfolding(crate::specs::Reading::ends_at))]
fn ends_at(text: &[u8]) -> Option<(&[u8], &[u8], &[u8])>
    ensures { option_map (λ p. (p.0.now, p.1.now, p.2.now)) result ≡ ends_at text.now }
{
    let opened = after_byte(text, b'(')?;
    let (u, rest) = number_at(opened)?;
    let between = after_byte(rest, b',')?;
    let (v, rest) = number_at(between)?;
    let rest = after_byte(rest, b')')?;
    Some((u, v, rest))
}

/// The numbers of a line that has the shape of an edge line in one of the lists.
#[tactic(auto, unfolding(crate::specs::Reading::edge_line_at))]
fn edge_line_at(text: &[u8]) -> Option<EdgeLine<'_>>
    ensures { option_map edge_numbers result ≡ edge_line_at text.now }
{
    let (u, v, rest) = ends_at(text)?;
    let (cost, rest) = labelled_at(rest, b"coste")?;
    let (demand, rest) = optional_at(rest, b"demanda")?;
    let (service, rest) = optional_at(rest, b"servicio")?;
    if !is_blank_line(rest) {
        return None;
    }
    Some(EdgeLine {
        u,
        v,
        cost,
        demand,
        service,
    })
}

fn are_zeros(digits: &[u8]) -> bool
    ensures { IsTrue result ↔ Each (λ b. b == 48) digits.now }
{
    digits.iter().all(|digit| *digit == b'0')
}

/// Whether the numbers are those that stand in an edge line of the list.
fn fits_list(list: Key, line: &EdgeLine) -> bool
    ensures { IsTrue result ↔ FitsList list (edge_numbers line.now) }
{
    match list {
        Key::RequiredList => line.demand.is_some(),
        Key::OtherList => match line.demand {
            Some(demand) => are_zeros(demand) && line.service.is_none(),
            None => line.service.is_none(),
        },
        _ => false,
    }
}

/// The numbers of an edge line of the list.
fn edge_line_of(list: Key, line: &[u8]) -> Option<EdgeLine<'_>>
    ensures found { IfSome result (λ x. IsEdgeLine list (edge_numbers x) line.now) }
    ensures none { IsNone result → (x : EdgeNumbers) → ¬ (IsEdgeLine list x line.now) }
{
    match edge_line_at(line) {
        Some(numbers) => if fits_list(list, &numbers) {
            Some(numbers)
        } else {
            None
        },
        None => None,
    }
}

/// The number that stands there, or else the number that is given.
fn optional_value(digits: Option<&[u8]>, otherwise: u64) -> Option<u64>
    requires { IfSome digits (λ d. Each is_ascii_digit d.now) }
    ensures { MatchOption result (IsSomeAnd digits.entry (λ d. 18 < length d.now)) (λ n. IfSome digits.entry (λ d. IsShort d.now) × (n ≡ option_map_or (λ d. digits_value 10 d.now) digits.entry otherwise)) }
{
    match digits {
        Some(digits) => value_of(digits),
        None => Some(otherwise),
    }
}

/// The edge of the numbers, if none has more than 18 digits.
fn short_edge(list: Key, line: &EdgeLine) -> Option<RawEdge>
    requires { AllByRecursion IsNumber (numbers_of (edge_numbers line.now)) }
    ensures { MatchOption result (¬ (AreShort (numbers_of (edge_numbers line.now)))) (λ x. AreShort (numbers_of (edge_numbers line.now)) × (x ≡ edge_of list (edge_numbers line.now))) }
{
    let u = value_of(line.u)?;
    let v = value_of(line.v)?;
    let cost = value_of(line.cost)?;
    let demand = optional_value(line.demand, 0)?;
    let service = optional_value(line.service, cost)?;
    match list {
        Key::RequiredList => Some(RawEdge {
            u,
            v,
            cost,
            demand,
            service,
        }),
        _ => Some(RawEdge {
            u,
            v,
            cost,
            demand: 0,
            service: 0,
        }),
    }
}

/// The edge of an edge line of the list.
pub(crate) fn read_edge(list: Key, line: &[u8]) -> Result<RawEdge, LineFault>
    ensures { MatchResult result (ReadsEdge list line.now) (FailsEdge list line.now) }
{
    match edge_line_of(list, line) {
        None => Err(LineFault::Syntax),
        Some(numbers) => match short_edge(list, &numbers) {
            None => Err(LineFault::TooLong),
            Some(edge) => Ok(edge),
        },
    }
}
