// Words and numbers of a line in a growing text.
ghost use Rattle.std.specs.Prelude.{◌≡◌, ◌++◌, ◌∷◌, [], OnOk};
ghost use Rattle.std.specs.List.{flat_map};
ghost use Rattle.cert_lines.specs.Numerals.{numeral};
ghost use Rattle.cert_lines.specs.Lines.{mark_of};
ghost use Rattle.cert_format.specs.Pieces.{number_piece, step_piece, price_piece, weight_piece, group_piece, keyword_line, pair_line, sizes_piece, loads_piece, counts_line};

use branch_rules::{Weight, WeightedGroup};
use carp_base::Memory;
use cert_lines::{Counts, numerals_are_decimals};
use itoa::Buffer;
use plan_model::Step;

fn push_digits(text: &mut Vec<u8>, number: u64) -> Result<(), Memory>
    ensures { OnOk result (text.new.items ≡ text.old.items ++ numeral number) }
{
    numerals_are_decimals();
    let mut buffer = Buffer::new();
    text.extend_from_slice(buffer.format(number).as_bytes())?;
    Ok(())
}

// Adds a blank and a number.
pub(crate) fn push_number(text: &mut Vec<u8>, number: u64) -> Result<(), Memory>
    ensures { OnOk result (text.new.items ≡ text.old.items ++ number_piece number) }
{
    text.push(b' ')?;
    push_digits(text, number)
}

// Adds a blank and a signed number.
pub(crate) fn push_price(text: &mut Vec<u8>, price: i64) -> Result<(), Memory>
    ensures { OnOk result (text.new.items ≡ text.old.items ++ price_piece price) }
{
    numerals_are_decimals();
    let mut buffer = Buffer::new();
    text.push(b' ')?;
    text.extend_from_slice(buffer.format(price).as_bytes())?;
    Ok(())
}

fn mark(step: Step) -> u8
    ensures { result ≡ mark_of step }
{
    match (step.served, step.forward) {
        (true, true) => b'+',
        (true, false) => b'-',
        (false, true) => b'>',
        (false, false) => b'<',
    }
}

// Adds a blank and a step.
pub(crate) fn push_step(text: &mut Vec<u8>, step: Step) -> Result<(), Memory>
    ensures { OnOk result (text.new.items ≡ text.old.items ++ step_piece step) }
{
    text.extend_from_slice(&[b' ', mark(step)])?;
    push_digits(text, u64::from(step.edge))
}

// Adds the number of a shore and its weight, each after a blank.
#[tactic(auto, unfolding(crate::specs::Pieces::weight_piece))]
pub(crate) fn push_weight(text: &mut Vec<u8>, weight: Weight) -> Result<(), Memory>
    ensures { OnOk result (text.new.items ≡ text.old.items ++ weight_piece weight) }
{
    push_number(text, u64::from(weight.shore))?;
    push_price(text, weight.weight)
}

pub(crate) fn push_words(text: &mut Vec<u8>, words: &[u8]) -> Result<(), Memory>
    ensures { OnOk result (text.new.items ≡ text.old.items ++ words.now) }
{
    text.extend_from_slice(words)?;
    Ok(())
}

pub(crate) fn end_line(text: &mut Vec<u8>) -> Result<(), Memory>
    ensures { OnOk result (text.new.items ≡ text.old.items ++ 10 ∷ []) }
{
    text.push(b'\n')?;
    Ok(())
}

fn push_edges(text: &mut Vec<u8>, edges: &[u32]) -> Result<(), Memory>
    ensures { OnOk result (text.new.items ≡ text.old.items ++ flat_map number_piece edges.now) }
{
    for edge in edges {
        push_number(text, u64::from(*edge))?;
    }
    Ok(())
}

// Adds a weight on a group, its size and its edges, each after a blank.
#[tactic(auto, unfolding(crate::specs::Pieces::group_piece))]
pub(crate) fn push_group(text: &mut Vec<u8>, group: &WeightedGroup) -> Result<(), Memory>
    ensures { OnOk result (text.new.items ≡ text.old.items ++ group_piece group.now) }
{
    let edges = group.edges();
    push_price(text, group.weight())?;
    push_number(text, edges.len() as u64)?;
    push_edges(text, edges)
}

// Adds a line of a word and a number.
#[tactic(auto, unfolding(crate::specs::Pieces::keyword_line))]
pub(crate) fn push_line(text: &mut Vec<u8>, word: &[u8], number: u64) -> Result<(), Memory>
    ensures { OnOk result (text.new.items ≡ text.old.items ++ keyword_line word.now number) }
{
    text.extend_from_slice(word)?;
    push_number(text, number)?;
    end_line(text)
}

// Adds a line of a word and two numbers.
#[tactic(auto, unfolding(crate::specs::Pieces::pair_line))]
pub(crate) fn push_pair(text: &mut Vec<u8>, word: &[u8], a: u64, b: u64) -> Result<(), Memory>
    ensures { OnOk result (text.new.items ≡ text.old.items ++ pair_line word.now a b) }
{
    text.extend_from_slice(word)?;
    push_number(text, a)?;
    push_number(text, b)?;
    end_line(text)
}

#[tactic(auto, unfolding(crate::specs::Pieces::sizes_piece))]
fn push_sizes(text: &mut Vec<u8>, counts: Counts) -> Result<(), Memory>
    ensures { OnOk result (text.new.items ≡ text.old.items ++ sizes_piece counts) }
{
    push_number(text, counts.vertices)?;
    push_number(text, counts.edges)?;
    push_number(text, counts.required)
}

#[tactic(auto, unfolding(crate::specs::Pieces::loads_piece))]
fn push_loads(text: &mut Vec<u8>, counts: Counts) -> Result<(), Memory>
    ensures { OnOk result (text.new.items ≡ text.old.items ++ loads_piece counts) }
{
    push_number(text, counts.capacity)?;
    push_number(text, counts.demand)?;
    end_line(text)
}

// Adds the line of the numbers of an instance.
#[tactic(auto, unfolding(crate::specs::Pieces::counts_line))]
pub(crate) fn push_counts(text: &mut Vec<u8>, counts: Counts) -> Result<(), Memory>
    ensures { OnOk result (text.new.items ≡ text.old.items ++ counts_line counts) }
{
    text.extend_from_slice(b"instance")?;
    push_sizes(text, counts)?;
    push_loads(text, counts)
}
