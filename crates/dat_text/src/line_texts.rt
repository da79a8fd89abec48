// The lines of the text.
ghost use Rattle.std.specs.Prelude.{◌≡◌, ◌++◌, OnOk, decimal};
ghost use Rattle.dat_text.specs.DatText.{key_line, ends_and_cost, service_cost, required_line, other_line};

use carp_base::{Edge, Memory};
use itoa::Buffer;

// A line with a key and its number.
#[tactic(auto, unfolding(crate::specs::DatText::key_line))]
pub(crate) fn push_key_line(text: &mut Vec<u8>, key: &[u8], number: u64) -> Result<(), Memory>
    ensures { OnOk result (text.new.items ≡ text.old.items ++ key_line key.now number) }
{
    text.extend_from_slice(key)?;
    text.extend_from_slice(b" : ")?;
    push_number(text, number)?;
    text.extend_from_slice(b"\n")?;
    Ok(())
}

// The line of an edge that is to be served.
#[tactic(auto, unfolding(crate::specs::DatText::required_line))]
pub(crate) fn push_required_line(text: &mut Vec<u8>, edge: &Edge) -> Result<(), Memory>
    ensures { OnOk result (text.new.items ≡ text.old.items ++ required_line edge.now) }
{
    push_ends_and_cost(text, edge)?;
    text.extend_from_slice(b" demanda ")?;
    push_number(text, edge.demand)?;
    push_service_cost(text, edge)?;
    text.extend_from_slice(b"\n")?;
    Ok(())
}

// The line of an edge that need not be served.
#[tactic(auto, unfolding(crate::specs::DatText::other_line))]
pub(crate) fn push_other_line(text: &mut Vec<u8>, edge: &Edge) -> Result<(), Memory>
    ensures { OnOk result (text.new.items ≡ text.old.items ++ other_line edge.now) }
{
    push_ends_and_cost(text, edge)?;
    text.extend_from_slice(b"\n")?;
    Ok(())
}

#[tactic(auto, unfolding(crate::specs::DatText::ends_and_cost))]
fn push_ends_and_cost(text: &mut Vec<u8>, edge: &Edge) -> Result<(), Memory>
    ensures { OnOk result (text.new.items ≡ text.old.items ++ ends_and_cost edge.now) }
{
    text.extend_from_slice(b"( ")?;
    push_number(text, u64::from(edge.u))?;
    text.extend_from_slice(b", ")?;
    push_number(text, u64::from(edge.v))?;
    text.extend_from_slice(b") coste ")?;
    push_number(text, edge.cost)
}

#[tactic(auto, unfolding(crate::specs::DatText::service_cost))]
fn push_service_cost(text: &mut Vec<u8>, edge: &Edge) -> Result<(), Memory>
    ensures { OnOk result (text.new.items ≡ text.old.items ++ service_cost edge.now) }
{
    if edge.service == edge.cost {
        return Ok(());
    }
    text.extend_from_slice(b" servicio ")?;
    push_number(text, edge.service)
}

fn push_number(text: &mut Vec<u8>, number: u64) -> Result<(), Memory>
    ensures { OnOk result (text.new.items ≡ text.old.items ++ decimal number) }
{
    let mut buffer = Buffer::new();
    text.extend_from_slice(buffer.format(number).as_bytes())?;
    Ok(())
}
