// Writing the text.
ghost use Rattle.std.specs.Prelude.{◌≡◌, ◌++◌, length, IfOk, OnOk};
ghost use Rattle.std.specs.Int.{div_ceil};
ghost use Rattle.std.specs.List.{flat_map};
ghost use Rattle.carp_base.specs.Problem.{required_edges, other_edges, total_demand};
ghost use Rattle.dat_text.specs.DatText.{dat_of, counts_text, totals_text, required_line, other_line};
ghost use Rattle.dat_text.specs.Text.{IsTextOf};

use crate::line_texts::{push_key_line, push_other_line, push_required_line};
use carp_base::{Instance, Memory};
use std::alloc::Global;

/// The `.dat` text of an instance, in time linear in its length. Each line ends in LF, and numbers are plain decimals.
/// [`crate::read_dat`] reads it as the same instance.
///
/// ```
/// let text = write_dat(alloc, &inst)?;
/// assert!(rt; text.starts_with(b"NOMBRE : carp\n"));
/// ```
#[tactic(auto, unfolding(crate::specs::DatText::dat_of))]
pub fn write_dat(alloc: Global, inst: &Instance) -> Result<Vec<u8>, Memory>
    ensures text { IfOk result (λ text. text.items ≡ dat_of inst.now) }
    ensures read { IfOk result (λ text. IsTextOf text.items inst.now) }
{
    let mut text = Vec::new(alloc);
    push_counts(&mut text, inst)?;
    push_totals(&mut text, inst)?;
    text.extend_from_slice(b"LISTA_ARISTAS_REQ :\n")?;
    push_required(&mut text, inst)?;
    text.extend_from_slice(b"LISTA_ARISTAS_NOREQ :\n")?;
    push_others(&mut text, inst)?;
    push_key_line(&mut text, b"DEPOSITO", u64::from(inst.depot()))?;
    Ok(text)
}

#[tactic(auto, unfolding(crate::specs::DatText::counts_text))]
fn push_counts(text: &mut Vec<u8>, inst: &Instance) -> Result<(), Memory>
    ensures { OnOk result (text.new.items ≡ text.old.items ++ counts_text inst.now) }
{
    text.extend_from_slice(b"NOMBRE : carp\nCOMENTARIO : none\n")?;
    push_key_line(text, b"VERTICES", u64::from(inst.vertices()))?;
    push_key_line(text, b"ARISTAS_REQ", u64::from(inst.required()))?;
    push_key_line(text, b"ARISTAS_NOREQ", other_count(inst))?;
    Ok(())
}

#[tactic(auto, unfolding(crate::specs::DatText::totals_text))]
fn push_totals(text: &mut Vec<u8>, inst: &Instance) -> Result<(), Memory>
    ensures { OnOk result (text.new.items ≡ text.old.items ++ totals_text inst.now) }
{
    push_key_line(text, b"VEHICULOS", vehicles(inst))?;
    push_key_line(text, b"CAPACIDAD", inst.capacity())?;
    text.extend_from_slice(b"TIPO_COSTES_ARISTAS : EXPLICITOS\n")?;
    push_key_line(text, b"COSTE_TOTAL_REQ", inst.required_cost())?;
    Ok(())
}

fn push_required(text: &mut Vec<u8>, inst: &Instance) -> Result<(), Memory>
    ensures { OnOk result (text.new.items ≡ text.old.items ++ flat_map required_line (required_edges inst.now)) }
{
    for edge in &inst.edges()[..inst.required() as usize] {
        push_required_line(text, edge)?;
    }
    Ok(())
}

fn push_others(text: &mut Vec<u8>, inst: &Instance) -> Result<(), Memory>
    ensures { OnOk result (text.new.items ≡ text.old.items ++ flat_map other_line (other_edges inst.now)) }
{
    for edge in &inst.edges()[inst.required() as usize..] {
        push_other_line(text, edge)?;
    }
    Ok(())
}

fn other_count(inst: &Instance) -> u64
    ensures { result ≡ length (other_edges inst.now) }
{
    u64::from(inst.edge_count() - inst.required())
}

fn vehicles(inst: &Instance) -> u64
    ensures { result ≡ div_ceil (total_demand inst.now) inst.now.capacity }
{
    inst.total_demand().div_ceil(inst.capacity())
}
