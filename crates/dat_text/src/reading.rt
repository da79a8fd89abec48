// Reading a whole text.
ghost use Rattle.std.specs.Prelude.{◌<◌, ◌^◌, length, IfOk, IsErrOf};
ghost use Rattle.carp_base.specs.declared.fail.Fail.TheVariants.{Refused};
ghost use Rattle.dat_text.specs.Text.{IsTextOf, IsFaultOf};
ghost use Rattle.dat_text.specs.Drafts.{ReadsLines, ReadsText};
ghost use Rattle.dat_text.specs.declared.fault.DatFault.{DatFault as Fault};

use crate::DatFault;
use crate::draft::{Described, Draft};
use carp_base::{Fail, Instance};
use std::alloc::Global;

/// What all lines say, or the fault of the first bad one.
fn read_lines(alloc: Global, bytes: &[u8]) -> Result<Draft, Fail<DatFault>>
    requires { length bytes.now < 2 ^ 32 }
    ensures { ReadsLines bytes.now result }
{
    let mut draft = Draft::new(alloc);
    let mut at = 0;
    for line in bytes.split(|byte| *byte == b'\n') {
        at += 1;
        draft.take_line(line, at)?;
    }
    Ok(draft)
}

/// What a text describes, whether it is a valid instance or not.
fn read_text(alloc: Global, bytes: &[u8]) -> Result<Described, Fail<DatFault>>
    requires { length bytes.now < 2 ^ 32 }
    ensures { ReadsText bytes.now result }
{
    match read_lines(alloc, bytes)?.end() {
        Ok(described) => Ok(described),
        Err(fault) => Err(Fail::Refused(fault)),
    }
}

/// Reads an instance text of fewer than 2^32 bytes.
///
/// Lines end in LF. A line is a key with its number, a list key, an edge of the last list, or it is skipped. A line of
/// the required list is `( u, v) coste c demanda d`, and may end in `servicio s`. Without it the service cost is the
/// cost. A line of the other list is `( u, v) coste c`, and a `demanda` may follow whose digits are all 0. Keys and
/// words stand in any case.
///
/// If the bytes are no such text of a valid instance, the answer is the first fault. The work grows with the number of
/// bytes, and the memory with the number of edges.
///
/// ```
/// let text = b"VERTICES : 2\nARISTAS_REQ : 1\nCAPACIDAD : 1\nLISTA_ARISTAS_REQ :\n( 1, 2) coste 5 demanda 1\nDEPOSITO : 1\n";
/// let inst = read_dat(alloc, text)?;
/// assert_eq!(rt; (inst.vertices(), inst.required(), inst.capacity()), (2, 1, 1));
/// ```
pub fn read_dat(alloc: Global, bytes: &[u8]) -> Result<Instance, Fail<DatFault>>
    requires { length bytes.now < 2 ^ 32 }
    ensures read { IfOk result (λ inst. IsTextOf bytes.now inst) }
    ensures refused { (fault : Fault) → IsErrOf result (Refused fault) → IsFaultOf bytes.now fault }
{
    let text = read_text(alloc, bytes)?;
    match Instance::build(
        alloc,
        text.vertices,
        text.depot,
        text.capacity,
        &text.required,
        &text.others,
    ) {
        Ok(instance) => Ok(instance),
        Err(Fail::Memory) => Err(Fail::Memory),
        Err(Fail::Refused(fault)) => Err(Fail::Refused(DatFault::Refused(fault))),
    }
}
