// The text of edits, line by line.
ghost use Rattle.std.specs.Prelude.{IsTrue, ◌≡◌, ◌+◌, ◌<◌, ◌^◌, List, [], ◌∷◌, ◌++◌, length, MatchResult, IfOk, IfErr};
ghost use Rattle.instance_edits.specs.declared.edit.Edit.{Edit as AnyEdit};
ghost use Rattle.instance_edits.specs.Texts.{IsEditsText, RefusesFirstBad};
ghost use Rattle.instance_edits.specs.Reading.{IsBad, MarksClosedEdges, IsWithin, IsNext, edit_of, is_known, is_open, is_required};

use crate::line::{Keyword, Line, line_at};
use crate::{Edit, EditFault};
use carp_base::{Fail, Instance};
use std::alloc::Global;

/// Reads edits of an instance from a text of fewer than 2^32 bytes.
///
/// Each line is one of `cost E N`, `service E N`, `demand E N` and `close E`, with single blanks between and LF at its
/// end. E is the number of an edge of the instance before all edits, and N is what is added to the edge's cost, service
/// cost or demand. Both are plain decimals of at most 12 digits: `0`, or digits of which the first is not `0`. A text
/// of no bytes has no edits.
///
/// It refuses the first line that is not of this form with [`EditFault::Syntax`], and so bytes behind the last LF. It
/// refuses the first line that names an edge that it may not name with [`EditFault::Unknown`]: `cost` names any edge,
/// `service` and `demand` a required one, `close` one that is not required, and none names an edge that an earlier line
/// closes. If both occur, the answer is the fault of the line that stands first. It is never [`EditFault::Refused`]:
/// [`edited`](crate::edited) tells whether the edited instance is valid. `Fail::Memory` says only that there was not
/// enough memory.
///
/// With b bytes and m edges it takes time in proportion to b + m, and memory in proportion to the lines and to m.
pub fn read_edits(
    alloc: Global,
    inst: &Instance,
    bytes: &[u8],
) -> Result<Vec<Edit>, Fail<EditFault>>
    requires { length bytes.now < 2 ^ 32 }
    ensures edits { IfOk result (λ edits. IsEditsText inst.now bytes.now edits.items) }
    ensures refused { IfErr result (RefusesFirstBad inst.now bytes.now) }
{
    let mut closed = vec![in alloc; false; inst.edge_count() as usize + 1]?;
    read_lines(alloc, inst, &mut closed, bytes)
}

// Reads the lines, with a mark for each edge that tells whether it is closed.
fn read_lines(
    alloc: Global,
    inst: &Instance,
    closed: &mut [bool],
    bytes: &[u8],
) -> Result<Vec<Edit>, Fail<EditFault>>
    requires few { length bytes.now < 2 ^ 32 }
    requires all { length closed.old ≡ length inst.now.edges + 1 }
    requires none { MarksClosedEdges closed.old [] }
    ensures edits { IfOk result (λ edits. IsEditsText inst.now bytes.now edits.items) }
    ensures refused { IfErr result (RefusesFirstBad inst.now bytes.now) }
{
    let mut edits = Vec::new(alloc);
    let mut rest = bytes;
    while !rest.is_empty() {
        match next_edit(inst, closed, rest, edits.len() as u64 + 1) {
            Ok((edit, after)) => {
                mark(closed, edit);
                edits.push(edit)?;
                rest = after;
            }
            Err(fault) => return Err(Fail::Refused(fault)),
        }
    }
    Ok(edits)
}

// Marks what an edit closes.
fn mark(closed: &mut [bool], edit: Edit)
    requires { IsWithin (length closed.old) edit }
    ensures { (before : List AnyEdit) → MarksClosedEdges closed.old before → MarksClosedEdges closed.new (before ++ edit ∷ []) }
{
    if let Edit::Close { edge } = edit {
        closed[edge as usize] = true;
    }
}

// The edit of the next line and what follows the line, which has this number; or the fault of the line.
fn next_edit<'a>(
    inst: &Instance,
    closed: &[bool],
    text: &'a [u8],
    at: u64,
) -> Result<(Edit, &'a [u8]), EditFault>
    requires { length closed.now ≡ length inst.now.edges + 1 }
    ensures { (before : List AnyEdit) → MarksClosedEdges closed.now before → MatchResult result (λ p. IsNext inst.now before text.now p.0 p.1.now) (IsBad inst.now before text.now at) }
{
    let Some((line, rest)) = line_at(text) else {
        return Err(EditFault::Syntax(at));
    };
    if !is_known(inst, closed, line) {
        return Err(EditFault::Unknown(at));
    }
    Ok((edit_of(line), rest))
}

// Whether a line names an edge that it may name.
#[tactic(auto, unfolding(crate::specs::Reading::is_known))]
fn is_known(inst: &Instance, closed: &[bool], line: Line) -> bool
    requires { length closed.now ≡ length inst.now.edges + 1 }
    ensures known { result ≡ is_known inst.now closed.now (edit_of line) }
    ensures within { IsTrue result → line.edge < 2 ^ 32 }
{
    match line.keyword {
        Keyword::Cost => is_open(inst, closed, line.edge),
        Keyword::Service | Keyword::Demand => is_required(inst, line.edge),
        Keyword::Close => {
            is_open(inst, closed, line.edge) && line.edge > u64::from(inst.required())
        }
    }
}

fn is_open(inst: &Instance, closed: &[bool], edge: u64) -> bool
    requires { length closed.now ≡ length inst.now.edges + 1 }
    ensures free { result ≡ is_open inst.now closed.now edge }
    ensures within { IsTrue result → edge < 2 ^ 32 }
{
    edge >= 1 && edge <= u64::from(inst.edge_count()) && !closed[edge as usize]
}

fn is_required(inst: &Instance, edge: u64) -> bool
    ensures required { result ≡ is_required inst.now edge }
    ensures within { IsTrue result → edge < 2 ^ 32 }
{
    edge >= 1 && edge <= u64::from(inst.required())
}

// The edit of a line that names an edge.
fn edit_of(line: Line) -> Edit
    requires { line.edge < 2 ^ 32 }
    ensures { result ≡ edit_of line }
{
    let edge = line.edge as u32;
    match line.keyword {
        Keyword::Cost => Edit::Cost {
            edge,
            add: line.add,
        },
        Keyword::Service => Edit::Service {
            edge,
            add: line.add,
        },
        Keyword::Demand => Edit::Demand {
            edge,
            add: line.add,
        },
        Keyword::Close => Edit::Close { edge },
    }
}
