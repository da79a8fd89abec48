// Answers of greatest flows, for the cases of `data/flow_cut`.
ghost use Rattle.std.specs.Prelude.{◌≤◌, IfOk, IsTrue};
ghost use Rattle.flow_cut.specs.Flows.{HasEnds, HasFineRoom, IsNetwork};

use flow_cut::{Arc, max_flow};
use samples::{listed, numbers, numbers32, part};
use std::alloc::Global;
use std::test::Fail;

const MOST_ROOM: u64 = 1_000_000_000_000_000_000;

pub fn answer(alloc: Global, _over: &str, call: &str, input: &str) -> Result<String, Fail> {
    if call != "flow" {
        Err("no such call")?
    }
    match numbers32(alloc, part(input, 0))?.as_slice() {
        [nodes, from, to] => flow(alloc, *nodes, *from, *to, part(input, 1)),
        _ => Err("three numbers come first")?,
    }
}

// The value of a greatest flow.
fn flow(alloc: Global, nodes: u32, from: u32, to: u32, arcs: &str) -> Result<String, Fail> {
    if nodes > 100 || from < 1 || nodes < from || to < 1 || nodes < to || from == to {
        Err("no such ends")?
    }
    let arcs = network(alloc, nodes, arcs)?;
    let flow = max_flow(alloc, nodes, &arcs, from, to)?;
    Ok(listed(alloc, &[flow.value])?)
}

// The arcs of a list of numbers, three for each.
fn network(alloc: Global, nodes: u32, text: &str) -> Result<Vec<Arc>, Fail>
    requires { nodes ≤ 100 }
    ensures { IfOk result (λ arcs. IsNetwork nodes arcs.items) }
{
    let words = numbers(alloc, text)?;
    let mut arcs = Vec::new(alloc);
    for place in 0..(words.len() / 3).min(100) {
        let arc = arc_at(nodes, &words, place)?;
        arcs.push(arc)?;
    }
    Ok(arcs)
}

fn arc_at(nodes: u32, words: &[u64], place: usize) -> Result<Arc, Fail>
    ensures ends { IfOk result (HasEnds nodes) }
    ensures room { IfOk result HasFineRoom }
{
    let first = place.saturating_mul(3);
    let number = |k: usize| words.get(first.saturating_add(k)).copied().unwrap_or(0);
    let arc = Arc {
        from: number(0).min(1000) as u32,
        to: number(1).min(1000) as u32,
        room: number(2),
    };
    if !is_fine(nodes, arc) {
        Err("an arc is out of range")?
    }
    Ok(arc)
}

fn is_fine(nodes: u32, arc: Arc) -> bool
    ensures ends { IsTrue result → HasEnds nodes arc }
    ensures room { IsTrue result → HasFineRoom arc }
{
    1 <= arc.from && arc.from <= nodes && 1 <= arc.to && arc.to <= nodes && arc.room <= MOST_ROOM
}
