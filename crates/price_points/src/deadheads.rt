// Deadheads in parts.
ghost use Rattle.std.specs.Prelude.{◌≤◌, IfOk};
ghost use Rattle.edge_components.specs.Parts.{AreParts};

use crate::numbers::number_at;
use carp_base::{Instance, Memory};
use std::alloc::Global;

// No edge has more parts.
const MOST_PARTS: u64 = 1_000_000_000_000;

/// Deadheads of each edge in parts of 2^20, as a search for shores takes them: those below 0 as 0, and those above
/// 10^12 as 10^12. The only error is want of memory.
pub fn parts_of(alloc: Global, inst: &Instance, deadheads: &[i64]) -> Result<Vec<u64>, Memory>
    ensures { IfOk result (λ parts. AreParts inst.now parts.items) }
{
    let mut parts = Vec::with_capacity(alloc, inst.edge_count() as usize)?;
    for place in 0..inst.edge_count() {
        parts.push(part_of(number_at(deadheads, place as usize)))?;
    }
    Ok(parts)
}

fn part_of(number: i64) -> u64
    ensures { result ≤ 1000000000000 }
{
    (number.max(0) as u64).min(MOST_PARTS)
}
