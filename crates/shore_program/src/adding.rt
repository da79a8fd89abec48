// Shores that come to a program.
ghost use Rattle.std.specs.Prelude.{◌≡◌, ◌<◌, ◌++◌, ◌∷◌, [], All, OnErr, OnOk, length};
ghost use Rattle.carp_base.specs.Problem.{Problem};
ghost use Rattle.cut_pool.specs.Shores.{Belongs};
ghost use Rattle.shore_program.specs.Tableaus.{KeepsColumns, shores_of};

use crate::cuts::{Cut, count_marks, marks_of};
use crate::tableau::Tableau;
use carp_base::{Edge, Memory};
use cut_pool::Shore;
use std::alloc::Global;

/// Adds a cut with its column.
pub(crate) fn add_cut(
    alloc: Global,
    edges: &[Edge],
    cuts: &mut Vec<Cut>,
    tableau: &mut Tableau,
    shore: Shore,
    least: u64,
) -> Result<(), Memory>
    requires keeps { KeepsColumns (length edges.now) cuts.old.items tableau.old }
    requires room { length cuts.old.items < 1200 }
    ensures keeps { KeepsColumns (length edges.now) cuts.new.items tableau.new }
    ensures ok { OnOk result (shores_of cuts.new.items ≡ shores_of cuts.old.items ++ shore ∷ []) }
    ensures belong { (p : Problem) → Belongs p shore → All (λ c. Belongs p c.shore) cuts.old.items → All (λ c. Belongs p c.shore) cuts.new.items }
    ensures err { OnErr result (cuts.new.items ≡ cuts.old.items) }
{
    let marks = marks_of(alloc, edges, &shore)?;
    let crossings = count_marks(&marks);
    let place = cuts.len();
    cuts.push(Cut {
        shore,
        least,
        crossings,
    })?;
    if tableau
        .add_column(alloc, &marks, least, place as u32)
        .is_err()
    {
        cuts.truncate(place);
        return Err(Memory);
    }
    Ok(())
}
