// Drops helpers.
ghost use Rattle.std.specs.Prelude.{◌≡◌, ◌==◌, filter};

use plan_model::Proposer;

/// Drops the helpers that offered an unlawful plan since they were seeded, and keeps the others in their order. It
/// takes no memory, and time in proportion to the length of the list.
pub fn dismiss<P: Proposer>(helpers: &mut Vec<P>)
    ensures { helpers.new.items ≡ filter (λ helper. (P.tally helper).fouls == 0) helpers.old.items }
{
    helpers.retain(|helper| helper.fouls() == 0);
}
