// What is drawn for the streets.
ghost use Rattle.std.specs.Prelude.{◌≡◌, ◌+◌, ◌<◌, ◌++◌, [], ◌∷◌, filter, OnOk};
ghost use Rattle.town_maker.specs.Draws.{drawn_demand, drawn_edge, drawn_edges, drawn_from};
ghost use Rattle.town_maker.specs.Towns.{has_demand, has_none};

use crate::grid::Street;
use carp_base::{Memory, RawEdge};
use rand_core::utils::NextWord;
use rand_pcg::Lcg64Xsh32;

// A number from `least` on, of so many numbers.
#[tactic(auto, unfolding(crate::specs::Draws::drawn))]
pub(crate) fn draw_from(words: &mut Lcg64Xsh32, least: u64, count: u32) -> u64
    requires some { 0 < count }
    requires short { least < 100 }
    ensures { (result, words.new) ≡ drawn_from least count words.old }
{
    least + u64::from(words.next_word() % count)
}

// The demand of a street: 0 where it is not required.
#[tactic(auto, unfolding(crate::specs::Draws::drawn_demand))]
fn draw_demand(words: &mut Lcg64Xsh32) -> u64
    ensures { (result, words.new) ≡ drawn_demand words.old }
{
    if draw_from(words, 0, 2) == 0 {
        draw_from(words, 1, 9)
    } else {
        0
    }
}

#[tactic(auto, unfolding(crate::specs::Draws::drawn_edge))]
fn draw_edge(words: &mut Lcg64Xsh32, street: Street) -> RawEdge
    ensures { (result, words.new) ≡ drawn_edge street words.old }
{
    let cost = draw_from(words, 10, 90);
    let demand = draw_demand(words);
    RawEdge {
        u: street.u,
        v: street.v,
        cost,
        demand,
        service: cost,
    }
}

fn push_edge(
    required: &mut Vec<RawEdge>,
    others: &mut Vec<RawEdge>,
    edge: RawEdge,
) -> Result<(), Memory>
    ensures required { OnOk result (required.new.items ≡ required.old.items ++ filter has_demand (edge ∷ [])) }
    ensures others { OnOk result (others.new.items ≡ others.old.items ++ filter has_none (edge ∷ [])) }
{
    if edge.demand > 0 {
        required.push(edge)?;
    } else {
        others.push(edge)?;
    }
    Ok(())
}

// Draws for all streets, one after another, and adds each to its list.
pub(crate) fn draw_edges(
    words: &mut Lcg64Xsh32,
    streets: &[Street],
    required: &mut Vec<RawEdge>,
    others: &mut Vec<RawEdge>,
) -> Result<(), Memory>
    ensures required { OnOk result (required.new.items ≡ required.old.items ++ filter has_demand (drawn_edges streets.now words.old).0) }
    ensures others { OnOk result (others.new.items ≡ others.old.items ++ filter has_none (drawn_edges streets.now words.old).0) }
    ensures words { OnOk result (words.new ≡ (drawn_edges streets.now words.old).1) }
{
    for street in streets {
        let edge = draw_edge(words, *street);
        push_edge(required, others, edge)?;
    }
    Ok(())
}
