// The spelling of a certificate.
ghost use Rattle.std.specs.Prelude.{◌≡◌, ◌≤◌, ◌++◌, length, IfOk, OnOk};
ghost use Rattle.std.specs.List.{flat_map};
ghost use Rattle.branch_rules.specs.Prices.{price_in};
ghost use Rattle.cert_lines.specs.Certificates.{has_groups, some_group};
ghost use Rattle.cert_lines.specs.Spelling.{IsSpellable, text_of};
ghost use Rattle.cert_lines.specs.Texts.{IsTextOf};
ghost use Rattle.cert_format.specs.Certs.{certificate_in};
ghost use Rattle.cert_format.specs.Pieces.{
  step_piece,
  number_piece,
  price_piece,
  weight_piece,
  tour_text,
  shore_text,
  prices_head,
  prices_text,
  weights_text,
  group_piece,
  bonds_text,
  groups_text,
  set_text,
  node_text,
  second_text,
  version_with,
  version_text,
  plan_text,
  pool_text,
  sets_text,
  nodes_text,
  values_text,
};

use crate::Cert;
use crate::spelling::{
    end_line, push_counts, push_group, push_line, push_number, push_pair, push_price, push_step,
    push_weight, push_words,
};
use branch_rules::{Node, PriceSet, Tree, WeightedGroup};
use carp_base::Memory;
use cert_lines::{Counts, spelled_is_read};
use cut_pool::{Shore, ShorePool};
use plan_model::{Plan, Walk};
use std::alloc::Global;

fn push_steps(text: &mut Vec<u8>, walk: &Walk) -> Result<(), Memory>
    ensures { OnOk result (text.new.items ≡ text.old.items ++ flat_map step_piece walk.now) }
{
    for i in 0..walk.len() {
        push_step(text, walk.step(i))?;
    }
    Ok(())
}

#[tactic(auto, unfolding(crate::specs::Pieces::tour_text))]
fn push_tour(text: &mut Vec<u8>, walk: &Walk) -> Result<(), Memory>
    ensures { OnOk result (text.new.items ≡ text.old.items ++ tour_text walk.now) }
{
    text.extend_from_slice(b"tour")?;
    push_number(text, walk.len() as u64)?;
    push_steps(text, walk)?;
    end_line(text)
}

fn push_tours(text: &mut Vec<u8>, plan: &Plan) -> Result<(), Memory>
    ensures { OnOk result (text.new.items ≡ text.old.items ++ flat_map tour_text plan.now) }
{
    for i in 0..plan.len() {
        push_tour(text, plan.walk(i))?;
    }
    Ok(())
}

#[tactic(auto, unfolding(crate::specs::Pieces::plan_text))]
fn push_plan(text: &mut Vec<u8>, plan: &Plan) -> Result<(), Memory>
    ensures { OnOk result (text.new.items ≡ text.old.items ++ plan_text plan.now) }
{
    push_line(text, b"tours", plan.len() as u64)?;
    push_tours(text, plan)
}

fn push_vertices(text: &mut Vec<u8>, shore: &Shore) -> Result<(), Memory>
    ensures { OnOk result (text.new.items ≡ text.old.items ++ flat_map number_piece shore.now) }
{
    for i in 0..shore.len() {
        push_number(text, u64::from(shore.vertex(i)))?;
    }
    Ok(())
}

#[tactic(auto, unfolding(crate::specs::Pieces::shore_text))]
fn push_shore(text: &mut Vec<u8>, shore: &Shore) -> Result<(), Memory>
    ensures { OnOk result (text.new.items ≡ text.old.items ++ shore_text shore.now) }
{
    text.extend_from_slice(b"shore")?;
    push_number(text, shore.len() as u64)?;
    push_vertices(text, shore)?;
    end_line(text)
}

fn push_shores(text: &mut Vec<u8>, pool: &ShorePool) -> Result<(), Memory>
    ensures { OnOk result (text.new.items ≡ text.old.items ++ flat_map shore_text pool.now) }
{
    for i in 0..pool.len() {
        push_shore(text, pool.shore(i + 1))?;
    }
    Ok(())
}

#[tactic(auto, unfolding(crate::specs::Pieces::pool_text))]
fn push_pool(text: &mut Vec<u8>, pool: &ShorePool) -> Result<(), Memory>
    ensures { OnOk result (text.new.items ≡ text.old.items ++ pool_text pool.now) }
{
    push_line(text, b"shores", u64::from(pool.len()))?;
    push_shores(text, pool)
}

#[tactic(auto, unfolding(crate::specs::Pieces::prices_head))]
fn push_prices_head(text: &mut Vec<u8>, set: &PriceSet) -> Result<(), Memory>
    ensures { OnOk result (text.new.items ≡ text.old.items ++ prices_head set.now) }
{
    text.extend_from_slice(b"prices")?;
    push_number(text, set.unit())?;
    push_number(text, set.services() as u64)
}

fn push_service(text: &mut Vec<u8>, set: &PriceSet, e: u32) -> Result<(), Memory>
    requires from_one { 1 ≤ e }
    requires in_range { e ≤ length set.now.services }
    ensures { OnOk result (text.new.items ≡ text.old.items ++ price_piece (price_in set.now e)) }
{
    push_price(text, set.service(e))
}

fn push_services(text: &mut Vec<u8>, set: &PriceSet) -> Result<(), Memory>
    ensures { OnOk result (text.new.items ≡ text.old.items ++ flat_map price_piece set.now.services) }
{
    for i in 0..set.services() {
        push_service(text, set, i as u32 + 1)?;
    }
    Ok(())
}

#[tactic(auto, unfolding(crate::specs::Pieces::prices_text))]
fn push_prices(text: &mut Vec<u8>, set: &PriceSet) -> Result<(), Memory>
    ensures { OnOk result (text.new.items ≡ text.old.items ++ prices_text set.now) }
{
    push_prices_head(text, set)?;
    push_services(text, set)?;
    end_line(text)
}

fn push_shore_weights(text: &mut Vec<u8>, set: &PriceSet) -> Result<(), Memory>
    ensures { OnOk result (text.new.items ≡ text.old.items ++ flat_map weight_piece set.now.weights) }
{
    for i in 0..set.weights() {
        push_weight(text, set.weight(i))?;
    }
    Ok(())
}

#[tactic(auto, unfolding(crate::specs::Pieces::weights_text))]
fn push_weights(text: &mut Vec<u8>, set: &PriceSet) -> Result<(), Memory>
    ensures { OnOk result (text.new.items ≡ text.old.items ++ weights_text set.now) }
{
    text.extend_from_slice(b"weights")?;
    push_number(text, set.weights() as u64)?;
    push_shore_weights(text, set)?;
    end_line(text)
}

fn push_each_group(text: &mut Vec<u8>, groups: &[WeightedGroup]) -> Result<(), Memory>
    ensures { OnOk result (text.new.items ≡ text.old.items ++ flat_map group_piece groups.now) }
{
    for group in groups {
        push_group(text, group)?;
    }
    Ok(())
}

#[tactic(auto, unfolding(crate::specs::Pieces::bonds_text))]
fn push_bonds(text: &mut Vec<u8>, set: &PriceSet) -> Result<(), Memory>
    ensures { OnOk result (text.new.items ≡ text.old.items ++ bonds_text set.now) }
{
    let groups = set.groups();
    text.extend_from_slice(b"bonds")?;
    push_number(text, groups.len() as u64)?;
    push_each_group(text, groups)?;
    end_line(text)
}

fn push_groups(text: &mut Vec<u8>, grouped: bool, set: &PriceSet) -> Result<(), Memory>
    ensures { OnOk result (text.new.items ≡ text.old.items ++ groups_text grouped set.now) }
{
    if grouped {
        return push_bonds(text, set);
    }
    Ok(())
}

#[tactic(auto, unfolding(crate::specs::Pieces::set_text))]
fn push_set(text: &mut Vec<u8>, grouped: bool, set: &PriceSet) -> Result<(), Memory>
    ensures { OnOk result (text.new.items ≡ text.old.items ++ set_text grouped set.now) }
{
    push_prices(text, set)?;
    push_weights(text, set)?;
    push_groups(text, grouped, set)
}

fn push_each_set(text: &mut Vec<u8>, grouped: bool, sets: &[PriceSet]) -> Result<(), Memory>
    ensures { OnOk result (text.new.items ≡ text.old.items ++ flat_map (set_text grouped) sets.now) }
{
    for set in sets {
        push_set(text, grouped, set)?;
    }
    Ok(())
}

#[tactic(auto, unfolding(crate::specs::Pieces::sets_text))]
fn push_sets(text: &mut Vec<u8>, grouped: bool, sets: &[PriceSet]) -> Result<(), Memory>
    ensures { OnOk result (text.new.items ≡ text.old.items ++ sets_text grouped sets.now) }
{
    push_line(text, b"sets", sets.len() as u64)?;
    push_each_set(text, grouped, sets)
}

// Whether some price set has a group.
fn has_groups(sets: &[PriceSet]) -> bool
    ensures { result ≡ has_groups sets.now }
{
    sets.iter().any(|set| has_group(set))
}

fn has_group(set: &PriceSet) -> bool
    ensures { result ≡ some_group set.now.groups }
{
    !set.groups().is_empty()
}

#[tactic(auto, unfolding(crate::specs::Pieces::node_text))]
fn push_node(text: &mut Vec<u8>, node: Node) -> Result<(), Memory>
    ensures { OnOk result (text.new.items ≡ text.old.items ++ node_text node) }
{
    match node {
        Node::Pair { a, b } => push_pair(text, b"pair", u64::from(a), u64::from(b)),
        Node::Cut { shore, k } => push_pair(text, b"cut", u64::from(shore), k),
        Node::Price { set } => push_line(text, b"price", u64::from(set)),
        Node::Void => push_words(text, b"void\n"),
        Node::Fixed => push_words(text, b"fixed\n"),
    }
}

fn push_each_node(text: &mut Vec<u8>, tree: &Tree) -> Result<(), Memory>
    ensures { OnOk result (text.new.items ≡ text.old.items ++ flat_map node_text tree.now.nodes) }
{
    for i in 0..tree.len() {
        push_node(text, tree.node(i))?;
    }
    Ok(())
}

#[tactic(auto, unfolding(crate::specs::Pieces::nodes_text))]
fn push_nodes(text: &mut Vec<u8>, tree: &Tree) -> Result<(), Memory>
    ensures { OnOk result (text.new.items ≡ text.old.items ++ nodes_text tree.now.nodes) }
{
    push_line(text, b"nodes", tree.len() as u64)?;
    push_each_node(text, tree)?;
    text.extend_from_slice(b"end\n")?;
    Ok(())
}

#[tactic(auto, unfolding(crate::specs::Pieces::second_text))]
fn push_second(text: &mut Vec<u8>, version: u64, counts: Counts) -> Result<(), Memory>
    ensures { OnOk result (text.new.items ≡ text.old.items ++ second_text version counts) }
{
    push_line(text, b"carp-certificate", version)?;
    push_counts(text, counts)?;
    Ok(())
}

#[tactic(auto, unfolding(crate::specs::Pieces::version_text))]
fn push_version(text: &mut Vec<u8>, counts: Option<Counts>, grouped: bool) -> Result<(), Memory>
    ensures { OnOk result (text.new.items ≡ text.old.items ++ version_text counts grouped) }
{
    match counts {
        None => push_line(text, b"carp-certificate", 1),
        Some(counts) => push_second(text, version_with(grouped), counts),
    }
}

// The version of a certificate with the numbers of the instance.
fn version_with(grouped: bool) -> u64
    ensures { result ≡ version_with grouped }
{
    if grouped { 4 } else { 2 }
}

#[tactic(auto, unfolding(crate::specs::Pieces::values_text))]
fn push_values(text: &mut Vec<u8>, cost: u64, bound: u64) -> Result<(), Memory>
    ensures { OnOk result (text.new.items ≡ text.old.items ++ values_text cost bound) }
{
    push_line(text, b"cost", cost)?;
    push_line(text, b"bound", bound)
}

/// The text of a certificate, its one spelling: version 4 if some price set has a group, else version 2 if it has the
/// numbers of the instance, and else version 1.
///
/// The only error is want of memory. It takes time and memory in proportion to the text.
pub fn write_cert(alloc: Global, cert: &Cert) -> Result<Vec<u8>, Memory>
    requires { IsSpellable (certificate_in cert.now) }
    ensures spelled { IfOk result (λ text. text.items ≡ text_of (certificate_in cert.now)) }
    ensures read { IfOk result (λ text. IsTextOf text.items (certificate_in cert.now)) }
{
    spelled_is_read();
    let mut text = Vec::new(alloc);
    let grouped = has_groups(&cert.sets);
    push_version(&mut text, cert.counts, grouped)?;
    push_values(&mut text, cert.cost, cert.bound)?;
    push_plan(&mut text, &cert.plan)?;
    push_pool(&mut text, &cert.shores)?;
    push_sets(&mut text, grouped, &cert.sets)?;
    push_nodes(&mut text, &cert.tree)?;
    Ok(text)
}
