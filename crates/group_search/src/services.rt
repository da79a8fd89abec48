// The required edges, as a search over sets of them sees them.
ghost use Rattle.std.specs.Prelude.{◌≡◌, ◌≤◌};

use crate::flow::Flow;
use crate::judging::demand_at;
use carp_base::{Instance, Memory};
use set_search::{Element, Ground, Leaving, Link};
use std::alloc::Global;

// The flow between two services as a link, if there is some. There is none between a service and itself.
fn link_of(flow: &Flow, e: u32, f: u32) -> Option<Link>
    requires e { e ≤ flow.now.services }
    requires f { f ≤ flow.now.services }
{
    let cut = i64::try_from(flow.between(e, f)).unwrap_or(i64::MAX);
    let link = Link {
        to: f as usize,
        cut,
        demand: 0,
        required: 0,
        tie: cut,
    };
    (e != f && 0 < cut).then_some(link)
}

// A service with the flow between it and all others. The depot is never chosen.
fn element_of(alloc: Global, inst: &Instance, flow: &Flow, e: u32) -> Result<Element, Memory>
    requires { e ≤ flow.now.services }
{
    let mut links = Vec::new(alloc);
    for f in 0..flow.services() + 1 {
        if let Some(link) = link_of(flow, e, f) {
            links.push(link)?;
        }
    }
    Ok(Element {
        fixed: e == 0,
        demand: i64::try_from(demand_at(inst, e)).unwrap_or(0),
        links,
    })
}

// The services of an instance with the flow between them. Place 0 is the depot, and the others are the required edges
// by their numbers.
pub(crate) fn ground_of(alloc: Global, inst: &Instance, flow: &Flow) -> Result<Ground, Memory>
    requires { flow.now.services ≡ inst.now.required }
{
    let mut elements = Vec::with_capacity(alloc, inst.required() as usize + 1)?;
    for e in 0..inst.required() + 1 {
        elements.push(element_of(alloc, inst, flow, e)?)?;
    }
    Ok(Ground::new(elements, inst.capacity(), Leaving::Anywhere))
}
