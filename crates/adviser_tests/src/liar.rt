// An adviser that is not to be trusted.
ghost use Rattle.std.specs.Prelude.{All, IfOk, IfSome};
ghost use Rattle.cut_pool.specs.Pools.{IsGrown};
ghost use Rattle.cut_pool.specs.Shores.{Belongs};
ghost use Rattle.leaf_adviser.specs.Offers.{IsOffer};

use branch_rules::{Node, PriceSet};
use carp_base::{Instance, Memory, Task};
use cut_pool::{Shore, ShorePool};
use leaf_adviser::{Adviser, Aim, Leaf};
use price_points::number_in;
use route_pricing::Table;
use std::alloc::Global;

const GREATEST: i64 = 1_000_000_000_000_000;

/// What it does that it should not do.
#[derive(Clone, Copy)]
pub enum Lie {
    /// It offers the greatest price for each of four services, which does not fit.
    Misfit,
    /// It offers a price of 0 for each of four services, which is worth less than any floor.
    Worthless,
    /// It splits each leaf by the edges 1 and 2, also where the pair is determined.
    Determined,
    /// It splits by a cut on a shore that no pool has.
    OutOfRange,
    /// It splits by one more cut at each leaf, also where four stand on the path.
    FifthCut,
    /// It offers tours that serve one street twice and none of the others.
    Unlawful,
    /// It places shores that the pool has.
    Known,
    /// It offers nothing.
    Nothing,
}

/// The lie of a name.
pub fn lie_of(name: &str) -> Option<Lie> {
    match name {
        "misfit" => Some(Lie::Misfit),
        "worthless" => Some(Lie::Worthless),
        "determined" => Some(Lie::Determined),
        "out_of_range" => Some(Lie::OutOfRange),
        "fifth_cut" => Some(Lie::FifthCut),
        "unlawful" => Some(Lie::Unlawful),
        "known" => Some(Lie::Known),
        "nothing" => Some(Lie::Nothing),
        _ => None,
    }
}

/// An adviser with one lie.
#[derive(Drop)]
pub struct Liar {
    lie: Lie,
    tours: Option<Vec<Vec<Task>>>,
}

impl Liar {
    pub fn new(lie: Lie) -> Liar {
        Liar { lie, tours: None }
    }
}

impl Adviser for Liar {
    fn prices(
        &mut self,
        alloc: Global,
        leaf: &Leaf<'_>,
        _table: &mut Table,
        pool: &mut ShorePool,
        _best: &PriceSet,
        _aim: Aim,
    ) -> Result<Option<PriceSet>, Memory> {
        if let Lie::Unlawful = self.lie {
            self.tours = Some(one_street_twice(alloc)?);
        }
        if let Lie::FifthCut | Lie::Known = self.lie {
            place_vertex(alloc, leaf.inst, pool)?;
        }
        match self.lie {
            Lie::Misfit => four_prices(alloc, leaf.inst, pool, true),
            Lie::Worthless => four_prices(alloc, leaf.inst, pool, false),
            _ => Ok(None),
        }
    }

    fn split(
        &mut self,
        _alloc: Global,
        leaf: &Leaf<'_>,
        _table: &mut Table,
        _pool: &mut ShorePool,
        _number: u32,
    ) -> Result<Option<Node>, Memory> {
        Ok(split_of(self.lie, leaf.branch.len() as u64))
    }

    fn tours(&mut self) -> Option<Vec<Vec<Task>>> {
        self.tours.take()
    }
}

// The node to split a leaf by, behind so many decisions.
fn split_of(lie: Lie, decisions: u64) -> Option<Node> {
    match lie {
        Lie::Determined => Some(Node::Pair { a: 1, b: 2 }),
        Lie::OutOfRange => Some(Node::Cut {
            shore: u32::MAX,
            k: u64::MAX,
        }),
        Lie::FifthCut => Some(Node::Cut {
            shore: 1,
            k: decisions,
        }),
        _ => None,
    }
}

// Prices for four services, the greatest ones or 0.
fn four_prices(
    alloc: Global,
    inst: &Instance,
    pool: &ShorePool,
    greatest: bool,
) -> Result<Option<PriceSet>, Memory>
    ensures { IfOk result (λ found. IfSome found (IsOffer inst.now pool.now)) }
{
    if inst.required() != 4 {
        return Ok(None);
    }
    let set = if greatest {
        PriceSet::new(alloc, 1, &[GREATEST, GREATEST, GREATEST, GREATEST], &[])?
    } else {
        PriceSet::new(alloc, 1, &[0, 0, 0, 0], &[])?
    };
    Ok(Some(set))
}

// A tour that serves the first street twice.
fn one_street_twice(alloc: Global) -> Result<Vec<Vec<Task>>, Memory> {
    let there = Task {
        edge: 1,
        forward: true,
    };
    let back = Task {
        edge: 1,
        forward: false,
    };
    let mut tours = Vec::new(alloc);
    tours.push(Vec::from_slice(alloc, &[there, back])?)?;
    Ok(tours)
}

// Places the set of the vertex 2, also if the pool has it.
fn place_vertex(alloc: Global, inst: &Instance, pool: &mut ShorePool) -> Result<(), Memory>
    requires { All (Belongs inst.now) pool.old }
    ensures grown { IsGrown pool.old pool.new }
    ensures belong { All (Belongs inst.now) pool.new }
{
    let shore = Shore::from_list(alloc, &[2])?;
    if !shore.belongs(inst) {
        return Ok(());
    }
    number_in(inst, pool, shore)?;
    Ok(())
}
