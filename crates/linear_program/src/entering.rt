// Which variable enters the basis in the primal method.
ghost use Rattle.std.specs.Prelude.{◌*◌, ◌≤◌, length};
ghost use Rattle.linear_program.specs.Limits.{program_row_limit};
ghost use Rattle.linear_program.specs.Bases.{IsBasis};

use crate::basis::{Basis, more_work};
use crate::costs::{column_reduced_cost, reduced_cost};
use crate::direction::write_direction;
use crate::fixed::{Amount, Fraction};
use crate::ids::ColumnId;
use crate::selection::{Selection, Variable};
use crate::shortlist::{Candidate, Shortlist};
use crate::store::Store;
use crate::workspace::{Resting, Workspace};
use std::mem;

// A gain is taken as at most this.
const MOST_GAIN: u64 = 1 << 40;

// An entry is taken as at most this, in parts of 2^-10.
const MOST_ENTRY: u64 = 1 << 15;

// The fraction bits of an entry that are left out.
const LEFT_OUT: u32 = 30;

/// How much a step gains for its length: the square of what it gains for a unit, and that of the length of a unit.
#[derive(Clone, Copy)]
pub(crate) struct Score {
    gain: u128,
    /// In parts of 2^-20, and at least 1.
    length: u64,
}

/// The square of an entry, in parts of 2^-20.
pub(crate) fn square(entry: Fraction) -> u64 {
    let size = (entry.value().unsigned_abs() >> LEFT_OUT).min(MOST_ENTRY);
    size * size
}

// The square of the length of a unit in some direction, in parts of 2^-20.
fn length_of(direction: &[Fraction]) -> u64 {
    let mut length: u64 = 1 << 20;
    for entry in direction {
        length = length.saturating_add(square(*entry));
    }
    length
}

impl Score {
    /// The score of what a unit gains, and the square of its length.
    pub(crate) fn new(gain: u64, length: u64) -> Score {
        let gain = u128::from(gain.min(MOST_GAIN));
        Score {
            gain: gain.saturating_mul(gain),
            length,
        }
    }

    /// Whether it is better than another one.
    pub(crate) fn is_better(&self, other: &Score) -> bool {
        let left = self.gain.saturating_mul(u128::from(other.length >> 20));
        let right = other.gain.saturating_mul(u128::from(self.length >> 20));
        left > right
    }
}

// Whether a column may enter.
fn may_enter(selection: &Selection, basis: &Basis, resting: &Resting, column: ColumnId) -> bool
    requires { IsBasis (length selection.now.rows.items) basis.now }
{
    let number = column.number();
    !basis.basic[number] && !selection.forbidden[number] && !resting.has(Variable::Column(column))
}

// Lists a variable if its reduced cost is low enough.
fn offer(shortlist: &mut Shortlist, variable: Variable, reduced: Amount, tolerance: Amount) {
    if reduced.value() < -tolerance.value() {
        shortlist.offer(Candidate { reduced, variable });
    }
}

// Lists the columns of least reduced cost of all in use, and answers how many entries were touched.
fn list_columns(
    store: &Store,
    selection: &Selection,
    basis: &Basis,
    resting: &Resting,
    tolerance: Amount,
    list: &mut Shortlist,
) -> u64
    requires { IsBasis (length selection.now.rows.items) basis.now }
{
    let mut touched: u64 = 0;
    for column in &selection.columns {
        if may_enter(selection, basis, resting, *column) {
            let reduced = column_reduced_cost(store, selection, &basis.multipliers, *column);
            offer(list, Variable::Column(*column), reduced, tolerance);
            touched = touched.saturating_add(store.entries(*column).len() as u64);
        }
    }
    touched
}

// Lists a variable of the list if it may still enter.
fn offer_again(
    store: &Store,
    selection: &Selection,
    basis: &Basis,
    resting: &Resting,
    variable: Variable,
    tolerance: Amount,
    front: &mut Shortlist,
)
    requires { IsBasis (length selection.now.rows.items) basis.now }
{
    if let Variable::Column(column) = variable {
        if may_enter(selection, basis, resting, column) {
            let reduced = column_reduced_cost(store, selection, &basis.multipliers, column);
            offer(front, variable, reduced, tolerance);
        }
    }
}

// Lists the variables of the list that may still enter.
fn look_at_list(
    store: &Store,
    selection: &Selection,
    basis: &Basis,
    resting: &Resting,
    list: &Shortlist,
    tolerance: Amount,
    front: &mut Shortlist,
)
    requires { IsBasis (length selection.now.rows.items) basis.now }
{
    for candidate in list.items() {
        let variable = candidate.variable;
        offer_again(store, selection, basis, resting, variable, tolerance, front);
    }
}

// Lists a unit if it may enter.
fn offer_unit(
    store: &Store,
    selection: &Selection,
    basis: &Basis,
    resting: &Resting,
    variable: Variable,
    tolerance: Amount,
    front: &mut Shortlist,
)
    requires { IsBasis (length selection.now.rows.items) basis.now }
{
    let reduced = reduced_cost(store, selection, &basis.multipliers, variable);
    if !resting.has(variable) {
        offer(front, variable, reduced, tolerance);
    }
}

// Lists the units that may enter.
fn look_at_units(
    store: &Store,
    selection: &Selection,
    basis: &Basis,
    resting: &Resting,
    tolerance: Amount,
    front: &mut Shortlist,
)
    requires { IsBasis (length selection.now.rows.items) basis.now }
{
    for row in &selection.rows {
        let surplus = Variable::Surplus(*row);
        offer_unit(store, selection, basis, resting, surplus, tolerance, front);
        let penalty = Variable::Penalty(*row);
        offer_unit(store, selection, basis, resting, penalty, tolerance, front);
    }
}

// Lists the variables of the list and the units that may enter. It answers whether there are some.
fn look(
    store: &Store,
    selection: &Selection,
    basis: &mut Basis,
    space: &mut Workspace,
    tolerance: Amount,
) -> bool
    requires { IsBasis (length selection.now.rows.items) basis.old }
    ensures { IsBasis (length selection.now.rows.items) basis.new }
{
    let front = &mut space.front;
    front.clear();
    look_at_list(
        store,
        selection,
        basis,
        &space.resting,
        &space.list,
        tolerance,
        front,
    );
    look_at_units(store, selection, basis, &space.resting, tolerance, front);
    basis.work = more_work(basis.work, selection.rows.len());
    !space.front.items().is_empty()
}

// Makes the list anew from all columns in use, and looks at it. It answers whether some variable may enter.
fn look_anew(
    store: &Store,
    selection: &Selection,
    basis: &mut Basis,
    space: &mut Workspace,
    tolerance: Amount,
) -> bool
    requires { IsBasis (length selection.now.rows.items) basis.old }
    ensures { IsBasis (length selection.now.rows.items) basis.new }
{
    let list = &mut space.list;
    list.clear();
    let touched = list_columns(store, selection, basis, &space.resting, tolerance, list);
    basis.work = basis.work.saturating_add(touched);
    !space.list.items().is_empty() && look(store, selection, basis, space, tolerance)
}

// Looks at one candidate: its direction becomes that of the step if its score is better.
fn try_candidate(
    store: &Store,
    selection: &Selection,
    inverse: &[Fraction],
    space: &mut Workspace,
    candidate: Candidate,
    best: Option<(Candidate, Score)>,
) -> Option<(Candidate, Score)>
    requires { length selection.now.rows.items * program_row_limit ≤ length inverse.now }
{
    write_direction(
        store,
        selection,
        inverse,
        candidate.variable,
        &mut space.sums,
        &mut space.trial,
    );
    let length = length_of(&space.trial[..selection.rows.len()]);
    let score = Score::new(candidate.reduced.value().unsigned_abs(), length);
    match best {
        Some((_, other)) if !score.is_better(&other) => best,
        _ => {
            mem::swap(&mut space.direction, &mut space.trial);
            Some((candidate, score))
        }
    }
}

// The candidate of the best score, whose direction is written.
fn choose(
    store: &Store,
    selection: &Selection,
    inverse: &[Fraction],
    space: &mut Workspace,
) -> Option<Candidate>
    requires { length selection.now.rows.items * program_row_limit ≤ length inverse.now }
{
    let mut best = None;
    for place in 0..space.front.items().len() {
        if let Some(candidate) = space.front.at(place) {
            best = try_candidate(store, selection, inverse, space, candidate, best);
        }
    }
    best.map(|(candidate, _)| candidate)
}

/// The variable that enters, whose direction is written, or `None` if no reduced cost is low enough: of the six of
/// least reduced cost that of the greatest gain for its length (steepest edge, Goldfarb and Reid 1977). Columns come
/// from a short list that is made anew if it has none.
pub(crate) fn entering(
    store: &Store,
    selection: &Selection,
    basis: &mut Basis,
    space: &mut Workspace,
    tolerance: Amount,
) -> Option<Candidate>
    requires { IsBasis (length selection.now.rows.items) basis.old }
    ensures { IsBasis (length selection.now.rows.items) basis.new }
{
    let found = look(store, selection, basis, space, tolerance)
        || look_anew(store, selection, basis, space, tolerance);
    if !found {
        return None;
    }
    let each = 20 * selection.rows.len();
    let entries = each.saturating_mul(space.front.items().len());
    basis.work = more_work(basis.work, entries);
    choose(store, selection, &basis.inverse, space)
}
