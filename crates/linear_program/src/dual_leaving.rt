// Which basis place leaves in the dual method.
ghost use Rattle.std.specs.Prelude.{◌≡◌, ◌*◌, ◌<◌, ◌≤◌, ◌^◌, ◌⊎◌, IfSome, length};
ghost use Rattle.std.specs.Int.RustNames.{unsigned_abs};
ghost use Rattle.linear_program.specs.Limits.{program_row_limit};
ghost use Rattle.linear_program.specs.Bases.{IsBasis};

use crate::basis::{Basis, more_work};
use crate::entering::{Score, square};
use crate::fixed::{Fraction, ONE};
use crate::selection::{MOST_ROWS, Selection, Variable};

// An activity passes its bound if it is beyond it by more than this.
const LEAST_EXCESS: i64 = ONE >> 20;

/// A place that leaves.
#[derive(Clone, Copy)]
pub(crate) struct Leaving {
    pub place: usize,
    /// Whether its activity is to fall: that of a forbidden column, which is above 0.
    pub falls: bool,
}

// A place that may leave.
#[derive(Clone, Copy)]
struct Choice {
    place: usize,
    score: Score,
}

// Whether the variable is a forbidden column.
fn is_forbidden(selection: &Selection, variable: Variable) -> bool {
    match variable {
        Variable::Column(column) => selection.forbidden[column.number()],
        _ => false,
    }
}

// The square of the length of the column of a basis place in the inverse, in parts of 2^-20.
fn length_of(inverse: &[Fraction], rows: usize, place: usize) -> u64
    requires rows { rows * program_row_limit ≤ length inverse.now }
    requires place { place < program_row_limit }
{
    let mut length: u64 = 1 << 20;
    for row in 0..rows {
        length = length.saturating_add(square(inverse[row * MOST_ROWS + place]));
    }
    length
}

// Whether the activity at a place is to fall.
fn falls_at(selection: &Selection, basis: &Basis, place: usize) -> bool
    requires basis { IsBasis (length selection.now.rows.items) basis.now }
    requires place { place < program_row_limit }
{
    basis.activities[place].value() > 0 && is_forbidden(selection, basis.variables[place])
}

// By how much the activity at a place passes its bound.
fn excess_at(selection: &Selection, basis: &Basis, place: usize) -> i64
    requires basis { IsBasis (length selection.now.rows.items) basis.now }
    requires place { place < program_row_limit }
    ensures { unsigned_abs result ≤ 2 ^ 61 }
{
    let activity = basis.activities[place].value();
    if falls_at(selection, basis, place) {
        activity
    } else {
        -activity
    }
}

/// The place whose activity passes its bound by the most for its length (dual steepest edge, Forrest and Goldfarb
/// 1992), or `None` if none passes it.
pub(crate) fn dual_leaving(selection: &Selection, basis: &mut Basis) -> Option<Leaving>
    requires { IsBasis (length selection.now.rows.items) basis.old }
    ensures basis { IsBasis (length selection.now.rows.items) basis.new }
    ensures place { IfSome result (λ leaving. leaving.place < length selection.now.rows.items) }
{
    let rows = selection.rows.len();
    let mut best: Option<Choice> = None;
    let mut looked_at: usize = 0;
    for place in 0..rows {
        let excess = excess_at(selection, basis, place);
        if excess > LEAST_EXCESS {
            looked_at += 1;
            let score = Score::new(
                excess.unsigned_abs(),
                length_of(&basis.inverse, rows, place),
            );
            best = better(best, Choice { place, score });
        }
    }
    basis.work = more_work(basis.work, looked_at * (rows / 2));
    match best {
        Some(choice) => Some(Leaving {
            place: choice.place,
            falls: falls_at(selection, basis, choice.place),
        }),
        None => None,
    }
}

// The better one of two places, or else the first.
fn better(best: Option<Choice>, next: Choice) -> Option<Choice>
    ensures { (result ≡ best) ⊎ (result ≡ Some next) }
{
    match best {
        Some(other) if !next.score.is_better(&other.score) => best,
        _ => Some(next),
    }
}
