// Columns that are let go, so that a tableau stays small.
ghost use Rattle.std.specs.Prelude.{◌≡◌, ◌⊎◌, ◌<◌, ◌≤◌, IfSome, length};
ghost use Rattle.shore_program.specs.Tableaus.{AreTrimmed, IsIdle, KeepsColumns, Shrinks};

use crate::cuts::Cut;
use crate::fixed::ONE;
use crate::tableau::{Column, Row, Tableau, Variable};

// A shore whose column gains more than this, a thousandth, stays.
const LITTLE_LOSS: i64 = -ONE / 1000;

// So many shores may have a column.
const MOST_IDLE: usize = 800;

// Where there are more, so many stay.
const KEPT: usize = 400;

/// A shore that has a column, and so no weight.
#[derive(Clone, Copy)]
pub(crate) struct Idle {
    pub column: usize,
    pub shore: usize,
    pub gain: i64,
}

// The shore of a column.
fn idle_at(columns: &[Column], column: usize, shores: usize) -> Option<Idle>
    requires { column < length columns.now }
    ensures { IfSome result (IsIdle (length columns.now) shores) }
{
    let Column { variable, gain } = columns[column];
    match variable {
        Variable::Weight(shore) if (shore as usize) < shores => Some(Idle {
            column,
            shore: shore as usize,
            gain,
        }),
        _ => None,
    }
}

// The one that gains less.
fn worse(worst: Option<Idle>, next: Option<Idle>) -> Option<Idle>
    ensures { (result ≡ worst) ⊎ (result ≡ next) }
{
    match (worst, next) {
        (Some(worst), Some(next)) if next.gain < worst.gain => Some(next),
        (None, next) => next,
        (worst, _) => worst,
    }
}

/// How many shores have a column.
pub(crate) fn count_idle(columns: &[Column]) -> usize
    ensures { result ≤ length columns.now }
{
    columns
        .iter()
        .filter(|column| matches!(column.variable, Variable::Weight(_)))
        .count()
}

// The shore with a column that gains the least.
fn worst_idle(columns: &[Column], shores: usize) -> Option<Idle>
    ensures { IfSome result (IsIdle (length columns.now) shores) }
{
    let mut worst = None;
    for column in 0..columns.len() {
        worst = worse(worst, idle_at(columns, column, shores));
    }
    worst
}

// A variable after the last shore took the place of another.
fn renamed(variable: Variable, last: usize, place: u32) -> Variable {
    match variable {
        Variable::Weight(shore) if shore as usize == last => Variable::Weight(place),
        other => other,
    }
}

fn rename_rows(rows: &mut [Row], last: usize, place: u32) {
    for row in rows.iter_mut() {
        row.variable = renamed(row.variable, last, place);
    }
}

fn rename_columns(columns: &mut [Column], last: usize, place: u32) {
    for column in columns.iter_mut() {
        column.variable = renamed(column.variable, last, place);
    }
}

// Lets a shore go with its column. The last shore takes its place.
fn let_go(tableau: &mut Tableau, cuts: &mut Vec<Cut>, idle: &Idle)
    requires idle { IsIdle (length tableau.old.columns.items) (length cuts.old.items) idle.now }
    requires keeps { KeepsColumns (length tableau.old.rows.items) cuts.old.items tableau.old }
    ensures keeps { KeepsColumns (length tableau.old.rows.items) cuts.new.items tableau.new }
    ensures shrinks { Shrinks 1 cuts.old.items cuts.new.items }
{
    tableau.remove_column(idle.column);
    let _ = cuts.swap_remove(idle.shore);
    let place = idle.shore as u32;
    rename_rows(&mut tableau.rows, cuts.len(), place);
    rename_columns(&mut tableau.columns, cuts.len(), place);
}

// Lets the shore go whose column gains the least, if that is little enough.
fn let_worst_go(tableau: &mut Tableau, cuts: &mut Vec<Cut>)
    requires { KeepsColumns (length tableau.old.rows.items) cuts.old.items tableau.old }
    ensures keeps { KeepsColumns (length tableau.old.rows.items) cuts.new.items tableau.new }
    ensures shrinks { Shrinks 1 cuts.old.items cuts.new.items }
{
    match worst_idle(&tableau.columns, cuts.len()) {
        Some(idle) if idle.gain < LITTLE_LOSS => let_go(tableau, cuts, &idle),
        _ => {}
    }
}

// Lets at most so many shores go.
fn let_some_go(tableau: &mut Tableau, cuts: &mut Vec<Cut>, count: usize)
    requires { KeepsColumns (length tableau.old.rows.items) cuts.old.items tableau.old }
    ensures keeps { KeepsColumns (length tableau.old.rows.items) cuts.new.items tableau.new }
    ensures shrinks { Shrinks count cuts.old.items cuts.new.items }
{
    for _gone in 0..count {
        let_worst_go(tableau, cuts);
    }
}

/// If more than 800 shores have a column, keeps 400 of them and lets those go whose columns gain the least.
pub(crate) fn trim(tableau: &mut Tableau, cuts: &mut Vec<Cut>)
    requires { KeepsColumns (length tableau.old.rows.items) cuts.old.items tableau.old }
    ensures keeps { KeepsColumns (length tableau.old.rows.items) cuts.new.items tableau.new }
    ensures trimmed { AreTrimmed cuts.old.items cuts.new.items }
{
    let idle = count_idle(&tableau.columns);
    if idle > MOST_IDLE {
        let_some_go(tableau, cuts, idle - KEPT);
    }
}
