// Which row leaves the tableau.
ghost use Rattle.std.specs.Prelude.{◌≡◌, ◌*◌, ◌<◌, ◌⊎◌, ◌+◌, length, IfSome};
ghost use Rattle.shore_program.specs.Tableaus.{IsRatio};

use crate::fixed::product;
use crate::tableau::{COLUMNS, Row};

// The least entry by which is divided, 2^-12.
const LEAST_PIVOT: i64 = 1 << 28;

/// A row that bounds the variable of a column by its level divided by its entry.
#[derive(Clone, Copy)]
pub(crate) struct Ratio {
    pub row: usize,
    /// The level of the row, or 0 if it is below 0.
    pub level: i64,
    /// The entry of the row, above 0.
    pub pivot: i64,
}

// The lower of two ratios; of equal ones that of the greater entry, or else the first.
fn lower(best: Ratio, next: Ratio) -> Ratio
    ensures { (result ≡ best) ⊎ (result ≡ next) }
{
    let left = product(next.level, best.pivot);
    let right = product(best.level, next.pivot);
    if left < right || left == right && next.pivot > best.pivot {
        next
    } else {
        best
    }
}

// The ratio of a row, where its entry is great enough.
fn ratio_at(rows: &[Row], row: usize, pivot: i64) -> Option<Ratio>
    requires { row < length rows.now }
    ensures { IfSome result (IsRatio (row + 1)) }
{
    if pivot < LEAST_PIVOT {
        return None;
    }
    Some(Ratio {
        row,
        level: rows[row].level.max(0),
        pivot,
    })
}

// The lower of two ratios, where there are some.
fn lower_of(best: Option<Ratio>, next: Option<Ratio>) -> Option<Ratio>
    ensures { (result ≡ best) ⊎ (result ≡ next) }
{
    match (best, next) {
        (Some(best), Some(next)) => Some(lower(best, next)),
        (best, None) => best,
        (None, next) => next,
    }
}

/// The least ratio of a column, or `None` if no row bounds it.
pub(crate) fn least_ratio(entries: &[i64], rows: &[Row], column: usize) -> Option<Ratio>
    requires entries { length entries.now ≡ length rows.now * 1200 }
    requires column { column < 1200 }
    ensures { IfSome result (IsRatio (length rows.now)) }
{
    let mut best = None;
    for row in 0..rows.len() {
        let next = ratio_at(rows, row, entries[row * COLUMNS + column]);
        best = lower_of(best, next);
    }
    best
}
