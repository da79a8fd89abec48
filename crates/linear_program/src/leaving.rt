// Which basis place leaves in the primal method: the greatest entry among those of nearly the least ratio (Harris
// 1973).
ghost use Rattle.std.specs.Prelude.{◌≡◌, ◌<◌, IfSome, length};

use crate::fixed::{Amount, Fraction, LEAST_PIVOT, ONE, product};

// What an activity may pass 0 by.
const ROOM: i64 = ONE >> 26;

// An activity divided by an entry above 0.
#[derive(Clone, Copy)]
struct Ratio {
    activity: i64,
    entry: i64,
}

// The lower one of two ratios.
fn lower(best: Option<Ratio>, next: Ratio) -> Ratio {
    match best {
        Some(best) if product(best.activity, next.entry) <= product(next.activity, best.entry) => {
            best
        }
        _ => next,
    }
}

// The least ratio with a little room, of all entries that are great enough.
fn least_ratio(activities: &[Amount], direction: &[Fraction]) -> Option<Ratio> {
    let mut best = None;
    for (activity, entry) in activities.iter().zip(direction) {
        let entry = entry.value();
        if entry >= LEAST_PIVOT {
            let activity = activity.value().max(0) + ROOM;
            best = Some(lower(best, Ratio { activity, entry }));
        }
    }
    best
}

// The place of the greatest entry whose ratio is at most this one.
fn greatest_within(activities: &[Amount], direction: &[Fraction], most: Ratio) -> Option<usize>
    requires { length activities.now ≡ length direction.now }
    ensures { IfSome result (λ place. place < length direction.now) }
{
    let mut best = None;
    let mut greatest = LEAST_PIVOT - 1;
    for place in 0..direction.len() {
        let entry = direction[place].value();
        if entry > greatest {
            let activity = activities[place].value().max(0);
            if product(activity, most.entry) <= product(most.activity, entry) {
                greatest = entry;
                best = Some(place);
            }
        }
    }
    best
}

/// The place whose activity comes to 0 first, nearly, or `None` if none does.
pub(crate) fn leaving(activities: &[Amount], direction: &[Fraction]) -> Option<usize>
    requires { length activities.now ≡ length direction.now }
    ensures { IfSome result (λ place. place < length direction.now) }
{
    match least_ratio(activities, direction) {
        Some(ratio) => greatest_within(activities, direction, ratio),
        None => None,
    }
}
