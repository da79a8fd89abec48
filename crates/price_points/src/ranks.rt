// Weights in the order of their shares of the value.

/// The place of a weight, with its share of the value.
#[derive(Clone, Copy)]
pub struct Ranked {
    // The negative of the share.
    key: i128,
    /// The place.
    pub place: usize,
}

impl Ranked {
    /// A weight that counts so often, at a place.
    pub fn new(weight: i64, number: i64, place: usize) -> Ranked {
        let share = i128::from(weight).saturating_mul(i128::from(number));
        Ranked {
            key: share.saturating_neg(),
            place,
        }
    }
}

/// Sorts by falling shares. For n of them it takes about `n * log n` steps and no memory.
pub fn sort_by_share(ranks: &mut [Ranked]) {
    ranks.sort_unstable_by_key(|rank| rank.key);
}
