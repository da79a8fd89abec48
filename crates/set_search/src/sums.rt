// What a set adds up to.

#[derive(Clone, Copy)]
pub(crate) struct Sums {
    // What the links over the border add up to.
    pub(crate) cut: i64,
    // The demand of the members and of the links that touch the set.
    pub(crate) demand: i64,
    // How many required edges cross the border.
    pub(crate) required: i64,
    // How many elements are inside.
    pub(crate) members: i64,
}

pub(crate) const NOTHING: Sums = Sums {
    cut: 0,
    demand: 0,
    required: 0,
    members: 0,
};

impl Sums {
    pub(crate) fn plus(self, change: Sums) -> Sums {
        Sums {
            cut: self.cut.saturating_add(change.cut),
            demand: self.demand.saturating_add(change.demand),
            required: self.required.saturating_add(change.required),
            members: self.members.saturating_add(change.members),
        }
    }

    pub(crate) fn negated(self) -> Sums {
        Sums {
            cut: self.cut.saturating_neg(),
            demand: self.demand.saturating_neg(),
            required: self.required.saturating_neg(),
            members: self.members.saturating_neg(),
        }
    }
}
