// An element beside a set.
use crate::ground::{Element, Leaving, Link};
use crate::sums::{NOTHING, Sums};

#[derive(Clone, Copy)]
pub(crate) struct Place {
    pub(crate) inside: bool,
    // Whether it stays outside.
    fixed: bool,
    // What the sums gain if it changes sides.
    pub(crate) change: Sums,
    // The ties of all its links, and of those that cross the border.
    ties: i64,
    crossing: i64,
    // The step before which it rests.
    pub(crate) rests: u32,
    // A number at random; those of a set together tell it from other sets.
    pub(crate) name: u64,
}

impl Place {
    // An element beside the empty set.
    pub(crate) fn new(element: &Element, name: u64) -> Place {
        let mut place = Place {
            inside: false,
            fixed: element.fixed,
            change: Sums {
                demand: element.demand,
                members: 1,
                ..NOTHING
            },
            ties: 0,
            crossing: 0,
            rests: 0,
            name,
        };
        for link in &element.links {
            place = place.with_link(*link);
        }
        place
    }

    // With one link more, beside the empty set.
    fn with_link(self, link: Link) -> Place {
        let more = Sums {
            cut: link.cut,
            demand: link.demand,
            required: link.required,
            members: 0,
        };
        Place {
            change: self.change.plus(more),
            ties: self.ties.saturating_add(link.tie),
            ..self
        }
    }

    // After the element at the other end of a link has come inside, or gone outside.
    pub(crate) fn beside(self, link: Link, comes: bool) -> Place {
        // If both are on one side now, a change of sides makes the link cross and no longer keeps it from doing so.
        let sign: i64 = if comes == self.inside { 1 } else { -1 };
        let more = Sums {
            cut: link.cut.saturating_mul(2 * sign),
            demand: link.demand.saturating_mul(sign),
            required: link.required.saturating_mul(2 * sign),
            members: 0,
        };
        Place {
            change: self.change.plus(more),
            crossing: self.crossing.saturating_sub(link.tie.saturating_mul(sign)),
            ..self
        }
    }

    // After it has changed sides itself.
    pub(crate) fn turned(self) -> Place {
        Place {
            inside: !self.inside,
            change: self.change.negated(),
            crossing: self.ties.saturating_sub(self.crossing),
            ..self
        }
    }

    // Whether it may be chosen to change sides.
    pub(crate) fn is_free(&self, leaving: Leaving) -> bool {
        !self.fixed && (0 < self.crossing || (self.inside && leaving == Leaving::Anywhere))
    }
}
