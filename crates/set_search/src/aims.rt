// Which element is to change sides next: that of least value.
use crate::ground::UNIT;
use crate::places::Place;
use crate::sums::Sums;

// In what order elements come into a set.
#[derive(Clone, Copy)]
pub(crate) enum Joining {
    // The least cut first, and then the most demand.
    LeastCut {
        scale: i64,
    },
    // The least cut less what the demand is worth.
    MostDemand {
        capacity: i64,
    },
    // The least cut, if demand that passes what is carried so far is worth two crossings; and then the least demand, if
    // it has a weight.
    NextVehicle {
        scale: i64,
        weight: i64,
        carried: i64,
    },
}

impl Joining {
    fn value(self, sums: Sums, change: Sums) -> i64 {
        match self {
            Joining::LeastCut { scale } => change
                .cut
                .saturating_mul(scale)
                .saturating_sub(change.demand),
            Joining::MostDemand { capacity } => change
                .cut
                .saturating_mul(capacity)
                .saturating_sub(change.demand.saturating_mul(2 * UNIT)),
            Joining::NextVehicle {
                scale,
                weight,
                carried,
            } => {
                let passes = carried < sums.demand.saturating_add(change.demand);
                let prize = if passes { 2 * UNIT } else { 0 };
                change
                    .cut
                    .saturating_sub(prize)
                    .saturating_mul(scale)
                    .saturating_add(change.demand.saturating_mul(weight))
            }
        }
    }
}

// A demand that is to be reached with a small cut.
#[derive(Clone, Copy)]
pub(crate) struct Target {
    pub(crate) capacity: i64,
    pub(crate) wanted: i64,
    pub(crate) step: u32,
    // An element that rests moves only to a value below this one.
    pub(crate) record: i64,
}

impl Target {
    fn value(self, sums: Sums, place: &Place) -> Option<i64> {
        let after = sums.plus(place.change);
        let missing = self.wanted.saturating_sub(after.demand).max(0);
        let value = after
            .cut
            .saturating_mul(self.capacity)
            .saturating_add(missing.saturating_mul(6 * UNIT));
        (place.rests <= self.step || value < self.record).then_some(value)
    }
}

#[derive(Clone, Copy)]
pub(crate) enum Aim {
    // Elements come in.
    Join(Joining),
    // Elements come in or go out.
    Reach(Target),
}

impl Aim {
    // The value of a change of sides, and `None` if the element stays.
    pub(crate) fn value(self, sums: Sums, place: &Place) -> Option<i64> {
        match self {
            Aim::Reach(target) => target.value(sums, place),
            Aim::Join(_) if place.inside => None,
            Aim::Join(joining) => Some(joining.value(sums, place.change)),
        }
    }
}
