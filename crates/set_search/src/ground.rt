// The elements that sets are made of, and the links between them.

/// One crossing of a border by a vehicle, in parts.
pub const UNIT: i64 = 1 << 20;

/// A link as it is seen from one of the two elements that it joins.
#[derive(Clone, Copy, Debug, PartialEq, Eq)]
pub struct Link {
    /// The place of the element at the other end.
    pub to: usize,
    /// What it adds to the cut of a set that it leads out of, in parts of [`UNIT`].
    pub cut: i64,
    /// Its demand, which counts for a set with at least one of its ends.
    pub demand: i64,
    /// How many required edges it stands for: 0 or 1.
    pub required: i64,
    /// By how much it ties its ends to each other: above 0 if one may follow the other into a set.
    pub tie: i64,
}

/// An element.
#[derive(Drop)]
pub struct Element {
    /// Whether it is never chosen to come into a set.
    pub fixed: bool,
    /// Its demand, besides that of its links.
    pub demand: i64,
    /// Its links to others.
    pub links: Vec<Link>,
}

/// Which members may be chosen to go out of a set.
#[derive(Clone, Copy, Debug, PartialEq, Eq)]
pub enum Leaving {
    /// Those with a tie over the border.
    AtBorder,
    /// All.
    Anywhere,
}

/// All elements, by their places from 0. Place 0 stands for none: it is never chosen to come in.
#[derive(Drop)]
pub struct Ground {
    pub(crate) elements: Vec<Element>,
    pub(crate) leaving: Leaving,
    capacity: u64,
}

impl Ground {
    /// These elements, for vehicles of a capacity of 1 or more.
    pub fn new(elements: Vec<Element>, capacity: u64, leaving: Leaving) -> Ground {
        Ground {
            elements,
            leaving,
            capacity,
        }
    }

    // The capacity as a signed number.
    pub(crate) fn load(&self) -> i64 {
        i64::try_from(self.capacity).unwrap_or(i64::MAX)
    }

    /// How many vehicles a demand takes.
    pub fn vehicles(&self, demand: i64) -> i64 {
        let demand = u64::try_from(demand).unwrap_or(0);
        i64::try_from(demand.div_ceil(self.capacity.max(1))).unwrap_or(i64::MAX)
    }
}
