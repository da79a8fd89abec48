// A set that changes by one element at a time.

use crate::aims::Aim;
use crate::ground::{Ground, UNIT};
use crate::places::Place;
use crate::sums::{NOTHING, Sums};
use carp_base::Memory;
use rand_core::Rng;
use rand_pcg::Lcg64Xsh32;
use std::alloc::Global;

// A set, with what each change of one element would add to its sums.
#[derive(Drop)]
pub(crate) struct Growing {
    places: Vec<Place>,
    // The same of the empty set.
    empty: Vec<Place>,
    pub(crate) sums: Sums,
    pub(crate) key: u64,
    // How many places and links were looked at.
    pub(crate) work: u64,
}

// An element that is to change sides, and the value of that.
#[derive(Clone, Copy)]
pub(crate) struct Choice {
    pub(crate) element: usize,
    pub(crate) value: i64,
}

impl Growing {
    // The empty set. It takes time and memory in proportion to the elements, and time in proportion to the links.
    pub(crate) fn new(
        alloc: Global,
        ground: &Ground,
        generator: &mut Lcg64Xsh32,
    ) -> Result<Growing, Memory> {
        let mut empty = Vec::with_capacity(alloc, ground.elements.len())?;
        for element in &ground.elements {
            empty.push(Place::new(element, generator.next_u64()))?;
        }
        Ok(Growing {
            places: Vec::from_slice(alloc, &empty)?,
            empty,
            sums: NOTHING,
            key: 0,
            work: 0,
        })
    }

    // Counts that so many places and links were looked at.
    pub(crate) fn count(&mut self, looks: usize) {
        self.work = self.work.saturating_add(looks as u64);
    }

    // Makes the set empty.
    pub(crate) fn clear(&mut self) {
        if self.places.len() == self.empty.len() {
            self.places.copy_from_slice(&self.empty);
        }
        self.sums = NOTHING;
        self.key = 0;
    }

    // Notes at the elements beside an element that it comes inside, or goes outside.
    fn pass_on(&mut self, ground: &Ground, v: usize, comes: bool) {
        let Some(element) = ground.elements.get(v) else {
            return;
        };
        self.count(element.links.len());
        for link in &element.links {
            if link.to < self.places.len() {
                self.places[link.to] = self.places[link.to].beside(*link, comes);
            }
        }
    }

    // Moves an element to the other side, in time in proportion to its links.
    pub(crate) fn move_element(&mut self, ground: &Ground, v: usize) {
        if self.places.len() <= v {
            return;
        }
        let place = self.places[v];
        self.sums = self.sums.plus(place.change);
        self.key ^= place.name;
        self.places[v] = place.turned();
        self.pass_on(ground, v, !place.inside);
    }

    // Moves each of these elements to the other side.
    pub(crate) fn move_all(&mut self, ground: &Ground, elements: &[u32]) {
        for v in elements {
            self.move_element(ground, *v as usize);
        }
    }

    // Makes the set that of the marked elements, without place 0.
    pub(crate) fn load(&mut self, ground: &Ground, marks: &[bool]) {
        self.clear();
        for (v, marked) in marks.iter().enumerate() {
            if *marked && v != 0 {
                self.move_element(ground, v);
            }
        }
    }

    // Lets an element rest until a step.
    pub(crate) fn rest(&mut self, v: usize, until: u32) {
        if v < self.places.len() {
            self.places[v].rests = until;
        }
    }

    // The element whose change of sides has the least value, if one may be chosen: the first of these.
    fn least(&self, ground: &Ground, aim: Aim) -> Option<Choice> {
        let mut least: Option<Choice> = None;
        for (element, place) in self.places.iter().enumerate() {
            if element == 0 || !place.is_free(ground.leaving) {
                continue;
            }
            if let Some(value) = aim.value(self.sums, place)
                && least.is_none_or(|choice| value < choice.value)
            {
                least = Some(Choice { element, value });
            }
        }
        least
    }

    // The same, with each place counted.
    pub(crate) fn choose(&mut self, ground: &Ground, aim: Aim) -> Option<Choice> {
        let looks = self.places.len();
        self.count(looks);
        self.least(ground, aim)
    }

    // Which elements are inside: a mark for each place.
    pub(crate) fn marks(&self, alloc: Global) -> Result<Vec<bool>, Memory> {
        let mut marks = Vec::with_capacity(alloc, self.places.len())?;
        for place in &self.places {
            marks.push(place.inside)?;
        }
        Ok(marks)
    }

    // Whether no element is inside.
    pub(crate) fn is_empty(&self) -> bool {
        self.sums.members <= 0
    }

    // Two crossings for each of so many vehicles, less the cut.
    pub(crate) fn lack(&self, vehicles: i64) -> i64 {
        vehicles
            .saturating_mul(2 * UNIT)
            .saturating_sub(self.sums.cut)
    }

    // By how much the cut is less than so many vehicles and the parity of the required edges ask for.
    pub(crate) fn shortfall(&self, vehicles: i64) -> i64 {
        let sums = self.sums;
        let lack = self.lack(vehicles);
        if sums.required & 1 == 0 {
            return lack;
        }
        let deadheads = sums.cut.saturating_sub(sums.required.saturating_mul(UNIT));
        lack.max(UNIT.saturating_sub(deadheads))
    }
}
