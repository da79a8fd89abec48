// Surcharges, copied into a grid.
ghost use Rattle.std.specs.Prelude.{◌≡◌, ℕ, ◌+◌, ◌*◌, ◌<◌, ◌≤◌, length, slice_index, slice_index_or, ℤ, pos, ◌+ℤ◌, All};
ghost use Rattle.route_pricing.specs.declared.charging.Charge.TheVariants.{Free};
ghost use Rattle.route_pricing.specs.Partial.{base, least_raised};
ghost use Rattle.route_pricing.specs.Pricing.{AreSurcharges, IsSurcharge};
ghost use Rattle.route_pricing.specs.Charging.{AreCharged, Holds, HoldsOfRow};

use crate::grid::BASE;

// What each surcharge is raised by.
const RAISE: u64 = 2_305_843_009_213_693_952;

// What is known of the surcharges of an edge with all required edges.
#[derive(Clone, Copy)]
pub(crate) enum Charge {
    // It has none.
    Free,
    // None is below 0.
    Charged,
    // Nothing.
    Gained,
}

impl Charge {
    // The least raised surcharge of an edge of which this is known.
    pub(crate) fn least_raised(self) -> u128
        ensures { result ≡ least_raised self }
    {
        match self {
            Charge::Free | Charge::Charged => BASE,
            Charge::Gained => 0,
        }
    }

    // What is known of these and of one more.
    fn with(self, surcharge: &i64) -> Charge
        ensures one { Holds result surcharge.now }
        ensures kept { (z : ℤ) → Holds self z → Holds result z }
    {
        if *surcharge < 0 {
            return Charge::Gained;
        }
        if *surcharge == 0 {
            return self;
        }
        match self {
            Charge::Gained => Charge::Gained,
            _ => Charge::Charged,
        }
    }
}

// Copies surcharges, a row for each edge, or none at all, which takes a step for each edge.
pub(crate) fn copy_surcharges(
    charges: &mut [Charge],
    raised: &mut [u64],
    surcharges: &[i64],
    required: usize,
)
    requires charges { length charges.old ≡ required }
    requires raised { length raised.old ≡ required * required }
    requires few { required ≤ 600 }
    requires surcharges { AreSurcharges required surcharges.now }
    ensures { AreCharged required surcharges.now charges.new raised.new }
{
    if surcharges.is_empty() {
        charges.fill(Charge::Free);
        return;
    }
    raise(raised, surcharges);
    list_charges(charges, surcharges, required);
}

// Each surcharge raised, so that none is negative.
fn raise(raised: &mut [u64], surcharges: &[i64])
    requires long { length raised.old ≡ length surcharges.now }
    requires small { All IsSurcharge surcharges.now }
    ensures long { length raised.new ≡ length surcharges.now }
    ensures value { (i : ℕ) → i < length surcharges.now → pos (slice_index raised.new i) ≡ slice_index_or surcharges.now i (pos 0) +ℤ pos base }
    ensures small { (i : ℕ) → i < length surcharges.now → slice_index raised.new i ≤ 2 * base }
{
    for place in 0..surcharges.len() {
        raised[place] = raised_by_base(&surcharges[place]);
    }
}

fn raised_by_base(surcharge: &i64) -> u64
    requires { IsSurcharge surcharge.now }
    ensures value { pos result ≡ surcharge.now +ℤ pos base }
    ensures small { result ≤ 2 * base }
{
    let size = surcharge.unsigned_abs();
    if *surcharge < 0 {
        RAISE - size
    } else {
        RAISE + size
    }
}

// What is known of the surcharges of each edge.
fn list_charges(charges: &mut [Charge], surcharges: &[i64], required: usize)
    requires charges { length charges.old ≡ required }
    requires few { required ≤ 600 }
    requires long { length surcharges.now ≡ required * required }
    ensures long { length charges.new ≡ required }
    ensures each { (f : ℕ) → f < required → HoldsOfRow surcharges.now required f required (slice_index_or charges.new f Free) }
{
    for row in 0..required {
        charges[row] = charge_of(surcharges, required, row);
    }
}

fn charge_of(surcharges: &[i64], required: usize, row: usize) -> Charge
    requires few { required ≤ 600 }
    requires long { length surcharges.now ≡ required * required }
    requires row { row < required }
    ensures { HoldsOfRow surcharges.now required row required result }
{
    let mut charge = Charge::Free;
    for column in 0..required {
        charge = charge.with(&surcharges[row * required + column]);
    }
    charge
}
