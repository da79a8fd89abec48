// How far steps go, and when the ascent turns back or ends.

// How many steps may bring no record before the ascent goes back to it.
const PATIENCE: u32 = 12;

// The length of steps in 1,024ths, at first and at least.
const FIRST: i64 = 4096;

const LEAST: i64 = 8;

// By so much a value has to be above the record: a thousandth of a unit of cost.
const HARDLY: i128 = 1_000;

// By so much at least the target is above the record: one unit of cost.
const CLOSE: i128 = 1_000_000;

/// What follows a step.
#[derive(Clone, Copy, Debug, PartialEq, Eq)]
pub(crate) enum Turn {
    /// The point is the best of all.
    Record,
    /// The ascent goes on.
    On,
    /// It goes back to the record, and makes shorter steps.
    Back,
    /// It ends.
    End,
}

/// The record, and what follows from it for the next step.
#[derive(Clone, Copy)]
pub(crate) struct StepSize {
    record: i128,
    target: i128,
    length: i64,
    since: u32,
}

impl StepSize {
    /// No record yet.
    pub(crate) fn new() -> StepSize {
        StepSize {
            record: i128::MIN,
            target: i128::MIN,
            length: FIRST,
            since: 0,
        }
    }

    /// Takes the value of the point, and answers what follows.
    pub(crate) fn take(&mut self, value: i128) -> Turn {
        if value > self.record.saturating_add(HARDLY) {
            self.renew(value);
            return Turn::Record;
        }
        self.since = self.since.saturating_add(1);
        if self.since < PATIENCE {
            return Turn::On;
        }
        self.since = 0;
        self.length = self.length / 4 * 3;
        if self.length < LEAST {
            Turn::End
        } else {
            Turn::Back
        }
    }

    // Sets a record. Where it is a large one, the count begins anew.
    fn renew(&mut self, value: i128) {
        let way = self.target.saturating_sub(self.record);
        if value.saturating_sub(self.record) > way / 8 {
            self.since = 0;
        }
        self.record = value;
        self.target = value.saturating_add(CLOSE.max(value.saturating_abs() / 50));
    }

    /// How far the next step goes from a point of this value, in parts of the denominator.
    pub(crate) fn next_length(&self, value: i128) -> i128 {
        let way = self.target.saturating_sub(value);
        way.saturating_mul(i128::from(self.length)) / 1024
    }
}
