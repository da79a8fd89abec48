// One line, word by word.
ghost use Rattle.std.specs.Prelude.{◌≡◌, ℕ, List, [], ◌++◌, ◌∷◌, ◌<◌, ◌≤◌, ◌&&◌, nat_le, length, OnOk, slice_index, None, Some, IsTrue, ◌↔◌};
ghost use Rattle.cert_format.specs.Parts.{no_items};
ghost use Rattle.cert_format.specs.declared.line.Form.TheVariants.{Shaped};
ghost use Rattle.cert_lines.specs.Words.{HoldsWord};
ghost use Rattle.cert_format.specs.declared.kind.Kind.TheVariants.{Tour, Shore, Prices, Weights, Bonds};
ghost use Rattle.cert_format.specs.Kinds.{field_count};
ghost use Rattle.cert_format.specs.Lists.{fields_ok, price_ok, is_within};
ghost use Rattle.cert_format.specs.LineStates.{HoldsItems, HoldsLine, IsShaped};

use crate::groups::Groups;
use crate::items::Items;
use crate::kind::{Kind, kind_of};
use arrayvec::ArrayVec;
use branch_rules::Weight;
use carp_base::Memory;
use cert_lines::{Next, Word, numerals_grow};
use plan_model::Step;
use std::alloc::Global;

// How many numbers follow the first word of a line, before its items, at most.
const MOST_FIELDS: usize = 5;

/// What the lines before a line say about what may stand on it.
#[derive(Clone, Copy, Debug, PartialEq, Eq)]
pub(crate) struct Context {
    /// Which line stands next.
    pub(crate) next: Next,
    /// How many steps the tours have, as they state it; at most 2,000,000.
    pub(crate) steps: u64,
    /// How many shores there are.
    pub(crate) shores: u64,
    /// How many price sets there are.
    pub(crate) sets: u64,
}

/// Whether a line may be one of those that may stand there.
#[derive(Clone, Copy, Debug, PartialEq, Eq)]
pub(crate) enum Form {
    /// No word has come.
    Start,
    /// No line that may stand there begins so.
    Shapeless,
    /// A line of this kind begins so.
    Shaped(Kind),
}

/// A line of which some words have come.
#[derive(Drop)]
pub(crate) struct LineState {
    pub(crate) form: Form,
    pub(crate) fields: ArrayVec<u64, MOST_FIELDS>,
    pub(crate) in_range: bool,
    pub(crate) steps: Items<Step>,
    pub(crate) vertices: Items<u32>,
    pub(crate) services: Items<i64>,
    pub(crate) weights: Items<Weight>,
    pub(crate) waiting: Option<u64>,
    pub(crate) groups: Groups,
}

impl LineState {
    /// A line of which no word has come.
    pub(crate) fn new(alloc: Global) -> LineState
        ensures { (context : Context) → HoldsLine context result [] }
    {
        LineState {
            form: Form::Start,
            fields: ArrayVec::new(),
            in_range: true,
            steps: Items::new(alloc),
            vertices: Items::new(alloc),
            services: Items::new(alloc),
            weights: Items::new(alloc),
            waiting: None,
            groups: Groups::new(alloc),
        }
    }

    /// Begins the next line.
    pub(crate) fn clear(&mut self)
        ensures { (context : Context) → HoldsLine context self.new [] }
    {
        self.form = Form::Start;
        self.fields.clear();
    }

    /// Whether no word of it has come.
    pub(crate) fn is_start(&self) -> bool
        ensures { (context : Context) (words : List (List ℕ)) → HoldsLine context self.now words → (IsTrue result ↔ (words ≡ [])) }
    {
        matches!(self.form, Form::Start)
    }

    /// Takes one more word of the line.
    pub(crate) fn take_word(&mut self, context: Context, word: &Word) -> Result<(), Memory>
        requires steps { context.steps ≤ 2000000 }
        requires shores { context.shores ≤ 2000 }
        ensures { (words : List (List ℕ)) (text : List ℕ) → HoldsLine context self.old words → HoldsWord word.now text
            → OnOk result (HoldsLine context self.new (words ++ text ∷ [])) }
    {
        match self.form {
            Form::Start => self.take_keyword(context, word),
            Form::Shapeless => {}
            Form::Shaped(kind) => {
                if self.fields.len() < kind.fields() {
                    self.take_field(kind, context, word);
                } else {
                    return self.take_item(kind, context, word);
                }
            }
        }
        Ok(())
    }

    // Takes the first word.
    fn take_keyword(&mut self, context: Context, word: &Word)
        ensures { (text : List ℕ) → self.old.fields.items ≡ [] → HoldsWord word.now text → HoldsLine context self.new (text ∷ []) }
    {
        self.in_range = true;
        self.form = match kind_of(context.next, word) {
            Some(kind) => Form::Shaped(kind),
            None => Form::Shapeless,
        };
    }

    // Takes a number behind the first word.
    fn take_field(&mut self, kind: Kind, context: Context, word: &Word)
        requires steps { context.steps ≤ 2000000 }
        requires few { length self.old.fields.items < field_count kind }
        ensures { (words : List (List ℕ)) (text : List ℕ) → IsShaped context self.old words kind → HoldsWord word.now text
            → HoldsLine context self.new (words ++ text ∷ []) }
    {
        let Some(number) = word.natural() else {
            self.form = Form::Shapeless;
            return;
        };
        self.form = Form::Shaped(kind);
        self.fields.push(number);
        if self.fields.len() == kind.fields() {
            self.begin_items(kind, context);
        }
    }

    // All numbers before the items have come.
    fn begin_items(&mut self, kind: Kind, context: Context)
        requires steps { context.steps ≤ 2000000 }
        requires all { length self.old.fields.items ≡ field_count kind }
        ensures form { self.new.form ≡ self.old.form }
        ensures fields { self.new.fields ≡ self.old.fields }
        ensures in_range { self.new.in_range ≡ fields_ok kind context self.old.fields.items }
        ensures held { HoldsItems kind context self.new no_items }
    {
        self.in_range = fields_in_range(kind, context, self.fields.as_slice());
        self.waiting = None;
        match kind {
            Kind::Tour => self.steps.begin(self.fields[0], self.in_range),
            Kind::Shore => self.vertices.begin(self.fields[0], self.in_range),
            Kind::Prices => self.services.begin(self.fields[1], self.in_range),
            Kind::Weights => self.weights.begin(self.fields[0], self.in_range),
            Kind::Bonds => self.groups.begin(self.in_range),
            _ => {}
        }
    }

    // Takes a word behind the numbers.
    fn take_item(&mut self, kind: Kind, context: Context, word: &Word) -> Result<(), Memory>
        requires { context.shores ≤ 2000 }
        ensures { (words : List (List ℕ)) (text : List ℕ) → self.old.form ≡ Shaped kind → IsShaped context self.old words kind → field_count kind ≤ length self.old.fields.items
            → HoldsWord word.now text → OnOk result (HoldsLine context self.new (words ++ text ∷ [])) }
    {
        match kind {
            Kind::Tour => return self.take_step(word),
            Kind::Shore => return self.take_vertex(word),
            Kind::Prices => return self.take_service(word),
            Kind::Weights => return self.take_weight(context.shores, word),
            Kind::Bonds => return self.take_bond(word),
            _ => self.form = Form::Shapeless,
        }
        Ok(())
    }

    // Takes a step of a tour.
    fn take_step(&mut self, word: &Word) -> Result<(), Memory>
        ensures { (context : Context) (words : List (List ℕ)) (text : List ℕ) → IsShaped context self.old words Tour → 1 ≤ length self.old.fields.items
            → HoldsWord word.now text → self.old.form ≡ Shaped Tour → OnOk result (HoldsLine context self.new (words ++ text ∷ [])) }
    {
        let Some(step) = word.step() else {
            self.form = Form::Shapeless;
            return Ok(());
        };
        self.steps.add(step, is_in(1, 4000, u64::from(step.edge)))?;
        Ok(())
    }

    // Takes a vertex of a shore.
    fn take_vertex(&mut self, word: &Word) -> Result<(), Memory>
        ensures { (context : Context) (words : List (List ℕ)) (text : List ℕ) → IsShaped context self.old words Shore → 1 ≤ length self.old.fields.items
            → HoldsWord word.now text → self.old.form ≡ Shaped Shore → OnOk result (HoldsLine context self.new (words ++ text ∷ [])) }
    {
        let Some(number) = word.natural() else {
            self.form = Form::Shapeless;
            return Ok(());
        };
        let vertex = number.min(GREATEST) as u32;
        self.vertices.add(vertex, is_in(1, 1000, number))?;
        Ok(())
    }

    // Takes a price of a service.
    fn take_service(&mut self, word: &Word) -> Result<(), Memory>
        ensures { (context : Context) (words : List (List ℕ)) (text : List ℕ) → IsShaped context self.old words Prices → 2 ≤ length self.old.fields.items
            → HoldsWord word.now text → self.old.form ≡ Shaped Prices → OnOk result (HoldsLine context self.new (words ++ text ∷ [])) }
    {
        let Some(price) = word.whole() else {
            self.form = Form::Shapeless;
            return Ok(());
        };
        self.services.add(price, is_price(price))?;
        Ok(())
    }

    // Takes the number of a shore, or the weight behind one.
    fn take_weight(&mut self, shores: u64, word: &Word) -> Result<(), Memory>
        requires { shores ≤ 2000 }
        ensures { (context : Context) (words : List (List ℕ)) (text : List ℕ) → IsShaped context self.old words Weights → 1 ≤ length self.old.fields.items
            → HoldsWord word.now text → self.old.form ≡ Shaped Weights → shores ≡ context.shores → OnOk result (HoldsLine context self.new (words ++ text ∷ [])) }
    {
        match self.waiting {
            None => {
                self.take_shore(word);
                Ok(())
            }
            Some(shore) => self.take_weight_of(shore, shores, word),
        }
    }

    // Takes the number of a shore, for which a weight is to come.
    fn take_shore(&mut self, word: &Word)
        ensures { (context : Context) (words : List (List ℕ)) (text : List ℕ) → IsShaped context self.old words Weights → 1 ≤ length self.old.fields.items
            → HoldsWord word.now text → self.old.form ≡ Shaped Weights → self.old.waiting ≡ None → HoldsLine context self.new (words ++ text ∷ []) }
    {
        let Some(number) = word.natural() else {
            self.form = Form::Shapeless;
            return;
        };
        self.waiting = Some(number);
    }

    // Takes the weight of a shore.
    fn take_weight_of(&mut self, number: u64, shores: u64, word: &Word) -> Result<(), Memory>
        requires { shores ≤ 2000 }
        ensures { (context : Context) (words : List (List ℕ)) (text : List ℕ) → IsShaped context self.old words Weights → 1 ≤ length self.old.fields.items
            → HoldsWord word.now text → self.old.form ≡ Shaped Weights → self.old.waiting ≡ Some number → shores ≡ context.shores → OnOk result (HoldsLine context self.new (words ++ text ∷ [])) }
    {
        let Some(weight) = word.whole() else {
            self.form = Form::Shapeless;
            return Ok(());
        };
        self.waiting = None;
        let shore = number.min(GREATEST) as u32;
        self.weights.add(Weight { shore, weight }, is_weight(shores, number, weight))?;
        Ok(())
    }

    // Takes a word of a group.
    fn take_bond(&mut self, word: &Word) -> Result<(), Memory>
        ensures { (context : Context) (words : List (List ℕ)) (text : List ℕ) → IsShaped context self.old words Bonds → 1 ≤ length self.old.fields.items
            → HoldsWord word.now text → self.old.form ≡ Shaped Bonds → OnOk result (HoldsLine context self.new (words ++ text ∷ [])) }
    {
        numerals_grow();
        if !self.groups.take(word)? {
            self.form = Form::Shapeless;
        }
        Ok(())
    }
}

// A greater vertex or shore is read as this one.
const GREATEST: u64 = 1_000_000;

// Whether a price or a weight is in its range.
pub(crate) fn is_price(z: i64) -> bool
    ensures { result ≡ price_ok z }
{
    -1_000_000_000_000_000 <= z && z <= 1_000_000_000_000_000
}

// Whether the number of a shore and its weight are in their ranges.
fn is_weight(shores: u64, shore: u64, weight: i64) -> bool
    ensures { result ≡ (is_within 1 shores shore && price_ok weight) }
{
    is_in(1, shores, shore) && is_price(weight)
}

// Whether a number is one of those from the first to the last.
pub(crate) fn is_in(first: u64, last: u64, n: u64) -> bool
    ensures { result ≡ is_within first last n }
{
    first <= n && n <= last
}

// Whether the numbers behind the first word are in their ranges.
pub(crate) fn fields_in_range(kind: Kind, context: Context, fields: &[u64]) -> bool
    requires steps { context.steps ≤ 2000000 }
    requires all { length fields.now ≡ field_count kind }
    ensures { result ≡ fields_ok kind context fields.now }
{
    match kind {
        Kind::Counts => are_counts(fields),
        Kind::Cost | Kind::Bound => fields[0] < 1_000_000_000_000_000_000,
        Kind::Tours => fields[0] <= 100_000,
        Kind::Tour => fields[0] <= 2_000_000 - context.steps,
        Kind::Shores => fields[0] <= 2000,
        Kind::Shore => is_in(1, 999, fields[0]),
        Kind::Sets => fields[0] <= 256,
        Kind::Prices => is_in(1, 1_000_000, fields[0]) && fields[1] <= 600,
        Kind::Weights => fields[0] <= context.shores,
        Kind::Bonds => fields[0] <= 2000,
        Kind::Nodes => is_in(1, 2_097_153, fields[0]),
        Kind::Pair => is_in(1, 600, fields[0]) && is_in(1, 600, fields[1]),
        Kind::Cut => is_in(1, context.shores, fields[0]) && fields[1] <= 1_000_000,
        Kind::Price => is_in(1, context.sets, fields[0]),
        Kind::Version | Kind::Void | Kind::Fixed | Kind::End => true,
    }
}

// Whether the numbers of an instance are in their ranges.
fn are_counts(fields: &[u64]) -> bool
    requires { length fields.now ≡ 5 }
    ensures { result ≡ (is_within 1 1000 (slice_index fields.now 0) && nat_le (slice_index fields.now 1) 4000 && nat_le (slice_index fields.now 2) 600 && is_within 1 30000 (slice_index fields.now 3) && nat_le (slice_index fields.now 4) 18000000) }
{
    is_in(1, 1000, fields[0])
        && fields[1] <= 4000
        && fields[2] <= 600
        && is_in(1, 30000, fields[3])
        && fields[4] <= 18_000_000
}
