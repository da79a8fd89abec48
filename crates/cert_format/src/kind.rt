// Kinds of lines, by their first words.
ghost use Rattle.std.specs.Prelude.{◌≡◌, ℕ, List, MatchOption};
ghost use Rattle.cert_lines.specs.Words.{HoldsWord};
ghost use Rattle.cert_format.specs.Kinds.{expected, field_count, IsKindOf, IsOfNoKind, keyword};

use cert_lines::{Next, Word};

/// What the first word of a line tells. Of a line of the tree it tells the kind of node.
#[derive(Clone, Copy, Debug, PartialEq, Eq)]
pub(crate) enum Kind {
    Version,
    Counts,
    Cost,
    Bound,
    Tours,
    Tour,
    Shores,
    Shore,
    Sets,
    Prices,
    Weights,
    Bonds,
    Nodes,
    Pair,
    Cut,
    Price,
    Void,
    Fixed,
    End,
}

impl Kind {
    /// The first word of such a line.
    pub(crate) fn keyword(self) -> &'static [u8]
        ensures { result.now ≡ keyword self }
    {
        match self {
            Kind::Version => b"carp-certificate",
            Kind::Counts => b"instance",
            Kind::Cost => b"cost",
            Kind::Bound => b"bound",
            Kind::Tours => b"tours",
            Kind::Tour => b"tour",
            Kind::Shores => b"shores",
            Kind::Shore => b"shore",
            Kind::Sets => b"sets",
            Kind::Prices => b"prices",
            Kind::Weights => b"weights",
            Kind::Bonds => b"bonds",
            Kind::Nodes => b"nodes",
            Kind::Pair => b"pair",
            Kind::Cut => b"cut",
            Kind::Price => b"price",
            Kind::Void => b"void",
            Kind::Fixed => b"fixed",
            Kind::End => b"end",
        }
    }

    /// How many numbers follow the first word, before the items.
    pub(crate) fn fields(self) -> usize
        ensures { result ≡ field_count self }
    {
        match self {
            Kind::Counts => 5,
            Kind::Prices | Kind::Pair | Kind::Cut => 2,
            Kind::Void | Kind::Fixed | Kind::End => 0,
            _ => 1,
        }
    }
}

/// The kind of the line with this first word, among those that may stand next.
pub(crate) fn kind_of(next: Next, word: &Word) -> Option<Kind>
    ensures { (text : List ℕ) → HoldsWord word.now text → MatchOption result (IsOfNoKind next text) (IsKindOf next text) }
{
    for kind in expected(next) {
        if word.is(kind.keyword()) {
            return Some(*kind);
        }
    }
    None
}

// The kinds of lines that may stand next.
fn expected(next: Next) -> &'static [Kind]
    ensures { result.now ≡ expected next }
{
    match next {
        Next::Version => &[Kind::Version],
        Next::Counts => &[Kind::Counts],
        Next::Cost => &[Kind::Cost],
        Next::Bound => &[Kind::Bound],
        Next::Tours => &[Kind::Tours],
        Next::Tour { .. } => &[Kind::Tour],
        Next::Shores => &[Kind::Shores],
        Next::Shore { .. } => &[Kind::Shore],
        Next::Sets => &[Kind::Sets],
        Next::Prices { .. } => &[Kind::Prices],
        Next::Weights { .. } => &[Kind::Weights],
        Next::Bonds { .. } => &[Kind::Bonds],
        Next::Nodes => &[Kind::Nodes],
        Next::Node { .. } => &[Kind::Pair, Kind::Cut, Kind::Price, Kind::Void, Kind::Fixed],
        Next::End => &[Kind::End],
        Next::Nothing => &[],
    }
}
