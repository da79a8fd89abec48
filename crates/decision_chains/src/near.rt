// The yes neighbours of an edge.
ghost use Rattle.std.specs.Prelude.{◌≡◌};
ghost use Rattle.decision_chains.specs.ChainTables.{has_two_besides, is_end, is_many, near_besides, near_has, near_with};

// The yes neighbours of an edge while they are at most two, and only that there are more.
#[derive(Clone, Copy)]
pub(crate) enum Near {
    Free,
    One(u32),
    Two(u32, u32),
    Many,
}

impl Near {
    // With one neighbour more, which may be there already.
    pub(crate) fn with(self, edge: u32) -> Near
        ensures { result ≡ near_with self edge }
    {
        match self {
            Near::Free => Near::One(edge),
            Near::One(x) if x == edge => self,
            Near::One(x) => Near::Two(x, edge),
            Near::Two(x, y) if x == edge || y == edge => self,
            Near::Two(_, _) | Near::Many => Near::Many,
        }
    }

    // Whether the edge is known as a neighbour. If there are more than two, none is known.
    pub(crate) fn has(self, edge: u32) -> bool
        ensures { result ≡ near_has self edge }
    {
        match self {
            Near::Free | Near::Many => false,
            Near::One(x) => x == edge,
            Near::Two(x, y) => x == edge || y == edge,
        }
    }

    // Whether there are two neighbours besides the edge.
    pub(crate) fn has_two_besides(self, edge: u32) -> bool
        ensures { result ≡ has_two_besides self edge }
    {
        match self {
            Near::Free | Near::One(_) => false,
            Near::Two(x, y) => x != edge && y != edge,
            Near::Many => true,
        }
    }

    // Whether there is at most one neighbour.
    pub(crate) fn is_end(self) -> bool
        ensures { result ≡ is_end self }
    {
        matches!(self, Near::Free | Near::One(_))
    }

    // Whether there are three neighbours or more.
    pub(crate) fn is_many(self) -> bool
        ensures { result ≡ is_many self }
    {
        matches!(self, Near::Many)
    }

    // The next neighbour on the way from another one.
    pub(crate) fn besides(self, before: u32) -> Option<u32>
        ensures { result ≡ near_besides self before }
    {
        match self {
            Near::Free | Near::Many => None,
            Near::One(x) => (x != before).then_some(x),
            Near::Two(x, y) if x == before => Some(y),
            Near::Two(x, _) => Some(x),
        }
    }
}
