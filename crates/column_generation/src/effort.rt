// How much a search looks at.

/// How much a search for shores and groups looks at.
#[derive(Clone, Copy, PartialEq, Eq)]
pub(crate) enum Effort {
    Quick,
    Full,
}

impl Effort {
    pub(crate) fn for_shores(self) -> shore_search::Effort {
        match self {
            Effort::Quick => shore_search::Effort::Quick,
            Effort::Full => shore_search::Effort::Full,
        }
    }

    pub(crate) fn for_groups(self) -> group_search::Effort {
        match self {
            Effort::Quick => group_search::Effort::Quick,
            Effort::Full => group_search::Effort::Full,
        }
    }
}
