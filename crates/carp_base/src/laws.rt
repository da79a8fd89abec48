// What holds of all descriptions.
ghost use Rattle.carp_base.specs.Laws.{ValidWhereNoFault};

/// A law, with nothing to run: a description is valid exactly if no fault applies.
pub fn valid_where_no_fault()
    ensures { ValidWhereNoFault }
{}
