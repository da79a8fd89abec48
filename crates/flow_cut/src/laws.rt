// Laws of flows and cuts, as functions whose contract is the law.
ghost use Rattle.flow_cut.specs.Laws.{CutBoundsFlow, EqualIsBest};

/// No flow brings more than the rooms of the arcs that leave a side of its source.
pub fn cut_bounds_flow()
    ensures { CutBoundsFlow }
{}

/// If a flow equals the room of a cut, no flow brings more and no cut has less room.
pub fn equal_is_best()
    ensures { EqualIsBest }
{}
