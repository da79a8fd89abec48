// Laws over plain data, as functions whose contract is the law.
ghost use Rattle.edge_components.specs.Laws.{EqualSetsHaveOneBorder, KeptLabelsAreComponents, KeptLabelsAreRoots, VerticesAreListed};

/// The list of the vertices that pass a test is rising and holds just these.
pub fn vertices_are_listed()
    ensures { VerticesAreListed }
{}

/// The border of a set depends only on its vertices. Tests that agree at each vertex of an instance have as many
/// required crossings, as much touched demand, and as many parts over them.
pub fn equal_sets_have_one_border()
    ensures { EqualSetsHaveOneBorder }
{}

/// If just those labels are marked that are the least vertices of components without the depot whose borders pass a
/// test, the marked labels are their own, and their shores are just these components.
pub fn kept_labels_are_components()
    ensures components { KeptLabelsAreComponents }
    ensures roots { KeptLabelsAreRoots }
{}
