// Laws over least prices and relaxed tours, as functions whose contract is the law.
ghost use Rattle.deadhead_paths.specs.Laws.{FewStepsAreLeast, LeastDeadheadIsLeast, LeastDeadheadIsThere, LeastPathsCost, LeastPriceIsSymmetric, LeastPriceOfStaying, LeastPriceOrNone, TriangleInequality, WalkIsTaskTour};

/// Least prices are symmetric and obey the triangle inequality, and staying costs nothing.
pub fn least_prices_are_distances()
    ensures symmetric { LeastPriceIsSymmetric }
    ensures triangle { TriangleInequality }
    ensures staying { LeastPriceOfStaying }
{}

/// If steps lead from one vertex of a valid instance to another, there is a least price. Few steps have it, and so
/// tasks on required edges have a least deadhead.
pub fn least_prices_are_there()
    ensures found { LeastPriceOrNone }
    ensures few_steps { FewStepsAreLeast }
    ensures tasks { LeastDeadheadIsThere }
{}

/// The services of a lawful walk that serves are a relaxed tour. The least deadhead of a walk's services is at most
/// what its other steps cost. A walk by least paths costs just its services and that least deadhead.
pub fn walks_are_task_tours()
    ensures tour { WalkIsTaskTour }
    ensures least { LeastDeadheadIsLeast }
    ensures cost { LeastPathsCost }
{}
