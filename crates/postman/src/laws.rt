// What holds of all rounds.
ghost use Rattle.postman.specs.Laws.{RoundsPayJoins};

/// A law, with nothing to run: every round costs at least its services and the least deadheads that make every vertex
/// even.
///
/// A closed walk comes to each vertex as often as it leaves it, so its deadheads make every vertex even.
pub fn rounds_pay_joins()
    ensures { RoundsPayJoins }
{}
