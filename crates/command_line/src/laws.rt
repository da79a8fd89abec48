// A law over all words, as a function whose contract is the law.
ghost use Rattle.command_line.specs.Laws.{BudgetsAreInRange};

/// Plain words ask for 1 to 1,048,576 turns.
pub fn budgets_are_in_range()
    ensures { BudgetsAreInRange }
{}
