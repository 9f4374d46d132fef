// Worked cases of whole transactions, from their bytes to their verdicts, against a book where one is needed.
#![tactic(auto)]

ghost use Rattle.cases.specs.Cases.{Cases};

// It stands for its contract alone.
pub fn cases_stand()
    ensures { Cases }
{}
