// Worked facts of whole transactions, and how many details one may have.
#![tactic(auto)]

ghost use Rattle.transaction_cases.specs.Facts.{Facts};

// It stands for its contract alone.
pub fn facts_stand()
    ensures { Facts }
{}
