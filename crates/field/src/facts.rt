// Worked facts of fields and registers, shown of the definitions.
ghost use Rattle.field.specs.Facts.{Facts};

// It stands for its contract alone.
#[tactic(auto, using(register::proofs::Widths::other_width))]
pub fn facts_stand()
    ensures { Facts }
{}
