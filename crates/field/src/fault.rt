// Why a field is refused, and where.
ghost use Rattle.std.specs.Prelude.{◌≡◌};
ghost use Rattle.field.specs.Faults.{code_of};

#[derive(Clone, Copy, PartialEq, Eq, Debug)]
pub enum Cause {
    // A required field is spaces only.
    Missing = 21,
    // Wrong shape or value.
    Shape = 22,
    // Not in its register.
    Unknown = 51,
}

#[derive(Clone, Copy, PartialEq, Eq, Debug)]
pub struct FieldFault {
    pub cause: Cause,
    // The field's first column.
    pub column: usize,
}

impl Cause {
    pub fn code(self) -> u16
        ensures { result ≡ code_of self }
    {
        self as u16
    }
}
