// Why the text of a register is refused.
ghost use Rattle.std.specs.Prelude.{◌≡◌};
ghost use Rattle.register.specs.Faults.{code_of};

#[derive(Clone, Copy, PartialEq, Eq, Debug)]
pub enum TextFault {
    // The width of a key is not 1 to 27, or the text is not whole keys.
    Width = 11,
    // The keys are not strictly ascending.
    Order = 12,
    // A map is not 1,250 bytes.
    Size = 13,
}

impl TextFault {
    pub fn code(self) -> u16
        ensures { result ≡ code_of self }
    {
        self as u16
    }
}
