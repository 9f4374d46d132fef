// Why a whole file is refused.
ghost use Rattle.std.specs.Prelude.{◌≡◌};
ghost use Rattle.calls.specs.Codes.{file_code};
ghost use Rattle.calls.specs.declared.fault.FileFault.TheVariants.{Opening};

use file::opening::OpeningFault;

#[derive(Clone, Copy, PartialEq, Eq, Debug)]
pub enum FileFault {
    // Its first records are not those of a bulk file.
    Opening(OpeningFault),
    // Its File ID Number is marked: it was posted before.
    Marked,
    // The packet buffer is too small for its verdicts.
    NoRoom,
    // The book has no place for its mark.
    NoMarkPlace,
}

impl FileFault {
    // Not by numbers at the variants: one carries an opening's fault, which has its own.
    pub fn code(self) -> u16
        ensures { result ≡ file_code self }
    {
        match self {
            FileFault::Opening(fault) => fault.code(),
            FileFault::Marked => 6,
            FileFault::NoRoom => 7,
            FileFault::NoMarkPlace => 8,
        }
    }
}

impl From<OpeningFault> for FileFault {
    ghost from_gives = { λ x y. y ≡ Opening x };

    fn from(fault: OpeningFault) -> FileFault {
        FileFault::Opening(fault)
    }
}
