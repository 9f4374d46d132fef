// A field of a record: where it stands, and what it may hold.
ghost use Rattle.std.specs.Prelude.{◌≡◌};
ghost use Rattle.layout.specs.Fields.{start_of, len_of, is_required, kind_of, register_of};

use crate::set_id::SetId;

#[derive(Clone, Copy, PartialEq, Eq, Debug)]
pub enum Kind {
    // Type A: printable, and the first no space.
    Text,
    // Type N: digits only.
    Number,
    // Type N, and above zero.
    Positive,
    // Spaces, and never missing.
    Filler,
    // An account symbol of 27 bytes.
    Symbol,
    // One of the two letters that the layout quotes. A letter that it quotes alone stands twice: so the rows say it, all of one length.
    OneOf([u8; 2]),
    // The Set ID, one of those that the layout is for. One that stands alone is said twice, as a letter is.
    OneSet(SetId, SetId),
}

// The register that a field is looked up in. Free is one of them, and no `None` beside an enum of registers: the tables' rows stay short and say the same.
#[derive(Clone, Copy, PartialEq, Eq, Debug)]
pub enum Lookup {
    // None.
    Free,
    Agencies,
    Offices,
    Symbols,
    Units,
    // Ledger accounts.
    Accounts,
}

// A row of a layout's table: first column, length, whether it is required, kind, register.
// A tuple that is read by methods: with named fields a row would take seven lines, and a constant may call no function.
#[derive(Clone, Copy, PartialEq, Eq, Debug)]
pub struct Field(
    pub(crate) usize,
    pub(crate) usize,
    pub(crate) bool,
    pub(crate) Kind,
    pub(crate) Lookup,
);

impl Field {
    // The first column; columns count from 1.
    pub fn start(&self) -> usize
        ensures { result ≡ start_of self.now }
    {
        self.0
    }

    pub fn len(&self) -> usize
        ensures { result ≡ len_of self.now }
    {
        self.1
    }

    pub fn is_required(&self) -> bool
        ensures { result ≡ is_required self.now }
    {
        self.2
    }

    pub fn kind(&self) -> Kind
        ensures { result ≡ kind_of self.now }
    {
        self.3
    }

    pub fn register(&self) -> Lookup
        ensures { result ≡ register_of self.now }
    {
        self.4
    }
}
