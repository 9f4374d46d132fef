// The letter that a record of a transaction begins with.
ghost use Rattle.std.specs.Prelude.{◌≡◌};
ghost use Rattle.layout.specs.Letters.{letter_of};

#[derive(Clone, Copy, PartialEq, Eq, Debug)]
pub enum Letter {
    Header,
    Detail,
    Entry,
}

impl Letter {
    // The letters are exact: `h`, `d` and `e` are none.
    pub fn of(first: char) -> Option<Letter>
        ensures { result ≡ letter_of first }
    {
        match first {
            'H' => Some(Letter::Header),
            'D' => Some(Letter::Detail),
            'E' => Some(Letter::Entry),
            _ => None,
        }
    }
}
