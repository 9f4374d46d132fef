// Companion rules: a field that goes only with another field, or never with it.
ghost use Rattle.std.specs.Prelude.{◌≡◌};
ghost use Rattle.layout.specs.Companions.{is_kept, refused_start, refused_len, rule_of, other_start, other_len};

#[derive(Clone, Copy, PartialEq, Eq, Debug)]
pub enum Rule {
    // Where the field is given, the other is too.
    Needs,
    // Where the field is given, the other is not.
    Excludes,
}

impl Rule {
    // Whether the rule is kept where the field and the other one are given or not.
    pub fn is_kept(self, given: bool, other: bool) -> bool
        ensures { result ≡ is_kept self given other }
    {
        match self {
            Rule::Needs => !given || other,
            Rule::Excludes => !given || !other,
        }
    }
}

// A row of a layout's companion rules: the field that is refused, by its first column and its length, the rule, and the other field.
// A tuple that is read by methods: with named fields a row would take seven lines, and a constant may call no function.
#[derive(Clone, Copy, PartialEq, Eq, Debug)]
pub struct Companion(
    pub(crate) usize,
    pub(crate) usize,
    pub(crate) Rule,
    pub(crate) usize,
    pub(crate) usize,
);

impl Companion {
    // The first column of the field that is refused.
    pub fn start(&self) -> usize
        ensures { result ≡ refused_start self.now }
    {
        self.0
    }

    pub fn len(&self) -> usize
        ensures { result ≡ refused_len self.now }
    {
        self.1
    }

    pub fn rule(&self) -> Rule
        ensures { result ≡ rule_of self.now }
    {
        self.2
    }

    // The first column of the field that is needed or excluded.
    pub fn other_start(&self) -> usize
        ensures { result ≡ other_start self.now }
    {
        self.3
    }

    pub fn other_len(&self) -> usize
        ensures { result ≡ other_len self.now }
    {
        self.4
    }
}
