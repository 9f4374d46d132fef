// The number of a line under its pair: 1 to 1,000.
ghost use Rattle.std.specs.Prelude.{◌≤◌};

#[derive(Clone, Copy, PartialEq, Eq, Debug)]
pub struct LineNumber {
    pub value: u16,
    ghost low: { 1 ≤ value },
    ghost high: { value ≤ 1000 },
}
