// Why a record is not added: its key is held already, or every place is used.
#[derive(Clone, Copy, PartialEq, Eq, Debug)]
pub enum Refusal {
    Held,
    Full,
}
