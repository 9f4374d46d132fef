// The row of an entry, and its key: the pair.
ghost use Rattle.std.specs.Prelude.{◌≡◌, ℕ, ◌+◌, ◌-◌, ◌<◌, ◌≤◌, true, length, drop, if◌then◌else◌, Some, None, nat_le};
ghost use Rattle.std.specs.Option.{option_map};
ghost use Rattle.book.specs.Meaning.{fresh, adjustable, seekable};
ghost use Rattle.book.specs.Told.{told, entry_told, sought_told};
ghost use Rattle.book.specs.Rows.{pair_key, entry_of, entry_code, sound_entry, unused_entry, OpenAt};

use super::entry::Entry;
use super::new_entry::NewEntry;
use super::sought::Sought;
use layout::pair::Pair;
use layout::set_id::SetId;
use ordered::Keyed;

#[derive(Clone, Copy, PartialEq, Eq, Debug)]
pub struct EntryRow {
    pub total: u64,
    pub left: u64,
    pub day: u32,
    pub key: [u8; 13],
    pub set_id: SetId,
}

impl Keyed for EntryRow {
    ghost code = { entry_code };

    ghost sound = { sound_entry };

    fn key(&self) -> &[u8] {
        &self.key
    }
}

// By hand: a Set ID has no default of its own.
impl Default for EntryRow {
    ghost is_default = { λ row. row ≡ unused_entry };

    fn default() -> EntryRow {
        EntryRow::unused()
    }
}

// The key of the entry under a pair: a copy of each part, which no method of arrays says more plainly.
// The clauses office and reference hand on the lengths that the pair's types give, to proofs that do not see the pair.
pub fn entry_key(pair: &Pair) -> [u8; 13]
    ensures is { result ≡ pair_key pair.now }
    ensures office { length pair.now.office ≡ 5 }
    ensures reference { length pair.now.reference ≡ 8 }
{
    let mut key = [0u8; 13];
    key[5..].copy_from_slice(&pair.reference);
    key[..5].copy_from_slice(&pair.office);
    key
}

impl EntryRow {
    // What fills a place that is not used.
    pub fn unused() -> EntryRow
        ensures { result ≡ unused_entry }
    {
        EntryRow {
            total: 0,
            left: 0,
            day: 0,
            key: [0; 13],
            set_id: SetId::Payment,
        }
    }

    // The row of a new entry. The clause office hands on a length of the pair's.
    pub fn new(pair: &Pair, new: NewEntry) -> EntryRow
        ensures means { entry_of result ≡ fresh pair.now new }
        ensures key { entry_code result ≡ pair_key pair.now }
        ensures sound { sound_entry result ≡ true }
        ensures office { length pair.now.office ≡ 5 }
    {
        EntryRow {
            total: new.total,
            left: new.total,
            day: new.day,
            key: entry_key(pair),
            set_id: new.set_id,
        }
    }

    // The entry, made whole after a check.
    pub fn entry(&self) -> Option<Entry>
        ensures { option_map told result ≡ (if sound_entry self.now then Some (entry_told (entry_of self.now)) else None) }
    {
        if self.left <= self.total {
            Some(Entry {
                set_id: self.set_id,
                day: self.day,
                total: self.total,
                open_amount: self.left,
            })
        } else {
            None
        }
    }

    // The reference, and the entry made whole after a check.
    pub fn sought(&self) -> Option<Sought>
        ensures { option_map sought_told result ≡ (if sound_entry self.now then Some (drop 5 self.now.key, entry_told (entry_of self.now)) else None) }
    {
        let reference = *self.key.last_chunk().unwrap();
        self.entry().map(|entry| Sought { reference, entry })
    }

    // Is the open amount as large as this.
    pub fn may_take(&self, amount: u64) -> bool
        ensures { result ≡ nat_le amount self.now.left }
    {
        amount <= self.left
    }

    // May seek answer this row.
    fn is_open(&self, office: &[u8; 5]) -> bool
        ensures { result ≡ seekable office.now (entry_of self.now) }
    {
        self.key.starts_with(office) && is_adjustable(self.set_id) && self.left > 0
    }
}

// Payments and collections are what an adjustment may take from.
pub fn is_adjustable(set_id: SetId) -> bool
    ensures { result ≡ adjustable set_id }
{
    matches!(set_id, SetId::Payment | SetId::Collection)
}

// Where the first row stands that seek may answer.
pub fn first_open(rows: &[EntryRow], office: &[u8; 5]) -> Option<usize>
    ensures at { OpenAt office.now rows.now result }
    ensures office { length office.now ≡ 5 }
{
    // Read here, so that its length is known.
    let office = *office;
    rows.iter().position(|row| row.is_open(&office))
}
