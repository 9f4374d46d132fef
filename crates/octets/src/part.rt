// Parts of a record, by columns that count from 1.
ghost use Rattle.std.specs.Prelude.{◌≡◌, ◌≤◌, length};
ghost use Rattle.octets.specs.Parts.{columns};

// The columns from `first` on, `n` of them, or as many of them as the record has.
// First column and length stand side by side, as the layout prints them: a struct of the two would be made at each call only to be taken apart.
pub fn columns_of(line: &[u8], first: usize, n: usize) -> &[u8]
    ensures value { result.now ≡ columns first n line.now }
    ensures len { length result.now ≤ n }
{
    let from = first.saturating_sub(1).min(line.len());
    let end = from + n.min(line.len() - from);
    &line[from..end]
}
