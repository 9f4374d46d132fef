// A text of keys of one width, one after the other: its check.
ghost use Rattle.std.specs.Prelude.{◌≡◌, ◌<◌};
ghost use Rattle.register.specs.Keys.{ascends, keys_of, key_check};

use crate::fault::TextFault;

// Whether the keys of the text are strictly ascending. By `cmp`, as their order is defined: with `<` the proof was not found.
fn is_ascending(text: &[u8], width: usize) -> bool
    requires { 0 < width }
    ensures { result ≡ ascends (keys_of width text.now) }
{
    text.chunks_exact(width)
        .is_sorted_by(|one, next| one.cmp(next).is_lt())
}

// A text is whole keys of 1 to 27 bytes, strictly ascending.
pub fn check_keys(text: &[u8], width: usize) -> Result<(), TextFault>
    ensures { result ≡ key_check width text.now }
{
    if width < 1 || width > 27 || text.len() % width != 0 {
        return Err(TextFault::Width);
    }
    if !is_ascending(text, width) {
        return Err(TextFault::Order);
    }
    Ok(())
}
