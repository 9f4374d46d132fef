// What the opening says of a file of the greatest length, and of one that has a byte more.
#![tactic(auto)]

ghost use Rattle.std.specs.Prelude.{◌≡◌, IfOk, vec_len};

use file::opening::Opening;
use std::alloc::{AllocError, Global};

const TOP: &[u8] = b"PCA    \nBIPAC000000040000123420260105001\nH";

// A file of `size` bytes: a good opening, a header, and empty records behind it.
fn file_of(heap: Global, size: usize) -> Result<Vec<u8>, AllocError>
    ensures { IfOk result (λ v. vec_len v ≡ size) }
{
    let mut file = Vec::new(heap);
    file.extend_from_slice(TOP)?;
    file.resize(size, b'\n')?;
    Ok(file)
}

fn print_opening(rt: &HostRuntime, size: usize) -> anyhow::Result<()> {
    let file = file_of(rt.alloc(), size)?;
    match Opening::of(&file) {
        Ok(_) => println!(rt; "{size} bytes: a good opening")?,
        Err(fault) => {
            let code = fault.code();
            println!(rt; "{size} bytes: refused with {code}")?;
        }
    }
    Ok(())
}

fn main(rt: HostRuntime) -> anyhow::Result<()> {
    print_opening(&rt, 16_777_216)?;
    print_opening(&rt, 16_777_217)
}
