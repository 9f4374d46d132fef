// What the program firstlook writes, from the texts of its six files.
#![tactic(auto)]

ghost use Rattle.std.specs.Prelude.{◌≡◌, IfOk};
ghost use Rattle.look_files.specs.Output.{first_bytes, output_in, output_for};

use calls::fault::FileFault;
use filing::files::refusal;
use first_look::RegisterTexts;
use std::alloc::{AllocError, Global};

// So many bytes of each file are looked at, and the packet buffer has so many.
pub const LIMIT: usize = 65_536;

// The texts of the six files, each by its name, as the definitions take them.
#[derive(Clone, Copy, PartialEq, Eq, Debug)]
pub struct Files<'a> {
    pub bulk: &'a [u8],
    pub agencies: &'a [u8],
    pub offices: &'a [u8],
    pub symbols: &'a [u8],
    pub units: &'a [u8],
    pub accounts: &'a [u8],
}

// What is looked at of a text.
fn first_bytes(text: &[u8]) -> &[u8]
    ensures { result.now ≡ first_bytes text.now }
{
    &text[..LIMIT.min(text.len())]
}

// The packet at the front of the buffer, or the item of the file code in its place.
fn output_of(mut buffer: Vec<u8>, answer: Result<usize, FileFault>) -> Vec<u8>
    ensures { result.items ≡ output_in answer buffer.items }
{
    match answer {
        Ok(length) => buffer.truncate(length),
        Err(fault) => {
            let written = refusal(buffer.as_mut_slice(), fault);
            buffer.truncate(written);
        }
    }
    buffer
}

// The packet that first look writes for the first bytes of the files on day 0, or the item of its file code.
pub fn look(heap: Global, files: &Files<'_>) -> Result<Vec<u8>, AllocError>
    ensures { IfOk result (λ v. v.items ≡ output_for files.now) }
{
    let mut packet = vec![in heap; 0; LIMIT]?;
    let registers = RegisterTexts {
        agencies: first_bytes(files.agencies),
        offices: first_bytes(files.offices),
        symbols: first_bytes(files.symbols),
        units: first_bytes(files.units),
        accounts: first_bytes(files.accounts),
    };
    let answer = first_look::look(
        first_bytes(files.bulk),
        &registers,
        0,
        packet.as_mut_slice(),
    );
    Ok(output_of(packet, answer))
}
