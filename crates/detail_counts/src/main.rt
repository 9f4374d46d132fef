// How many details and E records a transaction may have: the limits, and far past them.
#![tactic(auto)]

ghost use Rattle.std.specs.Prelude.{true};

use layout::field::Lookup;
use register::five::Registers;
use std::alloc::AllocError;
use transaction::sound::read;
use transaction::verdict::Verdict;

// Registers that have every key.
struct Everything;

impl Registers for Everything {
    ghost holds = { λ _ _ _. true };

    fn has(&self, _which: Lookup, _key: &[u8]) -> bool {
        true
    }
}

// The bytes at the end of a text, `n` times.
fn repeat(text: &mut Vec<u8>, bytes: &[u8], n: u32) -> Result<(), AllocError> {
    for _ in 0..n {
        text.extend_from_slice(bytes)?;
    }
    Ok(())
}

// A payment's header with this total, of 14 digits.
fn push_header(text: &mut Vec<u8>, total: &[u8]) -> Result<(), AllocError> {
    text.extend_from_slice(b"H00001234")?;
    text.extend_from_slice(total)?;
    text.extend_from_slice(b"0000567800012820          \n")
}

// A detail of 1.00 as 1.00 x 1.00.
fn push_detail(text: &mut Vec<u8>) -> Result<(), AllocError> {
    text.extend_from_slice(b"D")?;
    repeat(text, b" ", 28)?;
    text.extend_from_slice(b"00000000000100")?;
    repeat(text, b" ", 430)?;
    text.extend_from_slice(b"INV1")?;
    repeat(text, b" ", 388)?;
    text.extend_from_slice(b"OB-1")?;
    repeat(text, b" ", 13)?;
    text.extend_from_slice(b"FPO-1")?;
    repeat(text, b" ", 18)?;
    text.extend_from_slice(b"00000000000100")?;
    repeat(text, b" ", 64)?;
    text.extend_from_slice(b"     09720202021 1234000  C")?;
    repeat(text, b" ", 36)?;
    text.extend_from_slice(b"EA00000000000100")?;
    repeat(text, b" ", 15)?;
    text.extend_from_slice(b"\n")
}

fn print_verdict(rt: &HostRuntime, what: &str, text: &[u8]) -> anyhow::Result<()> {
    match read(text, &Everything) {
        Ok(_) => println!(rt; "{what}: sound")?,
        Err(fault) => {
            if let Verdict::Refused(code, record, column) = fault.verdict() {
                println!(rt; "{what}: code {code}, record {record}, column {column}")?;
            }
        }
    }
    Ok(())
}

fn print_details(rt: &HostRuntime, what: &str, total: &[u8], n: u32) -> anyhow::Result<()> {
    let mut detail = Vec::new(rt.alloc());
    push_detail(&mut detail)?;
    let mut text = Vec::new(rt.alloc());
    push_header(&mut text, total)?;
    repeat(&mut text, &detail, n)?;
    print_verdict(rt, what, &text)
}

fn print_entries(rt: &HostRuntime, what: &str, n: u32) -> anyhow::Result<()> {
    let mut text = Vec::new(rt.alloc());
    push_header(&mut text, b"00000000000100")?;
    push_detail(&mut text)?;
    repeat(&mut text, b"EA1010SF99999999999999D\n", n)?;
    print_verdict(rt, what, &text)
}

fn main(rt: HostRuntime) -> anyhow::Result<()> {
    print_details(&rt, "1 detail", b"00000000000100", 1)?;
    print_details(&rt, "1,000 details", b"00000000100000", 1000)?;
    print_details(&rt, "1,001 details", b"00000000100100", 1001)?;
    print_details(&rt, "2 details, the total of 1", b"00000000000100", 2)?;
    print_entries(&rt, "258 E records", 258)?;
    print_entries(&rt, "65,538 E records", 65_538)?;
    print_entries(&rt, "690,000 E records", 690_000)?;
    Ok(())
}
