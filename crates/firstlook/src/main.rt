// Writes the packet that first look gives for the files in the current directory, or the item of its file code.
#![tactic(auto)]

use look_files::{Files, LIMIT, look};
use std::fs::File;
use std::io;
use std::io::{Read, Write};
use std::process::ExitCode;

// No more of a file is read than is looked at.
fn read_start(rt: &HostRuntime, name: &str) -> io::Result<Vec<u8>> {
    let mut bytes = Vec::new(rt.alloc());
    let mut start = File::open(rt, name)?.take(LIMIT as u64);
    start.read_to_end(&mut bytes)?;
    Ok(bytes)
}

// Where the file cannot be read, saying so can fail too: so by `or_else`.
fn read(rt: &HostRuntime, name: &str) -> anyhow::Result<Vec<u8>> {
    read_start(rt, name).or_else(|reason| -> anyhow::Result<Vec<u8>> {
        eprintln!(rt; "firstlook: {name}: {reason}")?;
        Err(reason.into())
    })
}

fn run(rt: &HostRuntime) -> anyhow::Result<()> {
    let bulk = read(rt, "bulk.txt")?;
    let agencies = read(rt, "alc.txt")?;
    let offices = read(rt, "do.txt")?;
    let symbols = read(rt, "tas.txt")?;
    let units = read(rt, "unit.txt")?;
    let accounts = read(rt, "sgl.map")?;
    let files = Files {
        bulk: &bulk,
        agencies: &agencies,
        offices: &offices,
        symbols: &symbols,
        units: &units,
        accounts: &accounts,
    };
    let output = look(rt.alloc(), &files)?;
    rt.stdout().write_all(&output)?;
    Ok(())
}

// A file that cannot be read has been named where it was; a write that fails has no words of its own, only the status.
fn main(rt: HostRuntime) -> ExitCode {
    match run(&rt) {
        Ok(()) => ExitCode::SUCCESS,
        Err(_) => ExitCode::FAILURE,
    }
}
