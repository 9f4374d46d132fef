// Prints what is in a bulk file, for people.
#![tactic(auto)]

use anyhow::anyhow;
use file::opening::{Opening, body};
use file::records::Records;
use file::tally::{Found, Tally};
use file::transactions::Transactions;
use layout::set_id::SetId;
use std::process::ExitCode;
use std::{env, fs};
use words::{name_of, words_of};

// A line of the table: where the transaction stands, its Set ID, and how many D and E records it has.
fn print_transaction(
    rt: &HostRuntime,
    number: u64,
    first: u64,
    transaction: &[u8],
    tally: Tally,
) -> anyhow::Result<()> {
    let Tally {
        details,
        entries,
        ..
    } = tally;
    let header = Records::of(transaction).next_line(49).bytes();
    match SetId::in_header(header) {
        Some(set_id) => {
            let digits = set_id.number();
            let name = name_of(set_id);
            println!(rt;
                "{number:>11}  {first:>12}  {digits} {name:<21}  {details:>9}  {entries:>9}"
            )?;
        }
        None => {
            let name = "unknown";
            println!(rt; "{number:>11}  {first:>12}  {name:<25}  {details:>9}  {entries:>9}")?;
        }
    }
    Ok(())
}

// A file's first transaction begins at record 3, each other one behind the one before it.
fn print_transactions(rt: &HostRuntime, bulk: &[u8]) -> anyhow::Result<()> {
    println!(rt; "transaction  first record  Set ID                     D records  E records")?;
    let mut first: u64 = 3;
    for (transaction, number) in Transactions::of(body(bulk)).zip(1u64..) {
        let tally = Tally::of(transaction);
        print_transaction(rt, number, first, transaction, tally)?;
        first = first.saturating_add(tally.records as u64);
    }
    Ok(())
}

fn print_opening(rt: &HostRuntime, opening: Opening, bulk: &[u8]) -> anyhow::Result<()> {
    let id = std::str::from_utf8(&opening.id)?;
    let stated = opening.stated;
    let Found {
        records,
        transactions,
    } = Found::of(bulk);
    println!(rt; "File ID Number: {id}")?;
    println!(rt; "records: {stated} stated, {records} found")?;
    println!(rt; "transactions: {transactions}")?;
    rt.println("")?;
    Ok(())
}

// Where the file cannot be read, saying so can fail too: so by `or_else`.
fn inspect(rt: &HostRuntime, name: &str) -> anyhow::Result<()> {
    let bulk = fs::read(rt, name).or_else(|reason| -> anyhow::Result<Vec<u8>> {
        eprintln!(rt; "inspect: {name}: {reason}")?;
        Err(reason.into())
    })?;
    let size = bulk.len();
    println!(rt; "{name}: {size} bytes")?;
    match Opening::of(&bulk) {
        Ok(opening) => {
            print_opening(rt, opening, &bulk)?;
            print_transactions(rt, &bulk)
        }
        Err(fault) => {
            let code = fault.code();
            let words = words_of(code);
            println!(rt; "refused with {code}: {words}")?;
            Ok(())
        }
    }
}

fn run(rt: &HostRuntime) -> anyhow::Result<()> {
    let mut args = env::args(rt)?;
    let _program = args.next();
    let Some(name) = args.next() else {
        eprintln!(rt; "usage: inspect FILE")?;
        return Err(anyhow!("no file is named"));
    };
    inspect(rt, name.as_str())
}

// A file that cannot be read has been named where it was; a write that fails has no words of its own, only the status.
fn main(rt: HostRuntime) -> ExitCode {
    match run(&rt) {
        Ok(()) => ExitCode::SUCCESS,
        Err(_) => ExitCode::FAILURE,
    }
}
