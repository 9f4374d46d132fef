// Runs an independent implementation's vectors as far as no book is needed: every file's opening, and the verdict of every transaction on its own.
#![tactic(auto)]

use anyhow::Context;
use file::opening::{Opening, body};
use file::transactions::Transactions;
use register::bit_map::BitMap;
use register::five::{Five, Registers};
use register::key_list::KeyList;
use std::fs;
use transaction::sound::read;
use transaction::verdict::Verdict;

// Answers below this number are the opening's codes.
const OPENING: u16 = 6;

// The codes from here on are the book's.
const BOOK: u16 = 60;

// How many digits the item of the file has, which a packet begins with, and each other item.
const HEADER: usize = 2 * 20;

const ITEM: usize = 2 * 16;

// What was compared, and what disagreed.
#[derive(Clone, Copy, Default, PartialEq, Eq, Debug)]
struct Totals {
    files: u64,
    refused_files: u64,
    transactions: u64,
    refused: u64,
    disagree: u64,
}

// What the vectors have for a file: the call's answer, and the digits of the packet, which a refused file has not.
#[derive(Clone, Copy, PartialEq, Eq, Debug)]
struct Expected<'a> {
    // One number, a length or a code, as the stored answers have it; 0 where no number of 16 bits stands there.
    answer: u16,
    packet: Option<&'a [u8]>,
}

// One more in the total where it counts. At the largest number it would stay, which no folder of vectors reaches.
fn count_if(total: &mut u64, counts: bool) {
    *total = total.saturating_add(u64::from(counts));
}

// What is no digit, and no small letter, counts as 0: so a folder with a bad digit is counted, and not refused as a whole.
fn hex_digit(b: &u8) -> u8 {
    match *b {
        b'0'..=b'9' => *b - b'0',
        b'a'..=b'f' => *b - b'a' + 10,
        _ => 0,
    }
}

// The byte at a place of an item in hexadecimal. A digit that is missing counts as 0 too.
fn byte_at(item: &[u8], at: usize) -> u8 {
    let digits = item.chunks(2).nth(at).unwrap_or(&[]);
    let high = digits.first().map_or(0, hex_digit);
    let low = digits.get(1).map_or(0, hex_digit);
    high.saturating_mul(16).saturating_add(low)
}

// The verdict in an item of a packet, where it is not the book's.
fn verdict_in(item: &[u8]) -> Verdict {
    let code = u16::from_le_bytes([byte_at(item, 8), byte_at(item, 9)]);
    let number = u32::from_le_bytes([
        byte_at(item, 10),
        byte_at(item, 11),
        byte_at(item, 12),
        byte_at(item, 13),
    ]);
    let column = u16::from_le_bytes([byte_at(item, 14), byte_at(item, 15)]);
    if code == 0 || code >= BOOK {
        return Verdict::Accepted;
    }
    Verdict::Refused(code, number as usize, usize::from(column))
}

fn own_verdict<R: Registers>(text: &[u8], registers: &R) -> Verdict {
    match read(text, registers) {
        Ok(_) => Verdict::Accepted,
        Err(fault) => fault.verdict(),
    }
}

fn run_transactions<R: Registers>(bulk: &[u8], packet: &[u8], registers: &R, totals: &mut Totals) {
    let mut items = packet.get(HEADER..).unwrap_or(&[]);
    for text in Transactions::of(body(bulk)) {
        let verdict = own_verdict(text, registers);
        count_if(&mut totals.transactions, true);
        count_if(&mut totals.refused, verdict != Verdict::Accepted);
        let (item, others) = items.split_at(items.len().min(ITEM));
        items = others;
        let expected = verdict_in(item);
        count_if(&mut totals.disagree, verdict != expected);
    }
}

fn run_file<R: Registers>(
    bulk: &[u8],
    expected: &Expected<'_>,
    registers: &R,
    totals: &mut Totals,
) {
    count_if(&mut totals.files, true);
    match Opening::of(bulk) {
        Ok(_) => {
            count_if(&mut totals.disagree, expected.answer < OPENING);
            if let Some(packet) = expected.packet {
                run_transactions(bulk, packet, registers, totals);
            }
        }
        Err(fault) => {
            count_if(&mut totals.refused_files, true);
            count_if(&mut totals.disagree, expected.answer != fault.code());
        }
    }
}

fn run_line<R: Registers>(
    rt: &HostRuntime,
    line: &str,
    registers: &R,
    totals: &mut Totals,
) -> anyhow::Result<()> {
    let mut words = line.split(' ');
    let name = words.next().context("no name")?;
    let _day = words.next();
    let _room = words.next();
    let answer = words.next().context("no answer")?;
    let packet = words.next().context("no packet")?.as_bytes();
    let path = format!(in rt.alloc(); "files/{name}")?;
    let bulk = fs::read(rt, path.as_str())?;
    let expected = Expected {
        answer: answer.parse::<u16>().unwrap_or(0),
        packet: Some(packet).filter(|digits| *digits != b"-".as_slice()),
    };
    run_file(&bulk, &expected, registers, totals);
    Ok(())
}

// It reads its folder by itself, as `vectors` does: they want other words of a line and other registers, and share the library's calls.
fn main(rt: HostRuntime) -> anyhow::Result<()> {
    let agencies = fs::read(&rt, "registers/alc.txt")?;
    let offices = fs::read(&rt, "registers/do.txt")?;
    let symbols = fs::read(&rt, "registers/tas.txt")?;
    let units = fs::read(&rt, "registers/unit.txt")?;
    let accounts = fs::read(&rt, "registers/sgl.map")?;
    let registers = Five {
        agencies: KeyList::of(&agencies, 8),
        offices: KeyList::of(&offices, 5),
        symbols: KeyList::of(&symbols, 27),
        units: KeyList::of(&units, 2),
        accounts: BitMap::of(&accounts),
    };
    let mut totals = Totals::default();
    let lines = fs::read_to_string(&rt, "expected.txt")?;
    for line in lines.as_str().lines() {
        run_line(&rt, line, &registers, &mut totals)?;
    }
    println!(rt;
        "{} files, {} refused by their opening",
        totals.files, totals.refused_files
    )?;
    println!(rt;
        "{} transactions, {} refused on their own",
        totals.transactions, totals.refused
    )?;
    println!(rt; "{} disagree with the vectors", totals.disagree)?;
    Ok(())
}
