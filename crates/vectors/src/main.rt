// Runs the files of an independent implementation through first look, and compares every answer and every byte of the buffer.
#![tactic(auto)]

use anyhow::Context;
use first_look::first_look;
use std::fs;

// What a buffer holds before the call: what is behind the packet must stay.
const FILL: u8 = 0xAA;

// The texts of the five registers.
#[derive(Drop)]
struct Texts {
    agencies: Vec<u8>,
    offices: Vec<u8>,
    symbols: Vec<u8>,
    units: Vec<u8>,
    accounts: Vec<u8>,
}

// What was compared, and what disagreed.
#[derive(Clone, Copy, Default, PartialEq, Eq, Debug)]
struct Totals {
    files: u64,
    refused: u64,
    bytes: u64,
    disagree: u64,
}

// A line of the expected answers.
#[derive(Clone, Copy, PartialEq, Eq, Debug)]
struct Expected<'a> {
    day: u32,
    room: usize,
    // One number, a length or a code: the vectors write what a caller in C gets, and that call is tried here.
    answer: u64,
    // The packet in hexadecimal, in small letters; none for a refused file.
    packet: Option<&'a str>,
}

// Whether no byte was written behind the packet.
fn is_untouched(bytes: &[u8]) -> bool {
    bytes.iter().all(|byte| *byte == FILL)
}

// Whether a byte is the one that two hexadecimal digits write, in small letters.
fn is_written(byte: u8, digits: &[u8]) -> bool {
    let mut written = [0; 2];
    hex::encode_to_slice([byte], &mut written).is_ok() && digits == written.as_slice()
}

// Whether bytes are those that the digits write, all of them. The bytes are written out, and not the digits read: what is no packet in
// hexadecimal only disagrees.
fn is_hex(bytes: &[u8], digits: &[u8]) -> bool {
    digits.len() % 2 == 0
        && bytes
            .iter()
            .zip(digits.chunks(2))
            .all(|(byte, pair)| is_written(*byte, pair))
}

// Whether the number and the buffer are the expected ones.
fn agrees(answer: u64, buffer: &[u8], expected: &Expected<'_>) -> bool {
    let digits = expected.packet.unwrap_or("").as_bytes();
    let Some((packet, rest)) = buffer.split_at_checked(digits.len() / 2) else {
        return false;
    };
    answer == expected.answer && is_hex(packet, digits) && is_untouched(rest)
}

fn run_file(
    rt: &HostRuntime,
    file: &[u8],
    texts: &Texts,
    expected: &Expected<'_>,
    totals: &mut Totals,
) -> anyhow::Result<()> {
    let heap = rt.alloc();
    let mut buffer = vec![in heap; FILL; expected.room]?;
    let answer = first_look(
        file,
        &texts.agencies,
        &texts.offices,
        &texts.symbols,
        &texts.units,
        &texts.accounts,
        expected.day,
        buffer.as_mut_slice(),
    );
    totals.files = totals.files.saturating_add(1);
    if answer < 20 {
        totals.refused = totals.refused.saturating_add(1);
    } else {
        totals.bytes = totals.bytes.saturating_add(answer);
    }
    if !agrees(answer, &buffer, expected) {
        totals.disagree = totals.disagree.saturating_add(1);
    }
    Ok(())
}

fn run_line(
    rt: &HostRuntime,
    line: &str,
    texts: &Texts,
    totals: &mut Totals,
) -> anyhow::Result<()> {
    let mut words = line.split(' ');
    let name = words.next().context("no name")?;
    let day = words.next().context("no day")?;
    let room = words.next().context("no buffer length")?;
    let answer = words.next().context("no answer")?;
    let packet = words.next().context("no packet")?;
    let path = format!(in rt.alloc(); "files/{name}")?;
    let file = fs::read(rt, path.as_str())?;
    let expected = Expected {
        day: day.parse::<u32>()?,
        room: room.parse::<usize>()?,
        answer: answer.parse::<u64>()?,
        packet: Some(packet).filter(|word| *word != "-"),
    };
    run_file(rt, &file, texts, &expected, totals)
}

fn read_texts(rt: &HostRuntime) -> anyhow::Result<Texts> {
    Ok(Texts {
        agencies: fs::read(rt, "registers/alc.txt")?,
        offices: fs::read(rt, "registers/do.txt")?,
        symbols: fs::read(rt, "registers/tas.txt")?,
        units: fs::read(rt, "registers/unit.txt")?,
        accounts: fs::read(rt, "registers/sgl.map")?,
    })
}

fn main(rt: HostRuntime) -> anyhow::Result<()> {
    let texts = read_texts(&rt)?;
    let mut totals = Totals::default();
    let lines = fs::read_to_string(&rt, "expected.txt")?;
    for line in lines.as_str().lines() {
        run_line(&rt, line, &texts, &mut totals)?;
    }
    let Totals {
        files,
        refused,
        bytes,
        disagree,
    } = totals;
    println!(rt; "{files} files, {refused} refused with a file code")?;
    println!(rt; "{bytes} bytes of packets")?;
    println!(rt; "{disagree} files disagree with the vectors")?;
    Ok(())
}
