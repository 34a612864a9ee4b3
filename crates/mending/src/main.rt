// The mending as a program: reads a lookup table from standard input, mends it and prints what became of its records, and the new table.
#![tactic(auto)]

ghost use Rattle.std.specs.Prelude.{◌≤◌, length, IfOk, Some};
ghost use Rattle.mending.specs.Hex.{text_of};

use answers::{Answer, TABLE_LIMIT};
use std::io::Read;
use std::{fmt, io};

// The most records that a table counts.
const MOST_RECORDS: usize = 65_535;

// The most bytes of a table that are looked at: its head and as many records of six bytes.
const MOST_BYTES: usize = 12 + 6 * MOST_RECORDS;

// What is read at once of the rest, of which only the length counts.
const PART: usize = 65_536;

// Reads until the room is full or the input ends, and returns how many bytes were read.
// kept: one for the four programs would be public, and of that tools/firm wants an equation for what is read, which no clause can say of a reader.
fn read_full(input: &mut impl Read, room: &mut [u8]) -> io::Result<usize>
    ensures { IfOk result (λ read. read ≤ length room.new) }
{
    let mut read = 0;
    while read < room.len() {
        let more = input.read(&mut room[read..])?;
        if more == 0 {
            break;
        }
        read += more;
    }
    Ok(read)
}

// What became of each record that has not its old number.
fn print_records(rt: &impl Print, numbers: &[u16]) -> io::Result<()> {
    for (index, &number) in numbers.iter().enumerate() {
        if number == mend::NONE {
            println!(rt; "dropped {index}")?;
        } else if number as usize != index {
            println!(rt; "moved {index} {number}")?;
        }
    }
    Ok(())
}

// A table in hex, on one line. It is printed as one value, since what is printed by words goes out by words.
#[derive(Clone, Copy)]
struct TableText<'a> {
    bytes: &'a [u8],
}

impl<'a> fmt::Display for TableText<'a> {
    ghost output = { λ table. Some (text_of table) };

    fn fmt<W: fmt::Write>(&self, f: &mut fmt::Formatter<W>) -> fmt::Result {
        for (index, word) in self.bytes.chunks_exact(2).enumerate() {
            let separator = if index == 0 { "" } else { " " };
            write!(f, "{separator}{:02X}{:02X}", word[0], word[1])?;
        }
        Ok(())
    }
}

// How many bytes more there are, up to a part.
fn read_part(input: &mut impl Read) -> io::Result<usize>
    ensures { IfOk result (λ more. more ≤ 65536) }
{
    let mut part = [0u8; PART];
    read_full(input, &mut part)
}

// How many bytes the table has: those that were read, and the rest, as far as it matters.
fn length_of(input: &mut impl Read, read: usize) -> io::Result<usize> {
    if read < MOST_BYTES {
        return Ok(read);
    }
    let mut total = read;
    while total <= TABLE_LIMIT {
        let more = read_part(input)?;
        if more == 0 {
            break;
        }
        total += more;
    }
    Ok(total)
}

// Mends a table and prints what there is to say.
fn mend_table(rt: &impl Print, table: &[u8]) -> io::Result<()> {
    let mut buffer = [0u8; MOST_BYTES];
    let mut numbers = [0u16; MOST_RECORDS];
    let mut size: usize = 0;
    let answer = mend::mend(table, 0, &mut buffer, &mut numbers, &mut size);
    println!(rt; "answer {}", u32::from(answer))?;
    let Answer::Done = answer else {
        return Ok(());
    };
    let records = parse::read_u16(table, 4).unwrap_or(0);
    print_records(rt, &numbers[..records as usize])?;
    let mended = TableText {
        bytes: &buffer[..size.min(MOST_BYTES)],
    };
    println!(rt; "{mended}")
}

fn main(rt: HostRuntime) -> io::Result<()> {
    let mut input = rt.stdin();
    let mut bytes = [0u8; MOST_BYTES];
    let read = read_full(&mut input, &mut bytes)?;
    if let Err(why) = answers::refuse_table(length_of(&mut input, read)?) {
        return println!(rt; "answer {}", u32::from(why));
    }
    mend_table(&rt, &bytes[..read])
}
