// A stored line as a program: reads a record from standard input and prints its line as the shaper prints one.
#![tactic(auto)]

ghost use Rattle.std.specs.Prelude.{◌≤◌, length, IfOk};

use answers::{ROOM, Refusal, TABLE_LIMIT};
use printed::LineText;
use std::io;
use std::io::Read;
use stored::Lengths;

// The longest record: a head of 9 bytes, glyph and tag of each place, and no more homes than places.
const LONGEST_RECORD: usize = 9 + 6 * ROOM;

// One more shows that an input is longer, and then it is no record whatever follows.
const MOST_BYTES: usize = LONGEST_RECORD + 1;

// What is read at once of the rest, of which only the length counts.
const PART: usize = 4096;

// Reads until the room is full or the input ends, and returns how many bytes were read.
// kept: one for the four programs would be public, and of that tools/firm wants an equation for what is read, which no clause can say of a reader.
fn read_full(input: &mut impl Read, room: &mut [u8]) -> io::Result<usize>
    ensures { IfOk result (λ read. read ≤ length room.new) }
{
    let mut read = 0;
    while read < room.len() {
        let more = input.read(&mut room[read..])?;
        if more == 0 {
            break;
        }
        read += more;
    }
    Ok(read)
}

// The answer; where the bytes were taken, also the line.
fn print_read(
    rt: &impl Print,
    reply: Result<Lengths, Refusal>,
    glyphs: &[u16],
    tags: &[u16],
    homes: &[u16],
) -> io::Result<()> {
    match reply {
        Ok(lengths) => {
            let line = LineText {
                glyphs,
                tags,
                homes,
                used: lengths.used,
                characters: lengths.characters,
            };
            print!(rt; "answer 0\n{line}")
        }
        Err(why) => println!(rt; "answer {}", u32::from(why)),
    }
}

// How many bytes the input has where so many are read already; behind the limit no more are counted.
fn count_on(input: &mut impl Read, read: usize) -> io::Result<usize> {
    let mut rest = [0u8; PART];
    let mut total = read;
    while total <= TABLE_LIMIT {
        let more = read_full(input, &mut rest)?;
        if more == 0 {
            break;
        }
        total += more;
    }
    Ok(total)
}

// How many bytes the input has, of which these were read.
fn total_of(input: &mut impl Read, read: usize) -> io::Result<usize> {
    if read < MOST_BYTES {
        return Ok(read);
    }
    count_on(input, read)
}

fn main(rt: HostRuntime) -> io::Result<()> {
    let mut input = rt.stdin();
    let mut bytes = [0u8; MOST_BYTES];
    let read = read_full(&mut input, &mut bytes)?;
    let mut glyphs = [0u16; ROOM];
    let mut tags = [0u16; ROOM];
    let mut homes = [0u16; ROOM];
    let reply = match answers::refuse_table(total_of(&mut input, read)?) {
        Ok(()) => stored::read_line(&bytes[..read], &mut glyphs, &mut tags, &mut homes),
        Err(why) => Err(why),
    };
    print_read(&rt, reply, &glyphs, &tags, &homes)
}
