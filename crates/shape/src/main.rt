// The shaper as a program: reads an input from standard input, shapes its line and prints it.
#![tactic(auto)]

ghost use Rattle.std.specs.Prelude.{◌≤◌, length, IfOk};

use answers::Answer;
use printed::LineText;
use shaper::{SHAPER_ROOM, SHAPER_TABLE, Shaped};
use std::io;
use std::io::Read;

// The longest input that is taken: a table with its length, and glyphs of two bytes with their count.
const LONGEST_INPUT: usize = 4 + SHAPER_TABLE as usize + 2 + 2 * SHAPER_ROOM;

// One more shows that an input is longer.
const MOST_BYTES: usize = LONGEST_INPUT + 1;

// Reads until the room is full or the input ends, and returns how many bytes were read.
// kept: one for the four programs would be public, and of that tools/firm wants an equation for what is read, which no clause can say of a reader.
fn read_full(input: &mut impl Read, room: &mut [u8]) -> io::Result<usize>
    ensures { IfOk result (λ read. read ≤ length room.new) }
{
    let mut read = 0;
    while read < room.len() {
        let more = input.read(&mut room[read..])?;
        if more == 0 {
            break;
        }
        read += more;
    }
    Ok(read)
}

// The answer; where the input was taken, also the heads and the line.
fn print_shaped(
    rt: &impl Print,
    shaped: Shaped,
    glyphs: &[u16],
    tags: &[u16],
    homes: &[u16],
) -> io::Result<()> {
    println!(rt; "answer {}", u32::from(shaped.answer))?;
    if matches!(shaped.answer, Answer::Refused(_)) {
        return Ok(());
    }
    let line = LineText {
        glyphs,
        tags,
        homes,
        used: shaped.used,
        characters: shaped.characters,
    };
    print!(rt; "heads {}\n{line}", shaped.heads)
}

fn main(rt: HostRuntime) -> io::Result<()> {
    let mut bytes = [0u8; MOST_BYTES];
    let read = read_full(&mut rt.stdin(), &mut bytes)?;
    let mut glyphs = [0u16; SHAPER_ROOM];
    let mut tags = [0u16; SHAPER_ROOM];
    let mut homes = [0u16; SHAPER_ROOM];
    let shaped = shaper::shape(&bytes[..read], &mut glyphs, &mut tags, &mut homes);
    print_shaped(&rt, shaped, &glyphs, &tags, &homes)
}
