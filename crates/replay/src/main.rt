// Replays a sample of the crate's answers, with no Rust at hand: `beside/run --sample FILE` writes what is read here.
#![tactic(auto)]

mod results;

ghost use Rattle.std.specs.Prelude.{◌≡◌, ◌≤◌, length, if◌then◌else◌, IfOk};

use answers::Refusal;
use shaper::SHAPER_ROOM;
use std::io;
use std::io::Read;
use tables::lookup::Why;
use tables::survey::Surveyed;

// The shaper's number in the sample: it is no exported entry.
const SHAPER: u8 = 0;

// More cases than a sample has.
const MOST_CASES: u32 = 100_000;

// More bytes than a length of two bytes counts, of a table or a result.
const MOST_BYTES: usize = 65_536;

// How a case of the sample went.
#[derive(Drop)]
enum Case {
    Same,
    Differs,
    Ended,
    Broken,
}

impl From<bool> for Case {
    ghost use Rattle.replay.specs.declared.Case.TheVariants.{Same, Differs};

    ghost from_gives = { λ same case. case ≡ (if same then Same else Differs) };

    fn from(same: bool) -> Case {
        if same { Case::Same } else { Case::Differs }
    }
}

// An answer's number and the two numbers that the sample has beside it.
#[derive(Clone, Copy, PartialEq, Eq)]
struct Numbers {
    answer: u32,
    first: u32,
    second: u32,
}

impl From<Refusal> for Numbers {
    ghost use Rattle.answers.specs.Numbers.{number_of};
    ghost use Rattle.answers.specs.declared.Answer.TheVariants.{Refused};

    ghost from_gives = { λ why numbers. (numbers.answer ≡ number_of (Refused why)) × (numbers.first ≡ 0) × (numbers.second ≡ 0) };

    fn from(why: Refusal) -> Numbers {
        Numbers {
            answer: u32::from(why),
            first: 0,
            second: 0,
        }
    }
}

// The numbers of an answer that is done.
fn done(first: u32, second: u32) -> Numbers {
    Numbers {
        answer: 0,
        first,
        second,
    }
}

// The numbers where nothing is found.
const NOTHING: Numbers = Numbers {
    answer: 1,
    first: 0,
    second: 0,
};

fn of_lookup(reply: Result<Result<u16, Why>, Refusal>) -> Numbers {
    match reply {
        Ok(Ok(element)) => done(element as u32, 0),
        Ok(Err(_)) => NOTHING,
        Err(why) => Numbers::from(why),
    }
}

fn of_survey(reply: Result<Surveyed, Refusal>) -> Numbers {
    match reply {
        Ok(Surveyed::NoRecords) => done(0, 0),
        Ok(Surveyed::Sorted) => done(1, 0),
        Ok(Surveyed::Bad(record)) => done(2, record),
        Ok(Surveyed::UnitSize(_)) => done(3, 0),
        Ok(Surveyed::Nothing) => NOTHING,
        Err(why) => Numbers::from(why),
    }
}

// The numbers that a case's fields have behind start and glyph.
fn told(fields: &[u8]) -> Numbers {
    Numbers {
        answer: parse::read_u8(fields, 6).unwrap_or(0) as u32,
        first: results::word(fields, 7) as u32,
        second: results::word(fields, 9) as u32,
    }
}

// Asks the entry of a case about a table; the fields are start, glyph, answer and two numbers.
fn ask(entry: u8, table: &[u8], fields: &[u8]) -> Case {
    let start = parse::read_u32(fields, 0).unwrap_or(0) as usize;
    let glyph = results::word(fields, 4);
    let numbers = match entry {
        1 => of_lookup(tables::lookup::lookup(table, start, glyph)),
        2 => of_survey(tables::survey::survey(table, start)),
        _ => return Case::Broken,
    };
    Case::from(numbers == told(fields))
}

// Reads until the room is full or the input ends, and returns how many bytes were read.
// kept: one for the four programs would be public, and of that tools/firm wants an equation for what is read, which no clause can say of a reader.
fn read_full(input: &mut impl Read, room: &mut [u8]) -> io::Result<usize>
    ensures { IfOk result (λ read. read ≤ length room.new) }
{
    let mut read = 0;
    while read < room.len() {
        let more = input.read(&mut room[read..])?;
        if more == 0 {
            break;
        }
        read += more;
    }
    Ok(read)
}

// Reads as many bytes as there is room for, and says whether the sample has them.
fn read_part(sample: &mut impl Read, part: &mut [u8]) -> io::Result<bool> {
    Ok(read_full(sample, part)? == part.len())
}

// Reads the numbers of a result, and compares the shaper's with them.
fn replay_result(sample: &mut impl Read, input: &[u8], numbers: &mut [u8]) -> io::Result<Case> {
    if !read_part(sample, numbers)? {
        return Ok(Case::Broken);
    }
    let mut glyphs = [0u16; SHAPER_ROOM];
    let mut tags = [0u16; SHAPER_ROOM];
    let mut homes = [0u16; SHAPER_ROOM];
    let shaped = shaper::shape(input, &mut glyphs, &mut tags, &mut homes);
    Ok(Case::from(results::is_result(numbers, shaped, &glyphs, &tags, &homes)))
}

// Reads how long a result is, and replays it.
fn replay_shaper(sample: &mut impl Read, input: &[u8]) -> io::Result<Case> {
    let mut size = [0u8; 2];
    if !read_part(sample, &mut size)? {
        return Ok(Case::Broken);
    }
    let length = results::word(&size, 0) as usize;
    let mut buffer = [0u8; MOST_BYTES];
    replay_result(sample, input, &mut buffer[..length])
}

// Reads a case's table and fields, and asks it; of the shaper it is the input and the result.
fn replay_case(sample: &mut impl Read, entry: u8, table: &mut [u8]) -> io::Result<Case> {
    if !read_part(sample, table)? {
        return Ok(Case::Broken);
    }
    if entry == SHAPER {
        return replay_shaper(sample, table);
    }
    let mut fields = [0u8; 11];
    if !read_part(sample, &mut fields)? {
        return Ok(Case::Broken);
    }
    Ok(ask(entry, table, &fields))
}

// Reads the next case and asks it.
fn replay_one(sample: &mut impl Read, buffer: &mut [u8; MOST_BYTES]) -> io::Result<Case> {
    let mut head = [0u8; 3];
    if read_full(sample, &mut head)? == 0 {
        return Ok(Case::Ended);
    }
    let length = results::word(&head, 1) as usize;
    replay_case(sample, head[0], &mut buffer[..length])
}

// How many cases went so or otherwise, and whether the sample ended between two of them.
#[derive(Drop)]
struct Totals {
    same: u32,
    other: u32,
    whole: bool,
}

fn replay_all(sample: &mut impl Read) -> io::Result<Totals> {
    let mut buffer = [0u8; MOST_BYTES];
    let mut totals = Totals {
        same: 0,
        other: 0,
        whole: false,
    };
    for _ in 0..MOST_CASES {
        match replay_one(sample, &mut buffer)? {
            Case::Same => totals.same += 1,
            Case::Differs => totals.other += 1,
            Case::Ended => {
                totals.whole = true;
                break;
            }
            Case::Broken => break,
        }
    }
    Ok(totals)
}

fn main(rt: HostRuntime) -> io::Result<()> {
    let totals = replay_all(&mut rt.stdin())?;
    if !totals.whole {
        println!(rt; "the sample breaks off")?;
    }
    println!(rt;
        "{} answers as the crate's, {} others",
        totals.same, totals.other
    )
}
