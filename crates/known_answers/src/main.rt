// Runs document 01's known answers through the proved entries and prints each, of lookups that find nothing why, and its table with a feature that is
// asked for; those it marks are proved in the crate `promises`.
#![tactic(auto)]

use answers::Refusal;
use chains::Edition;
use morx::Choices;
use shaper::{SHAPER_ROOM, Shaped};
use std::io;
use tables::lookup::Why;

// The lookup table of document 01: format 8, first glyph 5, elements 7 and 9.
const TRIMMED: [u8; 10] = [0, 8, 0, 5, 0, 2, 0, 7, 0, 9];

// A state table's head, whose class table is that lookup.
const CLASSED: [u8; 26] = [
    0, 0, 0, 4, 0, 0, 0, 16, 0, 0, 0, 0, 0, 0, 0, 0, 0, 8, 0, 5, 0, 2, 0, 7, 0, 9,
];

// The answer's number, and the value where there is one.
fn print_reply(rt: &impl Print, reply: Result<Option<u32>, Refusal>) -> io::Result<()> {
    match reply {
        Ok(Some(value)) => println!(rt; ": answer 0 value {value}"),
        Ok(None) => println!(rt; ": answer 1"),
        Err(why) => println!(rt; ": answer {}", u32::from(why)),
    }
}

fn reason(why: Why) -> &'static str {
    match why {
        Why::NotCovered => "not covered",
        Why::CutShort => "cut short",
        Why::UnknownFormat => "unknown format",
    }
}

// The same of a lookup, and why there is no value.
fn print_found(rt: &impl Print, reply: Result<Result<u16, Why>, Refusal>) -> io::Result<()> {
    match reply {
        Ok(Ok(element)) => println!(rt; ": answer 0 value {element}"),
        Ok(Err(why)) => println!(rt; ": answer 1 {}", reason(why)),
        Err(why) => println!(rt; ": answer {}", u32::from(why)),
    }
}

fn print_lookup(rt: &impl Print, glyph: u16) -> io::Result<()> {
    print!(rt; "lookup of glyph {glyph}")?;
    print_found(rt, tables::lookup::lookup(&TRIMMED, 0, glyph))
}

// In a part of a table.
fn print_lookup_cut(rt: &impl Print, part: &[u8], glyph: u16) -> io::Result<()> {
    print!(rt; "lookup in {} bytes of glyph {glyph}", part.len())?;
    print_found(rt, tables::lookup::lookup(part, 0, glyph))
}

// In a table of another format.
fn print_lookup_format(rt: &impl Print, format: u8, glyph: u16) -> io::Result<()> {
    print!(rt; "lookup in format {format} of glyph {glyph}")?;
    print_found(rt, tables::lookup::lookup(&[0, format], 0, glyph))
}

// The class of a glyph in an extended state table whose class table is that lookup.
fn print_class(rt: &impl Print, glyph: u16) -> io::Result<()> {
    print!(rt; "class of glyph {glyph}")?;
    print_reply(
        rt,
        state_tables::classes::class_extended(&CLASSED, 0, glyph),
    )
}

// The first words, each behind a space.
fn print_first(rt: &impl Print, words: &[u16], count: usize) -> io::Result<()> {
    for word in words.iter().take(count) {
        print!(rt; " {word}")?;
    }
    Ok(())
}

fn print_words(rt: &impl Print, words: &[u16]) -> io::Result<()> {
    print_first(rt, words, words.len())
}

// The line 10 to 14 after a verb on a window.
fn print_verb(rt: &impl Print, verb: u16, start: usize, end: usize) -> io::Result<()> {
    let mut glyphs: [u16; 5] = [10, 11, 12, 13, 14];
    let mut tags: [u16; 5] = [0; 5];
    let mut homes: [u16; 5] = [0; 5];
    let _ = line::fresh(&glyphs, &mut tags, &mut homes);
    let answer = line::lone_verb(&mut glyphs, &mut tags, &homes, 5, verb, start, end);
    print!(rt;
        "verb {verb} from {start} to {end}: answer {} glyphs",
        u32::from(answer)
    )?;
    print_words(rt, &glyphs)?;
    println!(rt)
}

// Whether the offset of a ligature action is the one that document 01 gives.
fn print_offset(rt: &impl Print, action: u32, offset: i32) -> io::Result<()> {
    print!(rt; "offset of action {action:08x}")?;
    if ligature::actions::offset_of(action) == offset {
        return println!(rt; ": as written");
    }
    println!(rt; ": another")
}

// A result of the shaper.
fn print_shaped(
    rt: &impl Print,
    shaped: Shaped,
    glyphs: &[u16],
    tags: &[u16],
    homes: &[u16],
) -> io::Result<()> {
    let answer = u32::from(shaped.answer);
    print!(rt;
        "shaper: answer {answer} heads {} length {} glyphs",
        shaped.heads, shaped.used
    )?;
    print_first(rt, glyphs, shaped.used)?;
    print!(rt; " tags")?;
    print_first(rt, tags, shaped.used)?;
    print!(rt; " homes")?;
    print_first(rt, homes, shaped.characters)?;
    println!(rt)
}

fn print_shaper(rt: &impl Print, input: &[u8]) -> io::Result<()> {
    let mut glyphs = [0u16; SHAPER_ROOM];
    let mut tags = [0u16; SHAPER_ROOM];
    let mut homes = [0u16; SHAPER_ROOM];
    let shaped = shaper::shape(input, &mut glyphs, &mut tags, &mut homes);
    print_shaped(rt, shaped, &glyphs, &tags, &homes)
}

// The run over the line 5, 6, 20 by that table, with one chain that has default flags 0 and one feature, type 37, setting 1, which sets the flag of its
// subtable.
fn print_run(rt: &impl Print, table: &[u8], requests: &[u32]) -> io::Result<()> {
    let mut glyphs: [u16; 3] = [5, 6, 20];
    let mut tags: [u16; 3] = [0, 1, 2];
    let mut homes: [u16; 3] = [0, 1, 2];
    let choices = Choices {
        right_to_left: false,
        edition: Edition::Morx,
    };
    let reply = morx::run(
        table,
        0,
        choices,
        &mut glyphs,
        &mut tags,
        &mut homes,
        3,
        requests,
    );
    let answer = u32::from(reply.answer);
    print!(rt;
        "run with requests: {}, answer {answer} heads {} glyphs",
        requests.len(),
        reply.heads
    )?;
    print_words(rt, &glyphs)?;
    println!(rt)
}

fn print_runs(rt: &impl Print, table: &[u8]) -> io::Result<()> {
    print_run(rt, table, &[])?;
    print_run(rt, table, &[37 * 65536 + 1])
}

fn main(rt: HostRuntime) -> io::Result<()> {
    print_verb(&rt, 1, 0, 4)?;
    print_verb(&rt, 13, 0, 4)?;
    print_verb(&rt, 12, 1, 4)?;
    print_verb(&rt, 12, 0, 2)?;
    print_verb(&rt, 2, 3, 9)?;
    print_lookup(&rt, 5)?;
    print_lookup(&rt, 6)?;
    print_lookup(&rt, 4)?;
    print_lookup(&rt, 7)?;
    print_lookup_cut(&rt, &TRIMMED[..8], 6)?;
    print_lookup_format(&rt, 3, 6)?;
    print_class(&rt, 0xFFFF)?;
    print_offset(&rt, 0x3FFFFFFF, -1)?;
    print_offset(&rt, 0x20000000, -536_870_912)?;
    print_offset(&rt, 0x1FFFFFFF, 536_870_911)?;
    print_shaper(
        &rt,
        b"\x00\x00\x00\x2E\x00\x02\x00\x00\x00\x00\x00\x01\x00\x00\x00\x01\x00\x00\x00\x26\x00\x00\x00\x00\x00\x00\x00\x01\x00\x00\x00\x16\x00\x00\x00\x04\x00\x00\x00\x01\x00\x08\x00\x05\x00\x02\x00\x07\x00\x09\x00\x03\x00\x05\x00\x06\x00\x14",
    )?;
    print_runs(
        &rt,
        b"\x00\x02\x00\x00\x00\x00\x00\x01\x00\x00\x00\x00\x00\x00\x00\x32\x00\x00\x00\x01\x00\x00\x00\x01\x00\x25\x00\x01\x00\x00\x00\x01\xFF\xFF\xFF\xFF\x00\x00\x00\x16\x00\x00\x00\x04\x00\x00\x00\x01\x00\x08\x00\x05\x00\x02\x00\x07\x00\x09",
    )
}
