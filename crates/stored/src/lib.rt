// Stored lines: the record of a line, written into a buffer and read back. `writing` has the bytes of a record, `reading` the tests of
// bytes that may be one, and the line in them.
#![tactic(auto)]

ghost use Rattle.std.specs.Prelude.{◌≡◌};
ghost use Rattle.answers.specs.Refuse.{refuse};
ghost use Rattle.line.specs.Line.{line_of};
ghost use Rattle.stored.specs.Entries.{store_tests, store_call, newest_version, read_tests, read_call};

use answers::{ROOM, Refusal};

pub mod reading;
pub mod writing;

// How many places and characters a line has.
#[derive(Clone, Copy)]
pub struct Lengths {
    pub used: usize,
    pub characters: usize,
}

// The tests before a line is stored.
#[tactic(auto, using(crate::proofs::Calls::store_rooms, crate::proofs::Written::record_size), unfolding(answers::specs::Refuse::refuse, line::specs::Test::line_test, crate::specs::Entries::store_tests))]
fn refuse_store(
    glyphs: &[u16],
    tags: &[u16],
    homes: &[u16],
    used: usize,
    buffer: &[u8],
) -> Result<(), Refusal>
    ensures { result ≡ refuse (store_tests (line_of glyphs.now tags.now homes.now used) buffer.now) }
{
    if !line::valid::takes(glyphs, tags, homes, used) {
        return Err(Refusal::Line);
    }
    if buffer.len() < writing::size(used, homes.len()) {
        return Err(Refusal::Line);
    }
    Ok(())
}

// Writes the record of a line to the buffer's start.
#[tactic(auto, using(crate::proofs::Calls::store_fits, crate::proofs::Written::record_size), unfolding(crate::specs::Entries::store_call, crate::specs::Entries::store_by))]
pub fn store_line(
    glyphs: &[u16],
    tags: &[u16],
    homes: &[u16],
    used: usize,
    buffer: &mut [u8],
) -> Result<usize, Refusal>
    ensures reply { result ≡ (store_call (line_of glyphs.now tags.now homes.now used) buffer.old).reply }
    ensures buffer { buffer.new ≡ (store_call (line_of glyphs.now tags.now homes.now used)
        buffer.old).buffer }
{
    refuse_store(glyphs, tags, homes, used, buffer)?;
    writing::put_record(buffer, glyphs, tags, homes, used);
    Ok(writing::size(used, homes.len()))
}

// The tests before a line is read.
#[tactic(auto, using(crate::proofs::Calls::head_there), unfolding(answers::specs::Refuse::refuse, answers::specs::Limits::room_limit, crate::specs::Entries::read_tests, crate::specs::Entries::record_tests, crate::specs::Entries::room_tests))]
fn refuse_read(bytes: &[u8], glyphs: &[u16], tags: &[u16], homes: &[u16]) -> Result<(), Refusal>
    ensures { result ≡ refuse (read_tests newest_version bytes.now glyphs.now tags.now homes.now) }
{
    answers::refuse_table(bytes.len())?;
    if reading::is_other(bytes) {
        return Err(Refusal::Version);
    }
    if !reading::is_record(bytes) {
        return Err(Refusal::Record);
    }
    let Lengths { used, characters } = reading::lengths(bytes);
    if tags.len() != glyphs.len()
        || ROOM < glyphs.len()
        || glyphs.len() < used
        || homes.len() < characters
    {
        return Err(Refusal::Line);
    }
    Ok(())
}

// Reads the line of a record into the room that is lent.
#[tactic(auto, using(crate::proofs::Calls::read_fits), unfolding(crate::specs::Entries::read_call, crate::specs::Entries::read_by, crate::specs::Reading::read_line))]
pub fn read_line(
    bytes: &[u8],
    glyphs: &mut [u16],
    tags: &mut [u16],
    homes: &mut [u16],
) -> Result<Lengths, Refusal>
    ensures reply { result ≡ (read_call newest_version bytes.now glyphs.old tags.old homes.old).reply }
    ensures glyphs { glyphs.new ≡ (read_call newest_version bytes.now glyphs.old tags.old
        homes.old).glyphs }
    ensures tags { tags.new ≡ (read_call newest_version bytes.now glyphs.old tags.old
        homes.old).tags }
    ensures homes { homes.new ≡ (read_call newest_version bytes.now glyphs.old tags.old
        homes.old).homes }
{
    refuse_read(bytes, glyphs, tags, homes)?;
    let lengths = reading::lengths(bytes);
    reading::get_places(bytes, glyphs, tags, lengths.used);
    reading::get_homes(bytes, homes, lengths.used, lengths.characters);
    Ok(lengths)
}
