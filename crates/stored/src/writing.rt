// The bytes of a record, written one behind the other.
ghost use Rattle.std.specs.Prelude.{◌≡◌, ◌++◌, ◌+◌, ◌*◌, ◌≤◌, length, drop};
ghost use Rattle.answers.specs.Limits.{room_limit};
ghost use Rattle.line.specs.Line.{line_of};
ghost use Rattle.stored.specs.Record.{mark, version_of, word, joined, place_bytes, home_bytes, record_of, size_of};
ghost use Rattle.stored.specs.Steps.{put_at};

// The longest line of version 1.
const LONGEST_1: usize = 4096;

// How many bytes the record of so many places and characters has.
#[tactic(auto, using(line::proofs::Room::room_small), unfolding(crate::specs::Record::size_of))]
pub fn size(used: usize, characters: usize) -> usize
    requires { (used ≤ room_limit) × (characters ≤ room_limit) }
    ensures { result ≡ size_of used characters }
{
    9 + used * 4 + characters * 2
}

// The version of a line's record.
#[tactic(auto, unfolding(crate::specs::Record::version_of, crate::specs::Record::longest1))]
pub fn version_of(used: usize) -> u16
    ensures { result ≡ version_of used }
{
    if LONGEST_1 < used { 2 } else { 1 }
}

#[tactic(auto, unfolding(crate::specs::Steps::put_at))]
fn put_mark(buffer: &mut [u8])
    requires { 3 ≤ length buffer.old }
    ensures { buffer.new ≡ put_at 0 mark buffer.old }
{
    buffer[..3].copy_from_slice(&[0x53, 0x4C, 0x4E]);
}

// A 16-bit number, big-endian.
#[tactic(auto, unfolding(crate::specs::Steps::put_at))]
fn put_word(buffer: &mut [u8], at: usize, number: u16)
    requires { at + 2 ≤ length buffer.old }
    ensures { buffer.new ≡ put_at at (word number) buffer.old }
{
    buffer[at..at + 2].copy_from_slice(&number.to_be_bytes());
}

// Mark, version, length and characters.
#[tactic(auto, using(line::proofs::Room::room_small, crate::proofs::Written::head_put))]
fn put_head(buffer: &mut [u8], used: usize, characters: usize)
    requires { (9 ≤ length buffer.old) × (used ≤ room_limit) × (characters ≤ room_limit) }
    ensures { buffer.new ≡ put_at 0 (mark ++ word (version_of used) ++ word used ++ word characters) buffer.old }
{
    put_mark(buffer);
    put_word(buffer, 3, version_of(used));
    put_word(buffer, 5, used as u16);
    put_word(buffer, 7, characters as u16);
}

// Glyph and tag of one place.
#[tactic(auto, using(crate::proofs::Written::place_put))]
fn put_place(buffer: &mut [u8], at: usize, glyph: u16, tag: u16)
    requires { at + 4 ≤ length buffer.old }
    ensures { buffer.new ≡ put_at at (word glyph ++ word tag) buffer.old }
{
    put_word(buffer, at, glyph);
    put_word(buffer, at + 2, tag);
}

// Glyph and tag of each place of the line.
fn put_places(buffer: &mut [u8], glyphs: &[u16], tags: &[u16], used: usize)
    requires { (9 + used * 4 ≤ length buffer.old) × (used ≤ length glyphs.now) × (used ≤ length tags.now) }
    ensures { buffer.new ≡ put_at 9 (joined (place_bytes glyphs.now tags.now) used) buffer.old }
{
    for p in 0..used {
        put_place(buffer, 9 + p * 4, glyphs[p], tags[p]);
    }
}

// The homes, from a place of the buffer on.
fn put_homes(buffer: &mut [u8], at: usize, homes: &[u16])
    requires { at + length homes.now * 2 ≤ length buffer.old }
    ensures { buffer.new ≡ put_at at (joined (home_bytes homes.now) (length homes.now)) buffer.old }
{
    for (c, &home) in homes.iter().enumerate() {
        put_word(buffer, at + c * 2, home);
    }
}

// The record of a line, at the buffer's start.
#[tactic(auto, using(crate::proofs::Written::record_put), unfolding(crate::specs::Record::size_of))]
pub fn put_record(buffer: &mut [u8], glyphs: &[u16], tags: &[u16], homes: &[u16], used: usize)
    requires { (size_of used (length homes.now) ≤ length buffer.old) × (used ≤ length glyphs.now) × (used ≤ length tags.now) × (used ≤ room_limit) ×
        (length homes.now ≤ room_limit) }
    ensures { buffer.new ≡ record_of (line_of glyphs.now tags.now homes.now used) ++ drop
        (length (record_of (line_of glyphs.now tags.now homes.now used))) buffer.old }
{
    put_head(buffer, used, homes.len());
    put_places(buffer, glyphs, tags, used);
    put_homes(buffer, 9 + used * 4, homes);
}
