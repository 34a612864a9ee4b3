// Bytes that may be a record: their tests, which run over the bytes themselves, so that nothing is written before, and the line in them.
ghost use Rattle.std.specs.Prelude.{◌≡◌, ◌++◌, ◌+◌, ◌*◌, ◌≤◌, length, drop};
ghost use Rattle.answers.specs.Limits.{room_limit};
ghost use Rattle.line.specs.Test.{are_housed, is_once_each};
ghost use Rattle.stored.specs.Reading.{length_in, characters_in, glyphs_in, tags_in, homes_in, is_marked, is_known, is_other, is_own, is_record};
ghost use Rattle.stored.specs.Entries.{newest_version};

use crate::Lengths;
use answers::ROOM;
use line::valid;

// The newest version that is read.
const NEWEST: u16 = 2;

// Whether the mark stands at the start.
#[tactic(auto, unfolding(crate::specs::Reading::is_marked))]
fn is_marked(bytes: &[u8]) -> bool
    requires { 3 ≤ length bytes.now }
    ensures { result ≡ is_marked bytes.now }
{
    bytes[0] == 0x53 && bytes[1] == 0x4C && bytes[2] == 0x4E
}

#[tactic(auto, unfolding(crate::specs::Reading::is_known, crate::specs::Entries::newest_version))]
fn is_known(version: u16) -> bool
    ensures { result ≡ is_known newest_version version }
{
    1 <= version && version <= NEWEST
}

// Whether there is another version behind the mark.
#[tactic(auto, unfolding(crate::specs::Reading::is_other))]
pub fn is_other(bytes: &[u8]) -> bool
    ensures { result ≡ is_other newest_version bytes.now }
{
    5 <= bytes.len() && is_marked(bytes) && !is_known(parse::u16_at(bytes, 3))
}

// Whether the version has lines of this length.
#[tactic(auto, unfolding(crate::specs::Reading::is_own, answers::specs::Limits::room_limit))]
fn is_own(version: u16, used: usize) -> bool
    ensures { result ≡ is_own version used }
{
    version == crate::writing::version_of(used) && used <= ROOM
}

// Whether the tags of the record are 0 to `used` - 1 once each.
fn once_each(bytes: &[u8], used: usize) -> bool
    requires { (9 + used * 4 ≤ length bytes.now) × (used ≤ room_limit) }
    ensures { result ≡ is_once_each (tags_in bytes.now used) used }
{
    let mut seen = [0u64; valid::WORDS];
    for p in 0..used {
        let tag = parse::u16_at(bytes, 11 + p * 4);
        if used <= tag as usize || valid::has_seen(&seen, tag) {
            return false;
        }
        valid::mark(&mut seen, tag);
    }
    true
}

// Whether every home of the record is below the used length.
fn housed(bytes: &[u8], used: usize, characters: usize) -> bool
    requires { 9 + used * 4 + characters * 2 ≤ length bytes.now }
    ensures { result ≡ are_housed (homes_in bytes.now used characters) used }
{
    for c in 0..characters {
        let home = parse::u16_at(bytes, 9 + used * 4 + c * 2);
        if used <= home as usize {
            return false;
        }
    }
    true
}

// The head's numbers of places and characters.
pub(crate) fn lengths(bytes: &[u8]) -> Lengths
    requires { 9 ≤ length bytes.now }
    ensures { (result.used ≡ length_in bytes.now) × (result.characters ≡ characters_in bytes.now) }
{
    Lengths {
        used: parse::u16_at(bytes, 5) as usize,
        characters: parse::u16_at(bytes, 7) as usize,
    }
}

// Whether the bytes are a record, if their version is one that is known.
#[tactic(auto, using(crate::proofs::Tests::own_fits, crate::proofs::Tests::length_homes_in), unfolding(crate::specs::Reading::is_record, crate::specs::Record::size_of, line::specs::Test::is_legal))]
pub fn is_record(bytes: &[u8]) -> bool
    ensures { result ≡ is_record bytes.now }
{
    if bytes.len() < 9 {
        return false;
    }
    let Lengths { used, characters } = lengths(bytes);
    bytes.len() == 9 + used * 4 + characters * 2
        && is_marked(bytes)
        && is_own(parse::u16_at(bytes, 3), used)
        && characters <= used
        && housed(bytes, used, characters)
        && once_each(bytes, used)
}

// Glyph and tag of each place.
pub fn get_places(bytes: &[u8], glyphs: &mut [u16], tags: &mut [u16], used: usize)
    requires { (9 + used * 4 ≤ length bytes.now) × (used ≤ length glyphs.old) × (used ≤ length tags.old) }
    ensures glyphs { glyphs.new ≡ glyphs_in bytes.now used ++ drop used glyphs.old }
    ensures tags { tags.new ≡ tags_in bytes.now used ++ drop used tags.old }
{
    for p in 0..used {
        glyphs[p] = parse::u16_at(bytes, 9 + p * 4);
        tags[p] = parse::u16_at(bytes, 11 + p * 4);
    }
}

// The home of each character.
pub fn get_homes(bytes: &[u8], homes: &mut [u16], used: usize, characters: usize)
    requires { (9 + used * 4 + characters * 2 ≤ length bytes.now) × (characters ≤ length homes.old) }
    ensures { homes.new ≡ homes_in bytes.now used characters ++ drop characters homes.old }
{
    for c in 0..characters {
        homes[c] = parse::u16_at(bytes, 9 + used * 4 + c * 2);
    }
}
