// A class table opened once for many glyphs, and the classes that were found remembered.
ghost use Rattle.std.specs.Prelude.{◌≡◌, ◌-◌, ◌≤◌, length, drop};
ghost use Rattle.tables.specs.Opened.{most_in, opened_of};
ghost use Rattle.state_tables.specs.Opened.{cut_bytes, classes_from, opened_bytes, classes_in, opened_classes, word_class, byte_class_in, class_by, LiesIn, Remembers, noted, nothing_found, noted_now};

use crate::{Edition, States, classes};
use tables::lookup::Why;
use tables::units::{Reading, Units};
use tables::{lookup, opened, units};

// An array of words or of bytes, of which so many lie in the table, or one that is searched.
#[derive(Clone, Copy)]
pub enum Classes {
    Words {
        base: usize,
        first: u16,
        count: usize,
    },
    Bytes {
        base: usize,
        first: u16,
        count: usize,
    },
    Searched {
        table: u32,
    },
}

// How many of an array's bytes at `base` lie in the table.
#[tactic(auto, unfolding(crate::specs::Opened::cut_bytes))]
fn bytes_in(bytes: &[u8], base: usize, count: usize) -> usize
    ensures { result ≡ cut_bytes bytes.now base count }
{
    bytes.len().saturating_sub(base).min(count)
}

// The lookup table at `table`, of elements of two bytes.
fn open_words(bytes: &[u8], table: u32) -> Classes
    ensures { result ≡ classes_from table (opened_of (drop table bytes.now)) }
{
    let Some(array) = opened::open(parse::from(bytes, table as usize)) else {
        return Classes::Searched { table };
    };
    Classes::Words {
        base: table as usize + array.base as usize,
        first: array.first,
        count: array.count,
    }
}

// An array of bytes, as far as it lies in the table.
#[tactic(auto, unfolding(crate::specs::Opened::opened_bytes))]
fn open_bytes(bytes: &[u8], base: usize, first: u16, count: u16) -> Classes
    ensures { result ≡ opened_bytes bytes.now base first count }
{
    Classes::Bytes {
        base,
        first,
        count: bytes_in(bytes, base, count as usize),
    }
}

// The lookup table at `table`, of such elements; without elements it is an array of none.
#[tactic(auto, unfolding(crate::specs::Opened::classes_in))]
fn open_units(bytes: &[u8], table: u32, units: Result<Units, Why>) -> Classes
    ensures { result ≡ classes_in bytes.now table units }
{
    match units {
        Ok(Units::Words) => open_words(bytes, table),
        Ok(Units::Bytes { first, count }) => {
            open_bytes(
                bytes,
                table as usize + units::ELEMENTS as usize,
                first,
                count,
            )
        }
        Err(_) => open_bytes(bytes, 0, 0, 0),
    }
}

// The class table of a state table; the bytes are those from the state table on.
#[tactic(auto, unfolding(crate::specs::Opened::opened_classes))]
pub fn open(bytes: &[u8], states: States) -> Classes
    ensures { result ≡ opened_classes bytes.now states.edition }
{
    match states.edition {
        Edition::Extended { table, reading } => {
            let units = units::units_by(reading, parse::from(bytes, table as usize));
            open_units(bytes, table, units)
        }
        Edition::Classic {
            place,
            first,
            count,
        } => open_bytes(bytes, place as usize, first, count),
    }
}

// The class of a glyph in an array of words.
#[tactic(auto, unfolding(crate::specs::Opened::word_class, tables::specs::Opened::most_in))]
pub fn class_in_words(bytes: &[u8], base: usize, first: u16, count: usize, glyph: u16) -> u16
    requires { count ≤ most_in bytes.now base }
    ensures { result ≡ word_class bytes.now base first count glyph }
{
    if glyph == classes::DELETED_GLYPH {
        return classes::DELETED;
    }
    let Ok(index) = lookup::index_in(first, count, glyph) else {
        return classes::OUT_OF_BOUNDS;
    };
    parse::u16_at(bytes, base + index * 2)
}

// The class of a glyph in an array of bytes.
#[tactic(auto, unfolding(crate::specs::Opened::byte_class_in))]
pub fn class_in_bytes(bytes: &[u8], base: usize, first: u16, count: usize, glyph: u16) -> u16
    requires { count ≤ length bytes.now - base }
    ensures { result ≡ byte_class_in bytes.now base first count glyph }
{
    if glyph == classes::DELETED_GLYPH {
        return classes::DELETED;
    }
    let Ok(index) = lookup::index_in(first, count, glyph) else {
        return classes::OUT_OF_BOUNDS;
    };
    bytes[base + index] as u16
}

// The class of a glyph in a class table that is searched.
#[tactic(auto, unfolding(crate::specs::Opened::class_by))]
fn class_searched(bytes: &[u8], table: u32, glyph: u16) -> u16
    ensures { result ≡ class_by bytes.now (Classes.Searched table) glyph }
{
    if glyph == classes::DELETED_GLYPH {
        return classes::DELETED;
    }
    classes::class_by_lookup(bytes, table, Reading::Crate, glyph)
}

// The class of a glyph.
#[tactic(auto, unfolding(crate::specs::Opened::class_by))]
pub fn class_in(bytes: &[u8], opened: Classes, glyph: u16) -> u16
    requires { LiesIn bytes.now opened }
    ensures { result ≡ class_by bytes.now opened glyph }
{
    match opened {
        Classes::Words { base, first, count } => class_in_words(bytes, base, first, count, glyph),
        Classes::Bytes { base, first, count } => class_in_bytes(bytes, base, first, count, glyph),
        Classes::Searched { table } => class_searched(bytes, table, glyph),
    }
}

// Each slot holds a glyph and its class: at first a deleted glyph.
pub fn nothing_found() -> [u32; 64]
    ensures { result ≡ nothing_found }
{
    [0xFFFF_0002; 64]
}

// The class of a glyph, remembered where it is new.
#[tactic(auto, unfolding(crate::specs::Opened::noted))]
#[inline(always)]
pub fn remembered(bytes: &[u8], opened: Classes, memo: &mut [u32; 64], glyph: u16) -> u16
    requires { LiesIn bytes.now opened × Remembers (class_by bytes.now opened) memo.old }
    ensures class { result ≡ class_by bytes.now opened glyph }
    ensures memo { memo.new ≡ noted (class_by bytes.now opened) memo.old glyph }
{
    let slot = (glyph % 64) as usize;
    let held = memo[slot];
    if held / 65536 == glyph as u32 {
        return (held % 65536) as u16;
    }
    let class = class_in(bytes, opened, glyph);
    memo[slot] = glyph as u32 * 65536 + class as u32;
    class
}

// The class of a glyph: an array's element, or what is remembered of any other class table.
#[tactic(auto, using(crate::proofs::Openings::still_remembers), unfolding(crate::specs::Opened::class_by, crate::specs::Opened::noted_now))]
#[inline(always)]
pub fn class_now(bytes: &[u8], opened: Classes, memo: &mut [u32; 64], glyph: u16) -> u16
    requires { LiesIn bytes.now opened × Remembers (class_by bytes.now opened) memo.old }
    ensures class { result ≡ class_by bytes.now opened glyph }
    ensures memo { Remembers (class_by bytes.now opened) memo.new }
    ensures noted { memo.new ≡ noted_now (class_by bytes.now opened) opened memo.old glyph }
{
    let Classes::Words { base, first, count } = opened else {
        return remembered(bytes, opened, memo, glyph);
    };
    class_in_words(bytes, base, first, count, glyph)
}
