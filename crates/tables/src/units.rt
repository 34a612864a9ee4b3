// The lookup by a reading: the crate's, or the manual's, which obeys the unit size of format 10.
ghost use Rattle.std.specs.Prelude.{◌≡◌, Ok};
ghost use Rattle.tables.specs.Units.{byte_at, byte_units, sized_units, units_by, in_units, lookup_by};

use crate::lookup;
use crate::lookup::Why;

// Whose word is taken for how many bytes an element of format 10 has: the crate has two, the manual as many as the unit size says.
#[derive(Clone, Copy)]
pub enum Reading {
    Crate,
    Manual,
}

// The elements of a lookup table: of two bytes, as the crate finds them; of one byte, for `count` glyphs from `first` on.
#[derive(Clone, Copy)]
pub enum Units {
    Words,
    Bytes { first: u16, count: u16 },
}

// The format that has a unit size, and where its elements begin.
pub const EXTENDED: u16 = 10;

pub const ELEMENTS: u32 = 8;

// The element of one byte at a place.
#[tactic(auto, unfolding(crate::specs::Units::byte_at))]
fn byte_at(bytes: &[u8], place: usize) -> Result<u16, Why>
    ensures { result ≡ byte_at bytes.now place }
{
    let element = parse::read_u8(bytes, place).ok_or(Why::CutShort)?;
    Ok(u16::from(element))
}

// Elements of one byte.
#[tactic(auto, unfolding(crate::specs::Units::byte_units))]
fn byte_units(bytes: &[u8]) -> Result<Units, Why>
    ensures { result ≡ byte_units bytes.now }
{
    let first = parse::read_u16(bytes, 4).ok_or(Why::CutShort)?;
    let count = parse::read_u16(bytes, 6).ok_or(Why::CutShort)?;
    Ok(Units::Bytes { first, count })
}

// The elements of format 10, by its unit size.
#[tactic(auto, unfolding(crate::specs::Units::sized_units))]
fn sized_units(bytes: &[u8]) -> Result<Units, Why>
    ensures { result ≡ sized_units bytes.now }
{
    let size = parse::read_u16(bytes, 2).ok_or(Why::CutShort)?;
    match size {
        1 => byte_units(bytes),
        2 => Ok(Units::Words),
        _ => Err(Why::UnknownFormat),
    }
}

// The elements in the manual's reading.
#[tactic(auto, unfolding(crate::specs::Units::units_by))]
fn manual_units(bytes: &[u8]) -> Result<Units, Why>
    ensures { result ≡ units_by Reading.Manual bytes.now }
{
    match parse::read_u16(bytes, 0) {
        Some(EXTENDED) => sized_units(bytes),
        _ => Ok(Units::Words),
    }
}

// The elements of the lookup table that begins with `bytes`, by a reading.
#[tactic(auto, unfolding(crate::specs::Units::units_by))]
pub fn units_by(reading: Reading, bytes: &[u8]) -> Result<Units, Why>
    ensures { result ≡ units_by reading bytes.now }
{
    match reading {
        Reading::Crate => Ok(Units::Words),
        Reading::Manual => manual_units(bytes),
    }
}

// The element of a glyph among elements of one byte.
#[tactic(auto, unfolding(crate::specs::Units::in_units))]
fn in_bytes(bytes: &[u8], first: u16, count: u16, glyph: u16) -> Result<u16, Why>
    ensures { result ≡ in_units bytes.now (Ok (Units.Bytes first count)) glyph }
{
    let index = lookup::index_in(first, count as usize, glyph)?;
    byte_at(bytes, ELEMENTS as usize + index)
}

// The element of a glyph in the lookup table that begins with `bytes`, by a reading, or why there is none.
#[tactic(auto, unfolding(crate::specs::Units::in_units, crate::specs::Units::lookup_by))]
pub fn lookup_by(reading: Reading, bytes: &[u8], glyph: u16) -> Result<u16, Why>
    ensures { result ≡ lookup_by reading bytes.now glyph }
{
    match units_by(reading, bytes)? {
        Units::Words => lookup::lookup_at(bytes, glyph),
        Units::Bytes { first, count } => in_bytes(bytes, first, count, glyph),
    }
}
