// The crate's `lookup` of 16-bit elements.
ghost use Rattle.std.specs.Prelude.{◌≡◌, ◌-◌, ◌<◌, ◌^◌, Ok, Err};
ghost use Rattle.laws.specs.Choose.{if_lt};
ghost use Rattle.tables.specs.Lookup.{element_at, element_of, in_records, trimmed_at, lookup_at, lookup_reply};

use crate::records;
use crate::records::{Format, Keys, Kind, Spot};
use answers::Refusal;
use parse::bytes::Bytes;

// Why a lookup found nothing.
#[derive(Clone, Copy)]
pub enum Why {
    NotCovered,
    CutShort,
    UnknownFormat,
}

// The element at a place.
#[tactic(auto, unfolding(crate::specs::Lookup::element_at))]
fn element_at(bytes: &[u8], place: usize) -> Result<u16, Why>
    ensures { result ≡ element_at bytes.now place }
{
    parse::read_u16(bytes, place).ok_or(Why::CutShort)
}

// How far a glyph lies behind the first of its record.
fn beyond(glyph: u16, first: u16) -> usize
    ensures { (result ≡ glyph - first) × (result < 65536) }
{
    glyph.saturating_sub(first) as usize
}

// The element of a glyph in the array of a format 4 record.
#[tactic(auto, unfolding(crate::specs::Lookup::element_of))]
fn element_in_array(bytes: &[u8], place: usize, glyph: u16) -> Result<u16, Why>
    requires { place < 2 ^ 36 }
    ensures { result ≡ element_of bytes.now Kind.Arrays place glyph }
{
    let first = parse::read_u16(bytes, place + 2).ok_or(Why::CutShort)?;
    let offset = parse::read_u16(bytes, place + 4).ok_or(Why::CutShort)?;
    element_at(bytes, offset as usize + beyond(glyph, first) * 2)
}

// The element of a glyph in the record that holds it.
#[tactic(auto, unfolding(crate::specs::Lookup::element_of))]
pub fn element_of(bytes: &[u8], kind: Kind, place: usize, glyph: u16) -> Result<u16, Why>
    requires { place < 2 ^ 36 }
    ensures { result ≡ element_of bytes.now kind place glyph }
{
    match kind {
        Kind::Ranges => element_at(bytes, place + 4),
        Kind::Arrays => element_in_array(bytes, place, glyph),
        Kind::Singles => element_at(bytes, place + 2),
    }
}

// Formats 2, 4 and 6.
#[tactic(auto, unfolding(crate::specs::Lookup::in_records, crate::specs::Lookup::element_in))]
fn in_records(bytes: &[u8], kind: Kind, glyph: u16) -> Result<u16, Why>
    ensures { result ≡ in_records bytes.now kind glyph }
{
    let count = parse::read_u16(bytes, 4).ok_or(Why::CutShort)?;
    let spot = records::search(bytes, 12, Keys::Glyphs(kind), count as u32, glyph as u32);
    match spot {
        Spot::At(index) => element_of(bytes, kind, records::record_place(12, kind, index), glyph),
        Spot::Absent => Err(Why::NotCovered),
        Spot::Cut => Err(Why::CutShort),
    }
}

// Which of so many elements, the first of them that of glyph `first`, is a glyph's.
pub fn index_in(first: u16, count: usize, glyph: u16) -> Result<usize, Why>
    ensures { result ≡ if_lt glyph first (Err Why.NotCovered) (if_lt (glyph - first) count (Ok (glyph - first)) (Err Why.NotCovered)) }
{
    if glyph < first {
        return Err(Why::NotCovered);
    }
    let index = (glyph - first) as usize;
    if count <= index {
        return Err(Why::NotCovered);
    }
    Ok(index)
}

// Formats 8 and 10.
#[tactic(auto, unfolding(crate::specs::Lookup::trimmed_at))]
fn trimmed(bytes: &[u8], head: u16, glyph: u16) -> Result<u16, Why>
    ensures { result ≡ trimmed_at bytes.now head glyph }
{
    let first = parse::read_u16(bytes, head as usize).ok_or(Why::CutShort)?;
    let count = parse::read_u16(bytes, head as usize + 2).ok_or(Why::CutShort)?;
    let index = index_in(first, count as usize, glyph)?;
    element_at(bytes, head as usize + 4 + index * 2)
}

// The element of a glyph in the lookup table that begins with `bytes`, or why there is none.
#[tactic(auto, unfolding(crate::specs::Lookup::lookup_at, crate::specs::Lookup::in_format))]
pub fn lookup_at(bytes: &[u8], glyph: u16) -> Result<u16, Why>
    ensures { result ≡ lookup_at bytes.now glyph }
{
    let number = parse::read_u16(bytes, 0).ok_or(Why::CutShort)?;
    match Format::from(number) {
        Format::Simple => element_at(bytes, 2 + glyph as usize * 2),
        Format::Records(kind) => in_records(bytes, kind, glyph),
        Format::Trimmed(head) => trimmed(bytes, head, glyph),
        Format::Unknown => Err(Why::UnknownFormat),
    }
}

// The element of a glyph in the lookup table that a reader holds.
#[tactic(auto, unfolding(crate::specs::Lookup::lookup_reply))]
pub fn lookup_in<'a>(bytes: Bytes<'a>, glyph: u16) -> Result<Result<u16, Why>, Refusal>
    ensures { result ≡ lookup_reply bytes.entry.table.now bytes.entry.start glyph }
{
    answers::refuse_table(bytes.table.len())?;
    Ok(lookup_at(parse::from(bytes.table, bytes.start), glyph))
}

// The element of a glyph in the lookup table at `start`.
pub fn lookup(table: &[u8], start: usize, glyph: u16) -> Result<Result<u16, Why>, Refusal>
    ensures { result ≡ lookup_reply table.now start glyph }
{
    lookup_in(Bytes::new(table, start), glyph)
}
