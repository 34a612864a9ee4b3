// The survey of a lookup table: whether its records stand in order, so that a search by halves finds what is there.
ghost use Rattle.std.specs.Prelude.{◌≡◌};
ghost use Rattle.tables.specs.Survey.{record_at, scanned, survey_in, survey_at, surveyed};

use crate::records;
use crate::records::{Format, Kind};
use answers::Refusal;

// The first and last glyph of a record that lies wholly in the table.
#[derive(Clone, Copy)]
pub struct Record {
    pub first: u16,
    pub last: u16,
}

// What the survey says; `Bad` names the first record that is not in order, `UnitSize` a size that the format's records don't have.
#[derive(Clone, Copy)]
pub enum Surveyed {
    Sorted,
    Bad(u32),
    UnitSize(u16),
    NoRecords,
    Nothing,
}

// Record `index`, where all its bytes lie in the table.
#[tactic(auto, unfolding(crate::specs::Survey::record_at, crate::specs::Survey::record_in, parse::specs::Parts::read_part, parse::specs::Reads::inside))]
fn record_at(bytes: &[u8], kind: Kind, index: u32) -> Option<Record>
    ensures { result ≡ record_at bytes.now kind index }
{
    let place = records::record_place(12, kind, index);
    parse::read_part(bytes, place, records::stride_of(kind) as usize)?;
    let first = records::first_at(bytes, kind, place);
    let last = parse::u16_at(bytes, place);
    Some(Record { first, last })
}

// Record after record: each begins behind the last glyph of the one before, and does not end before it begins.
#[tactic(auto, using(crate::proofs::Scanning::bad_low, crate::proofs::Scanning::bad_turned, crate::proofs::Scanning::surveying_next, crate::proofs::Scanning::surveying_done))]
fn survey_records(bytes: &[u8], kind: Kind, count: u16) -> Surveyed
    ensures { result ≡ scanned bytes.now kind count }
{
    let mut floor: u32 = 0;
    for index in 0..count as u32 {
        let Some(record) = record_at(bytes, kind, index) else {
            return Surveyed::Bad(index);
        };
        if (record.first as u32) < floor || record.last < record.first {
            return Surveyed::Bad(index);
        }
        floor = record.last as u32 + 1;
    }
    Surveyed::Sorted
}

// The survey of as many records as the table counts, where they have the size that it states.
#[tactic(auto, using(parse::proofs::Laws::u16_value), unfolding(crate::specs::Survey::survey_in))]
fn survey_counted(bytes: &[u8], kind: Kind) -> Surveyed
    ensures { result ≡ survey_in bytes.now (Format.Records kind) }
{
    let Some(count) = parse::read_u16(bytes, 4) else {
        return Surveyed::Nothing;
    };
    let unit_size = parse::u16_at(bytes, 2);
    if unit_size != records::stride_of(kind) {
        return Surveyed::UnitSize(unit_size);
    }
    survey_records(bytes, kind, count)
}

// The survey of the lookup table that begins with `bytes`.
#[tactic(auto, unfolding(crate::specs::Survey::survey_at, crate::specs::Survey::survey_in))]
fn survey_at(bytes: &[u8]) -> Surveyed
    ensures { result ≡ survey_at bytes.now }
{
    let Some(number) = parse::read_u16(bytes, 0) else {
        return Surveyed::Nothing;
    };
    match Format::from(number) {
        Format::Records(kind) => survey_counted(bytes, kind),
        Format::Simple | Format::Trimmed(_) | Format::Unknown => Surveyed::NoRecords,
    }
}

// The survey of the lookup table at `start`.
#[tactic(auto, unfolding(crate::specs::Survey::surveyed))]
pub fn survey(table: &[u8], start: usize) -> Result<Surveyed, Refusal>
    ensures { result ≡ surveyed table.now start }
{
    answers::refuse_table(table.len())?;
    Ok(survey_at(parse::from(table, start)))
}
