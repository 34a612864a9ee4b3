// A lookup table whose records all lie in it, opened once for many glyphs: its search tests no record's place.
ghost use Rattle.std.specs.Prelude.{◌≡◌, ◌+◌, ◌≤◌, Some, length};
ghost use Rattle.tables.specs.Records.{record_place};
ghost use Rattle.tables.specs.Search.{side_of_record};
ghost use Rattle.tables.specs.Lookup.{element_of, lookup_at};
ghost use Rattle.tables.specs.Whole.{whole_of, records_of, becomes};

use crate::records::{Format, Kind, Side, Spot};
use crate::{lookup, records};

// Its records.
#[derive(Clone, Copy)]
pub struct Records {
    pub kind: Kind,
    pub count: u16,
}

// The records of this kind, where all lie in the table.
#[tactic(auto, unfolding(crate::specs::Whole::whole_of))]
fn whole(bytes: &[u8], kind: Kind) -> Option<Records>
    ensures { result ≡ whole_of bytes.now kind }
{
    let count = parse::read_u16(bytes, 4)?;
    if bytes.len() < records::record_place(12, kind, count as u32) {
        return None;
    }
    Some(Records { kind, count })
}

// The records of the lookup table that begins with `bytes`.
#[tactic(auto, unfolding(crate::specs::Whole::records_of))]
pub fn records_of(bytes: &[u8]) -> Option<Records>
    ensures { result ≡ records_of bytes.now }
{
    let number = parse::read_u16(bytes, 0)?;
    let Format::Records(kind) = Format::from(number) else {
        return None;
    };
    whole(bytes, kind)
}

// Where a glyph lies from a record that lies in the table.
#[tactic(auto, using(crate::proofs::Wholeness::side_right, crate::proofs::Wholeness::side_left, crate::proofs::Wholeness::side_here))]
fn side_of(bytes: &[u8], kind: Kind, index: u32, glyph: u16) -> Side
    requires { record_place 12 kind index + 4 ≤ length bytes.now }
    ensures { result ≡ side_of_record bytes.now 12 kind glyph index }
{
    let place = records::record_place(12, kind, index);
    if parse::u16_at(bytes, place) < glyph {
        return Side::Right;
    }
    if glyph < records::first_at(bytes, kind, place) {
        return Side::Left;
    }
    Side::Here
}

// The element of a glyph in the record that holds it, or the glyph.
fn by_record(bytes: &[u8], kind: Kind, index: u32, glyph: u16) -> u16
    ensures { result ≡ becomes glyph (element_of bytes.now kind (record_place 12 kind index) glyph) }
{
    let place = records::record_place(12, kind, index);
    lookup::element_of(bytes, kind, place, glyph).unwrap_or(glyph)
}

// The element that `lookup_at` finds for a glyph, or the glyph.
pub fn sought(bytes: &[u8], records: Records, glyph: u16) -> u16
    requires { records_of bytes.now ≡ Some records }
    ensures { result ≡ becomes glyph (lookup_at bytes.now glyph) }
{
    let Records { kind, count } = records;
    let spot = records::halve(count as u32, |index| side_of(bytes, kind, index, glyph));
    match spot {
        Spot::At(index) => by_record(bytes, kind, index, glyph),
        Spot::Absent | Spot::Cut => glyph,
    }
}
