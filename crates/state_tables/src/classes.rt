// The class of a glyph.
ghost use Rattle.std.specs.Prelude.{◌≡◌};
ghost use Rattle.state_tables.specs.Classes.{class_by_lookup, class_by_array, class_of, class_reply, class_extended, class_classic};

use crate::{Edition, States};
use answers::Refusal;
use tables::units::Reading;
use tables::{lookup, units};

// The number of a deleted glyph, and its class.
pub const DELETED_GLYPH: u16 = 0xFFFF;

pub const DELETED: u16 = 2;

// The class of a glyph that the class table does not cover.
pub const OUT_OF_BOUNDS: u16 = 1;

// By a lookup table that is read by a reading.
#[tactic(auto, unfolding(crate::specs::Classes::class_by_lookup))]
pub fn class_by_lookup(bytes: &[u8], table: u32, reading: Reading, glyph: u16) -> u16
    ensures { result ≡ class_by_lookup bytes.now table reading glyph }
{
    units::lookup_by(reading, parse::from(bytes, table as usize), glyph).unwrap_or(OUT_OF_BOUNDS)
}

#[tactic(auto, unfolding(crate::specs::Classes::class_by_array))]
fn class_by_array(bytes: &[u8], place: u32, first: u16, count: u16, glyph: u16) -> u16
    ensures { result ≡ class_by_array bytes.now place first count glyph }
{
    let Ok(index) = lookup::index_in(first, count as usize, glyph) else {
        return OUT_OF_BOUNDS;
    };
    let Some(class) = parse::read_u8(bytes, place as usize + index) else {
        return OUT_OF_BOUNDS;
    };
    class as u16
}

// The class of a glyph; a deleted one has its own, whatever the class table says.
#[tactic(auto, unfolding(crate::specs::Classes::class_of, crate::specs::Classes::class_in))]
pub fn class_of(bytes: &[u8], states: States, glyph: u16) -> u16
    ensures { result ≡ class_of bytes.now states glyph }
{
    if glyph == DELETED_GLYPH {
        return DELETED;
    }
    match states.edition {
        Edition::Extended { table, reading } => class_by_lookup(bytes, table, reading, glyph),
        Edition::Classic {
            place,
            first,
            count,
        } => class_by_array(bytes, place, first, count, glyph),
    }
}

// The class of a glyph in the state table at `start`, of which `made` is what its head gives.
#[tactic(auto, unfolding(crate::specs::Classes::class_reply, crate::specs::Classes::head_test, answers::specs::Refuse::refuse))]
fn class_reply(
    table: &[u8],
    start: usize,
    made: Option<States>,
    glyph: u16,
) -> Result<Option<u32>, Refusal>
    ensures { result ≡ class_reply made table.now start glyph }
{
    answers::refuse_table(table.len())?;
    if table.len() < start {
        return Err(Refusal::Head);
    }
    let states = made.ok_or(Refusal::Head)?;
    Ok(Some(class_of(parse::from(table, start), states, glyph) as u32))
}

// The class of a glyph in the extended state table at `start`.
#[tactic(auto, unfolding(crate::specs::Classes::class_extended))]
pub fn class_extended(table: &[u8], start: usize, glyph: u16) -> Result<Option<u32>, Refusal>
    ensures { result ≡ class_extended table.now start glyph }
{
    class_reply(
        table,
        start,
        crate::extended(parse::from(table, start)),
        glyph,
    )
}

// The class of a glyph in the classic state table at `start`.
#[tactic(auto, unfolding(crate::specs::Classes::class_classic))]
pub fn class_classic(table: &[u8], start: usize, glyph: u16) -> Result<Option<u32>, Refusal>
    ensures { result ≡ class_classic table.now start glyph }
{
    class_reply(
        table,
        start,
        crate::classic(parse::from(table, start)),
        glyph,
    )
}
