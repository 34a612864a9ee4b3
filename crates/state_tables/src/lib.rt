// State tables, extended (morx, kerx) and classic (kern): the class of a glyph, and the entry of a state and a class. Both editions
// are one `States`. A state table is lent from its own start on, and its offsets count from there.
#![tactic(auto)]

pub mod classes;
pub mod entries;
pub mod opened;

ghost use Rattle.std.specs.Prelude.{◌≡◌};
ghost use Rattle.state_tables.specs.States.{extended_by, extended_at, classic_at};

use tables::units::Reading;

// The two editions, and where each has the classes of its glyphs: in a lookup table, which is read by a reading, or in an array of bytes
// for `count` glyphs from `first` on.
#[derive(Clone, Copy)]
pub enum Edition {
    Extended { table: u32, reading: Reading },
    Classic { place: u32, first: u16, count: u16 },
}

// A state table by its head: how many classes it has, and where its state array and its entry table begin.
#[derive(Clone, Copy)]
pub struct States {
    edition: Edition,
    classes: u32,
    array: u32,
    entries: u32,
}

// The crate's `ExtendedStateTable::new`, with a class table that is read by a reading.
#[tactic(auto, unfolding(crate::specs::States::extended_by))]
pub fn extended_by(bytes: &[u8], reading: Reading) -> Option<States>
    ensures { result ≡ extended_by reading bytes.now }
{
    let classes = parse::read_u32(bytes, 0)?;
    let table = parse::read_u32(bytes, 4)?;
    let array = parse::read_u32(bytes, 8)?;
    let entries = parse::read_u32(bytes, 12)?;
    Some(States {
        edition: Edition::Extended { table, reading },
        classes,
        array,
        entries,
    })
}

// The same in the crate's reading.
#[tactic(auto, unfolding(crate::specs::States::extended_at))]
pub fn extended(bytes: &[u8]) -> Option<States>
    ensures { result ≡ extended_at bytes.now }
{
    extended_by(bytes, Reading::Crate)
}

// The crate's `StateTable::new`: the class array lies in the table, and the state array does not begin past its end.
#[tactic(auto, unfolding(crate::specs::States::classic_at, parse::specs::Parts::read_part))]
pub fn classic(bytes: &[u8]) -> Option<States>
    ensures { result ≡ classic_at bytes.now }
{
    let classes = parse::read_u16(bytes, 0)?;
    let table = parse::read_u16(bytes, 2)?;
    let array = parse::read_u16(bytes, 4)?;
    let entries = parse::read_u16(bytes, 6)?;
    let first = parse::read_u16(bytes, table as usize)?;
    let count = parse::read_u16(bytes, table as usize + 2)?;
    parse::read_part(bytes, table as usize + 4, count as usize)?;
    if bytes.len() < array as usize {
        return None;
    }
    Some(States {
        edition: Edition::Classic {
            place: table as u32 + 4,
            first,
            count,
        },
        classes: classes as u32,
        array: array as u32,
        entries: entries as u32,
    })
}
