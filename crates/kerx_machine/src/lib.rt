// kerx format 1: the kerning machine over the extended state table.
#![tactic(auto)]

ghost use Rattle.std.specs.Prelude.{◌≡◌};
ghost use Rattle.kerning.specs.Additions.{add_all};
ghost use Rattle.kerning_machine.specs.Work.{CanPass};
ghost use Rattle.kerx_machine.specs.Machine.{tuples_of, has_tuples, is_tupled, entries_of, opened_any, opened, worked, worked_indexed, step_call};

use answers::Answer;
use kerning::heads;
use kerning::heads::Unready;
use kerning_machine::{Kerning, KerningState, KerningStep, Reading as Entries};
use tables::units::Reading;

// The format of this machine.
pub const FORMAT: u32 = 1;

// The state table always begins 12 bytes in, though the head has 8 below version 4.
pub const BODY: usize = 12;

// The tuple count of a subtable: from version 4 of the list on.
#[tactic(auto, unfolding(crate::specs::Machine::tuples_of))]
fn tuples_of(bytes: &[u8], version: u16) -> Option<u32>
    ensures { result ≡ tuples_of bytes.now version }
{
    if version < 4 {
        return Some(0);
    }
    parse::read_u32(bytes, 8)
}

// Whether a subtable has tuples.
#[tactic(auto, unfolding(crate::specs::Machine::has_tuples))]
fn has_tuples(bytes: &[u8], version: u16) -> bool
    ensures { result ≡ has_tuples bytes.now version }
{
    tuples_of(bytes, version).is_some_and(|tuples| tuples != 0)
}

// Whether a subtable has tuples, which the manual's reading refuses.
#[tactic(auto, unfolding(crate::specs::Machine::is_tupled))]
pub fn is_tupled(bytes: &[u8], version: u16, reading: Reading) -> bool
    ensures { result ≡ is_tupled bytes.now version reading }
{
    match reading {
        Reading::Crate => false,
        Reading::Manual => has_tuples(bytes, version),
    }
}

// How entries are read.
fn entries_of(reading: Reading, values: u32, tuples: u32) -> Entries
    ensures { result ≡ entries_of reading values tuples }
{
    match reading {
        Reading::Crate => Entries::Kerx { values, tuples },
        Reading::Manual => Entries::Manual { values },
    }
}

// The machine of a subtable whose bytes begin at its head, with tuples or without.
#[tactic(auto, unfolding(crate::specs::Machine::opened_any))]
fn open_any(bytes: &[u8], version: u16, reading: Reading) -> Result<Kerning, Unready>
    ensures { result ≡ opened_any bytes.now version reading }
{
    let coverage = parse::read_u32(bytes, 4).ok_or(Unready::Short)?;
    let tuples = tuples_of(bytes, version).ok_or(Unready::Short)?;
    if coverage % 256 != FORMAT {
        return Err(Unready::Short);
    }
    let body = parse::from(bytes, BODY);
    let states = state_tables::extended_by(body, reading).ok_or(Unready::Short)?;
    let values = parse::read_u32(body, 16).ok_or(Unready::Short)?;
    Ok(Kerning {
        states,
        reading: entries_of(reading, values, tuples),
    })
}

// The machine of a subtable whose bytes begin at its head.
#[tactic(auto, unfolding(crate::specs::Machine::opened))]
pub fn open(bytes: &[u8], version: u16, reading: Reading) -> Result<Kerning, Unready>
    ensures { result ≡ opened bytes.now version reading }
{
    let tupled = is_tupled(bytes, version, reading);
    let machine = open_any(bytes, version, reading);
    heads::barred(tupled, machine)
}

// The pass by the subtable whose bytes begin at its head and the classes of an index; HEAD where it can't be opened.
#[tactic(auto, unfolding(crate::specs::Machine::worked_indexed))]
pub fn work_by(
    bytes: &[u8],
    version: u16,
    glyphs: &[u16],
    used: usize,
    along: &mut [i64],
    reading: Reading,
    index: &[u16],
) -> Answer
    requires { CanPass glyphs.now used along.old }
    ensures answer { result ≡ (worked_indexed index.now bytes.now version glyphs.now used reading).answer }
    ensures along { along.new ≡ add_all (worked_indexed index.now bytes.now version glyphs.now used
        reading).additions along.old }
{
    let machine = open(bytes, version, reading);
    kerning_machine::work_by(
        parse::from(bytes, BODY),
        machine,
        glyphs,
        used,
        along,
        index,
    )
}

// The same by the subtable's own classes.
pub fn work(
    bytes: &[u8],
    version: u16,
    glyphs: &[u16],
    used: usize,
    along: &mut [i64],
    reading: Reading,
) -> Answer
    requires { CanPass glyphs.now used along.old }
    ensures answer { result ≡ (worked bytes.now version glyphs.now used reading).answer }
    ensures along { along.new ≡ add_all (worked bytes.now version glyphs.now used reading).additions
        along.old }
{
    let none = [0u16; 0];
    work_by(bytes, version, glyphs, used, along, reading, &none)
}

// A lone step by the subtable at `start` of a list of this version, on a line of so many places.
#[tactic(auto, unfolding(crate::specs::Machine::step_call))]
pub fn step_by(
    state: KerningState,
    table: &[u8],
    start: usize,
    version: u16,
    used: usize,
    index: usize,
    glyph: u16,
    along: &mut [i64],
    reading: Reading,
) -> KerningStep
    ensures step { result ≡ (step_call table.now start version state used index glyph along.old reading).step }
    ensures along { along.new ≡ add_all (step_call table.now start version state used index glyph along.old
        reading).additions along.old }
{
    let bytes = parse::from(table, start);
    let machine = open(bytes, version, reading);
    state.step(
        table.len(),
        parse::from(bytes, BODY),
        machine,
        used,
        index,
        glyph,
        along,
    )
}

// The same in the crate's reading.
pub fn step(
    state: KerningState,
    table: &[u8],
    start: usize,
    version: u16,
    used: usize,
    index: usize,
    glyph: u16,
    along: &mut [i64],
) -> KerningStep
    ensures step { result ≡ (step_call table.now start version state used index glyph along.old Reading.Crate).step }
    ensures along { along.new ≡ add_all (step_call table.now start version state used index glyph along.old
        Reading.Crate).additions along.old }
{
    step_by(
        state,
        table,
        start,
        version,
        used,
        index,
        glyph,
        along,
        Reading::Crate,
    )
}
