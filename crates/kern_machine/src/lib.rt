// kern format 1: the kerning machine over the classic state table.
#![tactic(auto)]

ghost use Rattle.std.specs.Prelude.{◌≡◌, ◌<◌};
ghost use Rattle.kerning.specs.Additions.{add_all};
ghost use Rattle.kerning_machine.specs.Work.{CanPass};
ghost use Rattle.kern_machine.specs.Machine.{head_size, coverage_format, is_crossed, opened, worked, step_call};

use answers::Answer;
use kerning::heads::Unready;
use kerning_machine::{Kerning, KerningState, KerningStep, Reading};

// The format of this machine.
pub const FORMAT: u16 = 1;

// The coverage's bit for a subtable that goes across the stream, in the old edition and in the new one.
pub const OLD_CROSS_STREAM: u16 = 0x4;

pub const CROSS_STREAM: u16 = 0x4000;

// kept: C's calls and the promises name an edition by the list's version (head_size, worked), and an enum of the two would be made anew in each.
// How many bytes a subtable's head has: the list's version 0 is the old edition, anything else the new one.
pub fn head_size(version: u16) -> u16
    ensures { (result ≡ head_size version) × (result < 9) }
{
    if version == 0 {
        return 6;
    }
    8
}

// The format, of a subtable's coverage.
#[tactic(auto, unfolding(crate::specs::Machine::coverage_format))]
fn format_of(version: u16, coverage: u16) -> u16
    ensures { result ≡ coverage_format version coverage }
{
    if version == 0 {
        return coverage / 256;
    }
    coverage % 256
}

// Whether a subtable goes across the stream, by its coverage.
#[tactic(auto, unfolding(crate::specs::Machine::is_crossed))]
fn is_crossed(version: u16, coverage: u16) -> bool
    ensures { result ≡ is_crossed version coverage }
{
    if version == 0 {
        return machine::is_set(coverage, OLD_CROSS_STREAM);
    }
    machine::is_set(coverage, CROSS_STREAM)
}

// The machine of a subtable whose bytes begin at its head.
#[tactic(auto, unfolding(crate::specs::Machine::opened))]
pub fn open(bytes: &[u8], version: u16) -> Result<Kerning, Unready>
    ensures { result ≡ opened bytes.now version }
{
    let coverage = parse::read_u16(bytes, 4).ok_or(Unready::Short)?;
    if format_of(version, coverage) != FORMAT {
        return Err(Unready::Short);
    }
    let states = state_tables::classic(parse::from(bytes, head_size(version) as usize)).ok_or(
        Unready::Short,
    )?;
    Ok(Kerning {
        states,
        reading: Reading::Kern {
            crossed: is_crossed(version, coverage),
        },
    })
}

// The pass by the subtable whose bytes begin at its head; HEAD where it can't be opened.
#[tactic(auto, unfolding(crate::specs::Machine::worked))]
pub fn work(bytes: &[u8], version: u16, glyphs: &[u16], used: usize, along: &mut [i64]) -> Answer
    requires { CanPass glyphs.now used along.old }
    ensures answer { result ≡ (worked bytes.now version glyphs.now used).answer }
    ensures along { along.new ≡ add_all (worked bytes.now version glyphs.now used).additions along.old }
{
    let machine = open(bytes, version);
    kerning_machine::work(
        parse::from(bytes, head_size(version) as usize),
        machine,
        glyphs,
        used,
        along,
    )
}

// A lone step by the subtable at `start` of a list of this version, on a line of so many places.
#[tactic(auto, unfolding(crate::specs::Machine::step_call))]
pub fn step(
    state: KerningState,
    table: &[u8],
    start: usize,
    version: u16,
    used: usize,
    index: usize,
    glyph: u16,
    along: &mut [i64],
) -> KerningStep
    ensures step { result ≡ (step_call table.now start version state used index glyph along.old).step }
    ensures along { along.new ≡ add_all (step_call table.now start version state used index glyph along.old).additions
        along.old }
{
    let bytes = parse::from(table, start);
    let machine = open(bytes, version);
    state.step(
        table.len(),
        parse::from(bytes, head_size(version) as usize),
        machine,
        used,
        index,
        glyph,
        along,
    )
}
