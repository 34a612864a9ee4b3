// An index kept beside a class table: how a class is asked of it, whether it is a subtable's, and how it is filled.
#![tactic(auto)]

ghost use Rattle.std.specs.Prelude.{◌≡◌, ◌≤◌, length};
ghost use Rattle.answers.specs.Refuse.{refuse};
ghost use Rattle.state_tables.specs.Opened.{class_by, LiesIn, Remembers};
ghost use Rattle.indexes.specs.Work.{noted_beside};
ghost use Rattle.indexes.specs.Index.{classes_by, is_another, index_test, classes_below, fill_tests, fill_call};

use answers::{Answer, Refusal};
use state_tables::opened::Classes;
use state_tables::{States, opened};
use tables::units::Reading;

// The most entries: an index ends at glyph 65,534 at the latest.
pub const ENTRIES: usize = 65_535;

// Whether an index whose class table begins at `class_start` is another's than the subtable's at `start`, whose state table the body is.
#[tactic(auto, unfolding(crate::specs::Index::is_another))]
pub fn is_another(has_classes: bool, body: &[u8], start: usize, class_start: usize) -> bool
    ensures { result ≡ is_another has_classes body.now start class_start }
{
    if !has_classes {
        return true;
    }
    let Some(offset) = parse::read_u32(body, 4) else {
        return true;
    };
    class_start.checked_sub(start) != Some(12 + offset as usize)
}

// Whether INDEX refuses an index.
#[tactic(auto, unfolding(crate::specs::Index::index_test, crate::specs::Index::index_limit))]
pub fn is_refused(entries: usize, another: bool) -> bool
    ensures { result ≡ (index_test entries another).holds }
{
    ENTRIES < entries || another
}

// The class of each glyph below the index's length.
#[tactic(auto, using(crate::proofs::Filling::fill_lies, crate::proofs::Filling::fill_done))]
fn fill(bytes: &[u8], states: States, index: &mut [u16])
    requires { length index.old ≤ 65535 }
    ensures { index.new ≡ classes_below bytes.now states (length index.old) }
{
    let opened = opened::open(bytes, states);
    for glyph in 0..index.len() {
        index[glyph] = opened::class_in(bytes, opened, glyph as u16);
    }
}

// The tests before an index is filled: TABLE, HEAD, INDEX.
#[tactic(auto, using(state_tables::proofs::Laws::head_why, state_tables::proofs::Laws::head_past, state_tables::proofs::Laws::head_short, state_tables::proofs::Laws::head_ready), unfolding(crate::specs::Index::fill_tests, crate::specs::Index::index_test, crate::specs::Index::index_limit, answers::specs::Refuse::refuse))]
fn refuse_fill(
    table_length: usize,
    start: usize,
    entries: usize,
    made: Option<States>,
) -> Result<(), Refusal>
    ensures { result ≡ refuse (fill_tests table_length start entries made) }
{
    answers::refuse_table(table_length)?;
    if table_length < start || made.is_none() {
        return Err(Refusal::Head);
    }
    if ENTRIES < entries {
        return Err(Refusal::Index);
    }
    Ok(())
}

// Fills an index by the extended state table at `start`, in a reading, and tells where its class table begins.
#[tactic(auto, using(crate::proofs::Filling::passed_entries, crate::proofs::Filling::passed_start), unfolding(crate::specs::Index::fill_call, crate::specs::Index::filled_by))]
pub fn fill_index(
    table: &[u8],
    start: usize,
    reading: Reading,
    index: &mut [u16],
    class_start: &mut usize,
) -> Answer
    ensures answer { result ≡ (fill_call table.now start reading index.old class_start.old).answer }
    ensures index { index.new ≡ (fill_call table.now start reading index.old class_start.old).index }
    ensures start { class_start.new ≡ (fill_call table.now start reading index.old class_start.old).start }
{
    let bytes = parse::from(table, start);
    let made = state_tables::extended_by(bytes, reading);
    if let Err(why) = refuse_fill(table.len(), start, index.len(), made) {
        return Answer::Refused(why);
    }
    let Some(states) = made else {
        return Answer::Refused(Refusal::Head);
    };
    let Some(offset) = parse::read_u32(bytes, 4) else {
        return Answer::Refused(Refusal::Head);
    };
    fill(bytes, states, index);
    *class_start = start + offset as usize;
    Answer::Done
}

// The class of a glyph by an index, where that reaches it, and otherwise by the class table that was opened.
#[tactic(auto, unfolding(crate::specs::Index::classes_by, crate::specs::Work::noted_beside))]
#[inline(always)]
pub fn class_by(
    bytes: &[u8],
    opened: Classes,
    memo: &mut [u32; 64],
    glyph: u16,
    index: &[u16],
) -> u16
    requires { LiesIn bytes.now opened × Remembers (class_by bytes.now opened) memo.old }
    ensures class { result ≡ classes_by index.now (class_by bytes.now opened) glyph }
    ensures memo { Remembers (class_by bytes.now opened) memo.new }
    ensures noted { memo.new ≡ noted_beside index.now (class_by bytes.now opened) opened memo.old glyph }
{
    match index.get(glyph as usize) {
        Some(class) => *class,
        None => opened::class_now(bytes, opened, memo, glyph),
    }
}
