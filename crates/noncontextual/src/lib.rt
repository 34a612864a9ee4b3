// morx kind 4: each glyph is looked up by itself.
#![tactic(auto)]

ghost use Rattle.std.specs.Prelude.{◌≡◌, ℕ, ◌<◌, ◌≤◌, length, get_or, Some};
ghost use Rattle.line.specs.Line.{line_of};
ghost use Rattle.tables.specs.Lookup.{lookup_at};
ghost use Rattle.tables.specs.Whole.{records_of};
ghost use Rattle.noncontextual.specs.NonContextual.{noncontextual};
ghost use Rattle.machine.specs.Machine.{pass_call, call_leaves};
ghost use Rattle.machine.specs.Work.{work_leaves};
ghost use Rattle.noncontextual.specs.Work.{passed_leaves, becomes_by, Remembers, noted};

use answers::{Answer, Refusal};
use tables::opened::Array;
use tables::records::Kind;
use tables::whole::Records;
use tables::{opened, whole};

pub mod sized;

// The kind of a non-contextual subtable.
pub const KIND: u32 = 4;

// Each glyph below the used length becomes what it is told, from the first on.
fn each<F: Fn(u16) -> u16>(glyphs: &mut [u16], used: usize, becomes: F)
    requires callable { F.IsAlwaysCallable becomes }
    requires inside { used ≤ length glyphs.old }
    ensures told { (k : ℕ) → k < used → F.post becomes (get_or glyphs.old k 0) (get_or glyphs.new k 0) }
    ensures kept { (k : ℕ) → used ≤ k → get_or glyphs.new k 0 ≡ get_or glyphs.old k 0 }
{
    for place in 0..used {
        glyphs[place] = becomes(glyphs[place]);
    }
}

// The pass by a lookup of any format.
#[tactic(auto, using(crate::proofs::Passes::passed_each, crate::proofs::Passes::opened_inside, crate::proofs::Passes::opened_becomes))]
fn by_lookup(body: &[u8], glyphs: &mut [u16], tags: &[u16], homes: &[u16], used: usize)
    requires { used ≤ length glyphs.old }
    ensures { glyphs.new ≡ (passed_leaves (lookup_at body.now)
        (line_of glyphs.old tags.now homes.now used)).glyphs }
{
    let opened = opened::open(body);
    each(
        glyphs,
        used,
        |glyph| opened::found_in(body, opened, glyph).unwrap_or(glyph),
    );
}

// What becomes of a glyph, remembered where it is new. A slot is empty, or holds which of its glyphs it remembers and what that becomes.
#[tactic(auto, unfolding(crate::specs::Work::noted, crate::specs::Work::becomes_by))]
fn remembered(body: &[u8], records: Records, memo: &mut [u32; 64], glyph: u16) -> u16
    requires { (records_of body.now ≡ Some records) × Remembers (becomes_by body.now) memo.old }
    ensures becomes { result ≡ becomes_by body.now glyph }
    ensures memo { memo.new ≡ noted (becomes_by body.now) memo.old glyph }
{
    let slot = (glyph % 64) as usize;
    let held = memo[slot];
    let which = glyph as u32 / 64 + 1;
    if held / 65536 == which {
        return (held % 65536) as u16;
    }
    let becomes = whole::sought(body, records, glyph);
    memo[slot] = which * 65536 + becomes as u32;
    becomes
}

// The pass by records that all lie in the lookup.
#[tactic(auto, using(crate::proofs::Passes::passed_each, crate::proofs::Memos::nothing_remembered, crate::proofs::Memos::still_remembers), unfolding(crate::specs::Work::becomes_by))]
fn by_records(
    body: &[u8],
    records: Records,
    glyphs: &mut [u16],
    tags: &[u16],
    homes: &[u16],
    used: usize,
)
    requires { (records_of body.now ≡ Some records) × (used ≤ length glyphs.old) }
    ensures { glyphs.new ≡ (passed_leaves (lookup_at body.now)
        (line_of glyphs.old tags.now homes.now used)).glyphs }
{
    let mut memo = [0; 64];
    for place in 0..used {
        glyphs[place] = remembered(body, records, &mut memo, glyphs[place]);
    }
}

// The pass over a line that LINE has taken, with the bytes of the lookup.
fn pass_line(body: &[u8], glyphs: &mut [u16], tags: &[u16], homes: &[u16], used: usize)
    requires { used ≤ length glyphs.old }
    ensures { glyphs.new ≡ (passed_leaves (lookup_at body.now)
        (line_of glyphs.old tags.now homes.now used)).glyphs }
{
    match whole::records_of(body) {
        Some(records) => by_records(body, records, glyphs, tags, homes, used),
        None => by_lookup(body, glyphs, tags, homes, used),
    }
}

// The pass over a line that LINE has taken, by the subtable that the bytes begin with; HEAD where it is none of this kind.
#[tactic(auto, unfolding(machine::specs::Work::work_leaves, line::specs::Changes::apply_all, crate::specs::Work::passed_leaves, crate::specs::NonContextual::passed))]
pub fn work(bytes: &[u8], glyphs: &mut [u16], tags: &[u16], homes: &[u16], used: usize) -> Answer
    requires { used ≤ length glyphs.old }
    ensures answer { result ≡ (noncontextual.worked bytes.now
        (line_of glyphs.old tags.now homes.now used)).answer }
    ensures glyphs { glyphs.new ≡ (work_leaves noncontextual bytes.now
        (line_of glyphs.old tags.now homes.now used)).glyphs }
{
    if !machine::has_kind(bytes, KIND) {
        return Answer::Refused(Refusal::Head);
    }
    pass_line(parse::from(bytes, 12), glyphs, tags, homes, used);
    Answer::Done
}

// The pass over a line, by the subtable at `start`.
#[tactic(auto, using(machine::proofs::Calls::taken_within), unfolding(machine::specs::Machine::pass_call, machine::specs::Machine::call_leaves, machine::specs::Work::work_leaves, line::specs::Changes::apply_all))]
pub fn pass(
    table: &[u8],
    start: usize,
    glyphs: &mut [u16],
    tags: &[u16],
    homes: &[u16],
    used: usize,
) -> Answer
    ensures answer { result ≡ (pass_call noncontextual table.now start
        (line_of glyphs.old tags.now homes.now used)).answer }
    ensures glyphs { glyphs.new ≡ (call_leaves noncontextual table.now start
        (line_of glyphs.old tags.now homes.now used)).glyphs }
{
    let bytes = parse::from(table, start);
    let opens = machine::has_kind(bytes, KIND);
    if let Err(why) = machine::refuse_pass(table.len(), glyphs, tags, homes, used, opens) {
        return Answer::Refused(why);
    }
    work(bytes, glyphs, tags, homes, used)
}
