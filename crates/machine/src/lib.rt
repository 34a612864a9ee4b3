// What all machines share: flags and classes, the stall rule, the head of a subtable, and the pass over the places of a line.
#![tactic(auto)]

ghost use Rattle.std.specs.Prelude.{◌≡◌, ◌<◌, ◌≤◌, length};
ghost use Rattle.machine.specs.Stall.{stalled};
ghost use Rattle.answers.specs.Refuse.{refuse};
ghost use Rattle.line.specs.Line.{line_of};
ghost use Rattle.machine.specs.Head.{has_kind};
ghost use Rattle.machine.specs.Call.{opened, is_ready, pass_tests};
ghost use Rattle.machine.specs.Pass.{is_done};
ghost use Rattle.laws.specs.Bits.{is_set};
ghost use Rattle.state_tables.specs.Classes.{class_of};
ghost use Rattle.machine.specs.Entry.{class_here};
ghost use Rattle.machine.specs.Work.{glyph_at};

use answers::{Answer, Refusal};
use state_tables::States;

// Whether the next step is at the next place, and how often in a row it was not.
#[derive(Clone, Copy)]
pub struct Stalled {
    pub cycles: u16,
    pub advance: usize,
}

// The stall rule: after 17 answers in a row that don't advance, the 18th does.
#[tactic(auto, unfolding(crate::specs::Stall::stalled))]
pub fn stall(cycles: u16, stays: bool) -> Stalled
    ensures { result ≡ stalled cycles stays }
{
    if !stays || 16 < cycles {
        return Stalled {
            cycles: 0,
            advance: 1,
        };
    }
    Stalled {
        cycles: cycles + 1,
        advance: 0,
    }
}

// Whether a flag is set; masks are powers of two.
pub fn is_set(flags: u16, mask: u16) -> bool
    requires { 1 ≤ mask }
    ensures { result ≡ is_set flags mask }
{
    flags / mask % 2 == 1
}

// The class of the end of text is 0, that of a place its glyph's.
#[tactic(auto, unfolding(crate::specs::Entry::class_here))]
pub fn class_at(bytes: &[u8], states: States, glyph: u16, ends: bool) -> u16
    ensures { result ≡ class_here (class_of bytes.now states) glyph ends }
{
    if ends {
        return 0;
    }
    state_tables::classes::class_of(bytes, states, glyph)
}

// The glyph of the end call.
pub const END: u16 = state_tables::classes::DELETED_GLYPH;

// The glyph that a step at this place is told: the place's own, or the end call's.
#[tactic(auto, unfolding(crate::specs::Work::glyph_at))]
pub fn glyph_at(glyphs: &[u16], used: usize, place: usize) -> u16
    requires { used ≤ length glyphs.now }
    ensures { result ≡ glyph_at glyphs.now used place }
{
    if place < used {
        return glyphs[place];
    }
    END
}

// Whether a morx subtable's head lies in the table and is of this kind.
#[tactic(auto, unfolding(crate::specs::Head::has_kind, parse::specs::Reads::read_u32, parse::specs::Reads::inside, parse::specs::Parts::read_part))]
pub fn has_kind(bytes: &[u8], kind: u32) -> bool
    ensures { result ≡ has_kind bytes.now kind }
{
    if parse::read_part(bytes, 0, 12).is_none() {
        return false;
    }
    parse::read_u32(bytes, 4).is_some_and(|coverage| coverage % 256 == kind)
}

// Whether an answer is DONE.
pub fn is_done(answer: Answer) -> bool
    ensures { result ≡ is_done answer }
{
    matches!(answer, Answer::Done)
}

// The state table of a morx subtable of this kind, over the bytes from the subtable's start on.
#[tactic(auto, unfolding(crate::specs::Call::opened))]
pub fn open(bytes: &[u8], kind: u32) -> Option<States>
    ensures { result ≡ opened bytes.now kind }
{
    if !has_kind(bytes, kind) {
        return None;
    }
    state_tables::extended(parse::from(bytes, 12))
}

// Whether a head has given a state table.
pub fn is_ready(made: Option<States>) -> bool
    ensures { result ≡ is_ready made }
{
    made.is_some()
}

// The tests before a pass: TABLE, LINE, HEAD.
#[tactic(auto, unfolding(crate::specs::Call::pass_tests, crate::specs::Call::head_test, line::specs::Test::line_test, answers::specs::Refuse::refuse))]
pub fn refuse_pass(
    table_length: usize,
    glyphs: &[u16],
    tags: &[u16],
    homes: &[u16],
    used: usize,
    opens: bool,
) -> Result<(), Refusal>
    ensures { result ≡ refuse (pass_tests table_length (line_of glyphs.now tags.now homes.now used) opens) }
{
    answers::refuse_table(table_length)?;
    if !line::valid::takes(glyphs, tags, homes, used) {
        return Err(Refusal::Line);
    }
    if !opens {
        return Err(Refusal::Head);
    }
    Ok(())
}
