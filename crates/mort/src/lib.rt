// mort: the head of a subtable of the earlier edition, and the work of the two kinds that are taken. The machine of the one and the pass of the
// other are morx's, lent a classic state table and a lookup in the manual's reading.
#![tactic(auto)]

ghost use Rattle.std.specs.Prelude.{◌≡◌, ◌≤◌, length};
ghost use Rattle.answers.specs.Limits.{room_limit};
ghost use Rattle.line.specs.Line.{line_of};
ghost use Rattle.machine.specs.Work.{work_leaves};
ghost use Rattle.mort.specs.Mort.{has_kind, old_rearrangement, old_non_contextual};

use answers::{Answer, Refusal};
use tables::units::Reading;

// The number of bytes of a subtable's head.
const HEAD: usize = 8;

// How many kinds the coverage's low three bits can tell, and those that are taken.
const KINDS: u16 = 8;

pub const REARRANGEMENT: u16 = 0;

pub const NONCONTEXTUAL: u16 = 4;

// Whether a subtable's head lies in the table and is of this kind.
// kept: the contract answers for every number that a head may tell, not for the two that are taken alone.
#[tactic(auto, unfolding(crate::specs::Mort::has_kind, parse::specs::Reads::inside))]
pub fn has_kind(bytes: &[u8], kind: u16) -> bool
    ensures { result ≡ has_kind bytes.now kind }
{
    HEAD <= bytes.len() && parse::u16_at(bytes, 2) % KINDS == kind
}

// The pass of kind 0 over a line that LINE has taken; HEAD where it is another kind, and ENDED where its state table can't be opened.
#[tactic(auto, unfolding(machine::specs::Work::work_leaves, machine::specs::Work::passed_leaves, line::specs::Changes::apply_all))]
pub fn rearrange(
    bytes: &[u8],
    glyphs: &mut [u16],
    tags: &mut [u16],
    homes: &[u16],
    used: usize,
) -> Answer
    requires { (used ≤ length glyphs.old) × (used ≤ length tags.old) × (used ≤ room_limit) }
    ensures answer { result ≡ (old_rearrangement.worked bytes.now
        (line_of glyphs.old tags.old homes.now used)).answer }
    ensures glyphs { glyphs.new ≡ (work_leaves old_rearrangement bytes.now
        (line_of glyphs.old tags.old homes.now used)).glyphs }
    ensures tags { tags.new ≡ (work_leaves old_rearrangement bytes.now
        (line_of glyphs.old tags.old homes.now used)).tags }
{
    if !has_kind(bytes, REARRANGEMENT) {
        return Answer::Refused(Refusal::Head);
    }
    let body = parse::from(bytes, HEAD);
    let Some(states) = state_tables::classic(body) else {
        return Answer::Ended;
    };
    rearrangement::lent::pass(body, states, glyphs, tags, homes, used)
}

// The pass of kind 4 over a line that LINE has taken; HEAD where it is another kind.
#[tactic(auto, unfolding(machine::specs::Work::work_leaves, noncontextual::specs::Work::passed_leaves, line::specs::Changes::apply_all, noncontextual::specs::NonContextual::passed))]
pub fn substitute(
    bytes: &[u8],
    glyphs: &mut [u16],
    tags: &[u16],
    homes: &[u16],
    used: usize,
) -> Answer
    requires { used ≤ length glyphs.old }
    ensures answer { result ≡ (old_non_contextual.worked bytes.now
        (line_of glyphs.old tags.now homes.now used)).answer }
    ensures glyphs { glyphs.new ≡ (work_leaves old_non_contextual bytes.now
        (line_of glyphs.old tags.now homes.now used)).glyphs }
{
    if !has_kind(bytes, NONCONTEXTUAL) {
        return Answer::Refused(Refusal::Head);
    }
    noncontextual::sized::pass_by(
        Reading::Manual,
        parse::from(bytes, HEAD),
        glyphs,
        tags,
        homes,
        used,
    );
    Answer::Done
}
