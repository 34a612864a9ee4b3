// The line: a glyph and a tag at each place, a home for each character. Here are the entries that start a line and rearrange it;
// `valid` has the LINE test and `edits` the edits that passes are made of.
#![tactic(auto)]

ghost use Rattle.std.specs.Prelude.{◌≡◌};
ghost use Rattle.answers.specs.Refuse.{refuse};
ghost use Rattle.line.specs.Line.{line_of};
ghost use Rattle.line.specs.Entries.{fresh_tests, fresh_call, verb_tests, verb_call};

use answers::{Answer, ROOM, Refusal};

pub mod edits;
pub mod valid;

// The tests before a line is started.
#[tactic(auto, unfolding(answers::specs::Refuse::refuse, answers::specs::Limits::room_limit, crate::specs::Entries::fresh_tests))]
fn refuse_fresh(glyphs: &[u16], tags: &[u16], homes: &[u16]) -> Result<(), Refusal>
    ensures { result ≡ refuse (fresh_tests glyphs.now tags.now homes.now) }
{
    if tags.len() != glyphs.len() || ROOM < glyphs.len() || glyphs.len() < homes.len() {
        return Err(Refusal::Line);
    }
    Ok(())
}

// Starts a line of as many characters as there are homes: tags and homes from 0 up, the glyphs as they are.
#[tactic(auto, using(crate::proofs::FreshLaws::fresh_fits, crate::proofs::FreshLaws::numbered_from, crate::proofs::FreshLaws::numbered_over), unfolding(crate::specs::Entries::fresh_call, crate::specs::Entries::fresh_by, crate::specs::Entries::fresh_of))]
pub fn fresh(glyphs: &[u16], tags: &mut [u16], homes: &mut [u16]) -> Result<usize, Refusal>
    ensures reply { result ≡ (fresh_call glyphs.now tags.old homes.old).reply }
    ensures tags { tags.new ≡ (fresh_call glyphs.now tags.old homes.old).tags }
    ensures homes { homes.new ≡ (fresh_call glyphs.now tags.old homes.old).homes }
{
    refuse_fresh(glyphs, tags, homes)?;
    let count = homes.len();
    edits::number(tags, 0, 0, count);
    edits::number(homes, 0, 0, count);
    Ok(count)
}

// The tests before a lone verb.
#[tactic(auto, unfolding(answers::specs::Refuse::refuse, crate::specs::Entries::verb_tests, crate::specs::Test::line_test))]
fn refuse_verb(
    glyphs: &[u16],
    tags: &[u16],
    homes: &[u16],
    used: usize,
    start: usize,
    end: usize,
) -> Result<(), Refusal>
    ensures { result ≡ refuse (verb_tests (line_of glyphs.now tags.now homes.now used) start end) }
{
    if !valid::takes(glyphs, tags, homes, used) {
        return Err(Refusal::Line);
    }
    if end < start || used < start {
        return Err(Refusal::Place);
    }
    Ok(())
}

// Rearranges the window from `start` to `end` of a line; verb 0 makes no edit.
#[tactic(auto, using(crate::proofs::VerbLaws::verb_fits), unfolding(crate::specs::Entries::verb_call, crate::specs::Entries::verb_changes, crate::specs::Entries::made_by, crate::specs::Entries::verb_makes, crate::specs::Entries::answer_by, crate::specs::Changes::apply_all, crate::specs::Changes::apply))]
pub fn lone_verb(
    glyphs: &mut [u16],
    tags: &mut [u16],
    homes: &[u16],
    used: usize,
    verb: u16,
    start: usize,
    end: usize,
) -> Answer
    ensures answer { result ≡ (verb_call (line_of glyphs.old tags.old homes.now used) verb start end).answer }
    ensures glyphs { glyphs.new ≡ (verb_call (line_of glyphs.old tags.old homes.now used) verb start
        end).line.glyphs }
    ensures tags { tags.new ≡ (verb_call (line_of glyphs.old tags.old homes.now used) verb start
        end).line.tags }
{
    if let Err(why) = refuse_verb(glyphs, tags, homes, used, start, end) {
        return Answer::Refused(why);
    }
    if verb % 16 == 0 {
        return Answer::Done;
    }
    edits::rearrange(glyphs, tags, used, start, end, verb);
    Answer::Done
}
