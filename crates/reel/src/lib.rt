// A reel: up to 256 lines, lent one behind the other, each run by one table as by a call of its own.
#![tactic(auto)]

ghost use Rattle.std.specs.Prelude.{◌≡◌, true, length};
ghost use Rattle.morx.specs.Calls.{run_call, run_leaves};
ghost use Rattle.morx.specs.Work.{run_reply_of};
ghost use Rattle.reel.specs.Parts.{adds_up};
ghost use Rattle.reel.specs.Reel.{reel_of, is_lent, heads_behind, reel_answer};
ghost use Rattle.reel.specs.Morx.{table_leaves};
ghost use Rattle.reel.specs.Work.{Inside, span_line, over};

use answers::{Answer, Refusal};
use morx::{Choices, RunReply};

// The most lines of a reel.
pub const LINES: usize = 256;

// Whether sizes add up to a length. Each is taken from what is left, so that no sum is made that could leave 64 bits.
#[tactic(auto, using(crate::proofs::Parts::place_first, crate::proofs::Parts::place_next, crate::proofs::Parts::part_inside), unfolding(crate::specs::Parts::adds_up, crate::specs::Parts::total))]
pub fn adds_up(sizes: &[usize], slice: usize) -> bool
    ensures { result ≡ adds_up sizes.now slice }
{
    let mut left = slice;
    for &size in sizes {
        if left < size {
            return false;
        }
        left -= size;
    }
    left == 0
}

// Where a line's part lies: in glyphs and tags, and in homes.
#[derive(Clone, Copy)]
pub struct Span {
    pub at: usize,
    pub room: usize,
    pub from: usize,
    pub count: usize,
}

// Whether what is lent is a reel.
#[tactic(auto, unfolding(crate::specs::Reel::is_lent, crate::specs::Reel::line_limit))]
fn is_lent(
    rooms: &[usize],
    characters: &[usize],
    used: &[usize],
    answers: &[u32],
    heads: &[u32],
    glyphs: &[u16],
    tags: &[u16],
    homes: &[u16],
) -> bool
    ensures { result ≡ is_lent (reel_of rooms.now characters.now
        used.now answers.now heads.now glyphs.now tags.now homes.now) }
{
    let lines = rooms.len();
    lines <= LINES
        && characters.len() == lines
        && used.len() == lines
        && answers.len() == lines
        && heads.len() == lines
        && adds_up(rooms, glyphs.len())
        && adds_up(rooms, tags.len())
        && adds_up(characters, homes.len())
}

// The run of the line whose part lies there.
fn run_part(
    table: &[u8],
    start: usize,
    choices: Choices,
    requests: &[u32],
    span: Span,
    glyphs: &mut [u16],
    tags: &mut [u16],
    homes: &mut [u16],
    used: usize,
) -> RunReply
    requires { Inside span (length glyphs.old) (length tags.old) (length homes.old) }
    ensures reply { result ≡ run_reply_of (run_call table.now start choices
        (span_line span glyphs.old tags.old homes.old used) requests.now)
        (span_line span glyphs.old tags.old homes.old used) }
    ensures glyphs { glyphs.new ≡ over span.at span.room glyphs.old (run_leaves table.now start choices
        (span_line span glyphs.old tags.old homes.old used) requests.now).glyphs }
    ensures tags { tags.new ≡ over span.at span.room tags.old (run_leaves table.now start choices
        (span_line span glyphs.old tags.old homes.old used) requests.now).tags }
    ensures homes { homes.new ≡ over span.from span.count homes.old (run_leaves table.now start choices
        (span_line span glyphs.old tags.old homes.old used) requests.now).homes }
{
    let Span {
        at,
        room,
        from,
        count,
    } = span;
    morx::run(
        table,
        start,
        choices,
        &mut glyphs[at..at + room],
        &mut tags[at..at + room],
        &mut homes[from..from + count],
        used,
        requests,
    )
}

// The number for a line's heads behind a run: a refused one leaves it.
fn heads_behind(answer: Answer, was: u32, heads: u32) -> u32
    ensures { result ≡ heads_behind answer was heads }
{
    match answer {
        Answer::Refused(_) => was,
        _ => heads,
    }
}

// The run of every line of a reel, by the table at `start`, with the features that are asked for.
pub fn run(
    table: &[u8],
    start: usize,
    choices: Choices,
    requests: &[u32],
    rooms: &[usize],
    characters: &[usize],
    used: &mut [usize],
    answers: &mut [u32],
    heads: &mut [u32],
    glyphs: &mut [u16],
    tags: &mut [u16],
    homes: &mut [u16],
) -> Answer
    ensures answer { result ≡ reel_answer (reel_of rooms.now characters.now
        used.old answers.old heads.old glyphs.old tags.old homes.old) }
    ensures used { used.new ≡ (table_leaves table.now start choices requests.now
        (reel_of rooms.now characters.now
        used.old answers.old heads.old glyphs.old tags.old homes.old)).used }
    ensures answers { answers.new ≡ (table_leaves table.now start choices requests.now
        (reel_of rooms.now characters.now
        used.old answers.old heads.old glyphs.old tags.old homes.old)).answers }
    ensures heads { heads.new ≡ (table_leaves table.now start choices requests.now
        (reel_of rooms.now characters.now
        used.old answers.old heads.old glyphs.old tags.old homes.old)).heads }
    ensures glyphs { glyphs.new ≡ (table_leaves table.now start choices requests.now
        (reel_of rooms.now characters.now
        used.old answers.old heads.old glyphs.old tags.old homes.old)).glyphs }
    ensures tags { tags.new ≡ (table_leaves table.now start choices requests.now
        (reel_of rooms.now characters.now
        used.old answers.old heads.old glyphs.old tags.old homes.old)).tags }
    ensures homes { homes.new ≡ (table_leaves table.now start choices requests.now
        (reel_of rooms.now characters.now
        used.old answers.old heads.old glyphs.old tags.old homes.old)).homes }
{
    if !is_lent(rooms, characters, used, answers, heads, glyphs, tags, homes) {
        return Answer::Refused(Refusal::Reel);
    }
    let mut at = 0;
    let mut from = 0;
    // kept: the C interface lends what each line has in slices of their own, and a line's part is written in five of them at once.
    for i in 0..rooms.len() {
        let span = Span {
            at,
            room: rooms[i],
            from,
            count: characters[i],
        };
        let reply = run_part(
            table, start, choices, requests, span, glyphs, tags, homes, used[i],
        );
        used[i] = reply.used;
        answers[i] = u32::from(reply.answer);
        heads[i] = heads_behind(reply.answer, heads[i], reply.heads);
        at += span.room;
        from += span.count;
    }
    Answer::Done
}
