// morx kind 0: the rearrangement machine.
#![tactic(auto)]

ghost use Rattle.std.specs.Prelude.{◌≡◌, ℕ, ◌%◌, ◌≤◌, length};
ghost use Rattle.answers.specs.Refuse.{refuse};
ghost use Rattle.answers.specs.Limits.{room_limit};
ghost use Rattle.line.specs.Line.{line_of};
ghost use Rattle.line.specs.Changes.{apply_all};
ghost use Rattle.state_tables.specs.Classes.{class_of};
ghost use Rattle.machine.specs.Pass.{Passed};
ghost use Rattle.rearrangement.specs.Rearrangement.{fresh, mark_after, window_of, acted, next, changes_of, unmoved};
ghost use Rattle.rearrangement.specs.Calls.{state_tests, rearrangement, length_tests, step_call};
ghost use Rattle.machine.specs.Call.{step_tests};
ghost use Rattle.machine.specs.Machine.{passed, subtable_of, pass_call, call_leaves};
ghost use Rattle.machine.specs.Work.{passed_leaves, work_leaves};
ghost use Rattle.indexes.specs.Index.{indexed};

use answers::{Answer, Refusal};
use state_tables::entries::Entry;
use state_tables::{States, entries, opened};

pub mod lent;

// The state of a pass: the state table's state, the marked window, and how many steps in a row did not advance.
#[derive(Clone, Copy)]
pub struct RearrangementState {
    pub first: usize,
    pub state: u16,
    pub last: usize,
    pub cycles: u16,
}

// A verb on a window of the line.
#[derive(Clone, Copy)]
pub struct Window {
    pub first: usize,
    pub last: usize,
    pub verb: u16,
}

// What a step answers: DONE with the advance, or ENDED; the new state and the edit.
#[derive(Clone, Copy)]
pub struct RearrangementStep {
    pub answer: Answer,
    pub state: RearrangementState,
    pub advance: usize,
    pub edit: Option<Window>,
}

// A mark is set to the index where its flag says so.
fn marked(was: usize, index: usize, sets: bool) -> usize
    ensures { result ≡ mark_after was index sets }
{
    if sets { index } else { was }
}

// The window of a verb other than 0 whose start is not above its end.
#[tactic(auto, unfolding(crate::specs::Rearrangement::window_of))]
fn window_of(first: usize, last: usize, verb: u16) -> Option<Window>
    ensures { result ≡ window_of first last verb }
{
    if verb == 0 || last < first {
        return None;
    }
    Some(Window { first, last, verb })
}

impl RearrangementState {
    pub const KIND: u32 = 0;

    pub const MARK_FIRST: u16 = 0x8000;

    pub const DONT_ADVANCE: u16 = 0x4000;

    pub const MARK_LAST: u16 = 0x2000;

    pub const VERBS: u16 = 16;

    pub const MOST_CYCLES: u16 = 17;

    // The state at the start of a pass.
    pub fn new() -> RearrangementState
        ensures { result ≡ fresh }
    {
        RearrangementState {
            state: 0,
            first: 0,
            last: 0,
            cycles: 0,
        }
    }

    // The tests before a lone step: TABLE, LINE, PLACE, STATE, HEAD.
    #[tactic(auto, unfolding(crate::specs::Calls::length_tests, crate::specs::Calls::state_tests, machine::specs::Call::step_tests, machine::specs::Call::place_test, machine::specs::Call::head_test, answers::specs::Refuse::refuse))]
    fn refuse(
        self,
        table_length: usize,
        used: usize,
        index: usize,
        made: Option<States>,
    ) -> Result<(), Refusal>
        ensures { result ≡ refuse (step_tests table_length (length_tests used) used index (state_tests self used) made) }
    {
        answers::refuse_table(table_length)?;
        if answers::above_room(used) {
            return Err(Refusal::Line);
        }
        if used < index {
            return Err(Refusal::Place);
        }
        if used < self.first || used < self.last || RearrangementState::MOST_CYCLES < self.cycles {
            return Err(Refusal::State);
        }
        if made.is_none() {
            return Err(Refusal::Head);
        }
        Ok(())
    }

    // A step that makes no edit and hands the state back as given.
    fn unmoved(self, answer: Answer) -> RearrangementStep
        ensures { result ≡ unmoved self answer }
    {
        RearrangementStep {
            answer,
            state: self,
            advance: 0,
            edit: None,
        }
    }

    // A lone step by the subtable at `start`, on a line of so many places.
    #[tactic(auto, unfolding(crate::specs::Calls::step_call, machine::specs::Call::lone_step))]
    pub fn step(
        self,
        table: &[u8],
        start: usize,
        used: usize,
        index: usize,
        glyph: u16,
        ends: bool,
    ) -> RearrangementStep
        ensures { result ≡ step_call table.now start self used index glyph ends }
    {
        let bytes = parse::from(table, start);
        let made = machine::open(bytes, RearrangementState::KIND);
        if let Err(why) = self.refuse(table.len(), used, index, made) {
            return self.unmoved(Answer::Refused(why));
        }
        let Some(states) = made else {
            return self.unmoved(Answer::Refused(Refusal::Head));
        };
        self.next(parse::from(bytes, 12), states, index, glyph, ends)
    }

    // What an entry does: the marks, then the verb, then the stall rule.
    #[tactic(auto, unfolding(crate::specs::Rearrangement::acted))]
    fn act(self, entry: Entry, index: usize) -> RearrangementStep
        ensures { result ≡ acted self entry index }
    {
        let flags = entry.flags;
        let first = marked(
            self.first,
            index,
            machine::is_set(flags, RearrangementState::MARK_FIRST),
        );
        let last = marked(
            self.last,
            index,
            machine::is_set(flags, RearrangementState::MARK_LAST),
        );
        let edit = window_of(first, last, flags % RearrangementState::VERBS);
        let stalled = machine::stall(
            self.cycles,
            machine::is_set(flags, RearrangementState::DONT_ADVANCE),
        );
        RearrangementStep {
            answer: Answer::Done,
            state: RearrangementState {
                state: entry.state,
                first,
                last,
                cycles: stalled.cycles,
            },
            advance: stalled.advance,
            edit,
        }
    }

    // The crate's `next`, over the bytes from the state table on.
    #[tactic(auto, unfolding(crate::specs::Rearrangement::next))]
    pub fn next(
        self,
        bytes: &[u8],
        states: States,
        index: usize,
        glyph: u16,
        ends: bool,
    ) -> RearrangementStep
        ensures { result ≡ next (class_of bytes.now states) bytes.now states self index glyph ends }
    {
        let class = machine::class_at(bytes, states, glyph, ends);
        let Some(entry) = entries::entry_of(bytes, states, self.state, class, 0) else {
            return self.unmoved(Answer::Ended);
        };
        self.act(entry, index)
    }
}

// A step's edit, made on the line.
#[tactic(auto, unfolding(line::specs::Changes::apply_all, line::specs::Changes::apply))]
fn edit(glyphs: &mut [u16], tags: &mut [u16], homes: &[u16], used: usize, window: Option<Window>)
    requires { (used ≤ length glyphs.old) × (used ≤ length tags.old) }
    ensures glyphs { glyphs.new ≡ (apply_all (changes_of window)
        (line_of glyphs.old tags.old homes.now used)).glyphs }
    ensures tags { tags.new ≡ (apply_all (changes_of window) (line_of glyphs.old tags.old homes.now used)).tags }
{
    let Some(Window { first, last, verb }) = window else {
        return;
    };
    line::edits::rearrange(glyphs, tags, used, first, last, verb);
}

// The pass over a line that LINE has taken, with the bytes from the state table on, by the classes of an index.
fn pass_line(
    bytes: &[u8],
    states: States,
    glyphs: &mut [u16],
    tags: &mut [u16],
    homes: &[u16],
    used: usize,
    index: &[u16],
) -> Answer
    requires { (used ≤ length glyphs.old) × (used ≤ length tags.old) × (used ≤ room_limit) }
    ensures answer { result ≡ (passed (indexed index.now rearrangement) bytes.now states
        (line_of glyphs.old tags.old homes.now used)).answer }
    ensures glyphs { glyphs.new ≡ (passed_leaves (indexed index.now rearrangement) bytes.now states
        (line_of glyphs.old tags.old homes.now used)).glyphs }
    ensures tags { tags.new ≡ (passed_leaves (indexed index.now rearrangement) bytes.now states
        (line_of glyphs.old tags.old homes.now used)).tags }
{
    let opened = opened::open(bytes, states);
    let mut memo = opened::nothing_found();
    let mut state = RearrangementState::new();
    for place in 0..used {
        // A place has a loop of its own, so that the next glyph's read does not wait for this entry's flags.
        'steps: loop {
            // What `next` does, written out: as a call of its own its answer would go through memory.
            let class = indexes::class_by(bytes, opened, &mut memo, glyphs[place], index);
            let Some(entry) = entries::entry_of(bytes, states, state.state, class, 0) else {
                return Answer::Ended;
            };
            let step = state.act(entry, place);
            edit(glyphs, tags, homes, used, step.edit);
            state = step.state;
            if step.advance != 0 {
                break;
            }
        }
    }
    let step = state.next(bytes, states, used, machine::END, true);
    edit(glyphs, tags, homes, used, step.edit);
    step.answer
}

// The pass over a line that LINE has taken, by the subtable that the bytes begin with and the classes of an index; HEAD where it can't be opened.
#[tactic(auto, unfolding(machine::specs::Work::work_leaves, machine::specs::Work::passed_leaves, line::specs::Changes::apply_all))]
pub fn work_by(
    bytes: &[u8],
    glyphs: &mut [u16],
    tags: &mut [u16],
    homes: &[u16],
    used: usize,
    index: &[u16],
) -> Answer
    requires { (used ≤ length glyphs.old) × (used ≤ length tags.old) × (used ≤ room_limit) }
    ensures answer { result ≡ ((subtable_of (indexed index.now rearrangement)).worked bytes.now
        (line_of glyphs.old tags.old homes.now used)).answer }
    ensures glyphs { glyphs.new ≡ (work_leaves (subtable_of (indexed index.now rearrangement)) bytes.now
        (line_of glyphs.old tags.old homes.now used)).glyphs }
    ensures tags { tags.new ≡ (work_leaves (subtable_of (indexed index.now rearrangement)) bytes.now
        (line_of glyphs.old tags.old homes.now used)).tags }
{
    let Some(states) = machine::open(bytes, RearrangementState::KIND) else {
        return Answer::Refused(Refusal::Head);
    };
    pass_line(
        parse::from(bytes, 12),
        states,
        glyphs,
        tags,
        homes,
        used,
        index,
    )
}

// The pass over a line that LINE has taken, by the subtable's own classes.
pub fn work(
    bytes: &[u8],
    glyphs: &mut [u16],
    tags: &mut [u16],
    homes: &[u16],
    used: usize,
) -> Answer
    requires { (used ≤ length glyphs.old) × (used ≤ length tags.old) × (used ≤ room_limit) }
    ensures answer { result ≡ ((subtable_of rearrangement).worked bytes.now
        (line_of glyphs.old tags.old homes.now used)).answer }
    ensures glyphs { glyphs.new ≡ (work_leaves (subtable_of rearrangement) bytes.now
        (line_of glyphs.old tags.old homes.now used)).glyphs }
    ensures tags { tags.new ≡ (work_leaves (subtable_of rearrangement) bytes.now
        (line_of glyphs.old tags.old homes.now used)).tags }
{
    work_by(bytes, glyphs, tags, homes, used, &[])
}

// The pass over a line, by the subtable at `start`.
#[tactic(auto, using(crate::proofs::Calls::taken_fits), unfolding(machine::specs::Machine::pass_call, machine::specs::Machine::call_leaves, machine::specs::Work::work_leaves, line::specs::Changes::apply_all))]
pub fn pass(
    table: &[u8],
    start: usize,
    glyphs: &mut [u16],
    tags: &mut [u16],
    homes: &[u16],
    used: usize,
) -> Answer
    ensures answer { result ≡ (pass_call (subtable_of rearrangement) table.now start
        (line_of glyphs.old tags.old homes.now used)).answer }
    ensures glyphs { glyphs.new ≡ (call_leaves (subtable_of rearrangement) table.now start
        (line_of glyphs.old tags.old homes.now used)).glyphs }
    ensures tags { tags.new ≡ (call_leaves (subtable_of rearrangement) table.now start
        (line_of glyphs.old tags.old homes.now used)).tags }
{
    let bytes = parse::from(table, start);
    let made = machine::open(bytes, RearrangementState::KIND);
    if let Err(why) = machine::refuse_pass(
        table.len(),
        glyphs,
        tags,
        homes,
        used,
        machine::is_ready(made),
    ) {
        return Answer::Refused(why);
    }
    work(bytes, glyphs, tags, homes, used)
}
