// morx kind 1: the contextual machine.
#![tactic(auto)]

ghost use Rattle.std.specs.Prelude.{◌≡◌, [], ◌∷◌, ◌+◌, ◌≤◌, length};
ghost use Rattle.answers.specs.Refuse.{refuse};
ghost use Rattle.state_tables.specs.Classes.{class_of};
ghost use Rattle.state_tables.specs.Opened.{class_by, LiesIn, Remembers};
ghost use Rattle.machine.specs.Entry.{class_here};
ghost use Rattle.machine.specs.Call.{step_tests};
ghost use Rattle.machine.specs.Machine.{passed, subtable_of, pass_call, call_leaves, step_call, step_leaves};
ghost use Rattle.machine.specs.Work.{passed_leaves, work_leaves};
ghost use Rattle.indexes.specs.Index.{classes_by, indexed};
ghost use Rattle.line.specs.Line.{line_of};
ghost use Rattle.line.specs.Test.{line_test};
ghost use Rattle.contextual.specs.Substitutes.{substitute_of, glyph_after, writes_of};
ghost use Rattle.contextual.specs.Contextual.{fresh, idle, begun, seen_glyph, entered, acted, next, stepped};
ghost use Rattle.contextual.specs.Calls.{opened, state_tests, contextual};
ghost use Rattle.contextual.specs.Work.{written_all, step_of, ran_all};

use answers::{Answer, Refusal};
use state_tables::entries::Entry;
use state_tables::opened::Classes;
use state_tables::{States, entries, opened};
use tables::lookup;

// The state of a pass: the state table's state, whether a mark was set, its place, and the glyph that is remembered for it.
// kept: `mark_set` is a flag beside its values, as `begun` gives a mark that is not set a place and a glyph too, which entries go by.
#[derive(Clone, Copy)]
pub struct ContextualState {
    pub state: u16,
    pub mark_set: bool,
    pub mark_index: usize,
    pub mark_id: u16,
}

// What a step answers: DONE with the advance, ENDED, or a refusal; and the state that it hands back.
#[derive(Clone, Copy)]
pub struct ContextualStep {
    pub answer: Answer,
    pub state: ContextualState,
    pub advance: usize,
}

// What an entry does: what takes the place of the marked glyph and of the step's own, the new state, and the current glyph after it.
#[derive(Clone, Copy)]
struct Acted {
    mark: Option<u16>,
    own: Option<u16>,
    state: ContextualState,
    current: u16,
}

// The substitute of a glyph by the lookup of this number in the substitution table; number 0xFFFF means no action, and what can't be
// read or found is none. The bytes are those from the state table on.
#[tactic(auto, unfolding(crate::specs::Substitutes::substitute_of))]
fn substitute_of(bytes: &[u8], number: u16, glyph: u16) -> Option<u16>
    ensures { result ≡ substitute_of bytes.now number glyph }
{
    if number == ContextualState::NO_ACTION {
        return None;
    }
    let list = parse::read_u32(bytes, 16)? as usize;
    let offset = parse::read_u32(bytes, list + number as usize * 4)? as usize;
    // kept: by `ok` here and `unwrap_or` below the next lookup waits for what this one found, and entries that don't advance take twice as long.
    let Ok(found) = lookup::lookup_at(parse::from(bytes, list + offset), glyph) else {
        return None;
    };
    Some(found)
}

// The glyph of a place after its substitution.
fn glyph_after(substitute: Option<u16>, was: u16) -> u16
    ensures { result ≡ glyph_after substitute was }
{
    let Some(glyph) = substitute else {
        return was;
    };
    glyph
}

// The current glyph after the mark's substitution, which meets it where the mark is the step's own place.
fn seen_glyph(mark: Option<u16>, here: bool, current: u16) -> u16
    ensures { result ≡ seen_glyph mark here current }
{
    if here {
        glyph_after(mark, current)
    } else {
        current
    }
}

// Writes a substitute at a place of the line.
#[tactic(auto, unfolding(crate::specs::Work::written_all))]
fn replace(glyphs: &mut [u16], used: usize, place: usize, substitute: Option<u16>)
    requires { used ≤ length glyphs.old }
    ensures { glyphs.new ≡ written_all used (writes_of place substitute) glyphs.old }
{
    if let Some(glyph) = substitute {
        line::edits::write(glyphs, used, place, glyph);
    }
}

// The class of a glyph by an index, where that reaches it, and otherwise by the class table; that of the end of text is 0.
#[tactic(auto, unfolding(machine::specs::Entry::class_here))]
fn class_by(
    bytes: &[u8],
    table: Classes,
    memo: &mut [u32; 64],
    glyph: u16,
    ends: bool,
    lent: &[u16],
) -> u16
    requires { LiesIn bytes.now table × Remembers (class_by bytes.now table) memo.old }
    ensures class { result ≡ class_here (classes_by lent.now (class_by bytes.now table)) glyph ends }
    ensures memo { Remembers (class_by bytes.now table) memo.new }
{
    if ends {
        return 0;
    }
    indexes::class_by(bytes, table, memo, glyph, lent)
}

impl ContextualState {
    // The kind of a contextual subtable.
    pub const KIND: u32 = 1;

    // An entry's flag that sets the mark.
    pub const SET_MARK: u16 = 0x8000;

    // An entry's flag by which the step goes on to another entry.
    pub const DONT_ADVANCE: u16 = 0x4000;

    // The number of a lookup that means no action.
    pub const NO_ACTION: u16 = 0xFFFF;

    // The most entries of one step.
    pub const ENTRIES: u16 = 18;

    // The state at the start of a pass.
    pub fn new() -> ContextualState
        ensures { result ≡ fresh }
    {
        ContextualState {
            state: 0,
            mark_set: false,
            mark_index: 0,
            mark_id: 0,
        }
    }

    // At end of text with no mark set nothing happens.
    fn idle(self, ends: bool) -> bool
        ensures { result ≡ idle self ends }
    {
        ends && !self.mark_set
    }

    // At index 0 the mark's place and glyph are the step's own, but at end of text; whether a mark is set stays.
    #[tactic(auto, unfolding(crate::specs::Contextual::begun))]
    fn begun(self, index: usize, glyph: u16, ends: bool) -> ContextualState
        ensures { result ≡ begun self index glyph ends }
    {
        if ends || index != 0 {
            return self;
        }
        ContextualState {
            mark_index: 0,
            mark_id: glyph,
            ..self
        }
    }

    // The new state; a mark that is set remembers the step's place and its current glyph.
    fn entered(self, state: u16, sets: bool, index: usize, current: u16) -> ContextualState
        ensures { result ≡ entered self state sets index current }
    {
        if sets {
            return ContextualState {
                state,
                mark_set: true,
                mark_index: index,
                mark_id: current,
            };
        }
        ContextualState { state, ..self }
    }

    // What an entry does: the mark's substitution, then the current glyph's, then the mark.
    #[tactic(auto, unfolding(crate::specs::Contextual::acted))]
    fn act(self, bytes: &[u8], entry: Entry, index: usize, current: u16) -> Acted
        requires { entry.payload + 4 ≤ length bytes.now }
        ensures { result ≡ acted bytes.now self entry index current }
    {
        let numbers = entries::two_numbers(bytes, entry.payload);
        let mark = substitute_of(bytes, numbers.first, self.mark_id);
        let seen = seen_glyph(mark, self.mark_index == index, current);
        let own = substitute_of(bytes, numbers.second, seen);
        let after = glyph_after(own, seen);
        let sets = machine::is_set(entry.flags, ContextualState::SET_MARK);
        let state = self.entered(entry.state, sets, index, after);
        Acted {
            mark,
            own,
            state,
            current: after,
        }
    }

    // The crate's `next`, over the bytes from the state table on. Its last and current glyph are one where an entry begins.
    fn next(
        self,
        bytes: &[u8],
        states: States,
        table: Classes,
        memo: &mut [u32; 64],
        glyphs: &mut [u16],
        used: usize,
        index: usize,
        glyph: u16,
        ends: bool,
        lent: &[u16],
    ) -> ContextualStep
        requires { (used ≤ length glyphs.old) × LiesIn bytes.now table × Remembers (class_by bytes.now table) memo.old }
        ensures step { result ≡ step_of (stepped (next (classes_by lent.now (class_by bytes.now table)) bytes.now states self
            index glyph ends)) }
        ensures memo { Remembers (class_by bytes.now table) memo.new }
        ensures glyphs { glyphs.new ≡ written_all used (next (classes_by lent.now (class_by bytes.now table))
            bytes.now states self index glyph ends).writes glyphs.old }
    {
        if self.idle(ends) {
            return ContextualStep {
                answer: Answer::Done,
                state: self,
                advance: 1,
            };
        }
        let mut state = self.begun(index, glyph, ends);
        let mut current = glyph;
        let mut over = ends;
        for _entry in 0..ContextualState::ENTRIES {
            let class = class_by(bytes, table, memo, current, over, lent);
            let Some(entry) = entries::entry_of(bytes, states, state.state, class, 4) else {
                return ContextualStep {
                    answer: Answer::Ended,
                    state,
                    advance: 0,
                };
            };
            let acted = state.act(bytes, entry, index, current);
            replace(glyphs, used, state.mark_index, acted.mark);
            replace(glyphs, used, index, acted.own);
            state = acted.state;
            if !machine::is_set(entry.flags, ContextualState::DONT_ADVANCE) {
                return ContextualStep {
                    answer: Answer::Done,
                    state,
                    advance: 1,
                };
            }
            current = acted.current;
            over = false;
        }
        ContextualStep {
            answer: Answer::Done,
            state,
            advance: 1,
        }
    }

    // So many steps, one after the other: the first as told, the others at the places behind it. The pass, its end call and the lone step
    // all come here, so that `next` has one caller and becomes part of the loop.
    fn run(
        self,
        bytes: &[u8],
        states: States,
        glyphs: &mut [u16],
        used: usize,
        index: usize,
        first: u16,
        over: bool,
        steps: usize,
        lent: &[u16],
    ) -> ContextualStep
        requires { (used ≤ length glyphs.old) × (index + steps ≤ used + 1) }
        ensures step { result ≡ step_of (stepped (ran_all (classes_by lent.now (class_of bytes.now states)) bytes.now states used
            steps self glyphs.old index first over)) }
        ensures glyphs { glyphs.new ≡ written_all used (ran_all (classes_by lent.now (class_of bytes.now states))
            bytes.now states used steps self glyphs.old index first over).writes glyphs.old }
    {
        let table = opened::open(bytes, states);
        let mut memo = opened::nothing_found();
        let mut state = self;
        let mut glyph = first;
        let mut ends = over;
        for place in index..index + steps {
            let step = state.next(
                bytes, states, table, &mut memo, glyphs, used, place, glyph, ends, lent,
            );
            let answer = step.answer;
            let after = step.state;
            // Field by field: as a whole it would be copied by memory, with what lies between its fields.
            state = ContextualState {
                state: after.state,
                mark_set: after.mark_set,
                mark_index: after.mark_index,
                mark_id: after.mark_id,
            };
            if !machine::is_done(answer) {
                return ContextualStep {
                    answer,
                    state,
                    advance: 0,
                };
            }
            glyph = machine::glyph_at(glyphs, used, place + 1);
            ends = used <= place + 1;
        }
        ContextualStep {
            answer: Answer::Done,
            state,
            advance: 1,
        }
    }

    // The tests before a step: TABLE, LINE, PLACE, STATE, HEAD.
    #[tactic(auto, unfolding(crate::specs::Calls::state_tests, machine::specs::Call::step_tests, machine::specs::Call::place_test, machine::specs::Call::head_test, line::specs::Test::line_test, answers::specs::Refuse::refuse))]
    fn refuse_step(
        self,
        table_length: usize,
        glyphs: &[u16],
        tags: &[u16],
        homes: &[u16],
        used: usize,
        index: usize,
        made: Option<States>,
    ) -> Result<(), Refusal>
        ensures { result ≡ refuse (step_tests table_length (line_test (line_of glyphs.now tags.now homes.now used) ∷ []) used
            index (state_tests self used) made) }
    {
        answers::refuse_table(table_length)?;
        if !line::valid::takes(glyphs, tags, homes, used) {
            return Err(Refusal::Line);
        }
        if used < index {
            return Err(Refusal::Place);
        }
        if used < self.mark_index {
            return Err(Refusal::State);
        }
        if made.is_none() {
            return Err(Refusal::Head);
        }
        Ok(())
    }

    // One step by the subtable at `start`; a refused one hands the state back as given.
    #[tactic(auto, using(crate::proofs::Calls::stepped_fits, crate::proofs::Calls::stepped_alone, crate::proofs::Calls::stepped_writes), unfolding(machine::specs::Machine::step_call, machine::specs::Machine::step_leaves, machine::specs::Call::lone_step, line::specs::Changes::apply_all))]
    pub fn step(
        self,
        table: &[u8],
        start: usize,
        glyphs: &mut [u16],
        tags: &[u16],
        homes: &[u16],
        used: usize,
        index: usize,
        glyph: u16,
        ends: bool,
    ) -> ContextualStep
        ensures step { result ≡ step_of (step_call contextual table.now start self
            (line_of glyphs.old tags.now homes.now used) index glyph ends) }
        ensures glyphs { glyphs.new ≡ (step_leaves contextual table.now start self
            (line_of glyphs.old tags.now homes.now used) index glyph ends).glyphs }
    {
        let bytes = parse::from(table, start);
        let made = open(bytes);
        if let Err(why) = self.refuse_step(table.len(), glyphs, tags, homes, used, index, made) {
            return ContextualStep {
                answer: Answer::Refused(why),
                state: self,
                advance: 0,
            };
        }
        let Some(states) = made else {
            return ContextualStep {
                answer: Answer::Refused(Refusal::Head),
                state: self,
                advance: 0,
            };
        };
        self.run(
            parse::from(bytes, 12),
            states,
            glyphs,
            used,
            index,
            glyph,
            ends,
            1,
            &[],
        )
    }
}

// The state table of the subtable that the bytes begin with; the number at 16, where the substitution table is, can be read too.
#[tactic(auto, unfolding(crate::specs::Calls::opened))]
pub fn open(bytes: &[u8]) -> Option<States>
    ensures { result ≡ opened bytes.now }
{
    parse::read_u32(parse::from(bytes, 12), 16)?;
    machine::open(bytes, ContextualState::KIND)
}

// The pass over a line that LINE has taken, with the bytes from the state table on.
fn pass_line(
    bytes: &[u8],
    states: States,
    glyphs: &mut [u16],
    tags: &[u16],
    homes: &[u16],
    used: usize,
    index: &[u16],
) -> Answer
    requires { used ≤ length glyphs.old }
    ensures answer { result ≡ (passed (indexed index.now contextual) bytes.now states
        (line_of glyphs.old tags.now homes.now used)).answer }
    ensures glyphs { glyphs.new ≡ (passed_leaves (indexed index.now contextual) bytes.now states
        (line_of glyphs.old tags.now homes.now used)).glyphs }
{
    let first = machine::glyph_at(glyphs, used, 0);
    ContextualState::new()
        .run(
            bytes,
            states,
            glyphs,
            used,
            0,
            first,
            used == 0,
            used + 1,
            index,
        )
        .answer
}

// The pass over a line that LINE has taken, by the subtable that the bytes begin with and the classes of an index; HEAD where it can't be opened.
#[tactic(auto, unfolding(machine::specs::Work::work_leaves, machine::specs::Work::passed_leaves, line::specs::Changes::apply_all))]
pub fn work_by(
    bytes: &[u8],
    glyphs: &mut [u16],
    tags: &[u16],
    homes: &[u16],
    used: usize,
    index: &[u16],
) -> Answer
    requires { used ≤ length glyphs.old }
    ensures answer { result ≡ ((subtable_of (indexed index.now contextual)).worked bytes.now
        (line_of glyphs.old tags.now homes.now used)).answer }
    ensures glyphs { glyphs.new ≡ (work_leaves (subtable_of (indexed index.now contextual)) bytes.now
        (line_of glyphs.old tags.now homes.now used)).glyphs }
{
    let Some(states) = open(bytes) else {
        return Answer::Refused(Refusal::Head);
    };
    pass_line(
        parse::from(bytes, 12),
        states,
        glyphs,
        tags,
        homes,
        used,
        index,
    )
}

// The same by the subtable's own classes.
pub fn work(bytes: &[u8], glyphs: &mut [u16], tags: &[u16], homes: &[u16], used: usize) -> Answer
    requires { used ≤ length glyphs.old }
    ensures answer { result ≡ ((subtable_of contextual).worked bytes.now
        (line_of glyphs.old tags.now homes.now used)).answer }
    ensures glyphs { glyphs.new ≡ (work_leaves (subtable_of contextual) bytes.now
        (line_of glyphs.old tags.now homes.now used)).glyphs }
{
    work_by(bytes, glyphs, tags, homes, used, &[])
}

// The pass over a line, by the subtable at `start`.
#[tactic(auto, using(crate::proofs::Calls::taken_fits), unfolding(machine::specs::Machine::pass_call, machine::specs::Machine::call_leaves, machine::specs::Work::work_leaves, line::specs::Changes::apply_all))]
pub fn pass(
    table: &[u8],
    start: usize,
    glyphs: &mut [u16],
    tags: &[u16],
    homes: &[u16],
    used: usize,
) -> Answer
    ensures answer { result ≡ (pass_call (subtable_of contextual) table.now start
        (line_of glyphs.old tags.now homes.now used)).answer }
    ensures glyphs { glyphs.new ≡ (call_leaves (subtable_of contextual) table.now start
        (line_of glyphs.old tags.now homes.now used)).glyphs }
{
    let bytes = parse::from(table, start);
    let made = open(bytes);
    if let Err(why) = machine::refuse_pass(
        table.len(),
        glyphs,
        tags,
        homes,
        used,
        machine::is_ready(made),
    ) {
        return Answer::Refused(why);
    }
    work(bytes, glyphs, tags, homes, used)
}
