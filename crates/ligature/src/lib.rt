// morx kind 2: the ligature machine.
#![tactic(auto)]

pub mod actions;

ghost use Rattle.std.specs.Prelude.{◌≡◌, true, cond, None, Some, IfSome, [], ◌∷◌, ◌+◌, ◌-◌, ◌<◌, ◌≤◌, length};
ghost use Rattle.answers.specs.Refuse.{refuse};
ghost use Rattle.state_tables.specs.Opened.{class_by, LiesIn, Remembers};
ghost use Rattle.line.specs.Line.{line_of};
ghost use Rattle.line.specs.Test.{line_test};
ghost use Rattle.ligature.specs.Ligature.{fresh, turn_of, overflows, pushed, stack_in};
ghost use Rattle.machine.specs.Entry.{class_here};
ghost use Rattle.machine.specs.Call.{step_tests};
ghost use Rattle.machine.specs.Machine.{passed, subtable_of, pass_call, call_leaves, step_call, step_leaves};
ghost use Rattle.machine.specs.Work.{passed_leaves, work_leaves};
ghost use Rattle.indexes.specs.Index.{classes_by, indexed};
ghost use Rattle.ligature.specs.Calls.{opened, are_inside, state_tests, ligature};
ghost use Rattle.ligature.specs.Work.{Leaves, Ends, after_action, after_acts, after_entry, after_step, after_run, step_of};

use actions::Action;
use answers::{Answer, Refusal};
use state_tables::entries::Entry;
use state_tables::opened::Classes;
use state_tables::{States, entries, opened};

// The state of a pass: the state table's state, and the stack, a place and a glyph for each slot, of which the first `depth` are used.
// kept: `aat_ligature_step` takes a state's slots from C and hands them back, all places before all glyphs, and those above the depth too.
#[derive(Clone, Copy)]
pub struct LigatureState {
    pub state: u16,
    pub places: [usize; LigatureState::DEPTH],
    pub glyphs: [u16; LigatureState::DEPTH],
    pub depth: usize,
}

// What a step answers: DONE with the advance, ENDED, or a refusal; and the state that it hands back.
#[derive(Clone, Copy)]
pub struct LigatureStep {
    pub answer: Answer,
    pub state: LigatureState,
    pub advance: usize,
}

// The stack of a state, as a pass has it in place.
// kept: no ghost field says that the depth is at most 32, since the definitions speak of this very struct and would carry the proof.
#[derive(Clone, Copy)]
pub struct Stack {
    pub places: [usize; LigatureState::DEPTH],
    pub glyphs: [u16; LigatureState::DEPTH],
    pub depth: usize,
}

impl From<LigatureState> for Stack {
    ghost from_gives = { λ state stack. stack ≡ stack_in state };

    fn from(state: LigatureState) -> Stack {
        let LigatureState {
            places,
            glyphs,
            depth,
            ..
        } = state;
        Stack {
            places,
            glyphs,
            depth,
        }
    }
}

impl Stack {
    // Pushes a place and a glyph, where the stack is not full.
    fn push(&mut self, place: usize, glyph: u16) -> Option<()>
        ensures full { result ≡ cond (overflows true self.old.depth) None (Some tt) }
        ensures stack { self.new ≡ cond (overflows true self.old.depth) self.old (pushed true self.old place glyph) }
    {
        if LigatureState::DEPTH <= self.depth {
            return None;
        }
        self.places[self.depth] = place;
        self.glyphs[self.depth] = glyph;
        self.depth += 1;
        Some(())
    }
}

// How the stack stands after an action: so many slots are left, with this sum, and whether the action was the last.
#[derive(Clone, Copy)]
struct Turn {
    at: usize,
    sum: u32,
    last: bool,
}

// What a step came to: its answer, and the new state.
#[derive(Clone, Copy)]
struct Reached {
    answer: Answer,
    state: u16,
}

// How the stack stands after an action at a slot.
fn turn_of(action: Action, slot: usize) -> Turn
    requires { slot < 32 }
    ensures { Some result ≡ turn_of (Some action) slot }
{
    match action {
        Action::Adds(sum) => Turn {
            at: slot,
            sum,
            last: false,
        },
        Action::Makes {
            sum,
            ligature: _,
            last,
        } => Turn {
            at: slot + 1,
            sum,
            last,
        },
    }
}

// The ligature of an action at a slot: it is written at the slot's place, takes up the places of the used slots above, and stays on the
// stack.
// kept: C lends a line slice by slice (`aat_ligature_pass`), and so it stands in the work of every crate.
#[tactic(auto, unfolding(crate::specs::Ligature::changes_of, line::specs::Changes::apply_all, line::specs::Changes::apply))]
fn make(
    action: Action,
    stack: &mut Stack,
    glyphs: &mut [u16],
    tags: &[u16],
    homes: &mut [u16],
    used: usize,
    slot: usize,
)
    requires { (slot < stack.old.depth) × (stack.old.depth ≤ 32) × (used ≤ length glyphs.old) × (used ≤ length tags.now) }
    ensures { Leaves (after_action action slot stack.old (line_of glyphs.old tags.now homes.old used)) tt stack.new glyphs.new homes.new }
{
    let Action::Makes { ligature, .. } = action else {
        return;
    };
    let parts = &stack.places[slot + 1..stack.depth];
    line::edits::ligate(
        glyphs,
        tags,
        homes,
        used,
        stack.places[slot],
        ligature,
        parts,
    );
    stack.glyphs[slot] = ligature;
}

// The actions from number `first` on, from the top of the stack down, and the cycle count behind them. One that ends the step gives none and
// leaves the depth as it was.
#[tactic(auto, using(crate::proofs::Acting::acting_goes))]
fn act(
    bytes: &[u8],
    stack: &mut Stack,
    glyphs: &mut [u16],
    tags: &[u16],
    homes: &mut [u16],
    used: usize,
    first: u16,
    spent: u16,
) -> Option<u16>
    requires { (stack.old.depth ≤ 32) × (spent ≤ 33) × (used ≤ length glyphs.old) × (used ≤ length tags.now) }
    ensures leaves { Leaves (after_acts bytes.now stack.old first spent (line_of glyphs.old tags.now homes.old used)) result stack.new
        glyphs.new homes.new }
    ensures bounds { (stack.new.depth ≤ stack.old.depth) × IfSome result (λ cycles. (spent ≤ cycles) × (cycles ≤ 33)) }
{
    let mut at = stack.depth;
    let mut sum = 0;
    let mut cycles = spent;
    for number in first..=u16::MAX {
        let Some(slot) = at.checked_sub(1) else {
            break;
        };
        let action = actions::action_of(bytes, number, stack.glyphs[slot], sum)?;
        make(action, stack, glyphs, tags, homes, used, slot);
        let turn = turn_of(action, slot);
        at = turn.at;
        sum = turn.sum;
        if turn.last || LigatureState::ACTIONS < cycles {
            break;
        }
        cycles += 1;
    }
    stack.depth = at;
    Some(cycles)
}

// What an entry does: the push, then the actions. The cycle count behind them, where they don't end the step.
fn enter(
    bytes: &[u8],
    entry: Entry,
    stack: &mut Stack,
    glyphs: &mut [u16],
    tags: &[u16],
    homes: &mut [u16],
    used: usize,
    index: usize,
    glyph: u16,
    cycles: u16,
) -> Option<u16>
    requires { (stack.old.depth ≤ 32) × (cycles ≤ 33) × (used ≤ length glyphs.old) × (used ≤ length tags.now) × (entry.payload + 2 ≤ length bytes.now) }
    ensures leaves { Leaves (after_entry bytes.now entry stack.old (line_of glyphs.old tags.now homes.old used) index glyph cycles) result
        stack.new glyphs.new homes.new }
    ensures bounds { (stack.new.depth ≤ 32) × IfSome result (λ spent. (cycles ≤ spent) × (spent ≤ 33)) }
{
    if machine::is_set(entry.flags, LigatureState::SET_COMPONENT) {
        stack.push(index, glyph)?;
    }
    if !machine::is_set(entry.flags, LigatureState::PERFORM_ACTION) {
        return Some(cycles);
    }
    let number = entries::one_number(bytes, entry.payload);
    act(bytes, stack, glyphs, tags, homes, used, number, cycles)
}

// The crate's `next` behind the class, over the bytes from the state table on, with a stack and a line that are lent.
#[tactic(auto, using(crate::proofs::Running::running_goes, state_tables::proofs::Laws::entry_payload))]
fn next(
    bytes: &[u8],
    states: States,
    class: u16,
    state: u16,
    stack: &mut Stack,
    glyphs: &mut [u16],
    tags: &[u16],
    homes: &mut [u16],
    used: usize,
    index: usize,
    glyph: u16,
) -> Reached
    requires { (stack.old.depth ≤ 32) × (used ≤ length glyphs.old) × (used ≤ length tags.now) }
    ensures leaves { Leaves (after_step bytes.now states class state stack.old (line_of glyphs.old tags.now homes.old used) index glyph)
        result stack.new glyphs.new homes.new }
    ensures depth { stack.new.depth ≤ 32 }
{
    let mut at = state;
    let mut cycles = 0;
    // kept: entries and their actions share one count, which moves on by more than 1, so that no range counts the turns.
    loop {
        let Some(entry) = entries::entry_of(bytes, states, at, class, 2) else {
            return Reached {
                answer: Answer::Ended,
                state: at,
            };
        };
        at = entry.state;
        let Some(spent) = enter(
            bytes, entry, stack, glyphs, tags, homes, used, index, glyph, cycles,
        ) else {
            return Reached {
                answer: Answer::Ended,
                state: at,
            };
        };
        if !machine::is_set(entry.flags, LigatureState::DONT_ADVANCE)
            || LigatureState::ENTRIES < spent
        {
            return Reached {
                answer: Answer::Done,
                state: at,
            };
        }
        cycles = spent + 1;
    }
}

// The class of a glyph, by an index where that reaches it, or of the end of text.
#[tactic(auto, unfolding(machine::specs::Entry::class_here))]
fn class_by(
    bytes: &[u8],
    opened: Classes,
    memo: &mut [u32; 64],
    glyph: u16,
    ends: bool,
    lent: &[u16],
) -> u16
    requires { LiesIn bytes.now opened × Remembers (class_by bytes.now opened) memo.old }
    ensures class { result ≡ class_here (classes_by lent.now (class_by bytes.now opened)) glyph ends }
    ensures memo { Remembers (class_by bytes.now opened) memo.new }
{
    if ends {
        return 0;
    }
    indexes::class_by(bytes, opened, memo, glyph, lent)
}

// The steps from a place on, up to the end of a range, of which one that is not DONE is the last. The pass and the lone step share this
// loop, so that `next` has one caller and is compiled into it.
fn run(
    bytes: &[u8],
    states: States,
    begun: u16,
    stack: &mut Stack,
    glyphs: &mut [u16],
    tags: &[u16],
    homes: &mut [u16],
    used: usize,
    index: usize,
    end: usize,
    first: u16,
    over: bool,
    lent: &[u16],
) -> Reached
    requires { (stack.old.depth ≤ 32) × (used ≤ length glyphs.old) × (used ≤ length tags.now) }
    ensures { Leaves (after_run lent.now bytes.now states (end - index) begun stack.old
        (line_of glyphs.old tags.now homes.old used) index first over) result stack.new glyphs.new homes.new }
{
    let opened = opened::open(bytes, states);
    let mut memo = opened::nothing_found();
    let mut reached = Reached {
        answer: Answer::Done,
        state: begun,
    };
    let mut glyph = first;
    let mut ends = over;
    for place in index..end {
        let class = class_by(bytes, opened, &mut memo, glyph, ends, lent);
        reached = next(
            bytes,
            states,
            class,
            reached.state,
            stack,
            glyphs,
            tags,
            homes,
            used,
            place,
            glyph,
        );
        if !machine::is_done(reached.answer) {
            break;
        }
        glyph = machine::glyph_at(glyphs, used, place + 1);
        ends = used <= place + 1;
    }
    reached
}

impl LigatureState {
    // The kind of a ligature subtable.
    pub const KIND: u32 = 2;

    // An entry's flag that pushes the step's place and glyph.
    pub const SET_COMPONENT: u16 = 0x8000;

    // An entry's flag by which the step goes on to another entry.
    pub const DONT_ADVANCE: u16 = 0x4000;

    // An entry's flag that performs actions.
    pub const PERFORM_ACTION: u16 = 0x2000;

    // An action's flag that makes it the last.
    pub const LAST: u32 = 0x80000000;

    // An action's flag that makes a ligature.
    pub const STORE: u32 = 0x40000000;

    // The slots of the stack.
    pub const DEPTH: usize = 32;

    // The cycle count above which entries stop, and the one above which actions do.
    pub const ENTRIES: u16 = 16;

    pub const ACTIONS: u16 = 32;

    // The state at the start of a pass.
    #[tactic(auto, unfolding(laws::specs::Lists::tab))]
    pub fn new() -> LigatureState
        ensures { result ≡ fresh }
    {
        LigatureState {
            state: 0,
            places: [0; LigatureState::DEPTH],
            glyphs: [0; LigatureState::DEPTH],
            depth: 0,
        }
    }

    // The tests before a step: TABLE, LINE, PLACE, STATE, HEAD.
    #[tactic(auto, unfolding(crate::specs::Calls::state_tests, machine::specs::Call::step_tests, machine::specs::Call::place_test, machine::specs::Call::head_test, line::specs::Test::line_test, answers::specs::Refuse::refuse))]
    fn refuse_step(
        self,
        table_length: usize,
        glyphs: &[u16],
        tags: &[u16],
        homes: &[u16],
        used: usize,
        index: usize,
        made: Option<States>,
    ) -> Result<(), Refusal>
        ensures { result ≡ refuse (step_tests table_length (line_test (line_of glyphs.now tags.now homes.now used) ∷ []) used
            index (state_tests self used) made) }
    {
        answers::refuse_table(table_length)?;
        if !line::valid::takes(glyphs, tags, homes, used) {
            return Err(Refusal::Line);
        }
        if used < index {
            return Err(Refusal::Place);
        }
        if LigatureState::DEPTH < self.depth || !inside(&self.places, self.depth, used) {
            return Err(Refusal::State);
        }
        if made.is_none() {
            return Err(Refusal::Head);
        }
        Ok(())
    }

    // One step by the subtable at `start`; a refused one hands the state back as given.
    #[tactic(auto, using(crate::proofs::Calls::stepped_fits, crate::proofs::Passes::stepped_alone), unfolding(machine::specs::Machine::step_call, machine::specs::Machine::step_leaves, machine::specs::Call::lone_step, line::specs::Changes::apply_all))]
    pub fn step(
        self,
        table: &[u8],
        start: usize,
        glyphs: &mut [u16],
        tags: &[u16],
        homes: &mut [u16],
        used: usize,
        index: usize,
        glyph: u16,
        ends: bool,
    ) -> LigatureStep
        ensures step { result ≡ step_of (step_call ligature table.now start self
            (line_of glyphs.old tags.now homes.old used) index glyph ends) }
        ensures glyphs { glyphs.new ≡ (step_leaves ligature table.now start self
            (line_of glyphs.old tags.now homes.old used) index glyph ends).glyphs }
        ensures homes { homes.new ≡ (step_leaves ligature table.now start self
            (line_of glyphs.old tags.now homes.old used) index glyph ends).homes }
    {
        let bytes = parse::from(table, start);
        let made = open(bytes);
        if let Err(why) = self.refuse_step(table.len(), glyphs, tags, homes, used, index, made) {
            return LigatureStep {
                answer: Answer::Refused(why),
                state: self,
                advance: 0,
            };
        }
        let Some(states) = made else {
            return LigatureStep {
                answer: Answer::Refused(Refusal::Head),
                state: self,
                advance: 0,
            };
        };
        let mut stack = Stack::from(self);
        let reached = run(
            parse::from(bytes, 12),
            states,
            self.state,
            &mut stack,
            glyphs,
            tags,
            homes,
            used,
            index,
            index + 1,
            glyph,
            ends,
            &[],
        );
        let Stack {
            places,
            glyphs,
            depth,
        } = stack;
        LigatureStep {
            answer: reached.answer,
            state: LigatureState {
                state: reached.state,
                places,
                glyphs,
                depth,
            },
            advance: usize::from(machine::is_done(reached.answer)),
        }
    }
}

// Whether the places of the used slots are at most the used length.
fn inside(places: &[usize; LigatureState::DEPTH], depth: usize, used: usize) -> bool
    requires { depth ≤ 32 }
    ensures { result ≡ are_inside places.now depth used }
{
    places[..depth].iter().all(|place| *place <= used)
}

// The state table of the subtable that the bytes begin with; the numbers at 16, 20 and 24, where its lists are, can be read too.
#[tactic(auto, unfolding(crate::specs::Calls::opened))]
pub fn open(bytes: &[u8]) -> Option<States>
    ensures { result ≡ opened bytes.now }
{
    parse::read_u32(parse::from(bytes, 12), 24)?;
    machine::open(bytes, LigatureState::KIND)
}

// The pass over a line that LINE has taken, with the bytes from the state table on.
fn pass_line(
    bytes: &[u8],
    states: States,
    glyphs: &mut [u16],
    tags: &[u16],
    homes: &mut [u16],
    used: usize,
    index: &[u16],
) -> Answer
    requires { (used ≤ length glyphs.old) × (used ≤ length tags.now) }
    ensures { Ends (passed (indexed index.now ligature) bytes.now states (line_of glyphs.old tags.now homes.old used))
        (line_of glyphs.old tags.now homes.old used) result glyphs.new homes.new }
{
    let fresh = LigatureState::new();
    let first = machine::glyph_at(glyphs, used, 0);
    let reached = run(
        bytes,
        states,
        fresh.state,
        &mut Stack::from(fresh),
        glyphs,
        tags,
        homes,
        used,
        0,
        used + 1,
        first,
        used == 0,
        index,
    );
    reached.answer
}

// The pass over a line that LINE has taken, by the subtable that the bytes begin with and the classes of an index.
#[tactic(auto, unfolding(machine::specs::Work::work_leaves, line::specs::Changes::apply_all))]
pub fn work_by(
    bytes: &[u8],
    glyphs: &mut [u16],
    tags: &[u16],
    homes: &mut [u16],
    used: usize,
    index: &[u16],
) -> Answer
    requires { (used ≤ length glyphs.old) × (used ≤ length tags.now) }
    ensures answer { result ≡ ((subtable_of (indexed index.now ligature)).worked bytes.now
        (line_of glyphs.old tags.now homes.old used)).answer }
    ensures glyphs { glyphs.new ≡ (work_leaves (subtable_of (indexed index.now ligature)) bytes.now
        (line_of glyphs.old tags.now homes.old used)).glyphs }
    ensures homes { homes.new ≡ (work_leaves (subtable_of (indexed index.now ligature)) bytes.now
        (line_of glyphs.old tags.now homes.old used)).homes }
{
    let Some(states) = open(bytes) else {
        return Answer::Refused(Refusal::Head);
    };
    pass_line(
        parse::from(bytes, 12),
        states,
        glyphs,
        tags,
        homes,
        used,
        index,
    )
}

// The same by the subtable's own classes.
pub fn work(
    bytes: &[u8],
    glyphs: &mut [u16],
    tags: &[u16],
    homes: &mut [u16],
    used: usize,
) -> Answer
    requires { (used ≤ length glyphs.old) × (used ≤ length tags.now) }
    ensures answer { result ≡ ((subtable_of ligature).worked bytes.now
        (line_of glyphs.old tags.now homes.old used)).answer }
    ensures glyphs { glyphs.new ≡ (work_leaves (subtable_of ligature) bytes.now
        (line_of glyphs.old tags.now homes.old used)).glyphs }
    ensures homes { homes.new ≡ (work_leaves (subtable_of ligature) bytes.now
        (line_of glyphs.old tags.now homes.old used)).homes }
{
    work_by(bytes, glyphs, tags, homes, used, &[])
}

// The pass over a line, by the subtable at `start`.
#[tactic(auto, using(crate::proofs::Calls::taken_fits), unfolding(machine::specs::Machine::pass_call, machine::specs::Machine::call_leaves, machine::specs::Work::work_leaves, line::specs::Changes::apply_all))]
pub fn pass(
    table: &[u8],
    start: usize,
    glyphs: &mut [u16],
    tags: &[u16],
    homes: &mut [u16],
    used: usize,
) -> Answer
    ensures answer { result ≡ (pass_call (subtable_of ligature) table.now start
        (line_of glyphs.old tags.now homes.old used)).answer }
    ensures glyphs { glyphs.new ≡ (call_leaves (subtable_of ligature) table.now start
        (line_of glyphs.old tags.now homes.old used)).glyphs }
    ensures homes { homes.new ≡ (call_leaves (subtable_of ligature) table.now start
        (line_of glyphs.old tags.now homes.old used)).homes }
{
    let bytes = parse::from(table, start);
    if let Err(why) = machine::refuse_pass(
        table.len(),
        glyphs,
        tags,
        homes,
        used,
        machine::is_ready(open(bytes)),
    ) {
        return Answer::Refused(why);
    }
    work(bytes, glyphs, tags, homes, used)
}
