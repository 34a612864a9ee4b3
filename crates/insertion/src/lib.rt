// morx kind 5: the insertion machine.
#![tactic(auto)]

ghost use Rattle.std.specs.Prelude.{◌≡◌, ◌+◌, ◌*◌, ◌<◌, ◌≤◌, ◌^◌, eqb, length, get_or, take, drop};
ghost use Rattle.answers.specs.Limits as Limits;
ghost use Rattle.answers.specs.Refuse.{refuse};
ghost use Rattle.state_tables.specs.Classes.{class_of};
ghost use Rattle.state_tables.specs.Opened.{class_by, LiesIn, Remembers};
ghost use Rattle.machine.specs.Entry.{class_here};
ghost use Rattle.machine.specs.Call.{step_tests};
ghost use Rattle.machine.specs.Machine.{passed, subtable_of, pass_call, call_leaves};
ghost use Rattle.machine.specs.Work.{passed_leaves, work_leaves};
ghost use Rattle.indexes.specs.Index.{classes_by, indexed};
ghost use Rattle.line.specs.Line.{line_of};
ghost use Rattle.line.specs.Changes.{apply_all};
ghost use Rattle.insertion.specs.Lists.{list_from, glyph_list, entered_by, insertion_of, count_of, changes_of, both_changes, moved_by};
ghost use Rattle.insertion.specs.Insertion.{fresh, insertion_place, advance_of, with_state, with_mark, stopped, finished, after_marked, acted, next};
ghost use Rattle.insertion.specs.Calls.{opened, state_tests, insertion, room_tests, from_table, step_call};
ghost use Rattle.insertion.specs.Lone.{insert_tests, insert_call, insert_leaves};
ghost use Rattle.insertion.specs.Work.{Left, Ends, end_of, is_quiet, led_by};

use answers::{Answer, Refusal};
use state_tables::entries::Entry;
use state_tables::opened::Classes;
use state_tables::{States, entries, opened};

// The state of a pass: the state table's state, the marked place, and how many steps in a row did not advance.
#[derive(Clone, Copy)]
pub struct InsertionState {
    pub state: u16,
    pub mark: usize,
    pub cycles: u16,
}

// `count` glyphs that are put into the line at a place. They lie in the table from `glyphs` on, two bytes each.
#[derive(Clone, Copy)]
pub struct Insertion {
    pub place: usize,
    pub count: u16,
    pub glyphs: usize,
}

// What a step answers: DONE with the advance, FULL, ENDED or a refusal; the state that it hands back; and the insertions that it makes, at
// the mark first.
#[derive(Clone, Copy)]
pub struct InsertionStep {
    pub answer: Answer,
    pub state: InsertionState,
    pub advance: usize,
    pub marked: Option<Insertion>,
    pub current: Option<Insertion>,
}

// What a pass answers, and the used length afterwards.
#[derive(Clone, Copy)]
pub struct InsertionPass {
    pub answer: Answer,
    pub used: usize,
}

// A list of glyphs that an entry names: none, where it begins, or one that can't be read.
#[derive(Clone, Copy)]
pub enum Listed {
    None,
    At(usize),
    Short,
}

// A list of `count` glyphs that lies at a place, where it can be read.
#[tactic(auto, using(parse::proofs::Laws::part_short, parse::proofs::Laws::part_inside))]
fn list_from(bytes: &[u8], from: usize, count: u16) -> Listed
    ensures { result ≡ list_from bytes.now from count }
{
    match parse::read_part(bytes, from, count as usize * 2) {
        Some(_) => Listed::At(from),
        None => Listed::Short,
    }
}

// Where a list of `count` glyphs lies, from the glyph of this number on. The bytes are those from the state table on.
#[tactic(auto, unfolding(crate::specs::Lists::glyph_list))]
fn list_of(bytes: &[u8], number: u16, count: u16) -> Listed
    ensures { result ≡ glyph_list bytes.now number count }
{
    if number == InsertionState::NO_ACTION {
        return Listed::None;
    }
    let Some(glyphs) = parse::read_u32(bytes, 16) else {
        return Listed::Short;
    };
    list_from(bytes, glyphs as usize + number as usize * 2, count)
}

// What becomes of an insertion of the glyphs of such a list at a place, or how the step ends before it: FULL where the length would
// exceed the room.
#[tactic(auto, using(line::proofs::Room::room_small), unfolding(crate::specs::Lists::entered_by))]
fn enter(
    listed: Listed,
    place: usize,
    count: u16,
    used: usize,
    room: usize,
) -> Result<Option<Insertion>, Answer>
    requires { (used ≤ room) × (room ≤ Limits.room_limit) }
    ensures { result ≡ entered_by listed place count used room }
{
    match listed {
        Listed::None => Ok(None),
        Listed::Short => Err(Answer::Ended),
        Listed::At(glyphs) => {
            if room < used + count as usize {
                return Err(Answer::Full);
            }
            Ok(Some(Insertion {
                place,
                count,
                glyphs,
            }))
        }
    }
}

// What becomes of an insertion of the glyphs that an entry names.
#[tactic(auto)]
fn insertion_of(
    bytes: &[u8],
    number: u16,
    count: u16,
    place: usize,
    used: usize,
    room: usize,
) -> Result<Option<Insertion>, Answer>
    requires { (used ≤ room) × (room ≤ Limits.room_limit) }
    ensures { result ≡ insertion_of bytes.now number count place used room }
{
    enter(list_of(bytes, number, count), place, count, used, room)
}

// Before a place or behind it, but not above the length.
#[tactic(auto, unfolding(crate::specs::Insertion::insertion_place))]
fn place_of(at: usize, before: bool, used: usize) -> usize
    ensures { result ≡ insertion_place at before used }
{
    if before || used <= at {
        return at.min(used);
    }
    at + 1
}

// How many glyphs are inserted.
fn count_of(edit: Option<Insertion>) -> u16
    ensures { result ≡ count_of edit }
{
    match edit {
        None => 0,
        Some(insertion) => insertion.count,
    }
}

// An insertion whose glyphs are counted from `by` bytes before.
#[tactic(auto)]
fn moved_by(by: usize, edit: Option<Insertion>) -> Option<Insertion>
    requires { by + end_of edit < 2 ^ 63 }
    ensures { result ≡ moved_by by edit }
{
    let insertion = edit?;
    Some(Insertion {
        glyphs: by + insertion.glyphs,
        ..insertion
    })
}

// Both counts and 1, or the marked count alone.
#[tactic(auto)]
fn advance_of(marked: u16, current: u16, one: usize) -> usize
    ensures { result ≡ advance_of marked current one }
{
    if one == 0 {
        return marked as usize;
    }
    marked as usize + current as usize + 1
}

// An answer before the insertion that would have been next.
fn stopped(answer: Answer, state: InsertionState, marked: Option<Insertion>) -> InsertionStep
    ensures { result ≡ stopped answer state marked }
{
    InsertionStep {
        answer,
        state,
        advance: 0,
        marked,
        current: None,
    }
}

impl InsertionState {
    pub const KIND: u32 = 5;

    pub const SET_MARK: u16 = 0x8000;

    pub const DONT_ADVANCE: u16 = 0x4000;

    pub const CURRENT_INSERT_BEFORE: u16 = 0x800;

    pub const MARKED_INSERT_BEFORE: u16 = 0x400;

    // The counts have five bits each; the current glyphs' stands above the marked ones'.
    pub const COUNTS: u16 = 32;

    // The number of a list that means no insertion.
    pub const NO_ACTION: u16 = 0xFFFF;

    pub const MOST_CYCLES: u16 = 17;

    // The state at the start of a pass.
    pub fn new() -> InsertionState
        ensures { result ≡ fresh }
    {
        InsertionState {
            state: 0,
            mark: 0,
            cycles: 0,
        }
    }

    // The end of a step that has made both insertions.
    #[tactic(auto, unfolding(crate::specs::Insertion::finished))]
    fn finish(
        self,
        flags: u16,
        marked: Option<Insertion>,
        current: Option<Insertion>,
    ) -> InsertionStep
        ensures { result ≡ finished self flags marked current }
    {
        let stalled = machine::stall(
            self.cycles,
            machine::is_set(flags, InsertionState::DONT_ADVANCE),
        );
        InsertionStep {
            answer: Answer::Done,
            state: InsertionState {
                cycles: stalled.cycles,
                ..self
            },
            advance: advance_of(count_of(marked), count_of(current), stalled.advance),
            marked,
            current,
        }
    }

    // The state that an entry leads to.
    fn with_state(self, state: u16) -> InsertionState
        ensures { result ≡ with_state self state }
    {
        InsertionState { state, ..self }
    }

    // The mark is set to the index as given where its flag says so.
    #[tactic(auto)]
    fn with_mark(self, sets: bool, index: usize) -> InsertionState
        ensures { result ≡ with_mark self sets index }
    {
        if sets {
            return InsertionState {
                mark: index,
                ..self
            };
        }
        self
    }

    // What comes after the marked glyphs: the mark, the current glyphs, and the stall rule.
    #[tactic(auto, unfolding(crate::specs::Insertion::after_marked))]
    fn follow(
        self,
        bytes: &[u8],
        flags: u16,
        number: u16,
        marked: Option<Insertion>,
        index: usize,
        used: usize,
        room: usize,
    ) -> InsertionStep
        requires { (index ≤ used) × (used + count_of marked ≤ room) × (room ≤ Limits.room_limit) }
        ensures { result ≡ after_marked bytes.now self flags number marked index used room }
    {
        let state = self.with_mark(machine::is_set(flags, InsertionState::SET_MARK), index);
        let inserted = count_of(marked) as usize;
        let before = machine::is_set(flags, InsertionState::CURRENT_INSERT_BEFORE);
        let place = place_of(index + inserted, before, used + inserted);
        let tried = insertion_of(
            bytes,
            number,
            flags / InsertionState::COUNTS % InsertionState::COUNTS,
            place,
            used + inserted,
            room,
        );
        match tried {
            Ok(current) => state.finish(flags, marked, current),
            Err(answer) => stopped(answer, state, marked),
        }
    }

    // What an entry does: the marked glyphs are inserted first.
    #[tactic(auto, unfolding(crate::specs::Insertion::acted))]
    fn act(
        self,
        bytes: &[u8],
        entry: Entry,
        index: usize,
        used: usize,
        room: usize,
    ) -> InsertionStep
        requires { (entry.payload + 4 ≤ length bytes.now) × (index ≤ used) × (used ≤ room) × (room ≤ Limits.room_limit) }
        ensures { result ≡ acted bytes.now self entry index used room }
    {
        let numbers = entries::two_numbers(bytes, entry.payload);
        let flags = entry.flags;
        let state = self.with_state(entry.state);
        let before = machine::is_set(flags, InsertionState::MARKED_INSERT_BEFORE);
        let place = place_of(self.mark, before, used);
        let tried = insertion_of(
            bytes,
            numbers.second,
            flags % InsertionState::COUNTS,
            place,
            used,
            room,
        );
        match tried {
            Ok(marked) => state.follow(bytes, flags, numbers.first, marked, index, used, room),
            Err(answer) => stopped(answer, state, None),
        }
    }

    // The state that an entry which inserts nothing and advances leads to.
    #[tactic(auto)]
    fn led_by(self, entry: Entry, place: usize) -> InsertionState
        ensures { result ≡ led_by self entry place }
    {
        let marked = self.with_mark(
            machine::is_set(entry.flags, InsertionState::SET_MARK),
            place,
        );
        InsertionState {
            state: entry.state,
            mark: marked.mark,
            cycles: 0,
        }
    }

    // The crate's `next`, over the bytes from the state table on, at an index of a line of this length in this room.
    #[tactic(auto, using(state_tables::proofs::Laws::entry_payload), unfolding(crate::specs::Insertion::next))]
    fn next(
        self,
        bytes: &[u8],
        states: States,
        used: usize,
        room: usize,
        index: usize,
        glyph: u16,
        ends: bool,
    ) -> InsertionStep
        requires { (index ≤ used) × (used ≤ room) × (room ≤ Limits.room_limit) }
        ensures { result ≡ next (class_of bytes.now states) bytes.now states self used room index glyph ends }
    {
        let class = machine::class_at(bytes, states, glyph, ends);
        let Some(entry) = entries::entry_of(bytes, states, self.state, class, 4) else {
            return stopped(Answer::Ended, self, None);
        };
        self.act(bytes, entry, index, used, room)
    }

    // The tests before a lone step: TABLE, LINE, PLACE, STATE, HEAD.
    #[tactic(auto, unfolding(crate::specs::Calls::room_tests, crate::specs::Calls::state_tests, machine::specs::Call::step_tests, machine::specs::Call::place_test, machine::specs::Call::head_test, answers::specs::Refuse::refuse))]
    fn refuse_step(
        self,
        table_length: usize,
        used: usize,
        room: usize,
        index: usize,
        made: Option<States>,
    ) -> Result<(), Refusal>
        ensures { result ≡ refuse (step_tests table_length (room_tests used room) used index (state_tests self used) made) }
    {
        answers::refuse_table(table_length)?;
        if answers::above_room(room) || room < used {
            return Err(Refusal::Line);
        }
        if used < index {
            return Err(Refusal::Place);
        }
        if used < self.mark || InsertionState::MOST_CYCLES < self.cycles {
            return Err(Refusal::State);
        }
        if made.is_none() {
            return Err(Refusal::Head);
        }
        Ok(())
    }

    // A lone step by the subtable at `start`, on a line of this length in this room; a refused one hands the state back as given.
    #[tactic(auto, using(crate::proofs::Steps::step_told), unfolding(crate::specs::Calls::step_call, machine::specs::Call::lone_step))]
    pub fn step(
        self,
        table: &[u8],
        start: usize,
        used: usize,
        room: usize,
        index: usize,
        glyph: u16,
        ends: bool,
    ) -> InsertionStep
        ensures { result ≡ step_call table.now start self used room index glyph ends }
    {
        let bytes = parse::from(table, start);
        let made = open(bytes);
        if let Err(why) = self.refuse_step(table.len(), used, room, index, made) {
            return stopped(Answer::Refused(why), self, None);
        }
        let Some(states) = made else {
            return stopped(Answer::Refused(Refusal::Head), self, None);
        };
        let step = self.next(
            parse::from(bytes, 12),
            states,
            used,
            room,
            index,
            glyph,
            ends,
        );
        let body = start + 12;
        InsertionStep {
            marked: moved_by(body, step.marked),
            current: moved_by(body, step.current),
            ..step
        }
    }
}

// The state table of the subtable that the bytes begin with; the number at 16, where the glyphs begin, can be read too.
#[tactic(auto, unfolding(crate::specs::Calls::opened))]
pub fn open(bytes: &[u8]) -> Option<States>
    ensures { result ≡ opened bytes.now }
{
    parse::read_u32(parse::from(bytes, 12), 16)?;
    machine::open(bytes, InsertionState::KIND)
}

// The bytes of an insertion's glyphs.
#[tactic(auto, using(crate::proofs::Lists::part_until))]
fn list_at(bytes: &[u8], insertion: Insertion) -> &[u8]
    requires { insertion.glyphs + insertion.count * 2 ≤ length bytes.now }
    ensures { result.now ≡ take (insertion.count * 2) (drop insertion.glyphs bytes.now) }
{
    &bytes[insertion.glyphs..insertion.glyphs + insertion.count as usize * 2]
}

// An insertion, made on the line; the used length afterwards.
// kept: C lends a line slice by slice (`aat_insertion_pass`), and so it stands in the work of every crate.
#[tactic(auto, using(crate::proofs::Edits::put_part, crate::proofs::Edits::part_half))]
#[inline(always)]
fn put(
    bytes: &[u8],
    glyphs: &mut [u16],
    tags: &mut [u16],
    homes: &[u16],
    used: usize,
    edit: Option<Insertion>,
) -> usize
    requires { (end_of edit ≤ length bytes.now) × (used + count_of edit ≤ length glyphs.old) × (length tags.old ≡ length glyphs.old) ×
        (length glyphs.old ≤ Limits.room_limit) }
    ensures { Left (changes_of bytes.now edit) (line_of glyphs.old tags.old homes.now used) glyphs.new tags.new result }
{
    let Some(insertion) = edit else {
        return used;
    };
    line::edits::insert(
        glyphs,
        tags,
        used,
        insertion.place,
        list_at(bytes, insertion),
    )
}

// A step's insertions, made on the line; the used length afterwards.
#[tactic(auto, using(crate::proofs::Edits::used_grows))]
fn edit(
    bytes: &[u8],
    glyphs: &mut [u16],
    tags: &mut [u16],
    homes: &[u16],
    used: usize,
    marked: Option<Insertion>,
    current: Option<Insertion>,
) -> usize
    requires { (end_of marked ≤ length bytes.now) × (end_of current ≤ length bytes.now) × (used + count_of marked + count_of current ≤ length glyphs.old) ×
        (length tags.old ≡ length glyphs.old) × (length glyphs.old ≤ Limits.room_limit) }
    ensures { Left (both_changes bytes.now marked current) (line_of glyphs.old tags.old homes.now used) glyphs.new tags.new result }
{
    let between = put(bytes, glyphs, tags, homes, used, marked);
    put(bytes, glyphs, tags, homes, between, current)
}

// The class of a place of the line, by an index where that reaches the glyph, or of the end of text behind it.
#[tactic(auto, unfolding(machine::specs::Entry::class_here))]
fn class_by(
    bytes: &[u8],
    opened: Classes,
    memo: &mut [u32; 64],
    glyphs: &[u16],
    used: usize,
    place: usize,
    index: &[u16],
) -> u16
    requires { LiesIn bytes.now opened × Remembers (class_by bytes.now opened) memo.old × (place ≤ used) × (used ≤ length glyphs.now) }
    ensures class { result ≡ class_here (classes_by index.now (class_by bytes.now opened)) (get_or glyphs.now place 0)
        (eqb place used) }
    ensures memo { Remembers (class_by bytes.now opened) memo.new }
{
    if place == used {
        return 0;
    }
    indexes::class_by(bytes, opened, memo, glyphs[place], index)
}

// Whether an entry inserts nothing and advances.
#[tactic(auto, unfolding(crate::specs::Work::is_quiet))]
fn is_quiet(bytes: &[u8], entry: Entry) -> bool
    requires { entry.payload + 4 ≤ length bytes.now }
    ensures { result ≡ is_quiet bytes.now entry }
{
    if machine::is_set(entry.flags, InsertionState::DONT_ADVANCE) {
        return false;
    }
    let numbers = entries::two_numbers(bytes, entry.payload);
    numbers.first == InsertionState::NO_ACTION && numbers.second == InsertionState::NO_ACTION
}

// The pass over a line that LINE has taken, with the bytes from the state table on.
#[tactic(auto, using(crate::proofs::Passes::quiet_goes, crate::proofs::Passes::quiet_less, state_tables::proofs::Laws::entry_payload, line::proofs::Room::room_small))]
fn pass_line(
    bytes: &[u8],
    states: States,
    glyphs: &mut [u16],
    tags: &mut [u16],
    homes: &[u16],
    used: usize,
    index: &[u16],
) -> InsertionPass
    requires { (used ≤ length glyphs.old) × (length tags.old ≡ length glyphs.old) × (length glyphs.old ≤ Limits.room_limit) }
    ensures { Ends (passed (indexed index.now insertion) bytes.now states (line_of glyphs.old tags.old homes.now used))
        (line_of glyphs.old tags.old homes.now used) result.answer glyphs.new tags.new result.used }
{
    let opened = opened::open(bytes, states);
    let mut memo = opened::nothing_found();
    let mut state = InsertionState::new();
    let mut place = 0;
    let mut end = used;
    // kept: a place stays or moves by what is put in, and the end moves with it, so that no range counts the turns.
    loop {
        let class = class_by(bytes, opened, &mut memo, glyphs, end, place, index);
        let Some(entry) = entries::entry_of(bytes, states, state.state, class, 4) else {
            return InsertionPass {
                answer: Answer::Ended,
                used: end,
            };
        };
        if is_quiet(bytes, entry) {
            if place == end {
                return InsertionPass {
                    answer: Answer::Done,
                    used: end,
                };
            }
            state = state.led_by(entry, place);
            place += 1;
            continue;
        }
        let step = state.act(bytes, entry, place, end, glyphs.len());
        let answer = step.answer;
        let longer = edit(bytes, glyphs, tags, homes, end, step.marked, step.current);
        if place == end || !machine::is_done(answer) {
            return InsertionPass {
                answer,
                used: longer,
            };
        }
        let after = step.state;
        // kept: field by field, since a copy as a whole was slower: it waits for the stores that the step has just made.
        state = InsertionState {
            state: after.state,
            mark: after.mark,
            cycles: after.cycles,
        };
        place += step.advance;
        end = longer;
    }
}

// The pass over a line that LINE has taken, by the subtable that the bytes begin with and the classes of an index.
#[tactic(auto, unfolding(machine::specs::Work::work_leaves, line::specs::Changes::apply_all))]
pub fn work_by(
    bytes: &[u8],
    glyphs: &mut [u16],
    tags: &mut [u16],
    homes: &[u16],
    used: usize,
    index: &[u16],
) -> InsertionPass
    requires { (used ≤ length glyphs.old) × (length tags.old ≡ length glyphs.old) × (length glyphs.old ≤ Limits.room_limit) }
    ensures answer { result.answer ≡ ((subtable_of (indexed index.now insertion)).worked bytes.now
        (line_of glyphs.old tags.old homes.now used)).answer }
    ensures used { result.used ≡ (work_leaves (subtable_of (indexed index.now insertion)) bytes.now
        (line_of glyphs.old tags.old homes.now used)).used }
    ensures glyphs { glyphs.new ≡ (work_leaves (subtable_of (indexed index.now insertion)) bytes.now
        (line_of glyphs.old tags.old homes.now used)).glyphs }
    ensures tags { tags.new ≡ (work_leaves (subtable_of (indexed index.now insertion)) bytes.now
        (line_of glyphs.old tags.old homes.now used)).tags }
{
    let Some(states) = open(bytes) else {
        return InsertionPass {
            answer: Answer::Refused(Refusal::Head),
            used,
        };
    };
    pass_line(
        parse::from(bytes, 12),
        states,
        glyphs,
        tags,
        homes,
        used,
        index,
    )
}

// The same by the subtable's own classes.
pub fn work(
    bytes: &[u8],
    glyphs: &mut [u16],
    tags: &mut [u16],
    homes: &[u16],
    used: usize,
) -> InsertionPass
    requires { (used ≤ length glyphs.old) × (length tags.old ≡ length glyphs.old) × (length glyphs.old ≤ Limits.room_limit) }
    ensures answer { result.answer ≡ ((subtable_of insertion).worked bytes.now
        (line_of glyphs.old tags.old homes.now used)).answer }
    ensures used { result.used ≡ (work_leaves (subtable_of insertion) bytes.now
        (line_of glyphs.old tags.old homes.now used)).used }
    ensures glyphs { glyphs.new ≡ (work_leaves (subtable_of insertion) bytes.now
        (line_of glyphs.old tags.old homes.now used)).glyphs }
    ensures tags { tags.new ≡ (work_leaves (subtable_of insertion) bytes.now
        (line_of glyphs.old tags.old homes.now used)).tags }
{
    let none = [0u16; 0];
    work_by(bytes, glyphs, tags, homes, used, &none)
}

// The pass over a line, by the subtable at `start`.
#[tactic(auto, using(crate::proofs::Calls::taken_fits), unfolding(machine::specs::Machine::pass_call, machine::specs::Machine::call_leaves, machine::specs::Work::work_leaves, line::specs::Changes::apply_all))]
pub fn pass(
    table: &[u8],
    start: usize,
    glyphs: &mut [u16],
    tags: &mut [u16],
    homes: &[u16],
    used: usize,
) -> InsertionPass
    ensures answer { result.answer ≡ (pass_call (subtable_of insertion) table.now start
        (line_of glyphs.old tags.old homes.now used)).answer }
    ensures used { result.used ≡ (call_leaves (subtable_of insertion) table.now start
        (line_of glyphs.old tags.old homes.now used)).used }
    ensures glyphs { glyphs.new ≡ (call_leaves (subtable_of insertion) table.now start
        (line_of glyphs.old tags.old homes.now used)).glyphs }
    ensures tags { tags.new ≡ (call_leaves (subtable_of insertion) table.now start
        (line_of glyphs.old tags.old homes.now used)).tags }
{
    let bytes = parse::from(table, start);
    if let Err(why) = machine::refuse_pass(
        table.len(),
        glyphs,
        tags,
        homes,
        used,
        machine::is_ready(open(bytes)),
    ) {
        return InsertionPass {
            answer: Answer::Refused(why),
            used,
        };
    }
    work(bytes, glyphs, tags, homes, used)
}

// The tests before a lone insertion: TABLE, LINE, PLACE.
#[tactic(auto, unfolding(crate::specs::Lone::insert_tests, machine::specs::Call::place_test, line::specs::Test::line_test, answers::specs::Refuse::refuse))]
fn refuse_insert(
    table_length: usize,
    glyphs: &[u16],
    tags: &[u16],
    homes: &[u16],
    used: usize,
    place: usize,
) -> Result<(), Refusal>
    ensures { result ≡ refuse (insert_tests table_length (line_of glyphs.now tags.now homes.now used) place) }
{
    answers::refuse_table(table_length)?;
    if !line::valid::takes(glyphs, tags, homes, used) {
        return Err(Refusal::Line);
    }
    if used < place {
        return Err(Refusal::Place);
    }
    Ok(())
}

// Inserts `count` glyphs, which lie in the table from `start` on, at a place of a line: an edit that a step hands over.
#[tactic(auto, using(crate::proofs::Lone::insert_valid), unfolding(crate::specs::Lone::insert_call, crate::specs::Lone::insert_leaves, crate::specs::Lone::lone_insertion, line::specs::Changes::apply_all))]
pub fn insert(
    table: &[u8],
    start: usize,
    count: u16,
    glyphs: &mut [u16],
    tags: &mut [u16],
    homes: &[u16],
    used: usize,
    place: usize,
) -> InsertionPass
    ensures answer { result.answer ≡ (insert_call table.now start count place
        (line_of glyphs.old tags.old homes.now used)).answer }
    ensures used { result.used ≡ (insert_leaves table.now start count place
        (line_of glyphs.old tags.old homes.now used)).used }
    ensures glyphs { glyphs.new ≡ (insert_leaves table.now start count place
        (line_of glyphs.old tags.old homes.now used)).glyphs }
    ensures tags { tags.new ≡ (insert_leaves table.now start count place
        (line_of glyphs.old tags.old homes.now used)).tags }
{
    if let Err(why) = refuse_insert(table.len(), glyphs, tags, homes, used, place) {
        return InsertionPass {
            answer: Answer::Refused(why),
            used,
        };
    }
    let listed = list_from(table, start, count);
    let tried = enter(listed, place, count, used, glyphs.len());
    match tried {
        Ok(edit) => InsertionPass {
            answer: Answer::Done,
            used: put(table, glyphs, tags, homes, used, edit),
        },
        Err(answer) => InsertionPass { answer, used },
    }
}
