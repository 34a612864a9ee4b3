// kerx format 4: the machine of anchored marks, over the bytes from its state table on.
#![tactic(auto)]

ghost use Rattle.std.specs.Prelude.{◌≡◌, ◌+◌, ◌≤◌, length};
ghost use Rattle.answers.specs.Limits.{room_limit};
ghost use Rattle.answers.specs.Refuse.{refuse};
ghost use Rattle.kerning.specs.Heads.{is_short, is_tupled};
ghost use Rattle.anchor_machine.specs.Writes.{write_x, write_y, write_back, writes_at, are_long};
ghost use Rattle.anchor_machine.specs.Small.{IsPoint, IsOffset};
ghost use Rattle.anchor_machine.specs.Machine.{opened, fresh, marked, numbers_at, numbers_of, offset, written_by, stopped, settled, are_short};
ghost use Rattle.anchor_machine.specs.Machine.{settled_by, acted, next, own_classes, worked_by, worked_indexed, is_roomy, step_tests};
ghost use Rattle.anchor_machine.specs.Machine.{step_call, step_writes};

use anchors::Point;
use answers::{Answer, Refusal};
use kerning::heads;
use kerning::heads::Unready;
use points::{Points, Table};
use state_tables::entries::Entry;
use state_tables::{States, classes, entries};
use tables::units::Reading;

mod pass;
mod points;

// A machine, as its subtable's head gives it: by a reading, with an action type and where its control table begins.
#[derive(Clone, Copy)]
pub struct Anchoring {
    pub states: States,
    pub reading: Reading,
    pub action: u32,
    pub control: u32,
}

// What an entry's action names: nothing; a record that can't be read; or the number of a point of the marked glyph and of one of the current glyph.
#[derive(Clone, Copy)]
pub enum Numbers {
    None,
    Short,
    At { mark: u16, current: u16 },
}

// What a step writes at its place: x, y and the distance back to the marked place.
#[derive(Clone, Copy)]
pub struct Written {
    pub x: i32,
    pub y: i32,
    pub back: u16,
}

// The state of a pass: the state table's state, the marked place, the glyph that was there, and how many steps in a row did not advance.
#[derive(Clone, Copy)]
pub struct AnchorState {
    pub state: u16,
    pub mark: usize,
    pub glyph: u16,
    pub cycles: u16,
}

// What a step answers: DONE with the advance, or ENDED; the new state, and what it writes.
#[derive(Clone, Copy)]
pub struct AnchorStep {
    pub answer: Answer,
    pub state: AnchorState,
    pub advance: usize,
    pub written: Option<Written>,
}

// The machine of the state table that the bytes begin with.
#[tactic(auto, unfolding(crate::specs::Machine::opened))]
pub fn open(reading: Reading, bytes: &[u8]) -> Result<Anchoring, Unready>
    ensures { result ≡ opened reading bytes.now }
{
    let states = state_tables::extended_by(bytes, reading).ok_or(Unready::Short)?;
    let flags = parse::read_u32(bytes, 16).ok_or(Unready::Short)?;
    Ok(Anchoring {
        states,
        reading,
        action: flags / AnchorState::ACTIONS,
        control: flags % AnchorState::PLACES,
    })
}

// The record at a place.
#[tactic(auto, using(parse::proofs::Laws::u16_value), unfolding(crate::specs::Machine::numbers_at))]
fn numbers_at(bytes: &[u8], place: usize) -> Numbers
    ensures { result ≡ numbers_at bytes.now place }
{
    let Some(mark) = parse::read_u16(bytes, place) else {
        return Numbers::Short;
    };
    let Some(current) = parse::read_u16(bytes, place + 2) else {
        return Numbers::Short;
    };
    Numbers::At { mark, current }
}

// The record of an entry's action.
#[tactic(auto, unfolding(crate::specs::Machine::numbers_of))]
fn numbers_of(bytes: &[u8], anchoring: Anchoring, index: u16) -> Numbers
    ensures { result ≡ numbers_of bytes.now anchoring index }
{
    if index == AnchorState::NO_ACTION || anchoring.action != AnchorState::ANCHORS {
        return Numbers::None;
    }
    numbers_at(bytes, anchoring.control as usize + index as usize * 2)
}

// Whether a record can't be read.
fn are_short(numbers: Numbers) -> bool
    ensures { result ≡ are_short numbers }
{
    matches!(numbers, Numbers::Short)
}

// What two points write.
#[tactic(auto, unfolding(crate::specs::Machine::offset))]
fn offset(mark: Option<Point>, current: Option<Point>, back: usize) -> Option<Written>
    requires { IsPoint mark × IsPoint current }
    ensures { result ≡ offset mark current back }
{
    let mark = mark?;
    let current = current?;
    if AnchorState::FARTHEST <= back {
        return None;
    }
    Some(Written {
        x: anchors::difference(mark.x, current.x),
        y: anchors::difference(mark.y, current.y),
        back: back as u16,
    })
}

// Whether a step's adjustments are a room for a line of so many places, none of them beyond ±2^40, and the other three slices are as long.
#[tactic(auto, unfolding(crate::specs::Machine::is_roomy))]
fn is_roomy(along: &[i64], x: &[i32], y: &[i32], back: &[u16], used: usize) -> bool
    ensures { result ≡ is_roomy along.now x.now y.now back.now used }
{
    !answers::above_room(along.len())
        && used <= along.len()
        && are_long(along.len(), x, y, back)
        && kerning::modest(along)
}

// Whether the three slices are as long as the room.
#[tactic(auto, unfolding(crate::specs::Writes::are_long))]
pub fn are_long(room: usize, x: &[i32], y: &[i32], back: &[u16]) -> bool
    ensures { result ≡ are_long room x.now y.now back.now }
{
    x.len() == room && y.len() == room && back.len() == room
}

// A step's offset, written at its place; behind the line it is not.
#[tactic(auto, using(crate::proofs::Acting::written_fits), unfolding(crate::specs::Writes::writes_at, crate::specs::Writes::write_all))]
fn put(
    written: Option<Written>,
    used: usize,
    place: usize,
    x: &mut [i32],
    y: &mut [i32],
    back: &mut [u16],
)
    requires { IsOffset written × (used ≤ length x.old) × (used ≤ length y.old) × (used ≤ length back.old) }
    ensures x { x.new ≡ write_x (writes_at used place written) x.old }
    ensures y { y.new ≡ write_y (writes_at used place written) y.old }
    ensures back { back.new ≡ write_back (writes_at used place written) back.old }
{
    let Some(written) = written else {
        return;
    };
    if place < used {
        x[place] = written.x;
        y[place] = written.y;
        back[place] = written.back;
    }
}

impl AnchorState {
    // The format of this machine.
    pub const FORMAT: u32 = 4;

    pub const MARK: u16 = 0x8000;

    pub const DONT_ADVANCE: u16 = 0x4000;

    // The index that means no action.
    pub const NO_ACTION: u16 = 0xFFFF;

    // The head's flags: from this bit on they are the action type, below that one where the control table begins.
    pub const ACTIONS: u32 = 0x4000_0000;

    pub const PLACES: u32 = 0x0100_0000;

    // The action type that is taken.
    pub const ANCHORS: u32 = 1;

    // From this distance on nothing is written.
    pub const FARTHEST: usize = 255;

    pub const MOST_CYCLES: u16 = 17;

    // The state at the start of a pass.
    pub fn new() -> AnchorState
        ensures { result ≡ fresh }
    {
        AnchorState {
            state: 0,
            mark: 0,
            glyph: 0,
            cycles: 0,
        }
    }

    // A step that ends here.
    fn stopped(self, answer: Answer) -> AnchorStep
        ensures { result ≡ stopped self answer }
    {
        AnchorStep {
            answer,
            state: self,
            advance: 0,
            written: None,
        }
    }

    // The new state, and the mark at this place where its flag says so.
    #[tactic(auto, unfolding(crate::specs::Machine::marked))]
    fn marked(self, entry: Entry, index: usize, glyph: u16) -> AnchorState
        ensures { result ≡ marked self entry index glyph }
    {
        let state = entry.state;
        if machine::is_set(entry.flags, AnchorState::MARK) {
            return AnchorState {
                state,
                mark: index,
                glyph,
                ..self
            };
        }
        AnchorState { state, ..self }
    }

    // What an action's record writes.
    #[tactic(auto, unfolding(crate::specs::Machine::written_by))]
    fn written_by<P: Points>(
        self,
        points: &mut P,
        index: usize,
        glyph: u16,
        numbers: Numbers,
    ) -> Option<Written>
        ensures written { result ≡ written_by (P.table points.old) (P.reading points.old) self index glyph numbers }
        ensures table { P.table points.new ≡ P.table points.old }
        ensures reading { P.reading points.new ≡ P.reading points.old }
    {
        let Numbers::At { mark, current } = numbers else {
            return None;
        };
        points.offset(self, index, glyph, mark, current)
    }

    // Behind the action: the stall rule.
    #[tactic(auto, unfolding(crate::specs::Machine::settled))]
    fn settled(self, stays: bool, written: Option<Written>) -> AnchorStep
        ensures { result ≡ settled self stays written }
    {
        let stalled = machine::stall(self.cycles, stays);
        AnchorStep {
            answer: Answer::Done,
            state: AnchorState {
                cycles: stalled.cycles,
                ..self
            },
            advance: stalled.advance,
            written,
        }
    }

    // The action, once the mark is set.
    #[tactic(auto, unfolding(crate::specs::Machine::settled_by))]
    fn settled_by<P: Points>(
        self,
        points: &mut P,
        stays: bool,
        index: usize,
        glyph: u16,
        numbers: Numbers,
    ) -> AnchorStep
        ensures step { result ≡ settled_by (P.table points.old) (P.reading points.old) self stays index glyph numbers }
        ensures table { P.table points.new ≡ P.table points.old }
        ensures reading { P.reading points.new ≡ P.reading points.old }
    {
        if are_short(numbers) {
            return self.stopped(Answer::Ended);
        }
        let written = self.written_by(points, index, glyph, numbers);
        self.settled(stays, written)
    }

    // What an entry does: the mark, then the action, then the stall rule.
    #[tactic(auto, unfolding(crate::specs::Machine::acted))]
    fn act<P: Points>(
        self,
        points: &mut P,
        bytes: &[u8],
        anchoring: Anchoring,
        entry: Entry,
        index: usize,
        glyph: u16,
    ) -> AnchorStep
        requires { (entry.payload + 2 ≤ length bytes.now) × (anchoring.reading ≡ P.reading points.old) }
        ensures step { result ≡ acted (P.table points.old) bytes.now anchoring self entry index glyph }
        ensures table { P.table points.new ≡ P.table points.old }
        ensures reading { P.reading points.new ≡ P.reading points.old }
    {
        let marked = self.marked(entry, index, glyph);
        let number = entries::one_number(bytes, entry.payload);
        let numbers = numbers_of(bytes, anchoring, number);
        let stays = machine::is_set(entry.flags, AnchorState::DONT_ADVANCE);
        marked.settled_by(points, stays, index, glyph, numbers)
    }

    // The crate's `next`.
    #[tactic(auto, using(state_tables::proofs::Laws::entry_payload), unfolding(crate::specs::Machine::next))]
    fn next(
        self,
        ankr: &[u8],
        bytes: &[u8],
        anchoring: Anchoring,
        index: usize,
        glyph: u16,
    ) -> AnchorStep
        ensures { result ≡ next (own_classes bytes.now anchoring) ankr.now bytes.now anchoring self index glyph }
    {
        let states = anchoring.states;
        let class = classes::class_of(bytes, states, glyph);
        let Some(entry) = entries::entry_of(bytes, states, self.state, class, 2) else {
            return self.stopped(Answer::Ended);
        };
        let mut table = Table {
            ankr,
            reading: anchoring.reading,
        };
        self.act(&mut table, bytes, anchoring, entry, index, glyph)
    }

    // The step at an index, and what it writes.
    #[tactic(auto, using(crate::proofs::Acting::next_small))]
    fn go(
        self,
        ankr: &[u8],
        bytes: &[u8],
        anchoring: Anchoring,
        used: usize,
        index: usize,
        glyph: u16,
        x: &mut [i32],
        y: &mut [i32],
        back: &mut [u16],
    ) -> AnchorStep
        requires { (used ≤ length x.old) × (used ≤ length y.old) × (used ≤ length back.old) }
        ensures step { result ≡ next (own_classes bytes.now anchoring) ankr.now bytes.now anchoring self index glyph }
        ensures x { x.new ≡ write_x (writes_at used index result.written) x.old }
        ensures y { y.new ≡ write_y (writes_at used index result.written) y.old }
        ensures back { back.new ≡ write_back (writes_at used index result.written) back.old }
    {
        let step = self.next(ankr, bytes, anchoring, index, glyph);
        let written = step.written;
        put(written, used, index, x, y, back);
        step
    }

    // The tests before a lone step: TABLE, ANCHOR, LINE, PLACE, STATE, HEAD, TUPLES.
    #[tactic(auto, unfolding(crate::specs::Machine::step_tests, crate::specs::Machine::later_tests, answers::specs::Refuse::refuse, answers::specs::Refuse::table_test, anchors::specs::Anchors::anchor_test))]
    fn refuse(
        self,
        table_length: usize,
        ankr_length: usize,
        roomy: bool,
        used: usize,
        index: usize,
        opened: Result<Anchoring, Unready>,
    ) -> Result<(), Refusal>
        ensures { result ≡ refuse (step_tests table_length ankr_length roomy used index self (is_short opened) (is_tupled opened)) }
    {
        answers::refuse_table(table_length)?;
        anchors::refuse_anchors(ankr_length)?;
        if !roomy {
            return Err(Refusal::Line);
        }
        if used < index {
            return Err(Refusal::Place);
        }
        if index < self.mark {
            return Err(Refusal::State);
        }
        if AnchorState::MOST_CYCLES < self.cycles {
            return Err(Refusal::State);
        }
        if heads::is_short(opened) {
            return Err(Refusal::Head);
        }
        if heads::is_tupled(opened) {
            return Err(Refusal::Tuples);
        }
        Ok(())
    }

    // A lone step, by a machine and the bytes from its state table on, on a line of so many places.
    #[tactic(auto, using(crate::proofs::Steps::step_ready), unfolding(crate::specs::Machine::step_call, crate::specs::Machine::step_writes, crate::specs::Writes::writes_at, crate::specs::Writes::write_all))]
    pub fn step(
        self,
        table_length: usize,
        ankr: &[u8],
        bytes: &[u8],
        opened: Result<Anchoring, Unready>,
        used: usize,
        index: usize,
        glyph: u16,
        along: &[i64],
        x: &mut [i32],
        y: &mut [i32],
        back: &mut [u16],
    ) -> AnchorStep
        ensures step { result ≡ step_call table_length ankr.now bytes.now opened self used index glyph along.now
            x.old y.old back.old }
        ensures x { x.new ≡ write_x (step_writes table_length ankr.now bytes.now opened self used index glyph
            along.now x.old y.old back.old) x.old }
        ensures y { y.new ≡ write_y (step_writes table_length ankr.now bytes.now opened self used index glyph
            along.now x.old y.old back.old) y.old }
        ensures back { back.new ≡ write_back (step_writes table_length ankr.now bytes.now opened self used index glyph
            along.now x.old y.old back.old) back.old }
    {
        let roomy = is_roomy(along, x, y, back, used);
        if let Err(why) = self.refuse(table_length, ankr.len(), roomy, used, index, opened) {
            return self.stopped(Answer::Refused(why));
        }
        match opened {
            Ok(anchoring) => self.go(ankr, bytes, anchoring, used, index, glyph, x, y, back),
            Err(why) => self.stopped(Answer::Refused(Refusal::from(why))),
        }
    }
}

// The pass by what a head gives and the classes of an index; HEAD where it gives none, TUPLES where these are refused.
#[tactic(auto, unfolding(crate::specs::Machine::worked_indexed, crate::specs::Writes::write_all))]
pub fn work_by(
    ankr: &[u8],
    bytes: &[u8],
    opened: Result<Anchoring, Unready>,
    glyphs: &[u16],
    used: usize,
    x: &mut [i32],
    y: &mut [i32],
    back: &mut [u16],
    index: &[u16],
) -> Answer
    requires { (used ≤ length glyphs.now) × (used ≤ length x.old) × (used ≤ length y.old) × (used ≤ length back.old) × (used ≤ room_limit) }
    ensures answer { result ≡ (worked_indexed index.now ankr.now bytes.now opened glyphs.now used).answer }
    ensures x { x.new ≡ write_x (worked_indexed index.now ankr.now bytes.now opened glyphs.now
        used).writes x.old }
    ensures y { y.new ≡ write_y (worked_indexed index.now ankr.now bytes.now opened glyphs.now
        used).writes y.old }
    ensures back { back.new ≡ write_back (worked_indexed index.now ankr.now bytes.now opened glyphs.now
        used).writes back.old }
{
    match opened {
        Ok(anchoring) => {
            pass::pass_line(ankr, bytes, anchoring, glyphs, used, x, y, back, index)
        }
        Err(why) => Answer::Refused(Refusal::from(why)),
    }
}

// The same by the machine's own classes.
#[tactic(auto, using(crate::proofs::Calls::plain_worked))]
pub fn work(
    ankr: &[u8],
    bytes: &[u8],
    opened: Result<Anchoring, Unready>,
    glyphs: &[u16],
    used: usize,
    x: &mut [i32],
    y: &mut [i32],
    back: &mut [u16],
) -> Answer
    requires { (used ≤ length glyphs.now) × (used ≤ length x.old) × (used ≤ length y.old) × (used ≤ length back.old) × (used ≤ room_limit) }
    ensures answer { result ≡ (worked_by ankr.now bytes.now opened glyphs.now used).answer }
    ensures x { x.new ≡ write_x (worked_by ankr.now bytes.now opened glyphs.now used).writes x.old }
    ensures y { y.new ≡ write_y (worked_by ankr.now bytes.now opened glyphs.now used).writes y.old }
    ensures back { back.new ≡ write_back (worked_by ankr.now bytes.now opened glyphs.now used).writes
        back.old }
{
    let none = [0u16; 0];
    work_by(ankr, bytes, opened, glyphs, used, x, y, back, &none)
}
