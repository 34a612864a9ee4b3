// The machine of format 1: kern's over the classic state table, kerx's over the extended one.
#![tactic(auto)]

ghost use Rattle.std.specs.Prelude.{◌≡◌, true, false, cond, ℕ, ◌+◌, ◌-◌, ◌≤◌, ◌^◌, length};
ghost use Rattle.answers.specs.Refuse.{refuse};
ghost use Rattle.state_tables.specs.Opened.{byte_class_in, class_by, LiesIn};
ghost use Rattle.indexes.specs.Index.{classes_by};
ghost use Rattle.state_tables.specs.Rows.{is_classic};
ghost use Rattle.kerning.specs.Additions.{add_all};
ghost use Rattle.kerning.specs.Heads.{is_short, is_tupled};
ghost use Rattle.kerning_machine.specs.Machine.{fresh, payload_of, rule_of, tuple_size, stride_of, kern_start, kerx_start, manual_start, kern_orders};
ghost use Rattle.kerning_machine.specs.Machine.{indexed_orders, orders_of, is_full, stacked, stopped, walked_from, behind, acted, next};
ghost use Rattle.kerning_machine.specs.Machine.{passed_by, passed_indexed, own_classes, is_roomy, are_within, step_tests, step_call};
ghost use Rattle.kerning_machine.specs.Machine.{worked_by, worked_indexed};
ghost use Rattle.kerning_machine.specs.Work.{CanStep, CanPass, ListsBy, standing, step_of, readied, kern_of};

use answers::{Answer, Refusal};
use kerning::heads::Unready;
use kerning::lists;
use kerning::lists::{EndRule, Never, Odd, Rule, Walked};
use state_tables::entries::{Entry, Reached};
use state_tables::opened::Classes;
use state_tables::{States, classes, entries, opened};

// How a machine reads its entries: kern's flags hold where the list begins, and its subtable may go across the stream; kerx's entries hold
// an index, which the crate counts in tuples, the value table with it, and the manual in numbers from the value table on.
#[derive(Clone, Copy)]
pub enum Reading {
    Kern { crossed: bool },
    Kerx { values: u32, tuples: u32 },
    Manual { values: u32 },
}

// A machine, as its subtable's head gives it.
#[derive(Clone, Copy)]
pub struct Kerning {
    pub states: States,
    pub reading: Reading,
}

// Where an entry's list begins: there is none, at a place, or at one that no 64-bit number tells.
#[derive(Clone, Copy)]
pub enum Start {
    None,
    At(usize),
    Nowhere,
}

// What an entry says, but for the state that it leads to.
#[derive(Clone, Copy)]
pub struct Orders {
    pub pushes: bool,
    pub clears: bool,
    pub start: Start,
    pub resets: bool,
    pub stays: bool,
}

// The state of a pass: the state table's state, the stack of places, and how many steps in a row did not advance.
// kept: C lends a state as eleven numbers (aat_kern_step), of which the depth may be out of bounds; so it stands beside the stack.
#[derive(Clone, Copy)]
pub struct KerningState {
    pub state: u16,
    pub stack: [usize; KerningState::DEPTH],
    pub depth: usize,
    pub cycles: u16,
}

// What a step answers: DONE with the advance, or ENDED; and the new state.
#[derive(Clone, Copy)]
pub struct KerningStep {
    pub answer: Answer,
    pub state: KerningState,
    pub advance: usize,
}

// How many bytes of payload an entry has.
fn payload_of(reading: Reading) -> u16
    ensures { result ≡ payload_of reading }
{
    match reading {
        Reading::Kern { .. } => 0,
        Reading::Kerx { .. } | Reading::Manual { .. } => 2,
    }
}

// The bytes of a tuple; no tuples count as one.
#[tactic(auto, unfolding(crate::specs::Machine::tuple_size))]
fn size_of(tuples: u32) -> usize
    ensures { (result ≡ tuple_size tuples) × (2 ≤ result) × (result ≤ 2 ^ 33) }
{
    if tuples == 0 {
        return 2;
    }
    tuples as usize * 2
}

// The rule by which a list ends.
fn rule_of(reading: Reading) -> Rule
    ensures { result ≡ rule_of reading }
{
    match reading {
        Reading::Kern { crossed } => Rule::Odd { crossed },
        Reading::Kerx { .. } => Rule::Never,
        Reading::Manual { .. } => Rule::Marked,
    }
}

// How far the numbers of a list are apart.
fn stride_of(reading: Reading) -> usize
    ensures { (result ≡ stride_of reading) × (result ≤ 2 ^ 33) }
{
    match reading {
        Reading::Kern { .. } | Reading::Manual { .. } => 2,
        Reading::Kerx { tuples, .. } => size_of(tuples),
    }
}

// Where a list of kern's begins.
#[tactic(auto, unfolding(crate::specs::Machine::kern_start))]
fn kern_start(flags: u16) -> Start
    ensures { result ≡ kern_start flags }
{
    let place = flags % KerningState::LISTS;
    if place == 0 {
        return Start::None;
    }
    Start::At(place as usize)
}

// Where a list of kerx's begins.
fn kerx_start(values: u32, tuples: u32, index: u16) -> Start
    ensures { result ≡ kerx_start values tuples index }
{
    if index == KerningState::NO_LIST {
        return Start::None;
    }
    let size = size_of(tuples);
    let number = values as usize + index as usize;
    if 0xFFFF_FFFF_FFFF_FFFF / size < number {
        return Start::Nowhere;
    }
    Start::At(number * size)
}

// Where a list of kerx's begins in the manual's reading.
#[tactic(auto, unfolding(crate::specs::Machine::manual_start))]
fn manual_start(values: u32, index: u16) -> Start
    ensures { result ≡ manual_start values index }
{
    if index == KerningState::NO_LIST {
        return Start::None;
    }
    Start::At(values as usize + index as usize * 2)
}

// What the flags of an entry of kern's say.
#[tactic(auto, unfolding(crate::specs::Machine::kern_orders))]
fn kern_orders(flags: u16) -> Orders
    ensures { result ≡ kern_orders flags }
{
    Orders {
        pushes: machine::is_set(flags, KerningState::PUSH),
        clears: flags == 0,
        start: kern_start(flags),
        resets: false,
        stays: machine::is_set(flags, KerningState::DONT_ADVANCE),
    }
}

// What the flags of an entry of kerx's say, whose list begins there.
#[tactic(auto, unfolding(crate::specs::Machine::indexed_orders))]
fn indexed_orders(flags: u16, start: Start) -> Orders
    ensures { result ≡ indexed_orders flags start }
{
    Orders {
        pushes: machine::is_set(flags, KerningState::PUSH),
        clears: false,
        start,
        resets: machine::is_set(flags, KerningState::RESET),
        stays: machine::is_set(flags, KerningState::DONT_ADVANCE),
    }
}

// What an entry says.
#[tactic(auto, unfolding(crate::specs::Machine::orders_of, crate::specs::Machine::kerx_orders))]
fn orders_of(bytes: &[u8], reading: Reading, entry: Entry) -> Orders
    requires { entry.payload + payload_of reading ≤ length bytes.now }
    ensures { result ≡ orders_of bytes.now reading entry }
{
    match reading {
        Reading::Kern { .. } => kern_orders(entry.flags),
        Reading::Kerx { values, tuples } => {
            let index = entries::one_number(bytes, entry.payload);
            indexed_orders(entry.flags, kerx_start(values, tuples, index))
        }
        Reading::Manual { values } => {
            let index = entries::one_number(bytes, entry.payload);
            indexed_orders(entry.flags, manual_start(values, index))
        }
    }
}

// The list of an entry, by the rule and the stride of its reading, over a stack of so many places.
#[tactic(auto, unfolding(crate::specs::Machine::walked_from, kerning::specs::Additions::add_all))]
fn follow<R: EndRule>(
    bytes: &[u8],
    rule: R,
    stride: usize,
    start: Start,
    stack: &[usize; KerningState::DEPTH],
    depth: usize,
    used: usize,
    along: &mut [i64],
) -> Walked
    requires { (stride ≤ 2 ^ 40) × CanStep depth used along.old }
    ensures left { (reading : Reading) → ListsBy reading (R.rule rule) stride → result ≡ (walked_from
        bytes.now reading start stack.now depth used).left }
    ensures along { (reading : Reading) → ListsBy reading (R.rule rule) stride → along.new ≡ add_all (walked_from
        bytes.now reading start stack.now depth used).additions along.old }
{
    match start {
        Start::None => Walked {
            ended: false,
            depth,
        },
        Start::Nowhere => Walked { ended: true, depth },
        Start::At(place) => lists::walk(bytes, rule, stride, place, stack, depth, used, along),
    }
}

// The depth of the stack, or none where it is emptied.
fn kept(emptied: bool, depth: usize) -> usize
    ensures { result ≡ cond emptied 0 depth }
{
    if emptied { 0 } else { depth }
}

// Whether a push finds no room on the stack.
fn is_full(pushes: bool, depth: usize) -> bool
    ensures { result ≡ is_full pushes depth }
{
    pushes && depth == KerningState::DEPTH
}

// Pushes the index, or empties the stack, or does neither. Returns the depth afterwards.
#[tactic(auto, using(crate::proofs::Readings::room_left, crate::proofs::Acting::stacked_bare), unfolding(crate::specs::Machine::stacked))]
fn push(
    stack: &mut [usize; KerningState::DEPTH],
    depth: usize,
    pushes: bool,
    clears: bool,
    index: usize,
) -> usize
    requires { (depth ≤ 8) × (is_full pushes depth ≡ false) }
    ensures { (state cycles : ℕ) → standing state stack.new result cycles ≡ stacked (standing state stack.old depth cycles) pushes
        clears index }
{
    let left = kept(clears, depth);
    if !pushes {
        return left;
    }
    stack[depth] = index;
    depth + 1
}

// What an entry does to a lent stack and to the adjustments: the push, of which the 9th ends the step, then the list.
fn act<R: EndRule>(
    bytes: &[u8],
    rule: R,
    stride: usize,
    orders: Orders,
    stack: &mut [usize; KerningState::DEPTH],
    depth: usize,
    used: usize,
    index: usize,
    along: &mut [i64],
) -> Walked
    requires { (stride ≤ 2 ^ 40) × CanStep depth used along.old }
    ensures step { (reading : Reading) → ListsBy reading (R.rule rule) stride → (state cycles : ℕ) → behind
        orders (standing state stack.new result.depth cycles) result ≡ (acted bytes.now reading
        (standing state stack.old depth cycles) orders used index).step }
    ensures along { (reading : Reading) → ListsBy reading (R.rule rule) stride → (state cycles : ℕ) → along.new ≡ add_all
        (acted bytes.now reading (standing state stack.old depth cycles) orders used index).additions along.old }
{
    if is_full(orders.pushes, depth) {
        return Walked { ended: true, depth };
    }
    let deep = push(stack, depth, orders.pushes, orders.clears, index);
    follow(bytes, rule, stride, orders.start, stack, deep, used, along)
}

// Whether the places of the used slots are not above the length.
fn are_within(stack: [usize; KerningState::DEPTH], depth: usize, used: usize) -> bool
    requires { depth ≤ 8 }
    ensures { result ≡ are_within stack depth used }
{
    stack[..depth].iter().all(|place| *place <= used)
}

// Whether a step's adjustments are a room for a line of so many places, none of them beyond ±2^40.
#[tactic(auto, unfolding(crate::specs::Machine::is_roomy))]
fn is_roomy(along: &[i64], used: usize) -> bool
    ensures { result ≡ is_roomy along.now used }
{
    !answers::above_room(along.len()) && used <= along.len() && kerning::modest(along)
}

impl KerningState {
    pub const PUSH: u16 = 0x8000;

    pub const DONT_ADVANCE: u16 = 0x4000;

    // Flags below this one say where a list of kern's begins.
    pub const LISTS: u16 = 0x4000;

    // kerx alone: empties the stack.
    pub const RESET: u16 = 0x2000;

    // The index of kerx's that means no list.
    pub const NO_LIST: u16 = 0xFFFF;

    pub const DEPTH: usize = lists::DEPTH;

    pub const MOST_CYCLES: u16 = 17;

    // The state at the start of a pass.
    pub fn new() -> KerningState
        ensures { result ≡ fresh }
    {
        KerningState {
            state: 0,
            stack: [0; KerningState::DEPTH],
            depth: 0,
            cycles: 0,
        }
    }

    // A step that ends here.
    fn stopped(self, answer: Answer) -> KerningStep
        ensures { result ≡ stopped self answer }
    {
        KerningStep {
            answer,
            state: self,
            advance: 0,
        }
    }

    // The machine of a lone step, behind the tests: TABLE, LINE, PLACE, STATE, HEAD, TUPLES.
    #[tactic(auto, unfolding(crate::specs::Machine::step_tests, crate::specs::Machine::later_tests, answers::specs::Refuse::refuse, answers::specs::Refuse::table_test, crate::specs::Work::readied))]
    fn ready(
        self,
        table_length: usize,
        used: usize,
        index: usize,
        along: &[i64],
        opened: Result<Kerning, Unready>,
    ) -> Result<Kerning, Refusal>
        ensures { result ≡ readied (refuse (step_tests table_length used index self along.now (is_short opened)
            (is_tupled opened))) opened }
    {
        answers::refuse_table(table_length)?;
        if !is_roomy(along, used) {
            return Err(Refusal::Line);
        }
        if used < index {
            return Err(Refusal::Place);
        }
        if KerningState::DEPTH < self.depth {
            return Err(Refusal::State);
        }
        if !are_within(self.stack, self.depth, used) {
            return Err(Refusal::State);
        }
        if KerningState::MOST_CYCLES < self.cycles {
            return Err(Refusal::State);
        }
        match opened {
            Ok(kerning) => Ok(kerning),
            Err(Unready::Short) => Err(Refusal::Head),
            Err(Unready::Tupled) => Err(Refusal::Tuples),
        }
    }

    // The crate's `next` by the glyph's class, over the bytes from the state table on: how far the next step's place is from this one's, or none
    // where the step ended.
    fn next<R: EndRule>(
        &mut self,
        bytes: &[u8],
        kerning: Kerning,
        rule: R,
        stride: usize,
        used: usize,
        index: usize,
        class: u16,
        along: &mut [i64],
    ) -> Option<usize>
        requires { ListsBy kerning.reading (R.rule rule) stride × (stride ≤ 2 ^ 40) × CanStep
            self.old.depth used along.old }
        ensures step { (glyph : ℕ) → step_of result self.new ≡ (next (λ _. class) bytes.now kerning self.old used index glyph).step }
        ensures along { (glyph : ℕ) → along.new ≡ add_all (next (λ _. class) bytes.now kerning self.old used index
            glyph).additions along.old }
    {
        let reading = kerning.reading;
        let entry = entries::entry_of(
            bytes,
            kerning.states,
            self.state,
            class,
            payload_of(reading),
        )?;
        let orders = orders_of(bytes, reading, entry);
        let walked = act(
            bytes,
            rule,
            stride,
            orders,
            &mut self.stack,
            self.depth,
            used,
            index,
            along,
        );
        self.state = entry.state;
        self.depth = walked.depth;
        if walked.ended {
            return None;
        }
        let stalled = machine::stall(self.cycles, orders.stays);
        self.depth = kept(orders.resets, self.depth);
        self.cycles = stalled.cycles;
        Some(stalled.advance)
    }

    // The crate's `next` from this state.
    fn go(
        self,
        bytes: &[u8],
        kerning: Kerning,
        used: usize,
        index: usize,
        glyph: u16,
        along: &mut [i64],
    ) -> KerningStep
        requires { CanStep self.depth used along.old }
        ensures step { result ≡ (next (own_classes bytes.now kerning) bytes.now kerning self used index glyph).step }
        ensures along { along.new ≡ add_all (next (own_classes bytes.now kerning) bytes.now kerning self used index
            glyph).additions along.old }
    {
        let reading = kerning.reading;
        let rule = rule_of(reading);
        let stride = stride_of(reading);
        let class = classes::class_of(bytes, kerning.states, glyph);
        let mut state = self;
        let Some(advance) = state.next(bytes, kerning, rule, stride, used, index, class, along)
        else {
            return state.stopped(Answer::Ended);
        };
        KerningStep {
            answer: Answer::Done,
            state,
            advance,
        }
    }

    // A lone step, by a machine and the bytes from its state table on, on a line of so many places.
    pub fn step(
        self,
        table_length: usize,
        bytes: &[u8],
        opened: Result<Kerning, Unready>,
        used: usize,
        index: usize,
        glyph: u16,
        along: &mut [i64],
    ) -> KerningStep
        ensures step { result ≡ (step_call table_length bytes.now opened self used index glyph along.old).step }
        ensures along { along.new ≡ add_all (step_call table_length bytes.now opened self used index glyph
            along.old).additions along.old }
    {
        match self.ready(table_length, used, index, along, opened) {
            Ok(kerning) => self.go(bytes, kerning, used, index, glyph, along),
            Err(why) => self.stopped(Answer::Refused(why)),
        }
    }
}

// The pass of kern's machine, over a classic table. The steps at a place are a loop of their own, so that the next place's glyph is
// read before it is known that the place is left; a state is kept by its row. What `next` does is written out, and inlined.
// kept: the same by `pass`, which goes by states and whole entries, was tried, and takes 1.6 times as long.
fn pass_kern(
    bytes: &[u8],
    states: States,
    crossed: bool,
    base: usize,
    first: u16,
    count: usize,
    glyphs: &[u16],
    used: usize,
    along: &mut [i64],
) -> Answer
    requires { (is_classic states.edition ≡ true) × (count ≤ length bytes.now - base) × CanPass glyphs.now used along.old }
    ensures answer { result ≡ (passed_by (byte_class_in bytes.now base first count) bytes.now (kern_of states crossed) glyphs.now
        used).answer }
    ensures along { along.new ≡ add_all (passed_by (byte_class_in bytes.now base first count) bytes.now (kern_of states crossed)
        glyphs.now used).additions along.old }
{
    let rule = Odd { crossed };
    let mut stack = [0; KerningState::DEPTH];
    let mut row = 0;
    let mut depth = 0;
    let mut cycles = 0;
    for place in 0..used {
        let class = opened::class_in_bytes(bytes, base, first, count, glyphs[place]);
        let mut advance = 0;
        while advance == 0 {
            let Some(Reached { row: next, flags }) = entries::reach(bytes, states, row, class)
            else {
                return Answer::Ended;
            };
            let orders = kern_orders(flags);
            let walked = act(
                bytes, rule, 2, orders, &mut stack, depth, used, place, along,
            );
            if walked.ended {
                return Answer::Ended;
            }
            let stalled = machine::stall(cycles, orders.stays);
            row = next;
            depth = walked.depth;
            cycles = stalled.cycles;
            advance = stalled.advance;
        }
    }
    Answer::Done
}

// The pass of any machine, by the rule and the stride of its lists and by its opened classes. The steps at a place are a loop of their own, so that
// the glyph's class is asked once.
fn pass<R: EndRule>(
    bytes: &[u8],
    kerning: Kerning,
    rule: R,
    stride: usize,
    table: Classes,
    glyphs: &[u16],
    used: usize,
    along: &mut [i64],
    index: &[u16],
) -> Answer
    requires { ListsBy kerning.reading (R.rule rule) stride × (stride ≤ 2 ^ 40) × LiesIn bytes.now table × CanPass
        glyphs.now used along.old }
    ensures answer { result ≡ (passed_by (classes_by index.now (class_by bytes.now table)) bytes.now kerning glyphs.now used).answer }
    ensures along { along.new ≡ add_all (passed_by (classes_by index.now (class_by bytes.now table)) bytes.now kerning
        glyphs.now used).additions along.old }
{
    let mut memo = opened::nothing_found();
    let mut state = KerningState::new();
    for place in 0..used {
        let class = indexes::class_by(bytes, table, &mut memo, glyphs[place], index);
        let mut advance = 0;
        while advance == 0 {
            let Some(next) = state.next(bytes, kerning, rule, stride, used, place, class, along)
            else {
                return Answer::Ended;
            };
            advance = next;
        }
    }
    Answer::Done
}

// The pass over a line that LINE has taken, with the bytes from the state table on.
fn pass_line(
    bytes: &[u8],
    kerning: Kerning,
    glyphs: &[u16],
    used: usize,
    along: &mut [i64],
    index: &[u16],
) -> Answer
    requires { CanPass glyphs.now used along.old }
    ensures answer { result ≡ (passed_indexed index.now bytes.now kerning glyphs.now used).answer }
    ensures along { along.new ≡ add_all (passed_indexed index.now bytes.now kerning glyphs.now used).additions
        along.old }
{
    let states = kerning.states;
    let table = opened::open(bytes, states);
    match (kerning.reading, table) {
        (Reading::Kern { crossed }, Classes::Bytes { base, first, count })
            if index.is_empty() && entries::is_classic(states) => {
            pass_kern(
                bytes, states, crossed, base, first, count, glyphs, used, along,
            )
        }
        (Reading::Kerx { tuples, .. }, _) => {
            pass(
                bytes,
                kerning,
                Never,
                size_of(tuples),
                table,
                glyphs,
                used,
                along,
                index,
            )
        }
        _ => {
            pass(
                bytes,
                kerning,
                rule_of(kerning.reading),
                stride_of(kerning.reading),
                table,
                glyphs,
                used,
                along,
                index,
            )
        }
    }
}

// kept: C lends a line's room with its used length beside it (aat_kern_pass), and the promises name both (worked_indexed).
// The pass by what a head gives and the classes of an index; HEAD where it gives none, TUPLES where these are refused.
#[tactic(auto, unfolding(crate::specs::Machine::worked_indexed, kerning::specs::Additions::add_all))]
pub fn work_by(
    bytes: &[u8],
    opened: Result<Kerning, Unready>,
    glyphs: &[u16],
    used: usize,
    along: &mut [i64],
    index: &[u16],
) -> Answer
    requires { CanPass glyphs.now used along.old }
    ensures answer { result ≡ (worked_indexed index.now bytes.now opened glyphs.now used).answer }
    ensures along { along.new ≡ add_all (worked_indexed index.now bytes.now opened glyphs.now used).additions
        along.old }
{
    match opened {
        Ok(kerning) => pass_line(bytes, kerning, glyphs, used, along, index),
        Err(Unready::Short) => Answer::Refused(Refusal::Head),
        Err(Unready::Tupled) => Answer::Refused(Refusal::Tuples),
    }
}

// The same by the machine's own classes.
pub fn work(
    bytes: &[u8],
    opened: Result<Kerning, Unready>,
    glyphs: &[u16],
    used: usize,
    along: &mut [i64],
) -> Answer
    requires { CanPass glyphs.now used along.old }
    ensures answer { result ≡ (worked_by bytes.now opened glyphs.now used).answer }
    ensures along { along.new ≡ add_all (worked_by bytes.now opened glyphs.now used).additions along.old }
{
    work_by(bytes, opened, glyphs, used, along, &[0u16; 0])
}
