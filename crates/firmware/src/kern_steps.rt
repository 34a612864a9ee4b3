// The exported pairs and steps of kern and kerx.
ghost use Rattle.std.specs.Prelude.{◌≡◌};
ghost use Rattle.answers.specs.Numbers.{number_of};
ghost use Rattle.pairs.specs.Reply.{answer_of, value_of};
ghost use Rattle.kerning_lists.specs.Family as List;
ghost use Rattle.kern.specs.Kern.{kern};
ghost use Rattle.kerx.specs.Kerx.{kerx};
ghost use Rattle.kerning.specs.Additions.{add_all};
ghost use Rattle.kerning.specs.Choices.{unchosen};
ghost use Rattle.firmware.specs.KernSteps.{no_kerning, kerning_from, kerning_slots, state_after, advance_after, kern_stepped, kerx_stepped};
ghost use Rattle.firmware.specs.Small.{IsSmall};

use answers::Refusal;
use kerning_machine::{KerningState, KerningStep};
use tables::lookup::Why;

// Puts the number of a pair where it was lent, and answers with the reply's number.
#[tactic(auto, using(crate::proofs::KernPairs::pair_widens, crate::proofs::KernPairs::pair_answered, crate::proofs::KernPairs::pair_put))]
pub fn put_pair(reply: Result<Result<i16, Why>, Refusal>, value: &mut i32) -> u32
    requires { IsSmall reply }
    ensures answer { result ≡ number_of (answer_of reply) }
    ensures value { value.new ≡ value_of reply value.old }
{
    match reply {
        Ok(Ok(number)) => {
            *value = number as i32;
            0
        }
        Ok(Err(_)) => 1,
        Err(why) => u32::from(why),
    }
}

// The number of a pair of glyphs, by the kern subtable at `start`.
#[unsafe(no_mangle)]
pub extern "C" fn aat_kern_pair(
    table: &[u8],
    start: usize,
    version: u16,
    left: u16,
    right: u16,
    value: &mut i32,
) -> u32
    ensures answer { result ≡ number_of (answer_of (List.pair_call kern table.now start version left right)) }
    ensures value { value.new ≡ value_of (List.pair_call kern table.now start version left right) value.old }
{
    put_pair(kern::pair(table, start, version, left, right), value)
}

// The number of a pair of glyphs, by the kerx subtable at `start`.
#[unsafe(no_mangle)]
pub extern "C" fn aat_kerx_pair(
    table: &[u8],
    start: usize,
    version: u16,
    left: u16,
    right: u16,
    value: &mut i32,
) -> u32
    ensures answer { result ≡ number_of (answer_of (List.pair_call kerx table.now start version left right)) }
    ensures value { value.new ≡ value_of (List.pair_call kerx table.now start version left right) value.old }
{
    put_pair(kerx::pair(table, start, version, left, right), value)
}

// The state that STATE refuses.
#[tactic(auto, unfolding(laws::specs::Lists::tab))]
fn no_kerning() -> KerningState
    ensures { result ≡ no_kerning }
{
    KerningState {
        state: 0,
        stack: [0; 8],
        depth: 0,
        cycles: 0xFFFF,
    }
}

// The state that eleven numbers say: state, depth, cycles, 8 places of the stack.
#[tactic(auto, unfolding(crate::specs::KernSteps::kerning_from, laws::specs::Lists::tab))]
pub fn kerning_from(slots: &[u64; 11]) -> KerningState
    ensures { result ≡ kerning_from slots.now }
{
    let state = slots[0];
    let cycles = slots[2];
    if crate::steps::WIDEST < state {
        return no_kerning();
    }
    if crate::steps::WIDEST < cycles {
        return no_kerning();
    }
    KerningState {
        state: state as u16,
        stack: [
            slots[3] as usize,
            slots[4] as usize,
            slots[5] as usize,
            slots[6] as usize,
            slots[7] as usize,
            slots[8] as usize,
            slots[9] as usize,
            slots[10] as usize,
        ],
        depth: slots[1] as usize,
        cycles: cycles as u16,
    }
}

// The numbers of a state: state, depth, cycles, 8 places of the stack.
#[tactic(auto, unfolding(crate::specs::KernSteps::kerning_slots, laws::specs::Lists::tab))]
fn put_kerning(slots: &mut [u64; 11], state: KerningState)
    ensures { slots.new ≡ kerning_slots state }
{
    let stack = state.stack;
    *slots = [
        state.state as u64,
        state.depth as u64,
        state.cycles as u64,
        stack[0] as u64,
        stack[1] as u64,
        stack[2] as u64,
        stack[3] as u64,
        stack[4] as u64,
        stack[5] as u64,
        stack[6] as u64,
        stack[7] as u64,
    ];
}

// Puts the state and the advance of a step where they were lent, unless it was refused, and answers with its number.
#[tactic(auto, using(crate::proofs::KernSteps::state_put, crate::proofs::KernSteps::advance_put))]
pub fn put_step(step: KerningStep, state: &mut [u64; 11], advance: &mut usize) -> u32
    ensures answer { result ≡ number_of step.answer }
    ensures state { state.new ≡ state_after step state.old }
    ensures advance { advance.new ≡ advance_after step advance.old }
{
    let answer = step.answer;
    if crate::steps::is_refused(answer) {
        return u32::from(answer);
    }
    let after = step.state;
    put_kerning(state, after);
    *advance = step.advance;
    u32::from(answer)
}

// A lone step of kern's machine.
#[unsafe(no_mangle)]
pub extern "C" fn aat_kern_step(
    state: &mut [u64; 11],
    table: &[u8],
    start: usize,
    version: u16,
    used: usize,
    index: usize,
    glyph: u16,
    along: &mut [i64],
    advance: &mut usize,
) -> u32
    ensures answer { result ≡ number_of (kern_stepped table.now start version state.old used index glyph
        along.old).step.answer }
    ensures state { state.new ≡ state_after (kern_stepped table.now start version state.old used index glyph
        along.old).step state.old }
    ensures along { along.new ≡ add_all (kern_stepped table.now start version state.old used index glyph
        along.old).additions along.old }
    ensures advance { advance.new ≡ advance_after (kern_stepped table.now start version state.old used index glyph
        along.old).step advance.old }
{
    let given = kerning_from(state);
    let step = kern_machine::step(given, table, start, version, used, index, glyph, along);
    put_step(step, state, advance)
}

// A lone step of kerx's machine.
#[unsafe(no_mangle)]
pub extern "C" fn aat_kerx_step(
    state: &mut [u64; 11],
    table: &[u8],
    start: usize,
    version: u16,
    used: usize,
    index: usize,
    glyph: u16,
    along: &mut [i64],
    advance: &mut usize,
) -> u32
    ensures answer { result ≡ number_of (kerx_stepped table.now start version state.old used index glyph along.old
        unchosen).step.answer }
    ensures state { state.new ≡ state_after (kerx_stepped table.now start version state.old used index glyph
        along.old unchosen).step state.old }
    ensures along { along.new ≡ add_all (kerx_stepped table.now start version state.old used index glyph along.old
        unchosen).additions along.old }
    ensures advance { advance.new ≡ advance_after (kerx_stepped table.now start version state.old used index glyph
        along.old unchosen).step advance.old }
{
    let given = kerning_from(state);
    let step = kerx_machine::step(given, table, start, version, used, index, glyph, along);
    put_step(step, state, advance)
}
