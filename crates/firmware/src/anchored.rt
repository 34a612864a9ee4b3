// The exported passes, runs and steps of kerx with marks anchored by an ankr table.
ghost use Rattle.std.specs.Prelude.{◌≡◌};
ghost use Rattle.answers.specs.Numbers.{number_of};
ghost use Rattle.line.specs.Line.{line_of};
ghost use Rattle.kerning.specs.Additions.{add_all};
ghost use Rattle.kerning.specs.Choices.{choices_of};
ghost use Rattle.anchor_machine.specs.Writes.{write_x, write_y, write_back};
ghost use Rattle.kerx.specs.Anchored.{pass_call, run_call};
ghost use Rattle.firmware.specs.Steps.{is_flag};
ghost use Rattle.firmware.specs.Runs.{kerning_heads};
ghost use Rattle.firmware.specs.Anchored.{no_anchor, anchor_from, anchor_slots, state_after, advance_after, anchor_stepped, anchor_writes};

use anchor_machine::{AnchorState, AnchorStep};
use kerning::choices::Choices;

// The pass over a line, by the kerx subtable at `start` and the choices made, with marks anchored by an ankr table.
#[unsafe(no_mangle)]
pub extern "C" fn aat_kerx_pass_anchored(
    table: &[u8],
    start: usize,
    version: u16,
    choices: u32,
    ankr: &[u8],
    glyphs: &[u16],
    tags: &[u16],
    homes: &[u16],
    used: usize,
    along: &mut [i64],
    x: &mut [i32],
    y: &mut [i32],
    back: &mut [u16],
) -> u32
    ensures answer { result ≡ number_of (pass_call table.now ankr.now start version
        (line_of glyphs.now tags.now homes.now used) along.old x.old y.old back.old
        (choices_of choices)).answer }
    ensures along { along.new ≡ add_all (pass_call table.now ankr.now start version
        (line_of glyphs.now tags.now homes.now used) along.old x.old y.old back.old
        (choices_of choices)).additions along.old }
    ensures x { x.new ≡ write_x (pass_call table.now ankr.now start version
        (line_of glyphs.now tags.now homes.now used) along.old x.old y.old back.old
        (choices_of choices)).writes x.old }
    ensures y { y.new ≡ write_y (pass_call table.now ankr.now start version
        (line_of glyphs.now tags.now homes.now used) along.old x.old y.old back.old
        (choices_of choices)).writes y.old }
    ensures back { back.new ≡ write_back (pass_call table.now ankr.now start version
        (line_of glyphs.now tags.now homes.now used) along.old x.old y.old back.old
        (choices_of choices)).writes back.old }
{
    u32::from(kerx::pass_anchored(
        table,
        ankr,
        start,
        version,
        glyphs,
        tags,
        homes,
        used,
        along,
        x,
        y,
        back,
        Choices::from(choices),
    ))
}

// The run over a line, by the kerx table at `start` and the choices made, with marks anchored by an ankr table.
#[unsafe(no_mangle)]
#[tactic(auto, using(crate::proofs::Stepping::numbered, crate::proofs::Stepping::kept, crate::proofs::Stepping::put, crate::proofs::Stepping::run_is))]
pub extern "C" fn aat_kerx_run_anchored(
    table: &[u8],
    start: usize,
    right_to_left: u32,
    choices: u32,
    ankr: &[u8],
    glyphs: &mut [u16],
    tags: &mut [u16],
    homes: &[u16],
    used: usize,
    along: &mut [i64],
    x: &mut [i32],
    y: &mut [i32],
    back: &mut [u16],
    heads: &mut u32,
) -> u32
    ensures answer { result ≡ number_of (run_call table.now ankr.now start (is_flag right_to_left)
        (line_of glyphs.old tags.old homes.now used) along.old x.old y.old back.old
        (choices_of choices)).ran.answer }
    ensures glyphs { glyphs.new ≡ glyphs.old }
    ensures tags { tags.new ≡ tags.old }
    ensures along { along.new ≡ (run_call table.now ankr.now start (is_flag right_to_left)
        (line_of glyphs.old tags.old homes.now used) along.old x.old y.old back.old
        (choices_of choices)).ran.along }
    ensures x { x.new ≡ (run_call table.now ankr.now start (is_flag right_to_left)
        (line_of glyphs.old tags.old homes.now used) along.old x.old y.old back.old
        (choices_of choices)).x }
    ensures y { y.new ≡ (run_call table.now ankr.now start (is_flag right_to_left)
        (line_of glyphs.old tags.old homes.now used) along.old x.old y.old back.old
        (choices_of choices)).y }
    ensures back { back.new ≡ (run_call table.now ankr.now start (is_flag right_to_left)
        (line_of glyphs.old tags.old homes.now used) along.old x.old y.old back.old
        (choices_of choices)).back }
    ensures heads { heads.new ≡ kerning_heads (run_call table.now ankr.now start (is_flag right_to_left)
        (line_of glyphs.old tags.old homes.now used) along.old x.old y.old back.old
        (choices_of choices)).ran heads.old }
{
    let run = kerx::run_anchored(
        table,
        ankr,
        start,
        right_to_left != 0,
        glyphs,
        tags,
        homes,
        used,
        along,
        x,
        y,
        back,
        Choices::from(choices),
    );
    if !crate::steps::is_refused(run.answer) {
        *heads = run.heads;
    }
    u32::from(run.answer)
}

// The state that STATE refuses.
fn no_anchor() -> AnchorState
    ensures { result ≡ no_anchor }
{
    AnchorState {
        state: 0,
        mark: 0,
        glyph: 0,
        cycles: 0xFFFF,
    }
}

// The state that four numbers say: state, mark, its glyph, cycles.
#[tactic(auto, unfolding(crate::specs::Anchored::anchor_from))]
fn anchor_from(slots: &[u64; 4]) -> AnchorState
    ensures { result ≡ anchor_from slots.now }
{
    let state = slots[0];
    let glyph = slots[2];
    let cycles = slots[3];
    if crate::steps::WIDEST < state {
        return no_anchor();
    }
    if crate::steps::WIDEST < glyph {
        return no_anchor();
    }
    if crate::steps::WIDEST < cycles {
        return no_anchor();
    }
    AnchorState {
        state: state as u16,
        mark: slots[1] as usize,
        glyph: glyph as u16,
        cycles: cycles as u16,
    }
}

// Puts the state and the advance of a step where they were lent, unless it was refused, and answers with its number.
#[tactic(auto, using(crate::proofs::Stepping::kept, crate::proofs::Stepping::put), unfolding(crate::specs::Anchored::anchor_slots))]
fn put_step(step: AnchorStep, state: &mut [u64; 4], advance: &mut usize) -> u32
    ensures answer { result ≡ number_of step.answer }
    ensures state { state.new ≡ state_after step state.old }
    ensures advance { advance.new ≡ advance_after step advance.old }
{
    let answer = step.answer;
    if crate::steps::is_refused(answer) {
        return u32::from(answer);
    }
    let after = step.state;
    *state = [
        after.state as u64,
        after.mark as u64,
        after.glyph as u64,
        after.cycles as u64,
    ];
    *advance = step.advance;
    u32::from(answer)
}

// A lone step of the machine of anchored marks, by the kerx subtable at `start` and the choices made.
#[unsafe(no_mangle)]
pub extern "C" fn aat_anchor_step(
    state: &mut [u64; 4],
    table: &[u8],
    start: usize,
    version: u16,
    choices: u32,
    ankr: &[u8],
    used: usize,
    index: usize,
    glyph: u16,
    along: &mut [i64],
    x: &mut [i32],
    y: &mut [i32],
    back: &mut [u16],
    advance: &mut usize,
) -> u32
    ensures answer { result ≡ number_of (anchor_stepped table.now ankr.now start version state.old used index glyph
        along.old x.old y.old back.old (choices_of choices)).answer }
    ensures state { state.new ≡ state_after (anchor_stepped table.now ankr.now start version state.old used index
        glyph along.old x.old y.old back.old (choices_of choices)) state.old }
    ensures along { along.new ≡ along.old }
    ensures x { x.new ≡ write_x (anchor_writes table.now ankr.now start version state.old used index glyph
        along.old x.old y.old back.old (choices_of choices)) x.old }
    ensures y { y.new ≡ write_y (anchor_writes table.now ankr.now start version state.old used index glyph
        along.old x.old y.old back.old (choices_of choices)) y.old }
    ensures back { back.new ≡ write_back (anchor_writes table.now ankr.now start version state.old used index
        glyph along.old x.old y.old back.old (choices_of choices)) back.old }
    ensures advance { advance.new ≡ advance_after (anchor_stepped table.now ankr.now start version state.old used
        index glyph along.old x.old y.old back.old (choices_of choices)) advance.old }
{
    let given = anchor_from(state);
    let reading = Choices::from(choices).reading;
    let step = kerx::step_anchored(
        given, table, ankr, start, version, used, index, glyph, along, x, y, back, reading,
    );
    put_step(step, state, advance)
}
