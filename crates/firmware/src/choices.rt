// The exported passes and runs of kern and kerx by the choices that the bits of a number make.
ghost use Rattle.std.specs.Prelude.{◌≡◌, false};
ghost use Rattle.answers.specs.Numbers.{number_of};
ghost use Rattle.line.specs.Line.{line_of};
ghost use Rattle.kerning.specs.Additions.{add_all};
ghost use Rattle.kerning.specs.Choices.{choices_of};
ghost use Rattle.kerning_lists.specs.Family as List;
ghost use Rattle.kern.specs.Kern.{kern};
ghost use Rattle.kerx.specs.Kerx.{kerx};
ghost use Rattle.firmware.specs.Steps.{is_flag};
ghost use Rattle.firmware.specs.Runs.{kerning_heads};
ghost use Rattle.firmware.specs.KernSteps.{state_after, advance_after, kerx_stepped};

use crate::kern_steps;
use kerning::choices::Choices;

// The pass over a line, by the kern subtable at `start` and the choices made.
#[unsafe(no_mangle)]
#[tactic(auto, using(kerning_lists::proofs::Families::passes_same))]
pub extern "C" fn aat_kern_pass_by(
    table: &[u8],
    start: usize,
    version: u16,
    glyphs: &[u16],
    tags: &[u16],
    homes: &[u16],
    used: usize,
    along: &mut [i64],
    choices: u32,
) -> u32
    ensures answer { result ≡ number_of (List.pass_call kern table.now start version
        (line_of glyphs.now tags.now homes.now used) along.old (choices_of choices)).answer }
    ensures along { along.new ≡ add_all (List.pass_call kern table.now start version
        (line_of glyphs.now tags.now homes.now used) along.old (choices_of choices)).additions
        along.old }
{
    u32::from(kern::pass_by(
        table,
        start,
        version,
        glyphs,
        tags,
        homes,
        used,
        along,
        Choices::from(choices),
    ))
}

// The pass over a line, by the kerx subtable at `start` and the choices made.
#[unsafe(no_mangle)]
#[tactic(auto, using(kerning_lists::proofs::Families::passes_same))]
pub extern "C" fn aat_kerx_pass_by(
    table: &[u8],
    start: usize,
    version: u16,
    glyphs: &[u16],
    tags: &[u16],
    homes: &[u16],
    used: usize,
    along: &mut [i64],
    choices: u32,
) -> u32
    ensures answer { result ≡ number_of (List.pass_call kerx table.now start version
        (line_of glyphs.now tags.now homes.now used) along.old (choices_of choices)).answer }
    ensures along { along.new ≡ add_all (List.pass_call kerx table.now start version
        (line_of glyphs.now tags.now homes.now used) along.old (choices_of choices)).additions
        along.old }
{
    u32::from(kerx::pass_by(
        table,
        start,
        version,
        glyphs,
        tags,
        homes,
        used,
        along,
        Choices::from(choices),
    ))
}

// A lone step of kerx's machine, by the choices made.
#[unsafe(no_mangle)]
pub extern "C" fn aat_kerx_step_by(
    state: &mut [u64; 11],
    table: &[u8],
    start: usize,
    version: u16,
    used: usize,
    index: usize,
    glyph: u16,
    along: &mut [i64],
    advance: &mut usize,
    choices: u32,
) -> u32
    ensures answer { result ≡ number_of (kerx_stepped table.now start version state.old used index glyph along.old
        (choices_of choices)).step.answer }
    ensures state { state.new ≡ state_after (kerx_stepped table.now start version state.old used index glyph
        along.old (choices_of choices)).step state.old }
    ensures along { along.new ≡ add_all (kerx_stepped table.now start version state.old used index glyph along.old
        (choices_of choices)).additions along.old }
    ensures advance { advance.new ≡ advance_after (kerx_stepped table.now start version state.old used index glyph
        along.old (choices_of choices)).step advance.old }
{
    let given = kern_steps::kerning_from(state);
    let reading = Choices::from(choices).reading;
    let step = kerx_machine::step_by(
        given, table, start, version, used, index, glyph, along, reading,
    );
    kern_steps::put_step(step, state, advance)
}

// The run over a line, by the kern table at `start` and the choices made.
#[unsafe(no_mangle)]
#[tactic(auto, using(crate::proofs::Stepping::numbered, crate::proofs::Stepping::kept, crate::proofs::Stepping::put, crate::proofs::Stepping::run_is, kerning_lists::proofs::Families::runs_same))]
pub extern "C" fn aat_kern_run_by(
    table: &[u8],
    start: usize,
    glyphs: &[u16],
    tags: &[u16],
    homes: &[u16],
    used: usize,
    along: &mut [i64],
    heads: &mut u32,
    choices: u32,
) -> u32
    ensures answer { result ≡ number_of (List.run_call kern table.now start false
        (line_of glyphs.now tags.now homes.now used) along.old (choices_of choices)).answer }
    ensures along { along.new ≡ (List.run_call kern table.now start false
        (line_of glyphs.now tags.now homes.now used) along.old (choices_of choices)).along }
    ensures heads { heads.new ≡ kerning_heads (List.run_call kern table.now start false
        (line_of glyphs.now tags.now homes.now used) along.old (choices_of choices)) heads.old }
{
    let run = kern::run_by(
        table,
        start,
        glyphs,
        tags,
        homes,
        used,
        along,
        Choices::from(choices),
    );
    if !crate::steps::is_refused(run.answer) {
        *heads = run.heads;
    }
    u32::from(run.answer)
}

// The run over a line, by the kerx table at `start` and the choices made.
#[unsafe(no_mangle)]
#[tactic(auto, using(crate::proofs::Stepping::numbered, crate::proofs::Stepping::kept, crate::proofs::Stepping::put, crate::proofs::Stepping::run_is, kerning_lists::proofs::Families::runs_same))]
pub extern "C" fn aat_kerx_run_by(
    table: &[u8],
    start: usize,
    right_to_left: u32,
    glyphs: &mut [u16],
    tags: &mut [u16],
    homes: &[u16],
    used: usize,
    along: &mut [i64],
    heads: &mut u32,
    choices: u32,
) -> u32
    ensures answer { result ≡ number_of (List.run_call kerx table.now start (is_flag right_to_left)
        (line_of glyphs.old tags.old homes.now used) along.old (choices_of choices)).answer }
    ensures glyphs { glyphs.new ≡ glyphs.old }
    ensures tags { tags.new ≡ tags.old }
    ensures along { along.new ≡ (List.run_call kerx table.now start (is_flag right_to_left)
        (line_of glyphs.old tags.old homes.now used) along.old (choices_of choices)).along }
    ensures heads { heads.new ≡ kerning_heads (List.run_call kerx table.now start (is_flag right_to_left)
        (line_of glyphs.old tags.old homes.now used) along.old (choices_of choices)) heads.old }
{
    let run = kerx::run_by(
        table,
        start,
        right_to_left != 0,
        glyphs,
        tags,
        homes,
        used,
        along,
        Choices::from(choices),
    );
    if !crate::steps::is_refused(run.answer) {
        *heads = run.heads;
    }
    u32::from(run.answer)
}
