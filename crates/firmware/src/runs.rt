// The exported passes by a subtable of whatever kind, and the runs over whole tables.
ghost use Rattle.std.specs.Prelude.{◌≡◌};
ghost use Rattle.answers.specs.Numbers.{number_of};
ghost use Rattle.line.specs.Line.{line_of};
ghost use Rattle.machine.specs.Machine.{pass_call, call_leaves};
ghost use Rattle.morx.specs.Kinds.{any_subtable};
ghost use Rattle.firmware.specs.Runs.{morx_run, morx_leaves, morx_heads};

use chains::Edition;
use morx::Choices;

// The pass over a line, by the subtable at `start` of an edition, of whatever kind.
#[tactic(auto, unfolding(machine::specs::Machine::call_leaves))]
pub fn pass_of(
    edition: Edition,
    table: &[u8],
    start: usize,
    glyphs: &mut [u16],
    tags: &mut [u16],
    homes: &mut [u16],
    used: &mut usize,
) -> u32
    ensures answer { result ≡ number_of (pass_call (any_subtable edition) table.now start
        (line_of glyphs.old tags.old homes.old used.old)).answer }
    ensures glyphs { glyphs.new ≡ (call_leaves (any_subtable edition) table.now start
        (line_of glyphs.old tags.old homes.old used.old)).glyphs }
    ensures tags { tags.new ≡ (call_leaves (any_subtable edition) table.now start
        (line_of glyphs.old tags.old homes.old used.old)).tags }
    ensures homes { homes.new ≡ (call_leaves (any_subtable edition) table.now start
        (line_of glyphs.old tags.old homes.old used.old)).homes }
    ensures used { used.new ≡ (call_leaves (any_subtable edition) table.now start
        (line_of glyphs.old tags.old homes.old used.old)).used }
{
    let reply = morx::pass(edition, table, start, glyphs, tags, homes, *used);
    *used = reply.used;
    u32::from(reply.answer)
}

// The pass over a line, by the morx subtable at `start`, of whatever kind.
#[unsafe(no_mangle)]
pub extern "C" fn aat_morx_pass(
    table: &[u8],
    start: usize,
    glyphs: &mut [u16],
    tags: &mut [u16],
    homes: &mut [u16],
    used: &mut usize,
) -> u32
    ensures answer { result ≡ number_of (pass_call (any_subtable Edition.Morx) table.now start
        (line_of glyphs.old tags.old homes.old used.old)).answer }
    ensures glyphs { glyphs.new ≡ (call_leaves (any_subtable Edition.Morx) table.now start
        (line_of glyphs.old tags.old homes.old used.old)).glyphs }
    ensures tags { tags.new ≡ (call_leaves (any_subtable Edition.Morx) table.now start
        (line_of glyphs.old tags.old homes.old used.old)).tags }
    ensures homes { homes.new ≡ (call_leaves (any_subtable Edition.Morx) table.now start
        (line_of glyphs.old tags.old homes.old used.old)).homes }
    ensures used { used.new ≡ (call_leaves (any_subtable Edition.Morx) table.now start
        (line_of glyphs.old tags.old homes.old used.old)).used }
{
    pass_of(Edition::Morx, table, start, glyphs, tags, homes, used)
}

// The run over a line, by the morx table at `start`.
#[unsafe(no_mangle)]
#[tactic(auto, using(crate::proofs::Stepping::numbered, crate::proofs::Stepping::kept, crate::proofs::Stepping::put), unfolding(crate::specs::Runs::morx_run, crate::specs::Runs::morx_leaves, crate::specs::Features::morx_run_with, crate::specs::Features::morx_leaves_with, crate::specs::Features::run_of, crate::specs::Features::leaves_of, morx::specs::Calls::run_leaves))]
pub extern "C" fn aat_morx_run(
    table: &[u8],
    start: usize,
    right_to_left: u32,
    glyphs: &mut [u16],
    tags: &mut [u16],
    homes: &mut [u16],
    used: &mut usize,
    heads: &mut u32,
) -> u32
    ensures answer { result ≡ number_of (morx_run table.now start right_to_left
        (line_of glyphs.old tags.old homes.old used.old)).answer }
    ensures glyphs { glyphs.new ≡ (morx_leaves table.now start right_to_left
        (line_of glyphs.old tags.old homes.old used.old)).glyphs }
    ensures tags { tags.new ≡ (morx_leaves table.now start right_to_left
        (line_of glyphs.old tags.old homes.old used.old)).tags }
    ensures homes { homes.new ≡ (morx_leaves table.now start right_to_left
        (line_of glyphs.old tags.old homes.old used.old)).homes }
    ensures used { used.new ≡ (morx_leaves table.now start right_to_left
        (line_of glyphs.old tags.old homes.old used.old)).used }
    ensures heads { heads.new ≡ morx_heads (morx_run table.now start right_to_left
        (line_of glyphs.old tags.old homes.old used.old)) heads.old }
{
    let choices = Choices {
        right_to_left: right_to_left != 0,
        edition: Edition::Morx,
    };
    let reply = morx::run(table, start, choices, glyphs, tags, homes, *used, &[]);
    *used = reply.used;
    if !crate::steps::is_refused(reply.answer) {
        *heads = reply.heads;
    }
    u32::from(reply.answer)
}
