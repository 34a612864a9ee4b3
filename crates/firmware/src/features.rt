// The exported run with features that the operator asks for.
ghost use Rattle.std.specs.Prelude.{◌≡◌};
ghost use Rattle.answers.specs.Numbers.{number_of};
ghost use Rattle.line.specs.Line.{line_of};
ghost use Rattle.firmware.specs.Runs.{morx_heads};
ghost use Rattle.firmware.specs.Features.{run_of, leaves_of, morx_run_with, morx_leaves_with};

use chains::Edition;
use morx::Choices;

// The run over a line, by the table at `start` of an edition, with the features that are asked for.
#[tactic(auto, using(crate::proofs::Stepping::numbered, crate::proofs::Stepping::kept, crate::proofs::Stepping::put), unfolding(crate::specs::Features::run_of, crate::specs::Features::leaves_of, morx::specs::Calls::run_leaves))]
pub fn run_of(
    edition: Edition,
    table: &[u8],
    start: usize,
    right_to_left: u32,
    requests: &[u32],
    glyphs: &mut [u16],
    tags: &mut [u16],
    homes: &mut [u16],
    used: &mut usize,
    heads: &mut u32,
) -> u32
    ensures answer { result ≡ number_of (run_of edition table.now start right_to_left
        (line_of glyphs.old tags.old homes.old used.old) requests.now).answer }
    ensures glyphs { glyphs.new ≡ (leaves_of edition table.now start right_to_left
        (line_of glyphs.old tags.old homes.old used.old) requests.now).glyphs }
    ensures tags { tags.new ≡ (leaves_of edition table.now start right_to_left
        (line_of glyphs.old tags.old homes.old used.old) requests.now).tags }
    ensures homes { homes.new ≡ (leaves_of edition table.now start right_to_left
        (line_of glyphs.old tags.old homes.old used.old) requests.now).homes }
    ensures used { used.new ≡ (leaves_of edition table.now start right_to_left
        (line_of glyphs.old tags.old homes.old used.old) requests.now).used }
    ensures heads { heads.new ≡ morx_heads (run_of edition table.now start right_to_left
        (line_of glyphs.old tags.old homes.old used.old) requests.now) heads.old }
{
    let choices = Choices {
        right_to_left: right_to_left != 0,
        edition,
    };
    let reply = morx::run(table, start, choices, glyphs, tags, homes, *used, requests);
    *used = reply.used;
    if !crate::steps::is_refused(reply.answer) {
        *heads = reply.heads;
    }
    u32::from(reply.answer)
}

// The run over a line, by the morx table at `start`, with the features that are asked for.
#[unsafe(no_mangle)]
#[tactic(auto, unfolding(crate::specs::Features::morx_run_with, crate::specs::Features::morx_leaves_with))]
pub extern "C" fn aat_morx_run_with(
    table: &[u8],
    start: usize,
    right_to_left: u32,
    requests: &[u32],
    glyphs: &mut [u16],
    tags: &mut [u16],
    homes: &mut [u16],
    used: &mut usize,
    heads: &mut u32,
) -> u32
    ensures answer { result ≡ number_of (morx_run_with table.now start right_to_left
        (line_of glyphs.old tags.old homes.old used.old) requests.now).answer }
    ensures glyphs { glyphs.new ≡ (morx_leaves_with table.now start right_to_left
        (line_of glyphs.old tags.old homes.old used.old) requests.now).glyphs }
    ensures tags { tags.new ≡ (morx_leaves_with table.now start right_to_left
        (line_of glyphs.old tags.old homes.old used.old) requests.now).tags }
    ensures homes { homes.new ≡ (morx_leaves_with table.now start right_to_left
        (line_of glyphs.old tags.old homes.old used.old) requests.now).homes }
    ensures used { used.new ≡ (morx_leaves_with table.now start right_to_left
        (line_of glyphs.old tags.old homes.old used.old) requests.now).used }
    ensures heads { heads.new ≡ morx_heads (morx_run_with table.now start right_to_left
        (line_of glyphs.old tags.old homes.old used.old) requests.now) heads.old }
{
    run_of(
        Edition::Morx,
        table,
        start,
        right_to_left,
        requests,
        glyphs,
        tags,
        homes,
        used,
        heads,
    )
}
