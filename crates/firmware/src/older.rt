// The exported cursors, pass and run over tables of the earlier edition, mort.
ghost use Rattle.std.specs.Prelude.{◌≡◌};
ghost use Rattle.answers.specs.Numbers.{number_of};
ghost use Rattle.chains.specs.Entries.{chain_answer, subtable_answer};
ghost use Rattle.line.specs.Line.{line_of};
ghost use Rattle.machine.specs.Machine.{pass_call, call_leaves};
ghost use Rattle.morx.specs.Kinds.{any_subtable};
ghost use Rattle.firmware.specs.Cursors.{chain_after, chain_cursor, chain_fields, subtable_after, subtable_cursor, subtable_fields};
ghost use Rattle.firmware.specs.Features.{mort_run, mort_leaves};
ghost use Rattle.firmware.specs.Runs.{morx_heads};

use chains::Edition;

// The next chain of a list.
#[unsafe(no_mangle)]
pub extern "C" fn aat_mort_next_chain(
    table: &[u8],
    cursor: &mut [u64; 2],
    fields: &mut [u64; 6],
) -> u32
    ensures answer { result ≡ number_of (chain_answer (chain_after Edition.Mort table.now cursor.old)) }
    ensures cursor { cursor.new ≡ chain_cursor (chain_after Edition.Mort table.now cursor.old) cursor.old }
    ensures fields { fields.new ≡ chain_fields (chain_after Edition.Mort table.now cursor.old) fields.old }
{
    crate::cursors::next_chain(Edition::Mort, table, cursor, fields)
}

// The next subtable of a list.
#[unsafe(no_mangle)]
pub extern "C" fn aat_mort_next_subtable(
    table: &[u8],
    cursor: &mut [u64; 2],
    fields: &mut [u64; 6],
) -> u32
    ensures answer { result ≡ number_of (subtable_answer (subtable_after Edition.Mort table.now cursor.old)) }
    ensures cursor { cursor.new ≡ subtable_cursor (subtable_after Edition.Mort table.now cursor.old)
        cursor.old }
    ensures fields { fields.new ≡ subtable_fields (subtable_after Edition.Mort table.now cursor.old)
        fields.old }
{
    crate::cursors::next_subtable(Edition::Mort, table, cursor, fields)
}

// The pass over a line, by the mort subtable at `start`, of whatever kind.
#[unsafe(no_mangle)]
pub extern "C" fn aat_mort_pass(
    table: &[u8],
    start: usize,
    glyphs: &mut [u16],
    tags: &mut [u16],
    homes: &mut [u16],
    used: &mut usize,
) -> u32
    ensures answer { result ≡ number_of (pass_call (any_subtable Edition.Mort) table.now start
        (line_of glyphs.old tags.old homes.old used.old)).answer }
    ensures glyphs { glyphs.new ≡ (call_leaves (any_subtable Edition.Mort) table.now start
        (line_of glyphs.old tags.old homes.old used.old)).glyphs }
    ensures tags { tags.new ≡ (call_leaves (any_subtable Edition.Mort) table.now start
        (line_of glyphs.old tags.old homes.old used.old)).tags }
    ensures homes { homes.new ≡ (call_leaves (any_subtable Edition.Mort) table.now start
        (line_of glyphs.old tags.old homes.old used.old)).homes }
    ensures used { used.new ≡ (call_leaves (any_subtable Edition.Mort) table.now start
        (line_of glyphs.old tags.old homes.old used.old)).used }
{
    crate::runs::pass_of(Edition::Mort, table, start, glyphs, tags, homes, used)
}

// The run over a line, by the mort table at `start`, with the features that are asked for.
#[unsafe(no_mangle)]
#[tactic(auto, unfolding(crate::specs::Features::mort_run, crate::specs::Features::mort_leaves))]
pub extern "C" fn aat_mort_run(
    table: &[u8],
    start: usize,
    right_to_left: u32,
    requests: &[u32],
    glyphs: &mut [u16],
    tags: &mut [u16],
    homes: &mut [u16],
    used: &mut usize,
    heads: &mut u32,
) -> u32
    ensures answer { result ≡ number_of (mort_run table.now start right_to_left
        (line_of glyphs.old tags.old homes.old used.old) requests.now).answer }
    ensures glyphs { glyphs.new ≡ (mort_leaves table.now start right_to_left
        (line_of glyphs.old tags.old homes.old used.old) requests.now).glyphs }
    ensures tags { tags.new ≡ (mort_leaves table.now start right_to_left
        (line_of glyphs.old tags.old homes.old used.old) requests.now).tags }
    ensures homes { homes.new ≡ (mort_leaves table.now start right_to_left
        (line_of glyphs.old tags.old homes.old used.old) requests.now).homes }
    ensures used { used.new ≡ (mort_leaves table.now start right_to_left
        (line_of glyphs.old tags.old homes.old used.old) requests.now).used }
    ensures heads { heads.new ≡ morx_heads (mort_run table.now start right_to_left
        (line_of glyphs.old tags.old homes.old used.old) requests.now) heads.old }
{
    crate::features::run_of(
        Edition::Mort,
        table,
        start,
        right_to_left,
        requests,
        glyphs,
        tags,
        homes,
        used,
        heads,
    )
}
