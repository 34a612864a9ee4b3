// The exported passes by an index of classes, and how one is filled.
ghost use Rattle.std.specs.Prelude.{◌≡◌};
ghost use Rattle.answers.specs.Numbers.{number_of};
ghost use Rattle.line.specs.Line.{line_of};
ghost use Rattle.kerning.specs.Additions.{add_all};
ghost use Rattle.kerning.specs.Choices.{choices_of};
ghost use Rattle.indexes.specs.Index.{fill_call};
ghost use Rattle.anchor_machine.specs.Writes.{write_x, write_y, write_back};
ghost use Rattle.morx.specs.Indexed as Morx;
ghost use Rattle.kerx.specs.Indexed as Kerx;

use kerning::choices::Choices;

// Fills an index with the classes of the extended state table at `start`, in the reading chosen, and tells where its class table begins.
#[unsafe(no_mangle)]
#[tactic(auto, using(crate::proofs::Indexing::fill_known))]
pub extern "C" fn aat_index_classes(
    table: &[u8],
    start: usize,
    choices: u32,
    index: &mut [u16],
    class_start: &mut usize,
) -> u32
    ensures answer { result ≡ number_of (fill_call table.now start (choices_of choices).reading index.old
        class_start.old).answer }
    ensures index { index.new ≡ (fill_call table.now start (choices_of choices).reading index.old
        class_start.old).index }
    ensures start { class_start.new ≡ (fill_call table.now start (choices_of choices).reading index.old
        class_start.old).start }
{
    let reading = Choices::from(choices).reading;
    u32::from(indexes::fill_index(table, start, reading, index, class_start))
}

// The pass over a line, by the morx subtable at `start` and an index of the class table that begins at `class_start`.
#[unsafe(no_mangle)]
#[tactic(auto, unfolding(morx::specs::Indexed::indexed_leaves))]
pub extern "C" fn aat_morx_pass_indexed(
    table: &[u8],
    start: usize,
    glyphs: &mut [u16],
    tags: &mut [u16],
    homes: &mut [u16],
    used: &mut usize,
    index: &[u16],
    class_start: usize,
) -> u32
    ensures answer { result ≡ number_of (Morx.indexed_call table.now start
        (line_of glyphs.old tags.old homes.old used.old) index.now class_start).answer }
    ensures glyphs { glyphs.new ≡ (Morx.indexed_leaves table.now start
        (line_of glyphs.old tags.old homes.old used.old) index.now class_start).glyphs }
    ensures tags { tags.new ≡ (Morx.indexed_leaves table.now start
        (line_of glyphs.old tags.old homes.old used.old) index.now class_start).tags }
    ensures homes { homes.new ≡ (Morx.indexed_leaves table.now start
        (line_of glyphs.old tags.old homes.old used.old) index.now class_start).homes }
    ensures used { used.new ≡ (Morx.indexed_leaves table.now start
        (line_of glyphs.old tags.old homes.old used.old) index.now class_start).used }
{
    let reply = morx::pass_indexed(table, start, glyphs, tags, homes, *used, index, class_start);
    *used = reply.used;
    u32::from(reply.answer)
}

// The pass over a line, by the kerx subtable at `start` and the choices made, with marks anchored by an ankr table, and an index of the class table
// that begins at `class_start`.
#[unsafe(no_mangle)]
pub extern "C" fn aat_kerx_pass_indexed(
    table: &[u8],
    start: usize,
    version: u16,
    choices: u32,
    ankr: &[u8],
    glyphs: &[u16],
    tags: &[u16],
    homes: &[u16],
    used: usize,
    along: &mut [i64],
    x: &mut [i32],
    y: &mut [i32],
    back: &mut [u16],
    index: &[u16],
    class_start: usize,
) -> u32
    ensures answer { result ≡ number_of (Kerx.indexed_call table.now ankr.now start version
        (line_of glyphs.now tags.now homes.now used) along.old x.old y.old back.old
        (choices_of choices).reading index.now class_start).answer }
    ensures along { along.new ≡ add_all (Kerx.indexed_call table.now ankr.now start version
        (line_of glyphs.now tags.now homes.now used) along.old x.old y.old back.old
        (choices_of choices).reading index.now class_start).additions along.old }
    ensures x { x.new ≡ write_x (Kerx.indexed_call table.now ankr.now start version
        (line_of glyphs.now tags.now homes.now used) along.old x.old y.old back.old
        (choices_of choices).reading index.now class_start).writes x.old }
    ensures y { y.new ≡ write_y (Kerx.indexed_call table.now ankr.now start version
        (line_of glyphs.now tags.now homes.now used) along.old x.old y.old back.old
        (choices_of choices).reading index.now class_start).writes y.old }
    ensures back { back.new ≡ write_back (Kerx.indexed_call table.now ankr.now start version
        (line_of glyphs.now tags.now homes.now used) along.old x.old y.old back.old
        (choices_of choices).reading index.now class_start).writes back.old }
{
    let reading = Choices::from(choices).reading;
    u32::from(kerx::pass_indexed(
        table,
        ankr,
        start,
        version,
        glyphs,
        tags,
        homes,
        used,
        along,
        x,
        y,
        back,
        reading,
        index,
        class_start,
    ))
}
