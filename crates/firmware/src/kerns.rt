// The exported passes and runs of kern and kerx.
ghost use Rattle.std.specs.Prelude.{◌≡◌, false};
ghost use Rattle.answers.specs.Numbers.{number_of};
ghost use Rattle.line.specs.Line.{line_of};
ghost use Rattle.kerning.specs.Additions.{add_all};
ghost use Rattle.kerning.specs.Choices.{unchosen};
ghost use Rattle.kerning_lists.specs.Family as List;
ghost use Rattle.kern.specs.Kern.{kern};
ghost use Rattle.kerx.specs.Kerx.{kerx};
ghost use Rattle.firmware.specs.Steps.{is_flag};
ghost use Rattle.firmware.specs.Runs.{kerning_heads};

// The pass over a line, by the kern subtable at `start`.
#[unsafe(no_mangle)]
pub extern "C" fn aat_kern_pass(
    table: &[u8],
    start: usize,
    version: u16,
    glyphs: &[u16],
    tags: &[u16],
    homes: &[u16],
    used: usize,
    along: &mut [i64],
) -> u32
    ensures answer { result ≡ number_of (List.pass_call kern table.now start version
        (line_of glyphs.now tags.now homes.now used) along.old unchosen).answer }
    ensures along { along.new ≡ add_all (List.pass_call kern table.now start version
        (line_of glyphs.now tags.now homes.now used) along.old unchosen).additions along.old }
{
    u32::from(kern::pass(table, start, version, glyphs, tags, homes, used, along))
}

// The pass over a line, by the kerx subtable at `start`.
#[unsafe(no_mangle)]
pub extern "C" fn aat_kerx_pass(
    table: &[u8],
    start: usize,
    version: u16,
    glyphs: &[u16],
    tags: &[u16],
    homes: &[u16],
    used: usize,
    along: &mut [i64],
) -> u32
    ensures answer { result ≡ number_of (List.pass_call kerx table.now start version
        (line_of glyphs.now tags.now homes.now used) along.old unchosen).answer }
    ensures along { along.new ≡ add_all (List.pass_call kerx table.now start version
        (line_of glyphs.now tags.now homes.now used) along.old unchosen).additions along.old }
{
    u32::from(kerx::pass(table, start, version, glyphs, tags, homes, used, along))
}

// The run over a line, by the kern table at `start`.
#[unsafe(no_mangle)]
#[tactic(auto, using(crate::proofs::Stepping::numbered, crate::proofs::Stepping::kept, crate::proofs::Stepping::put, crate::proofs::Stepping::run_is))]
pub extern "C" fn aat_kern_run(
    table: &[u8],
    start: usize,
    glyphs: &[u16],
    tags: &[u16],
    homes: &[u16],
    used: usize,
    along: &mut [i64],
    heads: &mut u32,
) -> u32
    ensures answer { result ≡ number_of (List.run_call kern table.now start false
        (line_of glyphs.now tags.now homes.now used) along.old unchosen).answer }
    ensures along { along.new ≡ (List.run_call kern table.now start false
        (line_of glyphs.now tags.now homes.now used) along.old unchosen).along }
    ensures heads { heads.new ≡ kerning_heads (List.run_call kern table.now start false
        (line_of glyphs.now tags.now homes.now used) along.old unchosen) heads.old }
{
    let run = kern::run(table, start, glyphs, tags, homes, used, along);
    let answer = run.answer;
    if crate::steps::is_refused(answer) {
        return u32::from(answer);
    }
    *heads = run.heads;
    u32::from(answer)
}

// The run over a line, by the kerx table at `start`.
#[unsafe(no_mangle)]
#[tactic(auto, using(crate::proofs::Stepping::numbered, crate::proofs::Stepping::kept, crate::proofs::Stepping::put, crate::proofs::Stepping::run_is))]
pub extern "C" fn aat_kerx_run(
    table: &[u8],
    start: usize,
    right_to_left: u32,
    glyphs: &mut [u16],
    tags: &mut [u16],
    homes: &[u16],
    used: usize,
    along: &mut [i64],
    heads: &mut u32,
) -> u32
    ensures answer { result ≡ number_of (List.run_call kerx table.now start (is_flag right_to_left)
        (line_of glyphs.old tags.old homes.now used) along.old unchosen).answer }
    ensures glyphs { glyphs.new ≡ glyphs.old }
    ensures tags { tags.new ≡ tags.old }
    ensures along { along.new ≡ (List.run_call kerx table.now start (is_flag right_to_left)
        (line_of glyphs.old tags.old homes.now used) along.old unchosen).along }
    ensures heads { heads.new ≡ kerning_heads (List.run_call kerx table.now start (is_flag right_to_left)
        (line_of glyphs.old tags.old homes.now used) along.old unchosen) heads.old }
{
    let run = kerx::run(
        table,
        start,
        right_to_left != 0,
        glyphs,
        tags,
        homes,
        used,
        along,
    );
    let answer = run.answer;
    if crate::steps::is_refused(answer) {
        return u32::from(answer);
    }
    *heads = run.heads;
    u32::from(answer)
}
