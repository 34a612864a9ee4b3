// The kerx table: the list of subtables, the pass by one of them, and the whole run.
#![tactic(auto)]

mod marks;

ghost use Rattle.std.specs.Prelude.{◌≡◌, false, ◌<◌, ◌≤◌, ◌^◌, length};
ghost use Rattle.answers.specs.Limits.{room_limit};
ghost use Rattle.answers.specs.Refuse.{refuse};
ghost use Rattle.laws.specs.Backward.{backward};
ghost use Rattle.line.specs.Line.{line_of};
ghost use Rattle.kerning.specs.Additions.{add_all};
ghost use Rattle.kerning.specs.Bounds.{Within};
ghost use Rattle.kerning.specs.Choices.{unchosen};
ghost use Rattle.kerning_lists.specs.Family.{head_at, walk_of, pass_call, pair_call, adds, run_call, list_call, subtable_call};
ghost use Rattle.kerning_lists.specs.Walk.{walk_answer, visited, heads_from};
ghost use Rattle.kerning_lists.specs.Run.{zeros, turned_back, contribution, contributions, used_part};
ghost use Rattle.anchor_machine.specs.Writes.{write_x, write_y, write_back};
ghost use Rattle.kerx.specs.Anchored as Anchored;
ghost use Rattle.kerx.specs.Anchored.{anchors_of, worked_with, passed_with, machine_of, turned_marks, marks, marking, run_marks, nones, takes_pass, takes_run};
ghost use Rattle.kerx.specs.Indexed.{refuse_pairs, refuse_unindexed, machine_tests, kerning_indexed, anchoring_indexed, worked_indexed, passed_indexed, indexed_call};
ghost use Rattle.kerx.specs.Lent.{Lent, visited_by, list_marks};
ghost use Rattle.kerx.specs.Heads.{should_reverse, subtable_of, list_of};
ghost use Rattle.kerx.specs.Kerx.{worked, kerx};
ghost use Rattle.kerx.specs.Ends.{no_head};

use anchor_machine::{AnchorState, AnchorStep, Anchoring};
use answers::{Answer, Refusal};
use kerning::choices::Choices;
use kerning::heads;
use kerning::heads::Unready;
use kerning_lists::{Cursor, EndsWithBytes, ListHead, Lists, NextSubtable, Run, Subtable};
use pairs::PairTable;
use tables::lookup::Why;
use tables::units::Reading;

// The bits of a subtable's coverage.
const VERTICAL: u32 = 0x8000_0000;

const CROSS_STREAM: u32 = 0x4000_0000;

const VARIATIONS: u32 = 0x2000_0000;

const BACKWARD: u32 = 0x1000_0000;

// Whether a subtable goes through the line the other way round.
fn should_reverse(coverage: u32, rtl: bool) -> bool
    ensures { result ≡ should_reverse coverage rtl }
{
    if parse::is_set(coverage, BACKWARD) {
        return !rtl;
    }
    rtl
}

// A run passes over a subtable that is vertical, cross-stream or has variations.
#[tactic(auto, unfolding(crate::specs::Heads::subtable_of))]
fn subtable_of(rtl: bool, at: usize, size: u32, coverage: u32) -> Subtable
    requires { at < 2 ^ 63 }
    ensures { result ≡ subtable_of rtl at size coverage }
{
    Subtable {
        passed_over: parse::is_set(coverage, VERTICAL)
            || parse::is_set(coverage, CROSS_STREAM)
            || parse::is_set(coverage, VARIATIONS),
        turned: should_reverse(coverage, rtl),
        format: coverage % 256,
        body: at,
        next: at + size as usize,
    }
}

// What kerx says for itself of its lists.
struct Kerx;

impl Lists for Kerx {
    ghost family = { kerx };

    #[tactic(auto, unfolding(crate::specs::Heads::list_of))]
    fn list_of(bytes: &[u8]) -> ListHead {
        ListHead {
            version: kerning_lists::u16_or_zero(bytes, 0),
            count: kerning_lists::u32_or_zero(bytes, 4),
            first: 8,
        }
    }

    #[tactic(auto, using(parse::proofs::Laws::u32_value), unfolding(crate::specs::Heads::head_in))]
    fn head_in(rtl: bool, version: u16, at: usize, part: &[u8]) -> Option<Subtable> {
        let size = parse::read_u32(part, 0)?;
        let coverage = parse::read_u32(part, 4)?;
        if 4 <= version {
            parse::read_u32(part, 8)?;
        }
        Some(subtable_of(rtl, at, size, coverage))
    }

    #[tactic(auto, unfolding(crate::specs::Kerx::worked, kerning::specs::Additions::add_all))]
    fn work(
        bytes: &[u8],
        version: u16,
        format: u32,
        glyphs: &[u16],
        used: usize,
        along: &mut [i64],
        choices: Choices,
    ) -> Answer {
        let rule = choices.pairs;
        let reading = choices.reading;
        let tupled = kerx_machine::is_tupled(bytes, version, reading);
        match format {
            0 => {
                let opened = heads::barred(tupled, pairs::ordered_kerx(bytes));
                pairs::work(bytes, opened, glyphs, used, along, rule)
            }
            1 => kerx_machine::work(bytes, version, glyphs, used, along, reading),
            2 => {
                let opened = heads::barred(tupled, pairs::classes_kerx(bytes, reading));
                pairs::work(bytes, opened, glyphs, used, along, rule)
            }
            _ => Answer::Refused(Refusal::Head),
        }
    }

    #[tactic(auto, unfolding(crate::specs::Kerx::pair_by))]
    fn pair_by(
        bytes: &[u8],
        version: u16,
        format: u32,
        left: u16,
        right: u16,
    ) -> Result<Result<i16, Why>, Refusal> {
        let opened = match format {
            0 => pairs::ordered_kerx(bytes),
            2 => pairs::classes_kerx(bytes, Reading::Crate),
            _ => return Err(Refusal::Head),
        };
        pairs::reply(bytes, opened, left, right)
    }
}

impl EndsWithBytes for Kerx {
    ghost no_head = { no_head };
}

// The subtables of the list at `start`.
pub fn subtables(table: &[u8], start: usize) -> Result<Cursor, Refusal>
    ensures { result ≡ list_call kerx table.now start }
{
    kerning_lists::subtables::<Kerx>(table, start)
}

// The next subtable of a list, whatever the cursor's numbers are; it is turned as in a line from left to right.
pub fn next_subtable(table: &[u8], cursor: Cursor) -> Result<Option<NextSubtable>, Refusal>
    ensures { result ≡ subtable_call kerx table.now cursor }
{
    kerning_lists::next_subtable::<Kerx>(table, cursor)
}

// What a pair of glyphs adds, by the subtable at `start` of a list of this version.
pub fn pair(
    table: &[u8],
    start: usize,
    version: u16,
    left: u16,
    right: u16,
) -> Result<Result<i16, Why>, Refusal>
    ensures { result ≡ pair_call kerx table.now start version left right }
{
    kerning_lists::pair::<Kerx>(table, start, version, left, right)
}

// The machine of format 4 of the subtable that begins with `bytes`.
#[tactic(auto, unfolding(crate::specs::Anchored::anchors_of))]
fn anchors_of(bytes: &[u8], version: u16, reading: Reading) -> Result<Anchoring, Unready>
    ensures { result ≡ anchors_of bytes.now version reading }
{
    let tupled = kerx_machine::is_tupled(bytes, version, reading);
    let machine = anchor_machine::open(reading, parse::from(bytes, kerx_machine::BODY));
    heads::barred(tupled, machine)
}

// The pass by the subtable that begins with `bytes`, of a format, format 4 included.
#[tactic(auto, unfolding(crate::specs::Anchored::worked_with, kerning::specs::Additions::add_all, anchor_machine::specs::Writes::write_all))]
fn work_with(
    ankr: &[u8],
    bytes: &[u8],
    version: u16,
    format: u32,
    glyphs: &[u16],
    used: usize,
    along: &mut [i64],
    x: &mut [i32],
    y: &mut [i32],
    back: &mut [u16],
    choices: Choices,
) -> Answer
    requires { (used ≤ length glyphs.now) × (used ≤ length along.old) × (used ≤ room_limit) × Within (2 ^ 60) along.old × (used ≤ length x.old) ×
        (used ≤ length y.old) × (used ≤ length back.old) }
    ensures answer { result ≡ (worked_with ankr.now bytes.now version format glyphs.now used choices).answer }
    ensures along { along.new ≡ add_all (worked_with ankr.now bytes.now version format glyphs.now used
        choices).additions along.old }
    ensures x { x.new ≡ write_x (worked_with ankr.now bytes.now version format glyphs.now used choices).writes
        x.old }
    ensures y { y.new ≡ write_y (worked_with ankr.now bytes.now version format glyphs.now used choices).writes
        y.old }
    ensures back { back.new ≡ write_back (worked_with ankr.now bytes.now version format glyphs.now used
        choices).writes back.old }
{
    if format == AnchorState::FORMAT {
        let reading = choices.reading;
        let machine = anchors_of(bytes, version, reading);
        let body = parse::from(bytes, kerx_machine::BODY);
        return anchor_machine::work(ankr, body, machine, glyphs, used, x, y, back);
    }
    Kerx::work(bytes, version, format, glyphs, used, along, choices)
}

// kept: x, y and the distances go side by side, as the entries are lent them and as the clauses of `run_anchored` and `pass_anchored` name them.
// What a subtable of a run does, by its bytes: without slices for what format 4 writes, that is left out.
fn work_in_run(
    ankr: &[u8],
    part: &[u8],
    version: u16,
    format: u32,
    glyphs: &[u16],
    used: usize,
    along: &mut [i64],
    x: &mut [i32],
    y: &mut [i32],
    back: &mut [u16],
    choices: Choices,
)
    requires { (used ≤ length glyphs.now) × (used ≤ length along.old) × (used ≤ room_limit) × Within (2 ^ 60) along.old × Lent used x.old y.old
        back.old }
    ensures along { along.new ≡ add_all (worked part.now version format glyphs.now used choices).additions
        along.old }
    ensures x { x.new ≡ write_x (worked_with ankr.now part.now version format glyphs.now used choices).writes
        x.old }
    ensures y { y.new ≡ write_y (worked_with ankr.now part.now version format glyphs.now used choices).writes
        y.old }
    ensures back { back.new ≡ write_back (worked_with ankr.now part.now version format glyphs.now used
        choices).writes back.old }
{
    if x.len() < used {
        let _ = Kerx::work(part, version, format, glyphs, used, along, choices);
        return;
    }
    let _ = work_with(
        ankr, part, version, format, glyphs, used, along, x, y, back, choices,
    );
}

// The pass over the line turned round, which is then turned back, its adjustments with it.
fn work_turned(
    ankr: &[u8],
    part: &[u8],
    version: u16,
    format: u32,
    glyphs: &mut [u16],
    tags: &mut [u16],
    used: usize,
    along: &mut [i64],
    x: &mut [i32],
    y: &mut [i32],
    back: &mut [u16],
    choices: Choices,
)
    requires { (used ≤ length glyphs.old) × (used ≤ length tags.old) × (used ≤ length along.old) × (used ≤ room_limit) × Within (2 ^ 60) along.old ×
        Lent used x.old y.old back.old }
    ensures glyphs { glyphs.new ≡ glyphs.old }
    ensures tags { tags.new ≡ tags.old }
    ensures along { along.new ≡ add_all (turned_back used (worked part.now version format (backward used glyphs.old) used
        choices).additions) along.old }
    ensures x { x.new ≡ write_x (turned_marks used (worked_with ankr.now part.now version format
        (backward used glyphs.old) used choices).writes) x.old }
    ensures y { y.new ≡ write_y (turned_marks used (worked_with ankr.now part.now version format
        (backward used glyphs.old) used choices).writes) y.old }
    ensures back { back.new ≡ write_back (turned_marks used (worked_with ankr.now part.now version format
        (backward used glyphs.old) used choices).writes) back.old }
{
    line::edits::reverse(glyphs, tags, used);
    kerning_lists::turn(along, used);
    marks::turn(x, y, back);
    work_in_run(
        ankr, part, version, format, glyphs, used, along, x, y, back, choices,
    );
    line::edits::reverse(glyphs, tags, used);
    kerning_lists::turn(along, used); // the adjustments too
    marks::turn(x, y, back); // and what stands beside them
}

// A subtable of the list adds its own, unless the run passes over it.
#[tactic(auto, unfolding(kerning_lists::specs::Run::contribution, kerning::specs::Additions::add_all, crate::specs::Anchored::marking, anchor_machine::specs::Writes::write_all))]
fn visit(
    ankr: &[u8],
    bytes: &[u8],
    version: u16,
    subtable: Subtable,
    glyphs: &mut [u16],
    tags: &mut [u16],
    used: usize,
    along: &mut [i64],
    x: &mut [i32],
    y: &mut [i32],
    back: &mut [u16],
    choices: Choices,
)
    requires { (used ≤ length glyphs.old) × (used ≤ length tags.old) × (used ≤ length along.old) × (used ≤ room_limit) × Within (2 ^ 60) along.old ×
        Lent used x.old y.old back.old }
    ensures glyphs { glyphs.new ≡ glyphs.old }
    ensures tags { tags.new ≡ tags.old }
    ensures along { along.new ≡ add_all (contribution (adds kerx bytes.now version used choices) glyphs.old used subtable)
        along.old }
    ensures x { x.new ≡ write_x (marking (marks ankr.now bytes.now version used choices) glyphs.old used
        subtable) x.old }
    ensures y { y.new ≡ write_y (marking (marks ankr.now bytes.now version used choices) glyphs.old used
        subtable) y.old }
    ensures back { back.new ≡ write_back (marking (marks ankr.now bytes.now version used choices) glyphs.old used
        subtable) back.old }
{
    if subtable.passed_over {
        return;
    }
    let part = parse::from(bytes, subtable.body);
    if subtable.turned {
        work_turned(
            ankr,
            part,
            version,
            subtable.format,
            glyphs,
            tags,
            used,
            along,
            x,
            y,
            back,
            choices,
        );
        return;
    }
    work_in_run(
        ankr,
        part,
        version,
        subtable.format,
        glyphs,
        used,
        along,
        x,
        y,
        back,
        choices,
    );
}

// The subtables one after the other, from the first on.
fn run_list(
    ankr: &[u8],
    bytes: &[u8],
    list: ListHead,
    rtl: bool,
    glyphs: &mut [u16],
    tags: &mut [u16],
    used: usize,
    along: &mut [i64],
    x: &mut [i32],
    y: &mut [i32],
    back: &mut [u16],
    choices: Choices,
) -> Run
    requires { (used ≤ length glyphs.old) × (used ≤ length tags.old) × (used ≤ length along.old) × (used ≤ room_limit) × Within 0 along.old × Lent used
        x.old y.old back.old }
    ensures answer { result.answer ≡ walk_answer (heads_from (head_at kerx rtl bytes.now list.version) list.count list.first) }
    ensures heads { result.heads ≡ length (visited_by rtl bytes.now list) }
    ensures glyphs { glyphs.new ≡ glyphs.old }
    ensures tags { tags.new ≡ tags.old }
    ensures along { along.new ≡ add_all (contributions (adds kerx bytes.now list.version used choices) glyphs.old used
        (visited_by rtl bytes.now list)) along.old }
    ensures x { x.new ≡ write_x (list_marks ankr.now bytes.now list rtl glyphs.old used choices)
        x.old }
    ensures y { y.new ≡ write_y (list_marks ankr.now bytes.now list rtl glyphs.old used choices)
        y.old }
    ensures back { back.new ≡ write_back (list_marks ankr.now bytes.now list rtl glyphs.old used choices)
        back.old }
{
    let mut at = list.first;
    for heads in 0..list.count {
        let Some(subtable) = kerning_lists::head_at::<Kerx>(rtl, bytes, list.version, at) else {
            return Run {
                answer: Answer::Done,
                heads,
            };
        };
        if heads == answers::HEADS {
            return Run {
                answer: Answer::Limit,
                heads,
            };
        }
        visit(
            ankr,
            bytes,
            list.version,
            subtable,
            glyphs,
            tags,
            used,
            along,
            x,
            y,
            back,
            choices,
        );
        at = subtable.next;
    }
    Run {
        answer: Answer::Done,
        heads: list.count,
    }
}

// The used adjustments, zeroed first, with what the list's subtables add and write.
#[tactic(auto, unfolding(kerning_lists::specs::Run::used_part, kerning_lists::specs::Family::walk_of, crate::specs::Anchored::run_marks))]
fn run_part(
    ankr: &[u8],
    bytes: &[u8],
    rtl: bool,
    glyphs: &mut [u16],
    tags: &mut [u16],
    along: &mut [i64],
    x: &mut [i32],
    y: &mut [i32],
    back: &mut [u16],
    choices: Choices,
) -> Run
    requires { (length along.old ≤ length glyphs.old) × (length along.old ≤ length tags.old) × (length along.old ≤ room_limit) × Lent
        (length along.old) x.old y.old back.old }
    ensures answer { result.answer ≡ walk_answer (walk_of kerx rtl bytes.now) }
    ensures heads { result.heads ≡ length (visited (walk_of kerx rtl bytes.now)) }
    ensures glyphs { glyphs.new ≡ glyphs.old }
    ensures tags { tags.new ≡ tags.old }
    ensures along { along.new ≡ used_part (walk_of kerx rtl bytes.now)
        (adds kerx bytes.now (list_of bytes.now).version (length along.old) choices) glyphs.old
        (length along.old) }
    ensures x { x.new ≡ write_x (run_marks ankr.now bytes.now rtl glyphs.old (length along.old)
        choices) (zeros (length x.old)) }
    ensures y { y.new ≡ write_y (run_marks ankr.now bytes.now rtl glyphs.old (length along.old)
        choices) (zeros (length y.old)) }
    ensures back { back.new ≡ write_back (run_marks ankr.now bytes.now rtl glyphs.old
        (length along.old) choices) (nones (length back.old)) }
{
    kerning_lists::zero(along);
    marks::zero(x, y, back);
    let used = along.len();
    run_list(
        ankr,
        bytes,
        Kerx::list_of(bytes),
        rtl,
        glyphs,
        tags,
        used,
        along,
        x,
        y,
        back,
        choices,
    )
}

// Whether the line is one that LINE takes for an anchored run, with slices as long as its room.
#[tactic(auto, unfolding(crate::specs::Anchored::takes_run))]
fn takes_run(
    glyphs: &[u16],
    tags: &[u16],
    homes: &[u16],
    used: usize,
    along: &[i64],
    x: &[i32],
    y: &[i32],
    back: &[u16],
) -> bool
    ensures { result ≡ takes_run (line_of glyphs.now tags.now homes.now used) along.now x.now
        y.now back.now }
{
    anchor_machine::are_long(glyphs.len(), x, y, back)
        && kerning::kernable(glyphs, tags, homes, used, along)
}

// The tests before an anchored run: TABLE, ANCHOR, LINE, HEAD.
#[tactic(auto, unfolding(crate::specs::Anchored::run_tests, kerning_lists::specs::Run::start_test, answers::specs::Refuse::refuse, answers::specs::Refuse::table_test))]
fn refuse_run(
    table_length: usize,
    ankr_length: usize,
    start: usize,
    takes: bool,
) -> Result<(), Refusal>
    ensures { result ≡ refuse (Anchored.run_tests table_length ankr_length start takes) }
{
    answers::refuse_table(table_length)?;
    anchors::refuse_anchors(ankr_length)?;
    if !takes {
        return Err(Refusal::Line);
    }
    if table_length < start {
        return Err(Refusal::Head);
    }
    Ok(())
}

// A whole run over the list at `start`, of a line that goes from right to left or not, by the choices made, with marks anchored by an ankr table.
#[tactic(auto, unfolding(crate::specs::Anchored::run_call))]
pub fn run_anchored(
    table: &[u8],
    ankr: &[u8],
    start: usize,
    rtl: bool,
    glyphs: &mut [u16],
    tags: &mut [u16],
    homes: &[u16],
    used: usize,
    along: &mut [i64],
    x: &mut [i32],
    y: &mut [i32],
    back: &mut [u16],
    choices: Choices,
) -> Run
    ensures answer { result.answer ≡ (Anchored.run_call table.now ankr.now start rtl
        (line_of glyphs.old tags.old homes.now used) along.old x.old y.old back.old
        choices).ran.answer }
    ensures heads { result.heads ≡ (Anchored.run_call table.now ankr.now start rtl
        (line_of glyphs.old tags.old homes.now used) along.old x.old y.old back.old
        choices).ran.heads }
    ensures glyphs { glyphs.new ≡ glyphs.old }
    ensures tags { tags.new ≡ tags.old }
    ensures along { along.new ≡ (Anchored.run_call table.now ankr.now start rtl
        (line_of glyphs.old tags.old homes.now used) along.old x.old y.old back.old
        choices).ran.along }
    ensures x { x.new ≡ (Anchored.run_call table.now ankr.now start rtl
        (line_of glyphs.old tags.old homes.now used) along.old x.old y.old back.old
        choices).x }
    ensures y { y.new ≡ (Anchored.run_call table.now ankr.now start rtl
        (line_of glyphs.old tags.old homes.now used) along.old x.old y.old back.old
        choices).y }
    ensures back { back.new ≡ (Anchored.run_call table.now ankr.now start rtl
        (line_of glyphs.old tags.old homes.now used) along.old x.old y.old back.old
        choices).back }
{
    let takes = takes_run(glyphs, tags, homes, used, along, x, y, back);
    if let Err(why) = refuse_run(table.len(), ankr.len(), start, takes) {
        return Run {
            answer: Answer::Refused(why),
            heads: 0,
        };
    }
    run_part(
        ankr,
        kerning_lists::list_bytes(table, start),
        rtl,
        glyphs,
        tags,
        &mut along[..used],
        &mut x[..used],
        &mut y[..used],
        &mut back[..used],
        choices,
    )
}

// A whole run over the list at `start` by the choices made, of a line that goes from right to left or not. The line is turned and turned back,
// and so unchanged.
#[tactic(auto, using(kerning_lists::proofs::Calls::run_ready), unfolding(kerning_lists::specs::Family::run_call))]
pub fn run_by(
    table: &[u8],
    start: usize,
    rtl: bool,
    glyphs: &mut [u16],
    tags: &mut [u16],
    homes: &[u16],
    used: usize,
    along: &mut [i64],
    choices: Choices,
) -> Run
    ensures answer { result.answer ≡ (run_call kerx table.now start rtl (line_of glyphs.old tags.old homes.now used)
        along.old choices).answer }
    ensures heads { result.heads ≡ (run_call kerx table.now start rtl (line_of glyphs.old tags.old homes.now used)
        along.old choices).heads }
    ensures glyphs { glyphs.new ≡ glyphs.old }
    ensures tags { tags.new ≡ tags.old }
    ensures along { along.new ≡ (run_call kerx table.now start rtl
        (line_of glyphs.old tags.old homes.now used) along.old choices).along }
{
    if let Err(why) = kerning_lists::refuse_run(
        table.len(),
        start,
        glyphs,
        tags,
        homes,
        used,
        along,
    ) {
        return Run {
            answer: Answer::Refused(why),
            heads: 0,
        };
    }
    // No anchors: the slices for what they write are empty.
    let mut x = [0i32; 0];
    let mut y = [0i32; 0];
    let mut back = [0u16; 0];
    run_part(
        parse::from(table, table.len()),
        kerning_lists::list_bytes(table, start),
        rtl,
        glyphs,
        tags,
        &mut along[..used],
        &mut x,
        &mut y,
        &mut back,
        choices,
    )
}

// The same with no choice made.
pub fn run(
    table: &[u8],
    start: usize,
    rtl: bool,
    glyphs: &mut [u16],
    tags: &mut [u16],
    homes: &[u16],
    used: usize,
    along: &mut [i64],
) -> Run
    ensures answer { result.answer ≡ (run_call kerx table.now start rtl (line_of glyphs.old tags.old homes.now used)
        along.old unchosen).answer }
    ensures heads { result.heads ≡ (run_call kerx table.now start rtl (line_of glyphs.old tags.old homes.now used)
        along.old unchosen).heads }
    ensures glyphs { glyphs.new ≡ glyphs.old }
    ensures tags { tags.new ≡ tags.old }
    ensures along { along.new ≡ (run_call kerx table.now start rtl
        (line_of glyphs.old tags.old homes.now used) along.old unchosen).along }
{
    run_by(
        table,
        start,
        rtl,
        glyphs,
        tags,
        homes,
        used,
        along,
        Choices::default(),
    )
}

// The pass over a line, by the subtable at `start` of a list of this version and the choices made; HEAD is the pass's own answer.
pub fn pass_by(
    table: &[u8],
    start: usize,
    version: u16,
    glyphs: &[u16],
    tags: &[u16],
    homes: &[u16],
    used: usize,
    along: &mut [i64],
    choices: Choices,
) -> Answer
    ensures answer { result ≡ (pass_call kerx table.now start version (line_of glyphs.now tags.now homes.now used)
        along.old choices).answer }
    ensures along { along.new ≡ add_all (pass_call kerx table.now start version
        (line_of glyphs.now tags.now homes.now used) along.old choices).additions along.old }
{
    kerning_lists::pass_by::<Kerx>(
        table, start, version, glyphs, tags, homes, used, along, choices,
    )
}

// The same with no choice made.
pub fn pass(
    table: &[u8],
    start: usize,
    version: u16,
    glyphs: &[u16],
    tags: &[u16],
    homes: &[u16],
    used: usize,
    along: &mut [i64],
) -> Answer
    ensures answer { result ≡ (pass_call kerx table.now start version (line_of glyphs.now tags.now homes.now used)
        along.old unchosen).answer }
    ensures along { along.new ≡ add_all (pass_call kerx table.now start version
        (line_of glyphs.now tags.now homes.now used) along.old unchosen).additions along.old }
{
    pass_by(
        table,
        start,
        version,
        glyphs,
        tags,
        homes,
        used,
        along,
        Choices::default(),
    )
}

// The pass with anchored marks by the subtable that begins with `bytes`, its head included.
#[tactic(auto, unfolding(crate::specs::Anchored::passed_with, kerning::specs::Additions::add_all, anchor_machine::specs::Writes::write_all))]
fn pass_with(
    ankr: &[u8],
    bytes: &[u8],
    version: u16,
    glyphs: &[u16],
    used: usize,
    along: &mut [i64],
    x: &mut [i32],
    y: &mut [i32],
    back: &mut [u16],
    choices: Choices,
) -> Answer
    requires { (used ≤ length glyphs.now) × (used ≤ length along.old) × (used ≤ room_limit) × Within (2 ^ 60) along.old × (used ≤ length x.old) ×
        (used ≤ length y.old) × (used ≤ length back.old) }
    ensures answer { result ≡ (passed_with ankr.now bytes.now version glyphs.now used choices).answer }
    ensures along { along.new ≡ add_all (passed_with ankr.now bytes.now version glyphs.now used
        choices).additions along.old }
    ensures x { x.new ≡ write_x (passed_with ankr.now bytes.now version glyphs.now used choices).writes
        x.old }
    ensures y { y.new ≡ write_y (passed_with ankr.now bytes.now version glyphs.now used choices).writes
        y.old }
    ensures back { back.new ≡ write_back (passed_with ankr.now bytes.now version glyphs.now used choices).writes
        back.old }
{
    let Some(subtable) = Kerx::head_in(false, version, 0, bytes) else {
        return Answer::Refused(Refusal::Head);
    };
    work_with(
        ankr,
        bytes,
        version,
        subtable.format,
        glyphs,
        used,
        along,
        x,
        y,
        back,
        choices,
    )
}

// Whether the line is one that LINE takes for an anchored pass, with slices as long as its room.
#[tactic(auto, unfolding(crate::specs::Anchored::takes_pass))]
fn takes_pass(
    glyphs: &[u16],
    tags: &[u16],
    homes: &[u16],
    used: usize,
    along: &[i64],
    x: &[i32],
    y: &[i32],
    back: &[u16],
) -> bool
    ensures { result ≡ takes_pass (line_of glyphs.now tags.now homes.now used) along.now x.now
        y.now back.now }
{
    anchor_machine::are_long(glyphs.len(), x, y, back)
        && kerning::takes(glyphs, tags, homes, used, along)
}

// The tests before an anchored pass: TABLE, ANCHOR, LINE. HEAD and TUPLES are answers of the pass.
#[tactic(auto, unfolding(crate::specs::Anchored::pass_tests, answers::specs::Refuse::refuse, answers::specs::Refuse::table_test))]
fn refuse_pass(table_length: usize, ankr_length: usize, takes: bool) -> Result<(), Refusal>
    ensures { result ≡ refuse (Anchored.pass_tests table_length ankr_length takes) }
{
    answers::refuse_table(table_length)?;
    anchors::refuse_anchors(ankr_length)?;
    if !takes {
        return Err(Refusal::Line);
    }
    Ok(())
}

// The pass over a line, by the subtable at `start` of a list of this version and the choices made, with marks anchored by an ankr table.
#[tactic(auto, unfolding(crate::specs::Anchored::pass_call, kerning::specs::Additions::add_all, anchor_machine::specs::Writes::write_all))]
pub fn pass_anchored(
    table: &[u8],
    ankr: &[u8],
    start: usize,
    version: u16,
    glyphs: &[u16],
    tags: &[u16],
    homes: &[u16],
    used: usize,
    along: &mut [i64],
    x: &mut [i32],
    y: &mut [i32],
    back: &mut [u16],
    choices: Choices,
) -> Answer
    ensures answer { result ≡ (Anchored.pass_call table.now ankr.now start version
        (line_of glyphs.now tags.now homes.now used) along.old x.old y.old back.old
        choices).answer }
    ensures along { along.new ≡ add_all (Anchored.pass_call table.now ankr.now start version
        (line_of glyphs.now tags.now homes.now used) along.old x.old y.old back.old
        choices).additions along.old }
    ensures x { x.new ≡ write_x (Anchored.pass_call table.now ankr.now start version
        (line_of glyphs.now tags.now homes.now used) along.old x.old y.old back.old
        choices).writes x.old }
    ensures y { y.new ≡ write_y (Anchored.pass_call table.now ankr.now start version
        (line_of glyphs.now tags.now homes.now used) along.old x.old y.old back.old
        choices).writes y.old }
    ensures back { back.new ≡ write_back (Anchored.pass_call table.now ankr.now start version
        (line_of glyphs.now tags.now homes.now used) along.old x.old y.old back.old
        choices).writes back.old }
{
    let takes = takes_pass(glyphs, tags, homes, used, along, x, y, back);
    if let Err(why) = refuse_pass(table.len(), ankr.len(), takes) {
        return Answer::Refused(why);
    }
    pass_with(
        ankr,
        parse::from(table, start),
        version,
        glyphs,
        used,
        along,
        x,
        y,
        back,
        choices,
    )
}

// What refuses a pass by pairs before INDEX: HEAD, TUPLES; then INDEX, since pairs have no classes of a state table.
fn refuse_pairs(opened: Result<PairTable, Unready>) -> Refusal
    ensures { result ≡ refuse_pairs opened }
{
    match opened {
        Ok(_) => Refusal::Index,
        Err(why) => Refusal::from(why),
    }
}

// Why a format without a machine refuses an index: HEAD, TUPLES, INDEX.
#[tactic(auto, unfolding(crate::specs::Indexed::refuse_unindexed))]
fn refuse_unindexed(bytes: &[u8], version: u16, format: u32, reading: Reading) -> Refusal
    ensures { result ≡ refuse_unindexed bytes.now version format reading }
{
    let tupled = kerx_machine::is_tupled(bytes, version, reading);
    match format {
        0 => refuse_pairs(heads::barred(tupled, pairs::ordered_kerx(bytes))),
        2 => refuse_pairs(heads::barred(tupled, pairs::classes_kerx(bytes, reading))),
        _ => Refusal::Head,
    }
}

// What refuses an index for a machine: HEAD, TUPLES, INDEX.
#[tactic(auto, unfolding(crate::specs::Indexed::machine_tests, indexes::specs::Index::index_test, answers::specs::Refuse::refuse))]
fn refuse_machine<T: Copy>(
    machine: Result<T, Unready>,
    entries: usize,
    another: bool,
) -> Result<(), Refusal>
    ensures { result ≡ refuse (machine_tests machine entries another) }
{
    machine?;
    if indexes::is_refused(entries, another) {
        return Err(Refusal::Index);
    }
    Ok(())
}

// The pass of format 1 by an index.
#[tactic(auto, unfolding(crate::specs::Indexed::kerning_indexed, kerning::specs::Additions::add_all))]
fn work_kerning(
    bytes: &[u8],
    start: usize,
    version: u16,
    glyphs: &[u16],
    used: usize,
    along: &mut [i64],
    reading: Reading,
    index: &[u16],
    class_start: usize,
) -> Answer
    requires { (used ≤ length glyphs.now) × (used ≤ length along.old) × (used ≤ room_limit) × Within (2 ^ 60) along.old }
    ensures answer { result ≡ (kerning_indexed bytes.now start version glyphs.now used reading index.now
        class_start).answer }
    ensures along { along.new ≡ add_all (kerning_indexed bytes.now start version glyphs.now used reading index.now
        class_start).additions along.old }
{
    let machine = kerx_machine::open(bytes, version, reading);
    let body = parse::from(bytes, kerx_machine::BODY);
    let another = indexes::is_another(true, body, start, class_start);
    if let Err(why) = refuse_machine(machine, index.len(), another) {
        return Answer::Refused(why);
    }
    kerx_machine::work_by(bytes, version, glyphs, used, along, reading, index)
}

// The pass of format 4 by an index.
#[tactic(auto, unfolding(crate::specs::Indexed::anchoring_indexed, anchor_machine::specs::Writes::write_all))]
fn work_anchoring(
    ankr: &[u8],
    bytes: &[u8],
    start: usize,
    version: u16,
    glyphs: &[u16],
    used: usize,
    x: &mut [i32],
    y: &mut [i32],
    back: &mut [u16],
    reading: Reading,
    index: &[u16],
    class_start: usize,
) -> Answer
    requires { (used ≤ length glyphs.now) × (used ≤ length x.old) × (used ≤ length y.old) × (used ≤ length back.old) × (used ≤ room_limit) }
    ensures answer { result ≡ (anchoring_indexed ankr.now bytes.now start version glyphs.now used reading index.now
        class_start).answer }
    ensures x { x.new ≡ write_x (anchoring_indexed ankr.now bytes.now start version glyphs.now used reading
        index.now class_start).writes x.old }
    ensures y { y.new ≡ write_y (anchoring_indexed ankr.now bytes.now start version glyphs.now used reading
        index.now class_start).writes y.old }
    ensures back { back.new ≡ write_back (anchoring_indexed ankr.now bytes.now start version glyphs.now used
        reading index.now class_start).writes back.old }
{
    let machine = anchors_of(bytes, version, reading);
    let body = parse::from(bytes, kerx_machine::BODY);
    let another = indexes::is_another(true, body, start, class_start);
    if let Err(why) = refuse_machine(machine, index.len(), another) {
        return Answer::Refused(why);
    }
    anchor_machine::work_by(ankr, body, machine, glyphs, used, x, y, back, index)
}

// The pass by an index, by the subtable that begins with `bytes`, of a format.
#[tactic(auto, unfolding(crate::specs::Indexed::worked_indexed, kerning::specs::Additions::add_all, anchor_machine::specs::Writes::write_all))]
fn work_indexed(
    ankr: &[u8],
    bytes: &[u8],
    start: usize,
    version: u16,
    format: u32,
    glyphs: &[u16],
    used: usize,
    along: &mut [i64],
    x: &mut [i32],
    y: &mut [i32],
    back: &mut [u16],
    reading: Reading,
    index: &[u16],
    class_start: usize,
) -> Answer
    requires { (used ≤ length glyphs.now) × (used ≤ length along.old) × (used ≤ room_limit) × Within (2 ^ 60) along.old × (used ≤ length x.old) ×
        (used ≤ length y.old) × (used ≤ length back.old) }
    ensures answer { result ≡ (worked_indexed ankr.now bytes.now start version format glyphs.now used reading
        index.now class_start).answer }
    ensures along { along.new ≡ add_all (worked_indexed ankr.now bytes.now start version format glyphs.now used
        reading index.now class_start).additions along.old }
    ensures x { x.new ≡ write_x (worked_indexed ankr.now bytes.now start version format glyphs.now used reading
        index.now class_start).writes x.old }
    ensures y { y.new ≡ write_y (worked_indexed ankr.now bytes.now start version format glyphs.now used reading
        index.now class_start).writes y.old }
    ensures back { back.new ≡ write_back (worked_indexed ankr.now bytes.now start version format glyphs.now used
        reading index.now class_start).writes back.old }
{
    if AnchorState::FORMAT == format {
        return work_anchoring(
            ankr,
            bytes,
            start,
            version,
            glyphs,
            used,
            x,
            y,
            back,
            reading,
            index,
            class_start,
        );
    }
    if format == kerx_machine::FORMAT {
        return work_kerning(
            bytes,
            start,
            version,
            glyphs,
            used,
            along,
            reading,
            index,
            class_start,
        );
    }
    Answer::Refused(refuse_unindexed(bytes, version, format, reading))
}

// The pass by an index, by the subtable that begins with `bytes`, its head included.
#[tactic(auto, unfolding(crate::specs::Indexed::passed_indexed, kerning::specs::Additions::add_all, anchor_machine::specs::Writes::write_all))]
fn pass_indexed_in(
    ankr: &[u8],
    bytes: &[u8],
    start: usize,
    version: u16,
    glyphs: &[u16],
    used: usize,
    along: &mut [i64],
    x: &mut [i32],
    y: &mut [i32],
    back: &mut [u16],
    reading: Reading,
    index: &[u16],
    class_start: usize,
) -> Answer
    requires { (used ≤ length glyphs.now) × (used ≤ length along.old) × (used ≤ room_limit) × Within (2 ^ 60) along.old × (used ≤ length x.old) ×
        (used ≤ length y.old) × (used ≤ length back.old) }
    ensures answer { result ≡ (passed_indexed ankr.now bytes.now start version glyphs.now used reading index.now
        class_start).answer }
    ensures along { along.new ≡ add_all (passed_indexed ankr.now bytes.now start version glyphs.now used reading
        index.now class_start).additions along.old }
    ensures x { x.new ≡ write_x (passed_indexed ankr.now bytes.now start version glyphs.now used reading
        index.now class_start).writes x.old }
    ensures y { y.new ≡ write_y (passed_indexed ankr.now bytes.now start version glyphs.now used reading
        index.now class_start).writes y.old }
    ensures back { back.new ≡ write_back (passed_indexed ankr.now bytes.now start version glyphs.now used reading
        index.now class_start).writes back.old }
{
    let Some(subtable) = Kerx::head_in(false, version, 0, bytes) else {
        return Answer::Refused(Refusal::Head);
    };
    work_indexed(
        ankr,
        bytes,
        start,
        version,
        subtable.format,
        glyphs,
        used,
        along,
        x,
        y,
        back,
        reading,
        index,
        class_start,
    )
}

// The same as `pass_anchored`, by an index of the class table that begins at `class_start`.
#[tactic(auto, unfolding(crate::specs::Indexed::indexed_call, kerning::specs::Additions::add_all, anchor_machine::specs::Writes::write_all))]
pub fn pass_indexed(
    table: &[u8],
    ankr: &[u8],
    start: usize,
    version: u16,
    glyphs: &[u16],
    tags: &[u16],
    homes: &[u16],
    used: usize,
    along: &mut [i64],
    x: &mut [i32],
    y: &mut [i32],
    back: &mut [u16],
    reading: Reading,
    index: &[u16],
    class_start: usize,
) -> Answer
    ensures answer { result ≡ (indexed_call table.now ankr.now start version
        (line_of glyphs.now tags.now homes.now used) along.old x.old y.old back.old
        reading index.now class_start).answer }
    ensures along { along.new ≡ add_all (indexed_call table.now ankr.now start version
        (line_of glyphs.now tags.now homes.now used) along.old x.old y.old back.old
        reading index.now class_start).additions along.old }
    ensures x { x.new ≡ write_x (indexed_call table.now ankr.now start version
        (line_of glyphs.now tags.now homes.now used) along.old x.old y.old back.old
        reading index.now class_start).writes x.old }
    ensures y { y.new ≡ write_y (indexed_call table.now ankr.now start version
        (line_of glyphs.now tags.now homes.now used) along.old x.old y.old back.old
        reading index.now class_start).writes y.old }
    ensures back { back.new ≡ write_back (indexed_call table.now ankr.now start version
        (line_of glyphs.now tags.now homes.now used) along.old x.old y.old back.old
        reading index.now class_start).writes back.old }
{
    let takes = takes_pass(glyphs, tags, homes, used, along, x, y, back);
    if let Err(why) = refuse_pass(table.len(), ankr.len(), takes) {
        return Answer::Refused(why);
    }
    pass_indexed_in(
        ankr,
        parse::from(table, start),
        start,
        version,
        glyphs,
        used,
        along,
        x,
        y,
        back,
        reading,
        index,
        class_start,
    )
}

// The machine of format 4, of a subtable of that format.
#[tactic(auto, unfolding(crate::specs::Anchored::machine_of))]
fn machine_of(bytes: &[u8], version: u16, reading: Reading) -> Result<Anchoring, Unready>
    ensures { result ≡ machine_of bytes.now version reading }
{
    let subtable = Kerx::head_in(false, version, 0, bytes).ok_or(Unready::Short)?;
    if subtable.format != AnchorState::FORMAT {
        return Err(Unready::Short);
    }
    anchors_of(bytes, version, reading)
}

// A lone step of the machine of anchored marks, by the subtable at `start` of a list of this version and a reading, on a line of so many places.
#[tactic(auto, unfolding(crate::specs::Anchored::step_call, crate::specs::Anchored::step_writes))]
pub fn step_anchored(
    state: AnchorState,
    table: &[u8],
    ankr: &[u8],
    start: usize,
    version: u16,
    used: usize,
    index: usize,
    glyph: u16,
    along: &[i64],
    x: &mut [i32],
    y: &mut [i32],
    back: &mut [u16],
    reading: Reading,
) -> AnchorStep
    ensures step { result ≡ Anchored.step_call table.now ankr.now start version state used index glyph along.now
        x.old y.old back.old reading }
    ensures x { x.new ≡ write_x (Anchored.step_writes table.now ankr.now start version state used index glyph
        along.now x.old y.old back.old reading) x.old }
    ensures y { y.new ≡ write_y (Anchored.step_writes table.now ankr.now start version state used index glyph
        along.now x.old y.old back.old reading) y.old }
    ensures back { back.new ≡ write_back (Anchored.step_writes table.now ankr.now start version state used index glyph
        along.now x.old y.old back.old reading) back.old }
{
    let bytes = parse::from(table, start);
    let machine = machine_of(bytes, version, reading);
    state.step(
        table.len(),
        ankr,
        parse::from(bytes, kerx_machine::BODY),
        machine,
        used,
        index,
        glyph,
        along,
        x,
        y,
        back,
    )
}
