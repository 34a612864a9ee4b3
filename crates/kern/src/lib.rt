// The kern table, in both its editions: the list of subtables, the pass by one of them, and the whole run.
#![tactic(auto)]

ghost use Rattle.std.specs.Prelude.{◌≡◌, false, ◌<◌, ◌≤◌, ◌^◌, length};
ghost use Rattle.answers.specs.Limits.{room_limit};
ghost use Rattle.line.specs.Line.{line_of};
ghost use Rattle.kerning.specs.Additions.{add_all};
ghost use Rattle.kerning.specs.Bounds.{Within};
ghost use Rattle.kerning.specs.Choices.{unchosen};
ghost use Rattle.kerning_lists.specs.Family.{head_at, walk_of, pass_call, pair_call, adds, run_call, list_call, subtable_call};
ghost use Rattle.kerning_lists.specs.Walk.{walk_answer, visited, heads_from};
ghost use Rattle.kerning_lists.specs.Run.{contribution, contributions, used_part};
ghost use Rattle.kern.specs.Heads.{old_subtable, new_subtable, list_of};
ghost use Rattle.kern.specs.Kern.{kern};
ghost use Rattle.kern.specs.Ends.{no_head};

use answers::{Answer, Refusal};
use kerning::choices::Choices;
use kerning_lists::{Cursor, EndsWithBytes, ListHead, Lists, NextSubtable, Run, Subtable};
use tables::lookup::Why;

// The old edition's bit for horizontal text, and the new one's for vertical text.
const HORIZONTAL: u16 = 1;

const VERTICAL: u16 = 0x8000;

#[tactic(auto, unfolding(crate::specs::Heads::old_subtable))]
fn old_subtable(at: usize, size: u16, coverage: u16) -> Subtable
    requires { at < 2 ^ 63 }
    ensures { result ≡ old_subtable at size coverage }
{
    Subtable {
        passed_over: !machine::is_set(coverage, HORIZONTAL)
            || machine::is_set(coverage, kern_machine::OLD_CROSS_STREAM),
        turned: false,
        format: (coverage / 256) as u32,
        body: at,
        next: at + size as usize,
    }
}

#[tactic(auto, unfolding(crate::specs::Heads::new_subtable))]
fn new_subtable(at: usize, size: u32, coverage: u16) -> Subtable
    requires { at < 2 ^ 63 }
    ensures { result ≡ new_subtable at size coverage }
{
    Subtable {
        passed_over: machine::is_set(coverage, VERTICAL)
            || machine::is_set(coverage, kern_machine::CROSS_STREAM),
        turned: false,
        format: (coverage % 256) as u32,
        body: at,
        next: at + size as usize,
    }
}

// What kern says for itself of its lists; it goes from left to right alone.
struct Kern;

impl Lists for Kern {
    ghost family = { kern };

    #[tactic(auto, unfolding(crate::specs::Heads::list_of))]
    fn list_of(bytes: &[u8]) -> ListHead {
        let version = kerning_lists::u16_or_zero(bytes, 0);
        if version == 0 {
            return ListHead {
                version,
                count: kerning_lists::u16_or_zero(bytes, 2) as u32,
                first: 4,
            };
        }
        ListHead {
            version,
            count: kerning_lists::u32_or_zero(bytes, 4),
            first: 8,
        }
    }

    #[tactic(auto, using(parse::proofs::Laws::u16_inside), unfolding(crate::specs::Heads::head_in))]
    fn head_in(_: bool, version: u16, at: usize, part: &[u8]) -> Option<Subtable> {
        if version == 0 {
            let size = parse::read_u16(part, 2)?;
            let coverage = parse::read_u16(part, 4)?;
            return Some(old_subtable(at, size, coverage));
        }
        let size = parse::read_u32(part, 0)?;
        let coverage = parse::read_u16(part, 4)?;
        Some(new_subtable(at, size, coverage))
    }

    #[tactic(auto, unfolding(crate::specs::Kern::worked, kerning::specs::Additions::add_all))]
    fn work(
        bytes: &[u8],
        version: u16,
        format: u32,
        glyphs: &[u16],
        used: usize,
        along: &mut [i64],
        choices: Choices,
    ) -> Answer {
        match format {
            0 => {
                let opened = pairs::ordered_kern(bytes, kern_machine::head_size(version));
                pairs::work(bytes, opened, glyphs, used, along, choices.pairs)
            }
            1 => kern_machine::work(bytes, version, glyphs, used, along),
            _ => Answer::Refused(Refusal::Head),
        }
    }

    #[tactic(auto, unfolding(crate::specs::Kern::pair_by))]
    fn pair_by(
        bytes: &[u8],
        version: u16,
        format: u32,
        left: u16,
        right: u16,
    ) -> Result<Result<i16, Why>, Refusal> {
        if format != 0 {
            return Err(Refusal::Head);
        }
        let opened = pairs::ordered_kern(bytes, kern_machine::head_size(version));
        pairs::reply(bytes, opened, left, right)
    }
}

impl EndsWithBytes for Kern {
    ghost no_head = { no_head };
}

// The subtables of the list at `start`.
pub fn subtables(table: &[u8], start: usize) -> Result<Cursor, Refusal>
    ensures { result ≡ list_call kern table.now start }
{
    kerning_lists::subtables::<Kern>(table, start)
}

// The next subtable of a list, whatever the cursor's numbers are.
pub fn next_subtable(table: &[u8], cursor: Cursor) -> Result<Option<NextSubtable>, Refusal>
    ensures { result ≡ subtable_call kern table.now cursor }
{
    kerning_lists::next_subtable::<Kern>(table, cursor)
}

// What a pair of glyphs adds, by the subtable at `start` of a list of this version.
pub fn pair(
    table: &[u8],
    start: usize,
    version: u16,
    left: u16,
    right: u16,
) -> Result<Result<i16, Why>, Refusal>
    ensures { result ≡ pair_call kern table.now start version left right }
{
    kerning_lists::pair::<Kern>(table, start, version, left, right)
}

// A subtable of the list adds its own, unless the run passes over it.
#[tactic(auto, unfolding(kerning_lists::specs::Run::contribution, kerning::specs::Additions::add_all))]
fn visit(
    bytes: &[u8],
    version: u16,
    subtable: Subtable,
    glyphs: &[u16],
    used: usize,
    along: &mut [i64],
    choices: Choices,
)
    requires { (used ≤ length glyphs.now) × (used ≤ length along.old) × (used ≤ room_limit) × Within (2 ^ 60) along.old × (subtable.turned ≡ false) }
    ensures { along.new ≡ add_all (contribution (adds kern bytes.now version used choices) glyphs.now used subtable)
        along.old }
{
    if subtable.passed_over {
        return;
    }
    let part = parse::from(bytes, subtable.body);
    let _ = Kern::work(part, version, subtable.format, glyphs, used, along, choices);
}

// The subtables one after the other, from the first on.
// kept: kerx's loop over its list lends five slices more to a visit, by which one function for both would be no plainer.
fn run_list(
    bytes: &[u8],
    list: ListHead,
    glyphs: &[u16],
    used: usize,
    along: &mut [i64],
    choices: Choices,
) -> Run
    requires { (used ≤ length glyphs.now) × (used ≤ length along.old) × (used ≤ room_limit) × Within 0 along.old }
    ensures answer { result.answer ≡ walk_answer (heads_from (head_at kern false bytes.now list.version) list.count list.first) }
    ensures heads { result.heads ≡ length (visited (heads_from (head_at kern false bytes.now list.version) list.count list.first)) }
    ensures along { along.new ≡ add_all (contributions (adds kern bytes.now list.version used choices) glyphs.now used
        (visited (heads_from (head_at kern false bytes.now list.version) list.count list.first))) along.old }
{
    let mut at = list.first;
    for heads in 0..list.count {
        let Some(subtable) = kerning_lists::head_at::<Kern>(false, bytes, list.version, at) else {
            return Run {
                answer: Answer::Done,
                heads,
            };
        };
        if heads == answers::HEADS {
            return Run {
                answer: Answer::Limit,
                heads,
            };
        }
        visit(bytes, list.version, subtable, glyphs, used, along, choices);
        at = subtable.next;
    }
    Run {
        answer: Answer::Done,
        heads: list.count,
    }
}

// The used adjustments, zeroed first, with what the list's subtables add.
#[tactic(auto, unfolding(kerning_lists::specs::Run::used_part, kerning_lists::specs::Family::walk_of))]
fn run_part(bytes: &[u8], glyphs: &[u16], along: &mut [i64], choices: Choices) -> Run
    requires { (length along.old ≤ length glyphs.now) × (length along.old ≤ room_limit) }
    ensures answer { result.answer ≡ walk_answer (walk_of kern false bytes.now) }
    ensures heads { result.heads ≡ length (visited (walk_of kern false bytes.now)) }
    ensures along { along.new ≡ used_part (walk_of kern false bytes.now)
        (adds kern bytes.now (list_of bytes.now).version (length along.old) choices) glyphs.now
        (length along.old) }
{
    kerning_lists::zero(along);
    let used = along.len();
    run_list(bytes, Kern::list_of(bytes), glyphs, used, along, choices)
}

// A whole run over the list at `start` by the choices made.
#[tactic(auto, using(kerning_lists::proofs::Calls::run_ready), unfolding(kerning_lists::specs::Family::run_call, kerning_lists::specs::Family::ran, kerning_lists::specs::Run::ran_over))]
pub fn run_by(
    table: &[u8],
    start: usize,
    glyphs: &[u16],
    tags: &[u16],
    homes: &[u16],
    used: usize,
    along: &mut [i64],
    choices: Choices,
) -> Run
    ensures answer { result.answer ≡ (run_call kern table.now start false
        (line_of glyphs.now tags.now homes.now used) along.old choices).answer }
    ensures heads { result.heads ≡ (run_call kern table.now start false (line_of glyphs.now tags.now homes.now used)
        along.old choices).heads }
    ensures along { along.new ≡ (run_call kern table.now start false
        (line_of glyphs.now tags.now homes.now used) along.old choices).along }
{
    if let Err(why) = kerning_lists::refuse_run(
        table.len(),
        start,
        glyphs,
        tags,
        homes,
        used,
        along,
    ) {
        return Run {
            answer: Answer::Refused(why),
            heads: 0,
        };
    }
    run_part(
        kerning_lists::list_bytes(table, start),
        glyphs,
        &mut along[..used],
        choices,
    )
}

// The same with no choice made.
pub fn run(
    table: &[u8],
    start: usize,
    glyphs: &[u16],
    tags: &[u16],
    homes: &[u16],
    used: usize,
    along: &mut [i64],
) -> Run
    ensures answer { result.answer ≡ (run_call kern table.now start false
        (line_of glyphs.now tags.now homes.now used) along.old unchosen).answer }
    ensures heads { result.heads ≡ (run_call kern table.now start false (line_of glyphs.now tags.now homes.now used)
        along.old unchosen).heads }
    ensures along { along.new ≡ (run_call kern table.now start false
        (line_of glyphs.now tags.now homes.now used) along.old unchosen).along }
{
    run_by(
        table,
        start,
        glyphs,
        tags,
        homes,
        used,
        along,
        Choices::default(),
    )
}

// The pass over a line, by the subtable at `start` of a list of this version and the choices made; HEAD is the pass's own answer.
pub fn pass_by(
    table: &[u8],
    start: usize,
    version: u16,
    glyphs: &[u16],
    tags: &[u16],
    homes: &[u16],
    used: usize,
    along: &mut [i64],
    choices: Choices,
) -> Answer
    ensures answer { result ≡ (pass_call kern table.now start version (line_of glyphs.now tags.now homes.now used)
        along.old choices).answer }
    ensures along { along.new ≡ add_all (pass_call kern table.now start version
        (line_of glyphs.now tags.now homes.now used) along.old choices).additions along.old }
{
    kerning_lists::pass_by::<Kern>(
        table, start, version, glyphs, tags, homes, used, along, choices,
    )
}

// The same with no choice made.
pub fn pass(
    table: &[u8],
    start: usize,
    version: u16,
    glyphs: &[u16],
    tags: &[u16],
    homes: &[u16],
    used: usize,
    along: &mut [i64],
) -> Answer
    ensures answer { result ≡ (pass_call kern table.now start version (line_of glyphs.now tags.now homes.now used)
        along.old unchosen).answer }
    ensures along { along.new ≡ add_all (pass_call kern table.now start version
        (line_of glyphs.now tags.now homes.now used) along.old unchosen).additions along.old }
{
    pass_by(
        table,
        start,
        version,
        glyphs,
        tags,
        homes,
        used,
        along,
        Choices::default(),
    )
}
