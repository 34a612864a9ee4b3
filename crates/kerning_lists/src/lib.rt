// What the lists of kern and kerx share: a subtable's head in one shape, the calls of a list, a pair and a lone pass, and what a whole run does besides the
// subtables' own work.
#![tactic(auto)]

ghost use Rattle.std.specs.Prelude.{◌≡◌, ◌<◌, ◌≤◌, ◌^◌, ℕ, Bool, [], None, length};
ghost use Rattle.laws.specs.Backward.{backward};
ghost use Rattle.answers.specs.Limits.{room_limit};
ghost use Rattle.answers.specs.Refuse.{refuse};
ghost use Rattle.line.specs.Line.{line_of};
ghost use Rattle.kerning.specs.Additions.{add_all};
ghost use Rattle.kerning.specs.Bounds.{Within};
ghost use Rattle.kerning_lists.specs.Walk.{u16_or_zero, u32_or_zero, list_bytes};
ghost use Rattle.kerning_lists.specs.Run.{zeros, run_tests};
ghost use Rattle.kerning_lists.specs.Cursors.{next_by, list_tests};
ghost use Rattle.kerning_lists.specs.Family.{Family, head_at, passed, pass_call, pair_in, pair_call, list_from, list_call, subtable_call};

use answers::{Answer, Refusal};
use kerning::choices::Choices;
use tables::lookup::Why;

// A subtable by its head: whether a run passes over it, whether it goes the other way round, its format, where it begins and where the next does.
#[derive(Clone, Copy)]
pub struct Subtable {
    pub passed_over: bool,
    pub turned: bool,
    pub format: u32,
    pub body: usize,
    pub next: usize,
}

// The list's own head: its version, how many subtables it counts, and where the first begins.
#[derive(Clone, Copy)]
pub struct ListHead {
    pub version: u16,
    pub count: u32,
    pub first: usize,
}

// Where a list goes on: the place of its next subtable in the table, how many its count still gives, and its version.
#[derive(Clone, Copy)]
pub struct Cursor {
    pub place: usize,
    pub left: usize,
    pub version: u16,
}

// What a list goes on with: a subtable, and where the list goes on behind it.
#[derive(Clone, Copy)]
pub struct NextSubtable {
    pub subtable: Subtable,
    pub next: Cursor,
}

// What a whole run answers, with the heads that it read.
#[derive(Clone, Copy)]
pub struct Run {
    pub answer: Answer,
    pub heads: u32,
}

// What each of the two tables says for itself of its lists.
pub trait Lists {
    ghost family: { Family };

    // The list at the start of a table's bytes.
    fn list_of(bytes: &[u8]) -> ListHead
        ensures head { result ≡ family.list_of bytes.now }
        ensures near { result.first ≤ 8 };

    // The head at a place, by the bytes from there on.
    fn head_in(rtl: bool, version: u16, at: usize, part: &[u8]) -> Option<Subtable>
        requires { 0 < length part.now → at < 2 ^ 63 }
        ensures { result ≡ family.head_in rtl version at part.now };

    // The pass by the subtable that begins with `bytes`, of a format.
    fn work(
        bytes: &[u8],
        version: u16,
        format: u32,
        glyphs: &[u16],
        used: usize,
        along: &mut [i64],
        choices: Choices,
    ) -> Answer
        requires { (used ≤ length glyphs.now) × (used ≤ length along.old) × (used ≤ room_limit) × Within (2 ^ 60) along.old }
        ensures answer { result ≡ (family.worked bytes.now version format glyphs.now used choices).answer }
        ensures along { along.new ≡ add_all (family.worked bytes.now version format glyphs.now used choices).additions
            along.old };

    // The answer for a pair by the subtable that begins with `bytes`, of a format.
    fn pair_by(
        bytes: &[u8],
        version: u16,
        format: u32,
        left: u16,
        right: u16,
    ) -> Result<Result<i16, Why>, Refusal>
        ensures { result ≡ family.pair_by bytes.now version format left right };
}

// Lists that end with their bytes: no bytes have no head.
pub trait EndsWithBytes: Lists {
    ghost no_head: { (rtl : Bool) (version at : ℕ) → Self.family.head_in rtl version at [] ≡ None };
}

// A number of a list's own head, 0 where it can't be read.
pub fn u16_or_zero(bytes: &[u8], at: usize) -> u16
    ensures { result ≡ u16_or_zero bytes.now at }
{
    parse::read_u16(bytes, at).unwrap_or(0)
}

pub fn u32_or_zero(bytes: &[u8], at: usize) -> u32
    ensures { result ≡ u32_or_zero bytes.now at }
{
    parse::read_u32(bytes, at).unwrap_or(0)
}

// The bytes of a list that begins at `start`; a start of 0 means no table.
#[tactic(auto, unfolding(crate::specs::Walk::list_bytes))]
pub fn list_bytes(table: &[u8], start: usize) -> &[u8]
    ensures { result.now ≡ list_bytes table.now start }
{
    match start {
        0 => &[],
        _ => parse::from(table, start),
    }
}

// The head at a place of the list; past the end, that of no bytes. A branch says which: the shorter of two lengths would have each place wait for
// the head before it.
pub fn head_at<T: Lists>(rtl: bool, bytes: &[u8], version: u16, at: usize) -> Option<Subtable>
    ensures { result ≡ head_at T.family rtl bytes.now version at }
{
    if bytes.len() <= at {
        return T::head_in(rtl, version, at, &[]);
    }
    T::head_in(rtl, version, at, parse::from(bytes, at))
}

// The next subtable, by the head at the cursor's place. One that can't be read ends the list.
#[tactic(auto, unfolding(crate::specs::Cursors::next_by))]
fn next_by(head: Option<Subtable>, cursor: Cursor) -> Option<NextSubtable>
    ensures { result ≡ next_by head cursor }
{
    if cursor.left == 0 {
        return None;
    }
    let subtable = head?;
    Some(NextSubtable {
        subtable,
        next: Cursor {
            place: subtable.next,
            left: cursor.left - 1,
            version: cursor.version,
        },
    })
}

// The tests before a list's cursor: TABLE, HEAD.
#[tactic(auto, unfolding(crate::specs::Cursors::list_tests, crate::specs::Run::start_test, answers::specs::Refuse::refuse, answers::specs::Refuse::table_test))]
fn refuse_list(table_length: usize, start: usize) -> Result<(), Refusal>
    ensures { result ≡ refuse (list_tests table_length start) }
{
    answers::refuse_table(table_length)?;
    if table_length < start {
        return Err(Refusal::Head);
    }
    Ok(())
}

// The list at `start`, from its first subtable on.
#[tactic(auto, unfolding(crate::specs::Family::list_from))]
fn list_from<T: Lists>(table: &[u8], start: usize) -> Cursor
    requires { start ≤ length table.now }
    ensures { result ≡ list_from T.family table.now start }
{
    let list = T::list_of(list_bytes(table, start));
    Cursor {
        place: start + list.first,
        left: list.count as usize,
        version: list.version,
    }
}

// The subtables of the list at `start`.
#[tactic(auto, using(crate::proofs::Cursors::list_start), unfolding(crate::specs::Family::list_call))]
pub fn subtables<T: Lists>(table: &[u8], start: usize) -> Result<Cursor, Refusal>
    ensures { result ≡ list_call T.family table.now start }
{
    refuse_list(table.len(), start)?;
    Ok(list_from::<T>(table, start))
}

// The next subtable of a list, whatever the cursor's numbers are; it is turned as in a line from left to right.
#[tactic(auto, unfolding(crate::specs::Family::subtable_call, crate::specs::Family::next_subtable))]
pub fn next_subtable<T: Lists>(
    table: &[u8],
    cursor: Cursor,
) -> Result<Option<NextSubtable>, Refusal>
    ensures { result ≡ subtable_call T.family table.now cursor }
{
    answers::refuse_table(table.len())?;
    let head = head_at::<T>(false, table, cursor.version, cursor.place);
    Ok(next_by(head, cursor))
}

// The answer for a pair by the subtable that begins with `bytes`, its head included.
#[tactic(auto, unfolding(crate::specs::Family::pair_in))]
fn pair_in<T: Lists>(
    bytes: &[u8],
    version: u16,
    left: u16,
    right: u16,
) -> Result<Result<i16, Why>, Refusal>
    ensures { result ≡ pair_in T.family bytes.now version left right }
{
    let subtable = T::head_in(false, version, 0, bytes).ok_or(Refusal::Head)?;
    T::pair_by(bytes, version, subtable.format, left, right)
}

// What a pair of glyphs adds, by the subtable at `start` of a list of this version.
#[tactic(auto, unfolding(crate::specs::Family::pair_call))]
pub fn pair<T: Lists>(
    table: &[u8],
    start: usize,
    version: u16,
    left: u16,
    right: u16,
) -> Result<Result<i16, Why>, Refusal>
    ensures { result ≡ pair_call T.family table.now start version left right }
{
    answers::refuse_table(table.len())?;
    pair_in::<T>(parse::from(table, start), version, left, right)
}

// The pass by the subtable that begins with `bytes`, its head included.
#[tactic(auto, unfolding(crate::specs::Family::passed, kerning::specs::Additions::add_all))]
fn pass_in<T: Lists>(
    bytes: &[u8],
    version: u16,
    glyphs: &[u16],
    used: usize,
    along: &mut [i64],
    choices: Choices,
) -> Answer
    requires { (used ≤ length glyphs.now) × (used ≤ length along.old) × (used ≤ room_limit) × Within (2 ^ 60) along.old }
    ensures answer { result ≡ (passed T.family bytes.now version glyphs.now used choices).answer }
    ensures along { along.new ≡ add_all (passed T.family bytes.now version glyphs.now used choices).additions
        along.old }
{
    let Some(subtable) = T::head_in(false, version, 0, bytes) else {
        return Answer::Refused(Refusal::Head);
    };
    T::work(
        bytes,
        version,
        subtable.format,
        glyphs,
        used,
        along,
        choices,
    )
}

// The pass over a line, by the subtable at `start` of a list of this version and the choices made; HEAD is the pass's own answer.
#[tactic(auto, unfolding(crate::specs::Family::pass_call, kerning::specs::Additions::add_all))]
pub fn pass_by<T: Lists>(
    table: &[u8],
    start: usize,
    version: u16,
    glyphs: &[u16],
    tags: &[u16],
    homes: &[u16],
    used: usize,
    along: &mut [i64],
    choices: Choices,
) -> Answer
    ensures answer { result ≡ (pass_call T.family table.now start version
        (line_of glyphs.now tags.now homes.now used) along.old choices).answer }
    ensures along { along.new ≡ add_all (pass_call T.family table.now start version
        (line_of glyphs.now tags.now homes.now used) along.old choices).additions along.old }
{
    if let Err(why) = kerning::refuse_pass(table.len(), glyphs, tags, homes, used, along) {
        return Answer::Refused(why);
    }
    pass_in::<T>(
        parse::from(table, start),
        version,
        glyphs,
        used,
        along,
        choices,
    )
}

// The lent adjustments become zero.
#[tactic(auto, using(crate::proofs::Turns::zeros_same))]
pub fn zero(along: &mut [i64])
    ensures { along.new ≡ zeros (length along.old) }
{
    along.fill(0);
}

// Turns the used adjustments round.
#[tactic(auto, using(laws::proofs::Backward::backward_none), unfolding(laws::specs::Backward::backward))]
#[inline(always)]
pub fn turn(along: &mut [i64], used: usize)
    requires { used ≤ length along.old }
    ensures { along.new ≡ backward used along.old }
{
    if used == 0 {
        return;
    }
    along[..used].reverse();
}

// The tests before a run: TABLE, LINE, HEAD.
#[tactic(auto, unfolding(crate::specs::Run::run_tests, crate::specs::Run::start_test, kerning::specs::Line::kernable_test, answers::specs::Refuse::refuse, answers::specs::Refuse::table_test))]
pub fn refuse_run(
    table_length: usize,
    start: usize,
    glyphs: &[u16],
    tags: &[u16],
    homes: &[u16],
    used: usize,
    along: &[i64],
) -> Result<(), Refusal>
    ensures { result ≡ refuse (run_tests table_length start (line_of glyphs.now tags.now homes.now used)
        along.now) }
{
    answers::refuse_table(table_length)?;
    if !kerning::kernable(glyphs, tags, homes, used, along) {
        return Err(Refusal::Line);
    }
    if table_length < start {
        return Err(Refusal::Head);
    }
    Ok(())
}

#[cfg(test)]
mod endless;
