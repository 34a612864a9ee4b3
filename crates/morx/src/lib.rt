// morx and mort: the pass by a subtable of whatever kind, and the whole run over a table.
#![tactic(auto)]

ghost use Rattle.std.specs.Prelude.{◌≡◌, true, ◌≤◌, length, drop};
ghost use Rattle.laws.specs.Backward.{backward};
ghost use Rattle.answers.specs.Refuse.{refuse};
ghost use Rattle.line.specs.Line.{line_of};
ghost use Rattle.line.specs.Test.{is_valid};
ghost use Rattle.machine.specs.Machine.{pass_call, call_leaves};
ghost use Rattle.morx.specs.Kinds.{kind_of, kind_at, subtable_of_kind, any_subtable};
ghost use Rattle.morx.specs.Run.{is_passed_over, turned_work, settled_answer, flags_after, visit, visit_subtable, ran};
ghost use Rattle.morx.specs.Calls.{run_tests, run_call, run_leaves};
ghost use Rattle.morx.specs.Indexed.{indexed_of_kind, has_classes, indexed_tests, indexed_call, indexed_leaves};
ghost use Rattle.morx.specs.Work.{Leaves, RunLeaves, run_reply_of, pass_reply_of, line_tests};

use answers::{Answer, HEADS, Refusal};
use chains::{Edition, Head, NextHead, Subtable};
use contextual::ContextualState;
use insertion::InsertionState;
use ligature::LigatureState;
use rearrangement::RearrangementState;

// The most features that a run may be asked for.
pub const REQUESTS: usize = 64;

// The kinds of subtables, mort's two behind morx's; those that are left out are one.
#[derive(Clone, Copy)]
pub enum Kind {
    Rearrangement,
    Contextual,
    Ligature,
    NonContextual,
    Insertion,
    OldRearrangement,
    OldNonContextual,
    LeftOut,
}

// What a pass answers, and the used length afterwards.
#[derive(Clone, Copy)]
pub struct PassReply {
    pub answer: Answer,
    pub used: usize,
}

// What a run is told beside the table and the line: whether the line goes from right to left, and which edition the table is.
#[derive(Clone, Copy)]
pub struct Choices {
    pub right_to_left: bool,
    pub edition: Edition,
}

// What a run answers, the used length afterwards, and how many heads it read.
#[derive(Clone, Copy)]
pub struct RunReply {
    pub answer: Answer,
    pub used: usize,
    pub heads: u32,
}

// The kind of this number in morx.
#[tactic(auto, unfolding(crate::specs::Kinds::kind_of))]
fn new_kind(number: u32) -> Kind
    ensures { result ≡ kind_of Edition.Morx number }
{
    match number {
        RearrangementState::KIND => Kind::Rearrangement,
        ContextualState::KIND => Kind::Contextual,
        LigatureState::KIND => Kind::Ligature,
        noncontextual::KIND => Kind::NonContextual,
        InsertionState::KIND => Kind::Insertion,
        _ => Kind::LeftOut,
    }
}

// In mort.
#[tactic(auto, unfolding(crate::specs::Kinds::kind_of))]
fn old_kind(number: u32) -> Kind
    ensures { result ≡ kind_of Edition.Mort number }
{
    match u16::try_from(number) {
        Ok(mort::REARRANGEMENT) => Kind::OldRearrangement,
        Ok(mort::NONCONTEXTUAL) => Kind::OldNonContextual,
        _ => Kind::LeftOut,
    }
}

// In either.
fn kind_of(edition: Edition, number: u32) -> Kind
    ensures { result ≡ kind_of edition number }
{
    match edition {
        Edition::Morx => new_kind(number),
        Edition::Mort => old_kind(number),
    }
}

// The kind of the subtable that the bytes begin with; one whose head is cut short has none that is taken.
#[tactic(auto, unfolding(crate::specs::Kinds::kind_at, parse::specs::Reads::read_u32, parse::specs::Reads::inside))]
fn kind_at(edition: Edition, bytes: &[u8]) -> Kind
    ensures { result ≡ kind_at edition bytes.now }
{
    match edition {
        Edition::Morx => match parse::read_u32(bytes, 4) {
            Some(coverage) if 12 <= bytes.len() => new_kind(coverage % 256),
            _ => Kind::LeftOut,
        },
        Edition::Mort => {
            if mort::has_kind(bytes, mort::REARRANGEMENT) {
                return Kind::OldRearrangement;
            }
            if mort::has_kind(bytes, mort::NONCONTEXTUAL) {
                return Kind::OldNonContextual;
            }
            Kind::LeftOut
        }
    }
}

// The pass by a subtable of a kind and the classes of an index, on a line that LINE has taken; HEAD where it can't be opened.
// kept: glyphs, tags, homes and the used length go beside each other, as the C interface lends them and each kind's own pass takes them.
#[tactic(auto, using(crate::proofs::Machines::by_rearrangement, crate::proofs::Machines::by_contextual, crate::proofs::Machines::by_ligature, crate::proofs::Machines::by_noncontextual, crate::proofs::Machines::by_insertion, crate::proofs::Machines::by_old_rearrangement, crate::proofs::Machines::by_old_noncontextual, crate::proofs::Machines::by_none, crate::proofs::Leaves::room_glyphs, crate::proofs::Leaves::room_limited, crate::proofs::Leaves::room_paired))]
fn work_by(
    kind: Kind,
    bytes: &[u8],
    glyphs: &mut [u16],
    tags: &mut [u16],
    homes: &mut [u16],
    used: usize,
    index: &[u16],
) -> PassReply
    requires { is_valid (line_of glyphs.old tags.old homes.old used) ≡ true }
    ensures { Leaves ((indexed_of_kind index.now kind).worked bytes.now (line_of glyphs.old tags.old homes.old used))
        (line_of glyphs.old tags.old homes.old used) result
        glyphs.new tags.new homes.new }
{
    match kind {
        Kind::Rearrangement => PassReply {
            answer: rearrangement::work_by(bytes, glyphs, tags, homes, used, index),
            used,
        },
        Kind::Contextual => PassReply {
            answer: contextual::work_by(bytes, glyphs, tags, homes, used, index),
            used,
        },
        Kind::Ligature => PassReply {
            answer: ligature::work_by(bytes, glyphs, tags, homes, used, index),
            used,
        },
        Kind::NonContextual => PassReply {
            answer: noncontextual::work(bytes, glyphs, tags, homes, used),
            used,
        },
        Kind::Insertion => {
            let done = insertion::work_by(bytes, glyphs, tags, homes, used, index);
            PassReply {
                answer: done.answer,
                used: done.used,
            }
        }
        Kind::OldRearrangement => PassReply {
            answer: mort::rearrange(bytes, glyphs, tags, homes, used),
            used,
        },
        Kind::OldNonContextual => PassReply {
            answer: mort::substitute(bytes, glyphs, tags, homes, used),
            used,
        },
        Kind::LeftOut => PassReply {
            answer: Answer::Refused(Refusal::Head),
            used,
        },
    }
}

// The same by the subtable's own classes.
fn work(
    kind: Kind,
    bytes: &[u8],
    glyphs: &mut [u16],
    tags: &mut [u16],
    homes: &mut [u16],
    used: usize,
) -> PassReply
    requires { is_valid (line_of glyphs.old tags.old homes.old used) ≡ true }
    ensures { Leaves ((subtable_of_kind kind).worked bytes.now (line_of glyphs.old tags.old homes.old used)) (line_of glyphs.old tags.old homes.old used) result
        glyphs.new tags.new homes.new }
{
    work_by(kind, bytes, glyphs, tags, homes, used, &[])
}

// Whether the subtable of a kind that the bytes begin with can be opened.
#[tactic(auto, unfolding(crate::specs::Kinds::subtable_of_kind))]
fn opens(kind: Kind, bytes: &[u8]) -> bool
    ensures { result ≡ (subtable_of_kind kind).is_open bytes.now }
{
    match kind {
        Kind::Rearrangement => machine::open(bytes, RearrangementState::KIND).is_some(),
        Kind::Contextual => contextual::open(bytes).is_some(),
        Kind::Ligature => ligature::open(bytes).is_some(),
        Kind::NonContextual => machine::has_kind(bytes, noncontextual::KIND),
        Kind::Insertion => insertion::open(bytes).is_some(),
        Kind::OldRearrangement => mort::has_kind(bytes, mort::REARRANGEMENT),
        Kind::OldNonContextual => mort::has_kind(bytes, mort::NONCONTEXTUAL),
        Kind::LeftOut => false,
    }
}

// Turns the line back behind a pass, whatever that answered.
fn turn_back(reply: PassReply, glyphs: &mut [u16], tags: &mut [u16])
    requires { (reply.used ≤ length glyphs.old) × (reply.used ≤ length tags.old) }
    ensures glyphs { glyphs.new ≡ backward reply.used glyphs.old }
    ensures tags { tags.new ≡ backward reply.used tags.old }
{
    line::edits::reverse(glyphs, tags, reply.used);
}

// The pass on the line, turned round where that is asked for; it is turned back however the pass ends.
#[tactic(auto, using(crate::proofs::Leaves::room_glyphs, crate::proofs::Leaves::room_paired, crate::proofs::Visits::turned_valid))]
fn turn_and_work(
    turned: bool,
    kind: Kind,
    bytes: &[u8],
    glyphs: &mut [u16],
    tags: &mut [u16],
    homes: &mut [u16],
    used: usize,
) -> PassReply
    requires { is_valid (line_of glyphs.old tags.old homes.old used) ≡ true }
    ensures { Leaves (turned_work turned kind bytes.now (line_of glyphs.old tags.old homes.old used)) (line_of glyphs.old tags.old homes.old used) result
        glyphs.new tags.new homes.new }
{
    if !turned {
        return work(kind, bytes, glyphs, tags, homes, used);
    }
    line::edits::reverse(glyphs, tags, used);
    let reply = work(kind, bytes, glyphs, tags, homes, used);
    turn_back(reply, glyphs, tags);
    reply
}

// Whether a run passes over a subtable, whose bytes these are.
#[tactic(auto, unfolding(crate::specs::Run::is_passed_over, crate::specs::Run::share_bit))]
fn passes_over(edition: Edition, flags: u32, subtable: Subtable, bytes: &[u8]) -> bool
    ensures { result ≡ is_passed_over edition flags subtable bytes.now }
{
    flags & subtable.flags == 0
        || subtable.vertical
        || !opens(kind_of(edition, subtable.kind), bytes)
}

// What a pass's answer is to its run: FULL ends that, any other end is the subtable's own.
fn settle(answer: Answer) -> Answer
    ensures { result ≡ settled_answer answer }
{
    match answer {
        Answer::Full => Answer::Full,
        _ => Answer::Done,
    }
}

// A run's visit of a subtable, under its chain's flags.
fn visit_subtable(
    table: &[u8],
    choices: Choices,
    flags: u32,
    subtable: Subtable,
    glyphs: &mut [u16],
    tags: &mut [u16],
    homes: &mut [u16],
    used: usize,
) -> PassReply
    requires { is_valid (line_of glyphs.old tags.old homes.old used) ≡ true }
    ensures { Leaves (visit_subtable table.now choices flags subtable (line_of glyphs.old tags.old homes.old used))
        (line_of glyphs.old tags.old homes.old used) result
        glyphs.new tags.new homes.new }
{
    let bytes = parse::from(table, subtable.place);
    if passes_over(choices.edition, flags, subtable, bytes) {
        return PassReply {
            answer: Answer::Done,
            used,
        };
    }
    let turned = chains::should_reverse(subtable.order, choices.right_to_left);
    let kind = kind_of(choices.edition, subtable.kind);
    let reply = turn_and_work(turned, kind, bytes, glyphs, tags, homes, used);
    PassReply {
        answer: settle(reply.answer),
        used: reply.used,
    }
}

// A run's visit of a head: at a chain there is nothing to do.
fn visit(
    table: &[u8],
    choices: Choices,
    flags: u32,
    head: Head,
    glyphs: &mut [u16],
    tags: &mut [u16],
    homes: &mut [u16],
    used: usize,
) -> PassReply
    requires { is_valid (line_of glyphs.old tags.old homes.old used) ≡ true }
    ensures { Leaves (visit table.now choices flags head (line_of glyphs.old tags.old homes.old used)) (line_of glyphs.old tags.old homes.old used) result
        glyphs.new tags.new homes.new }
{
    match head {
        Head::Chain(_) => PassReply {
            answer: Answer::Done,
            used,
        },
        Head::Subtable(subtable) => visit_subtable(
            table, choices, flags, subtable, glyphs, tags, homes, used,
        ),
    }
}

// The flags that choose behind a head: those of the last chain, switched by its features that are asked for.
#[tactic(auto, unfolding(crate::specs::Run::choosing))]
fn flags_after(table: &[u8], head: Head, flags: u32, requests: &[u32]) -> u32
    ensures { result ≡ flags_after table.now head flags requests.now }
{
    match head {
        Head::Chain(chain) => chains::features::flags_behind(
            table,
            chain.features,
            chain.flags,
            requests,
        ),
        Head::Subtable(_) => flags,
    }
}

// The run over a line that LINE has taken, and a table whose start is not past its end.
fn run_line(
    table: &[u8],
    start: usize,
    choices: Choices,
    glyphs: &mut [u16],
    tags: &mut [u16],
    homes: &mut [u16],
    used: usize,
    requests: &[u32],
) -> RunReply
    requires { (is_valid (line_of glyphs.old tags.old homes.old used) ≡ true) × (start ≤ length table.now) }
    ensures { RunLeaves (ran table.now start choices (line_of glyphs.old tags.old homes.old used) requests.now)
        (line_of glyphs.old tags.old homes.old used) result glyphs.new tags.new homes.new }
{
    let mut walk = chains::walk_from(table, start);
    let mut flags: u32 = 0;
    let mut length = used;
    for heads in 0..HEADS {
        let Some(NextHead { head, next }) = chains::next_head(choices.edition, table, walk) else {
            return RunReply {
                answer: Answer::Done,
                used: length,
                heads,
            };
        };
        let reply = visit(table, choices, flags, head, glyphs, tags, homes, length);
        length = reply.used;
        if !machine::is_done(reply.answer) {
            return RunReply {
                answer: reply.answer,
                used: length,
                heads: heads + 1,
            };
        }
        flags = flags_after(table, head, flags, requests);
        walk = next;
    }
    let answer = match chains::next_head(choices.edition, table, walk) {
        Some(_) => Answer::Limit,
        None => Answer::Done,
    };
    RunReply {
        answer,
        used: length,
        heads: HEADS,
    }
}

// The tests before a pass: TABLE, LINE.
#[tactic(auto, unfolding(crate::specs::Work::line_tests, line::specs::Test::line_test, answers::specs::Refuse::refuse))]
fn refuse_line(
    table_length: usize,
    glyphs: &[u16],
    tags: &[u16],
    homes: &[u16],
    used: usize,
) -> Result<(), Refusal>
    ensures { result ≡ refuse (line_tests table_length (line_of glyphs.now tags.now homes.now used)) }
{
    answers::refuse_table(table_length)?;
    if !line::valid::takes(glyphs, tags, homes, used) {
        return Err(Refusal::Line);
    }
    Ok(())
}

// The pass over a line, by the subtable at `start`, of whatever kind.
#[tactic(auto, using(crate::proofs::Leaves::left_reply, crate::proofs::Leaves::left_glyphs, crate::proofs::Leaves::left_tags, crate::proofs::Leaves::left_homes, crate::proofs::Calls::taken_valid, crate::proofs::Calls::pass_refused, crate::proofs::Calls::pass_worked), unfolding(machine::specs::Machine::call_leaves))]
pub fn pass(
    edition: Edition,
    table: &[u8],
    start: usize,
    glyphs: &mut [u16],
    tags: &mut [u16],
    homes: &mut [u16],
    used: usize,
) -> PassReply
    ensures reply { result ≡ pass_reply_of (pass_call (any_subtable edition) table.now start
        (line_of glyphs.old tags.old homes.old used))
        (line_of glyphs.old tags.old homes.old used) }
    ensures glyphs { glyphs.new ≡ (call_leaves (any_subtable edition) table.now start
        (line_of glyphs.old tags.old homes.old used)).glyphs }
    ensures tags { tags.new ≡ (call_leaves (any_subtable edition) table.now start
        (line_of glyphs.old tags.old homes.old used)).tags }
    ensures homes { homes.new ≡ (call_leaves (any_subtable edition) table.now start
        (line_of glyphs.old tags.old homes.old used)).homes }
{
    if let Err(why) = refuse_line(table.len(), glyphs, tags, homes, used) {
        return PassReply {
            answer: Answer::Refused(why),
            used,
        };
    }
    let bytes = parse::from(table, start);
    work(kind_at(edition, bytes), bytes, glyphs, tags, homes, used)
}

// Whether a kind has a class table.
fn has_classes(kind: Kind) -> bool
    ensures { result ≡ has_classes kind }
{
    matches!(
        kind,
        Kind::Rearrangement | Kind::Contextual | Kind::Ligature | Kind::Insertion
    )
}

// The tests before a pass by an index: TABLE, LINE, HEAD, INDEX.
#[tactic(auto, unfolding(crate::specs::Indexed::indexed_tests, machine::specs::Call::pass_tests, machine::specs::Call::head_test, indexes::specs::Index::index_test, line::specs::Test::line_test, answers::specs::Refuse::refuse))]
fn refuse_indexed(
    table_length: usize,
    glyphs: &[u16],
    tags: &[u16],
    homes: &[u16],
    used: usize,
    opens: bool,
    entries: usize,
    another: bool,
) -> Result<(), Refusal>
    ensures { result ≡ refuse (indexed_tests table_length (line_of glyphs.now tags.now homes.now used) opens entries
        another) }
{
    machine::refuse_pass(table_length, glyphs, tags, homes, used, opens)?;
    if indexes::is_refused(entries, another) {
        return Err(Refusal::Index);
    }
    Ok(())
}

// The pass over a line, by the morx subtable at `start`, of whatever kind, and an index of the class table that begins at `class_start`.
#[tactic(auto, using(crate::proofs::Leaves::left_reply, crate::proofs::Leaves::left_glyphs, crate::proofs::Leaves::left_tags, crate::proofs::Leaves::left_homes, crate::proofs::Indexing::index_refused, crate::proofs::Indexing::index_valid, crate::proofs::Indexing::index_worked), unfolding(crate::specs::Indexed::indexed_leaves))]
pub fn pass_indexed(
    table: &[u8],
    start: usize,
    glyphs: &mut [u16],
    tags: &mut [u16],
    homes: &mut [u16],
    used: usize,
    index: &[u16],
    class_start: usize,
) -> PassReply
    ensures reply { result ≡ pass_reply_of (indexed_call table.now start (line_of glyphs.old tags.old homes.old used)
        index.now class_start) (line_of glyphs.old tags.old homes.old used) }
    ensures glyphs { glyphs.new ≡ (indexed_leaves table.now start
        (line_of glyphs.old tags.old homes.old used) index.now class_start).glyphs }
    ensures tags { tags.new ≡ (indexed_leaves table.now start
        (line_of glyphs.old tags.old homes.old used) index.now class_start).tags }
    ensures homes { homes.new ≡ (indexed_leaves table.now start
        (line_of glyphs.old tags.old homes.old used) index.now class_start).homes }
{
    let bytes = parse::from(table, start);
    let kind = kind_at(Edition::Morx, bytes);
    let body = parse::from(bytes, 12);
    let another = indexes::is_another(has_classes(kind), body, start, class_start);
    if let Err(why) = refuse_indexed(
        table.len(),
        glyphs,
        tags,
        homes,
        used,
        opens(kind, bytes),
        index.len(),
        another,
    ) {
        return PassReply {
            answer: Answer::Refused(why),
            used,
        };
    }
    work_by(kind, bytes, glyphs, tags, homes, used, index)
}

// The tests before a run: TABLE, REQUEST, LINE, HEAD.
#[tactic(auto, unfolding(crate::specs::Calls::run_tests, crate::specs::Calls::request_test, crate::specs::Calls::request_limit, line::specs::Test::line_test, chains::specs::Entries::start_test, answers::specs::Refuse::refuse))]
fn refuse_run(
    table_length: usize,
    start: usize,
    glyphs: &[u16],
    tags: &[u16],
    homes: &[u16],
    used: usize,
    requests: &[u32],
) -> Result<(), Refusal>
    ensures { result ≡ refuse (run_tests table_length start (line_of glyphs.now tags.now homes.now used)
        requests.now) }
{
    answers::refuse_table(table_length)?;
    if REQUESTS < requests.len() {
        return Err(Refusal::Request);
    }
    if !line::valid::takes(glyphs, tags, homes, used) {
        return Err(Refusal::Line);
    }
    if table_length < start {
        return Err(Refusal::Head);
    }
    Ok(())
}

// The whole run over a line, by the table at `start`, with the features that are asked for.
#[tactic(auto, using(crate::proofs::Runs::run_reply, crate::proofs::Runs::run_glyphs, crate::proofs::Runs::run_tags, crate::proofs::Runs::run_homes, crate::proofs::Calls::run_taken, crate::proofs::Calls::run_refused, crate::proofs::Calls::run_worked), unfolding(crate::specs::Calls::run_leaves))]
pub fn run(
    table: &[u8],
    start: usize,
    choices: Choices,
    glyphs: &mut [u16],
    tags: &mut [u16],
    homes: &mut [u16],
    used: usize,
    requests: &[u32],
) -> RunReply
    ensures reply { result ≡ run_reply_of (run_call table.now start choices
        (line_of glyphs.old tags.old homes.old used) requests.now)
        (line_of glyphs.old tags.old homes.old used) }
    ensures glyphs { glyphs.new ≡ (run_leaves table.now start choices
        (line_of glyphs.old tags.old homes.old used) requests.now).glyphs }
    ensures tags { tags.new ≡ (run_leaves table.now start choices
        (line_of glyphs.old tags.old homes.old used) requests.now).tags }
    ensures homes { homes.new ≡ (run_leaves table.now start choices
        (line_of glyphs.old tags.old homes.old used) requests.now).homes }
{
    if let Err(why) = refuse_run(table.len(), start, glyphs, tags, homes, used, requests) {
        return RunReply {
            answer: Answer::Refused(why),
            used,
            heads: 0,
        };
    }
    run_line(table, start, choices, glyphs, tags, homes, used, requests)
}
