// The report on kerned lines: of each line the sum of its used along numbers, the largest and the smallest, and the same of all lines together.
#![tactic(auto)]

ghost use Rattle.std.specs.Prelude.{◌≡◌, true, ◌+◌, ◌<◌, ◌≤◌, ◌^◌, nat_abs, ℤ, ◌+ℤ◌, ◌⊎◌, length};
ghost use Rattle.answers.specs.Refuse.{refuse};
ghost use Rattle.kerning.specs.Line.{is_taken, is_modest};
ghost use Rattle.reel.specs.Work.{Inside, span_line};
ghost use Rattle.report.specs.Numbers.{larger, smaller, sum_of, has_some, chosen_beside};
ghost use Rattle.report.specs.Choices.{extreme_of, larger_one, smaller_one};
ghost use Rattle.report.specs.Report.{lines_of, page_of, is_lent, are_taken, report_tests, written, report_answer, report_leaves};
ghost use Rattle.report.specs.Work.{Cut, Ready, span_along};

use answers::{Answer, Refusal};
use reel::Span;

// The most lines of a report.
pub const LINES: usize = 255;

// Which of two numbers is kept.
trait Choice {
    ghost chosen: { ℤ → ℤ → ℤ };

    // It is one of the two.
    ghost one: { (a b : ℤ) → (chosen a b ≡ a) ⊎ (chosen a b ≡ b) };

    fn choose(a: i64, b: i64) -> i64
        ensures { result ≡ chosen a b };
}

struct Larger;

struct Smaller;

impl Choice for Larger {
    ghost chosen = { larger };

    ghost one = { larger_one };

    fn choose(a: i64, b: i64) -> i64 {
        if a < b { b } else { a }
    }
}

impl Choice for Smaller {
    ghost chosen = { smaller };

    ghost one = { smaller_one };

    fn choose(a: i64, b: i64) -> i64 {
        if b < a { b } else { a }
    }
}

// The sum of two numbers.
fn sum(a: i64, b: i64) -> i64
    requires { nat_abs a + nat_abs b < 2 ^ 63 }
    ensures { result ≡ a +ℤ b }
{
    a + b
}

// The sum of the first along numbers.
fn sum_of(along: &[i64], used: usize) -> i64
    requires { (used ≤ length along.now) × ((used ≤ 32768) × (is_modest along.now ≡ true)) }
    ensures { result ≡ sum_of along.now used }
{
    let mut total: i64 = 0;
    for place in 0..used {
        total = sum(total, along[place]);
    }
    total
}

// The one of them that is kept; 0 of none.
fn extreme_of<C: Choice>(along: &[i64], used: usize) -> i64
    requires { (used ≤ length along.now) × (is_modest along.now ≡ true) }
    ensures { result ≡ extreme_of C.chosen along.now used }
{
    if used == 0 {
        return 0;
    }
    let mut kept = along[0];
    for place in 1..used {
        kept = C::choose(kept, along[place]);
    }
    kept
}

// Whether there are used places in a line, or were before it.
#[tactic(auto, unfolding(crate::specs::Numbers::has_some))]
fn has_some(some: bool, used: usize) -> bool
    ensures { result ≡ has_some some used }
{
    some || used != 0
}

// The one that is kept of all lines so far, and of a line besides.
#[tactic(auto, unfolding(crate::specs::Numbers::chosen_beside))]
fn extreme_beside<C: Choice>(some: bool, kept: i64, used: usize, line: i64) -> i64
    ensures { result ≡ chosen_beside C.chosen some kept used line }
{
    if used == 0 {
        kept
    } else if some {
        C::choose(kept, line)
    } else {
        line
    }
}

// Whether what is lent is a reel, with as many along numbers as places, and a place for each number of the report.
#[tactic(auto, unfolding(crate::specs::Report::is_lent, crate::specs::Report::line_limit))]
fn is_lent(
    rooms: &[usize],
    characters: &[usize],
    used: &[usize],
    glyphs: &[u16],
    tags: &[u16],
    homes: &[u16],
    along: &[i64],
    sums: &[i64],
    largest: &[i64],
    smallest: &[i64],
) -> bool
    ensures { result ≡ is_lent (lines_of rooms.now characters.now used.now
        glyphs.now tags.now homes.now along.now)
        sums.now largest.now smallest.now }
{
    let lines = rooms.len();
    lines <= LINES
        && characters.len() == lines
        && used.len() == lines
        && sums.len() == lines
        && largest.len() == lines
        && smallest.len() == lines
        && reel::adds_up(rooms, glyphs.len())
        && reel::adds_up(rooms, tags.len())
        && reel::adds_up(rooms, along.len())
        && reel::adds_up(characters, homes.len())
}

// Whether LINE takes the line whose part lies there, as for a pass.
fn is_taken(
    span: Span,
    glyphs: &[u16],
    tags: &[u16],
    homes: &[u16],
    along: &[i64],
    used: usize,
) -> bool
    requires { (Inside span (length glyphs.now) (length tags.now) (length homes.now)) × (span.at + span.room ≤ length along.now) }
    ensures { result ≡ is_taken (span_line span glyphs.now tags.now homes.now used) (span_along span along.now) }
{
    let at = span.at;
    let end = at + span.room;
    let from = span.from;
    let last = from + span.count;
    kerning::takes(
        &glyphs[at..end],
        &tags[at..end],
        &homes[from..last],
        used,
        &along[at..end],
    )
}

// Whether LINE takes every line.
fn are_taken(
    rooms: &[usize],
    characters: &[usize],
    used: &[usize],
    glyphs: &[u16],
    tags: &[u16],
    homes: &[u16],
    along: &[i64],
) -> bool
    requires { Cut (lines_of rooms.now characters.now used.now glyphs.now tags.now homes.now along.now) }
    ensures { result ≡ are_taken (lines_of rooms.now characters.now used.now
        glyphs.now tags.now homes.now along.now) }
{
    let mut at: usize = 0;
    let mut from: usize = 0;
    for i in 0..rooms.len() {
        let room = rooms[i];
        let count = characters[i];
        let span = Span {
            at,
            room,
            from,
            count,
        };
        if !is_taken(span, glyphs, tags, homes, along, used[i]) {
            return false;
        }
        at += room;
        from += count;
    }
    true
}

// The tests before the report: REEL, LINE.
fn refuse_report(
    rooms: &[usize],
    characters: &[usize],
    used: &[usize],
    glyphs: &[u16],
    tags: &[u16],
    homes: &[u16],
    along: &[i64],
    sums: &[i64],
    largest: &[i64],
    smallest: &[i64],
) -> Result<(), Refusal>
    ensures { result ≡ refuse (report_tests (lines_of rooms.now characters.now used.now
        glyphs.now tags.now homes.now along.now)
        sums.now largest.now smallest.now) }
{
    if !is_lent(
        rooms, characters, used, glyphs, tags, homes, along, sums, largest, smallest,
    ) {
        return Err(Refusal::Reel);
    }
    if !are_taken(rooms, characters, used, glyphs, tags, homes, along) {
        return Err(Refusal::Line);
    }
    Ok(())
}

// The numbers of every line, and of all, written.
fn write_page(
    rooms: &[usize],
    used: &[usize],
    along: &[i64],
    sums: &mut [i64],
    largest: &mut [i64],
    smallest: &mut [i64],
    totals: &mut [i64; 3],
)
    requires { Ready rooms.now used.now along.now sums.old largest.old smallest.old }
    ensures sums { sums.new ≡ (written rooms.now used.now along.now).sums }
    ensures largest { largest.new ≡ (written rooms.now used.now along.now).largest }
    ensures smallest { smallest.new ≡ (written rooms.now used.now along.now).smallest }
    ensures totals { totals.new ≡ (written rooms.now used.now along.now).totals }
{
    let mut some = false;
    let mut total: i64 = 0;
    let mut most: i64 = 0;
    let mut least: i64 = 0;
    let mut at: usize = 0;
    for line in 0..rooms.len() {
        let end = at + rooms[line];
        let places = used[line];
        let part = &along[at..end];
        let line_sum = sum_of(part, places);
        let line_most = extreme_of::<Larger>(part, places);
        let line_least = extreme_of::<Smaller>(part, places);
        sums[line] = line_sum;
        largest[line] = line_most;
        smallest[line] = line_least;
        total = sum(total, line_sum);
        most = extreme_beside::<Larger>(some, most, places, line_most);
        least = extreme_beside::<Smaller>(some, least, places, line_least);
        some = has_some(some, places);
        at = end;
    }
    *totals = [total, most, least];
}

// The report over lines that are lent as a reel's, with their along numbers.
pub fn report(
    rooms: &[usize],
    characters: &[usize],
    used: &[usize],
    glyphs: &[u16],
    tags: &[u16],
    homes: &[u16],
    along: &[i64],
    sums: &mut [i64],
    largest: &mut [i64],
    smallest: &mut [i64],
    totals: &mut [i64; 3],
) -> Answer
    ensures answer { result ≡ report_answer (lines_of rooms.now characters.now used.now
        glyphs.now tags.now homes.now along.now)
        (page_of sums.old largest.old smallest.old totals.old) }
    ensures sums { sums.new ≡ (report_leaves (lines_of rooms.now characters.now used.now
        glyphs.now tags.now homes.now along.now)
        (page_of sums.old largest.old smallest.old totals.old)).sums }
    ensures largest { largest.new ≡ (report_leaves (lines_of rooms.now characters.now used.now
        glyphs.now tags.now homes.now along.now)
        (page_of sums.old largest.old smallest.old totals.old)).largest }
    ensures smallest { smallest.new ≡ (report_leaves (lines_of rooms.now characters.now used.now
        glyphs.now tags.now homes.now along.now)
        (page_of sums.old largest.old smallest.old totals.old)).smallest }
    ensures totals { totals.new ≡ (report_leaves (lines_of rooms.now characters.now used.now
        glyphs.now tags.now homes.now along.now)
        (page_of sums.old largest.old smallest.old totals.old)).totals }
{
    if let Err(why) = refuse_report(
        rooms, characters, used, glyphs, tags, homes, along, sums, largest, smallest,
    ) {
        return Answer::Refused(why);
    }
    write_page(rooms, used, along, sums, largest, smallest, totals);
    Answer::Done
}
