// What the kerning of kern and of kerx share: additions to the adjustments, the LINE test, and lists of numbers.
#![tactic(auto)]

pub mod choices;
pub mod heads;
pub mod lists;

ghost use Rattle.std.specs.Prelude.{◌≡◌, ◌+◌, ◌<◌, ◌≤◌, ◌^◌, leb, nat_abs, pos, ◌+ℤ◌, length, get_or};
ghost use Rattle.answers.specs.Refuse.{refuse};
ghost use Rattle.line.specs.Line.{line_of};
ghost use Rattle.kerning.specs.Additions.{add_at};
ghost use Rattle.kerning.specs.Line.{bound, is_modest, is_kernable, is_taken, kerning_tests};

use answers::Refusal;

// How far from 0 a lent adjustment may be: 2^40.
pub const MODEST: u64 = 1_099_511_627_776;

// A number added to the adjustment of a place.
#[tactic(auto, unfolding(crate::specs::Additions::add_at))]
pub fn add(along: &mut [i64], place: usize, number: i16)
    requires { (place < length along.old) × (nat_abs (get_or along.old place (pos 0)) ≤ 2 ^ 62) }
    ensures { along.new ≡ add_at place number along.old }
{
    along[place] += i64::from(number);
}

// Whether no adjustment is beyond ±2^40.
pub fn modest(along: &[i64]) -> bool
    ensures { result ≡ is_modest along.now }
{
    along.iter().all(|number| number.unsigned_abs() <= MODEST)
}

// Whether the line is one that LINE takes, with as many adjustments as it has room: the test of a whole run.
#[tactic(auto, unfolding(crate::specs::Line::is_kernable))]
pub fn kernable(glyphs: &[u16], tags: &[u16], homes: &[u16], used: usize, along: &[i64]) -> bool
    ensures { result ≡ is_kernable (line_of glyphs.now tags.now homes.now used) along.now }
{
    along.len() == glyphs.len() && line::valid::takes(glyphs, tags, homes, used)
}

// The test of a lone pass: no adjustment is beyond ±2^40, either.
#[tactic(auto, unfolding(crate::specs::Line::is_taken))]
pub fn takes(glyphs: &[u16], tags: &[u16], homes: &[u16], used: usize, along: &[i64]) -> bool
    ensures { result ≡ is_taken (line_of glyphs.now tags.now homes.now used) along.now }
{
    kernable(glyphs, tags, homes, used, along) && modest(along)
}

// The tests before a lone pass: TABLE, LINE. HEAD is an answer of the pass.
#[tactic(auto, unfolding(crate::specs::Line::kerning_tests, crate::specs::Line::taken_test, answers::specs::Refuse::refuse, answers::specs::Refuse::table_test))]
pub fn refuse_pass(
    table_length: usize,
    glyphs: &[u16],
    tags: &[u16],
    homes: &[u16],
    used: usize,
    along: &[i64],
) -> Result<(), Refusal>
    ensures { result ≡ refuse (kerning_tests table_length (line_of glyphs.now tags.now homes.now used)
        along.now) }
{
    answers::refuse_table(table_length)?;
    if !takes(glyphs, tags, homes, used, along) {
        return Err(Refusal::Line);
    }
    Ok(())
}
