// Every entry that the box's C firmware calls, thin over the proved crates; aat.h declares them.
#![tactic(auto)]

ghost use Rattle.std.specs.Prelude.{◌≡◌};
ghost use Rattle.answers.specs.Numbers.{number_of, answer_of, value_of};
ghost use Rattle.tables.specs.Lookup as Lookup;
ghost use Rattle.tables.specs.Lookup.{lookup_reply};
ghost use Rattle.tables.specs.Survey.{surveyed};
ghost use Rattle.state_tables.specs.Classes.{class_extended, class_classic};
ghost use Rattle.ltag.specs.Ltag.{language_index};
ghost use Rattle.line.specs.Line.{line_of};
ghost use Rattle.line.specs.Entries.{fresh_call, fresh_answer, fresh_used, verb_call};
ghost use Rattle.machine.specs.Machine.{subtable_of, pass_call, call_leaves};
ghost use Rattle.rearrangement.specs.Calls.{rearrangement};
ghost use Rattle.noncontextual.specs.NonContextual.{noncontextual};
ghost use Rattle.contextual.specs.Calls.{contextual};
ghost use Rattle.insertion.specs.Calls.{insertion};
ghost use Rattle.insertion.specs.Lone.{insert_call, insert_leaves};
ghost use Rattle.ligature.specs.Calls.{ligature};
ghost use Rattle.firmware.specs.Survey.{survey_answer, verdict_of, bad_record};

use answers::Refusal;
use tables::lookup::Why;
use tables::survey::Surveyed;

mod anchored;
mod choices;
mod cursors;
mod features;
mod indexed;
mod kern_cursors;
mod kern_steps;
mod kerns;
mod mends;
mod older;
mod reasons;
mod records;
mod reels;
mod reports;
mod runs;
mod steps;

// Puts the value of a reply where it was lent, and answers with its number.
fn put_reply(reply: Result<Option<u32>, Refusal>, value: &mut u32) -> u32
    ensures answer { result ≡ number_of (answer_of reply) }
    ensures value { value.new ≡ value_of reply value.old }
{
    match reply {
        Ok(Some(number)) => {
            *value = number;
            0
        }
        Ok(None) => 1,
        Err(why) => u32::from(why),
    }
}

// Puts the element of a lookup's reply where it was lent, and answers with the reply's number.
pub fn put_element(reply: Result<Result<u16, Why>, Refusal>, value: &mut u32) -> u32
    ensures answer { result ≡ number_of (Lookup.answer_of reply) }
    ensures value { value.new ≡ Lookup.value_of reply value.old }
{
    match reply {
        Ok(Ok(element)) => {
            *value = element as u32;
            0
        }
        Ok(Err(_)) => 1,
        Err(why) => u32::from(why),
    }
}

// The element of a glyph in the lookup table at `start`.
#[unsafe(no_mangle)]
pub extern "C" fn aat_lookup(table: &[u8], start: usize, glyph: u16, value: &mut u32) -> u32
    ensures answer { result ≡ number_of (Lookup.answer_of (lookup_reply table.now start glyph)) }
    ensures value { value.new ≡ Lookup.value_of (lookup_reply table.now start glyph) value.old }
{
    put_element(tables::lookup::lookup(table, start, glyph), value)
}

// The class of a glyph in the extended state table at `start`.
#[unsafe(no_mangle)]
pub extern "C" fn aat_class_extended(table: &[u8], start: usize, glyph: u16, value: &mut u32) -> u32
    ensures answer { result ≡ number_of (answer_of (class_extended table.now start glyph)) }
    ensures value { value.new ≡ value_of (class_extended table.now start glyph) value.old }
{
    put_reply(
        state_tables::classes::class_extended(table, start, glyph),
        value,
    )
}

// The class of a glyph in the classic state table at `start`.
#[unsafe(no_mangle)]
pub extern "C" fn aat_class_classic(table: &[u8], start: usize, glyph: u16, value: &mut u32) -> u32
    ensures answer { result ≡ number_of (answer_of (class_classic table.now start glyph)) }
    ensures value { value.new ≡ value_of (class_classic table.now start glyph) value.old }
{
    put_reply(
        state_tables::classes::class_classic(table, start, glyph),
        value,
    )
}

// The number of a language's tag in the ltag table at `start`.
#[unsafe(no_mangle)]
pub extern "C" fn aat_language_index(
    table: &[u8],
    start: usize,
    name: &[u8],
    value: &mut u32,
) -> u32
    ensures answer { result ≡ number_of (answer_of (language_index table.now start name.now)) }
    ensures value { value.new ≡ value_of (language_index table.now start name.now) value.old }
{
    put_reply(ltag::language_index(table, start, name), value)
}

// The survey of the lookup table at `start`.
#[unsafe(no_mangle)]
pub extern "C" fn aat_survey(table: &[u8], start: usize, verdict: &mut u32, bad: &mut u32) -> u32
    ensures answer { result ≡ number_of (survey_answer (surveyed table.now start)) }
    ensures verdict { verdict.new ≡ verdict_of (surveyed table.now start) verdict.old }
    ensures bad { bad.new ≡ bad_record (surveyed table.now start) bad.old }
{
    match tables::survey::survey(table, start) {
        Ok(Surveyed::NoRecords) => {
            *verdict = 0;
            0
        }
        Ok(Surveyed::Sorted) => {
            *verdict = 1;
            0
        }
        Ok(Surveyed::Bad(index)) => {
            *verdict = 2;
            *bad = index;
            0
        }
        Ok(Surveyed::UnitSize(_)) => {
            *verdict = 3;
            0
        }
        Ok(Surveyed::Nothing) => 1,
        Err(why) => u32::from(why),
    }
}

// Starts a line of as many characters as there are homes.
#[unsafe(no_mangle)]
pub extern "C" fn aat_fresh(
    glyphs: &[u16],
    tags: &mut [u16],
    homes: &mut [u16],
    used: &mut usize,
) -> u32
    ensures answer { result ≡ number_of (fresh_answer (fresh_call glyphs.now tags.old homes.old).reply) }
    ensures tags { tags.new ≡ (fresh_call glyphs.now tags.old homes.old).tags }
    ensures homes { homes.new ≡ (fresh_call glyphs.now tags.old homes.old).homes }
    ensures used { used.new ≡ fresh_used (fresh_call glyphs.now tags.old homes.old).reply used.old }
{
    match line::fresh(glyphs, tags, homes) {
        Ok(count) => {
            *used = count;
            0
        }
        Err(why) => u32::from(why),
    }
}

// Rearranges the window from `start` to `end` of a line by a verb.
#[unsafe(no_mangle)]
pub extern "C" fn aat_verb(
    glyphs: &mut [u16],
    tags: &mut [u16],
    homes: &[u16],
    used: usize,
    verb: u16,
    start: usize,
    end: usize,
) -> u32
    ensures answer { result ≡ number_of (verb_call (line_of glyphs.old tags.old homes.now used) verb start end).answer }
    ensures glyphs { glyphs.new ≡ (verb_call (line_of glyphs.old tags.old homes.now used) verb start
        end).line.glyphs }
    ensures tags { tags.new ≡ (verb_call (line_of glyphs.old tags.old homes.now used) verb start
        end).line.tags }
{
    u32::from(line::lone_verb(glyphs, tags, homes, used, verb, start, end))
}

// Inserts glyphs that lie in the table from `start` on at a place of a line.
#[unsafe(no_mangle)]
pub extern "C" fn aat_insert(
    table: &[u8],
    start: usize,
    count: u16,
    glyphs: &mut [u16],
    tags: &mut [u16],
    homes: &[u16],
    used: &mut usize,
    place: usize,
) -> u32
    ensures answer { result ≡ number_of (insert_call table.now start count place
        (line_of glyphs.old tags.old homes.now used.old)).answer }
    ensures glyphs { glyphs.new ≡ (insert_leaves table.now start count place
        (line_of glyphs.old tags.old homes.now used.old)).glyphs }
    ensures tags { tags.new ≡ (insert_leaves table.now start count place
        (line_of glyphs.old tags.old homes.now used.old)).tags }
    ensures used { used.new ≡ (insert_leaves table.now start count place
        (line_of glyphs.old tags.old homes.now used.old)).used }
{
    let inserted = insertion::insert(table, start, count, glyphs, tags, homes, *used, place);
    *used = inserted.used;
    u32::from(inserted.answer)
}

// The rearrangement pass over a line, by the subtable at `start`.
#[unsafe(no_mangle)]
pub extern "C" fn aat_rearrangement_pass(
    table: &[u8],
    start: usize,
    glyphs: &mut [u16],
    tags: &mut [u16],
    homes: &[u16],
    used: usize,
) -> u32
    ensures answer { result ≡ number_of (pass_call (subtable_of rearrangement) table.now start
        (line_of glyphs.old tags.old homes.now used)).answer }
    ensures glyphs { glyphs.new ≡ (call_leaves (subtable_of rearrangement) table.now start
        (line_of glyphs.old tags.old homes.now used)).glyphs }
    ensures tags { tags.new ≡ (call_leaves (subtable_of rearrangement) table.now start
        (line_of glyphs.old tags.old homes.now used)).tags }
{
    u32::from(rearrangement::pass(table, start, glyphs, tags, homes, used))
}

// The non-contextual pass over a line, by the subtable at `start`.
#[unsafe(no_mangle)]
pub extern "C" fn aat_noncontextual_pass(
    table: &[u8],
    start: usize,
    glyphs: &mut [u16],
    tags: &[u16],
    homes: &[u16],
    used: usize,
) -> u32
    ensures answer { result ≡ number_of (pass_call noncontextual table.now start
        (line_of glyphs.old tags.now homes.now used)).answer }
    ensures glyphs { glyphs.new ≡ (call_leaves noncontextual table.now start
        (line_of glyphs.old tags.now homes.now used)).glyphs }
{
    u32::from(noncontextual::pass(table, start, glyphs, tags, homes, used))
}

// The contextual pass over a line, by the subtable at `start`.
#[unsafe(no_mangle)]
pub extern "C" fn aat_contextual_pass(
    table: &[u8],
    start: usize,
    glyphs: &mut [u16],
    tags: &[u16],
    homes: &[u16],
    used: usize,
) -> u32
    ensures answer { result ≡ number_of (pass_call (subtable_of contextual) table.now start
        (line_of glyphs.old tags.now homes.now used)).answer }
    ensures glyphs { glyphs.new ≡ (call_leaves (subtable_of contextual) table.now start
        (line_of glyphs.old tags.now homes.now used)).glyphs }
{
    u32::from(contextual::pass(table, start, glyphs, tags, homes, used))
}

// The insertion pass over a line, by the subtable at `start`.
#[unsafe(no_mangle)]
pub extern "C" fn aat_insertion_pass(
    table: &[u8],
    start: usize,
    glyphs: &mut [u16],
    tags: &mut [u16],
    homes: &[u16],
    used: &mut usize,
) -> u32
    ensures answer { result ≡ number_of (pass_call (subtable_of insertion) table.now start
        (line_of glyphs.old tags.old homes.now used.old)).answer }
    ensures glyphs { glyphs.new ≡ (call_leaves (subtable_of insertion) table.now start
        (line_of glyphs.old tags.old homes.now used.old)).glyphs }
    ensures tags { tags.new ≡ (call_leaves (subtable_of insertion) table.now start
        (line_of glyphs.old tags.old homes.now used.old)).tags }
    ensures used { used.new ≡ (call_leaves (subtable_of insertion) table.now start
        (line_of glyphs.old tags.old homes.now used.old)).used }
{
    let passed = insertion::pass(table, start, glyphs, tags, homes, *used);
    *used = passed.used;
    u32::from(passed.answer)
}

// The ligature pass over a line, by the subtable at `start`.
#[unsafe(no_mangle)]
pub extern "C" fn aat_ligature_pass(
    table: &[u8],
    start: usize,
    glyphs: &mut [u16],
    tags: &[u16],
    homes: &mut [u16],
    used: usize,
) -> u32
    ensures answer { result ≡ number_of (pass_call (subtable_of ligature) table.now start
        (line_of glyphs.old tags.now homes.old used)).answer }
    ensures glyphs { glyphs.new ≡ (call_leaves (subtable_of ligature) table.now start
        (line_of glyphs.old tags.now homes.old used)).glyphs }
    ensures homes { homes.new ≡ (call_leaves (subtable_of ligature) table.now start
        (line_of glyphs.old tags.now homes.old used)).homes }
{
    u32::from(ligature::pass(table, start, glyphs, tags, homes, used))
}
