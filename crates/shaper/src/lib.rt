// The shaper: takes its input apart into a morx table and a line of glyphs, and runs the one over the other.
#![tactic(auto)]

ghost use Rattle.std.specs.Prelude.{◌≡◌, [], ◌/◌, ◌≤◌, length, Ok};
ghost use Rattle.answers.specs.Limits.{room_limit};
ghost use Rattle.morx.specs.Work.{run_reply_of};
ghost use Rattle.morx.specs.Calls.{run_call, run_leaves};
ghost use Rattle.shaper.specs.Shaper.{shaper_room, input_of, left_to_right, start_line, shaped_in, shaped};

use answers::{Answer, Refusal};
use chains::Edition;
use morx::{Choices, RunReply};

// The most bytes that the shaper's table may have.
pub const SHAPER_TABLE: u32 = 32_768;

// The places of the shaper's line.
pub const SHAPER_ROOM: usize = 4096;

// What the shaper answers: beside the answer how many heads were read, the used length and the number of characters, all 0 where
// the input is refused.
#[derive(Clone, Copy)]
pub struct Shaped {
    pub answer: Answer,
    pub heads: u32,
    pub used: usize,
    pub characters: usize,
}

// Takes the input apart.
#[tactic(auto, unfolding(crate::specs::Shaper::input_of, crate::specs::Shaper::line_in, crate::specs::Shaper::shaper_table, crate::specs::Shaper::shaper_room))]
pub fn read_input(input: &[u8]) -> Result<usize, Refusal>
    ensures { result ≡ input_of input.now }
{
    let size = parse::read_u32(input, 0).ok_or(Refusal::Line)?;
    if SHAPER_TABLE < size {
        return Err(Refusal::Table);
    }
    let end = 4 + size as usize;
    let count = parse::read_u16(input, end).ok_or(Refusal::Line)?;
    if SHAPER_ROOM < count as usize {
        return Err(Refusal::Line);
    }
    if input.len() != end + 2 + count as usize * 2 {
        return Err(Refusal::Line);
    }
    Ok(end)
}

// Starts a line with the glyphs of `new`, two bytes and a home for each, and runs the table over it.
fn shape_line(
    table: &[u8],
    new: &[u8],
    glyphs: &mut [u16],
    tags: &mut [u16],
    homes: &mut [u16],
) -> RunReply
    requires { (length homes.old ≡ length new.now / 2) × (length new.now / 2 ≤ length glyphs.old) × (length new.now / 2 ≤ length tags.old) ×
        (length new.now / 2 ≤ room_limit) }
    ensures reply { result ≡ run_reply_of (run_call table.now 0 left_to_right
        (start_line new.now glyphs.old tags.old homes.old) [])
        (start_line new.now glyphs.old tags.old homes.old) }
    ensures glyphs { glyphs.new ≡ (run_leaves table.now 0 left_to_right
        (start_line new.now glyphs.old tags.old homes.old) []).glyphs }
    ensures tags { tags.new ≡ (run_leaves table.now 0 left_to_right
        (start_line new.now glyphs.old tags.old homes.old) []).tags }
    ensures homes { homes.new ≡ (run_leaves table.now 0 left_to_right
        (start_line new.now glyphs.old tags.old homes.old) []).homes }
{
    let characters = homes.len();
    line::edits::insert(glyphs, tags, 0, 0, new);
    line::edits::number(homes, 0, 0, characters);
    let choices = Choices {
        right_to_left: false,
        edition: Edition::Morx,
    };
    morx::run(table, 0, choices, glyphs, tags, homes, characters, &[])
}

// Shapes the line of an input whose table ends at `end`.
fn shape_input(
    input: &[u8],
    end: usize,
    glyphs: &mut [u16],
    tags: &mut [u16],
    homes: &mut [u16],
) -> Shaped
    requires { (input_of input.now ≡ Ok end) × (length glyphs.old ≡ shaper_room) × (length tags.old ≡ shaper_room) ×
        (length homes.old ≡ shaper_room) }
    ensures reply { result ≡ (shaped_in input.now end glyphs.old tags.old homes.old).reply }
    ensures glyphs { glyphs.new ≡ (shaped_in input.now end glyphs.old tags.old homes.old).glyphs }
    ensures tags { tags.new ≡ (shaped_in input.now end glyphs.old tags.old homes.old).tags }
    ensures homes { homes.new ≡ (shaped_in input.now end glyphs.old tags.old homes.old).homes }
{
    let table = &input[4..end];
    let new = &input[end + 2..];
    let characters = new.len() / 2;
    let reply = shape_line(table, new, glyphs, tags, &mut homes[..characters]);
    Shaped {
        answer: reply.answer,
        heads: reply.heads,
        used: reply.used,
        characters,
    }
}

// Shapes the line of an input in the room that is lent.
pub fn shape(
    input: &[u8],
    glyphs: &mut [u16; SHAPER_ROOM],
    tags: &mut [u16; SHAPER_ROOM],
    homes: &mut [u16; SHAPER_ROOM],
) -> Shaped
    ensures reply { result ≡ (shaped input.now glyphs.old tags.old homes.old).reply }
    ensures glyphs { glyphs.new ≡ (shaped input.now glyphs.old tags.old homes.old).glyphs }
    ensures tags { tags.new ≡ (shaped input.now glyphs.old tags.old homes.old).tags }
    ensures homes { homes.new ≡ (shaped input.now glyphs.old tags.old homes.old).homes }
{
    match read_input(input) {
        Ok(end) => shape_input(input, end, glyphs, tags, homes),
        Err(why) => Shaped {
            answer: Answer::Refused(why),
            heads: 0,
            used: 0,
            characters: 0,
        },
    }
}
