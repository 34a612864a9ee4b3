// The exported reels: many lines by one table.
ghost use Rattle.std.specs.Prelude.{◌≡◌};
ghost use Rattle.answers.specs.Numbers.{number_of};
ghost use Rattle.reel.specs.Reel.{reel_of, reel_answer};
ghost use Rattle.firmware.specs.Reels.{morx_reel, mort_reel};

use chains::Edition;
use morx::Choices;

// The run of every line of a reel, by the morx table at `start`, with the features that are asked for.
#[unsafe(no_mangle)]
#[tactic(auto, unfolding(crate::specs::Reels::morx_reel, crate::specs::Features::morx_run_with, crate::specs::Features::run_of, reel::specs::Morx::table_leaves))]
pub extern "C" fn aat_morx_reel(
    table: &[u8],
    start: usize,
    right_to_left: u32,
    requests: &[u32],
    rooms: &[usize],
    characters: &[usize],
    used: &mut [usize],
    answers: &mut [u32],
    heads: &mut [u32],
    glyphs: &mut [u16],
    tags: &mut [u16],
    homes: &mut [u16],
) -> u32
    ensures answer { result ≡ number_of (reel_answer (reel_of rooms.now characters.now
        used.old answers.old heads.old glyphs.old tags.old homes.old)) }
    ensures used { used.new ≡ (morx_reel table.now start right_to_left requests.now
        (reel_of rooms.now characters.now
        used.old answers.old heads.old glyphs.old tags.old homes.old)).used }
    ensures answers { answers.new ≡ (morx_reel table.now start right_to_left requests.now
        (reel_of rooms.now characters.now
        used.old answers.old heads.old glyphs.old tags.old homes.old)).answers }
    ensures heads { heads.new ≡ (morx_reel table.now start right_to_left requests.now
        (reel_of rooms.now characters.now
        used.old answers.old heads.old glyphs.old tags.old homes.old)).heads }
    ensures glyphs { glyphs.new ≡ (morx_reel table.now start right_to_left requests.now
        (reel_of rooms.now characters.now
        used.old answers.old heads.old glyphs.old tags.old homes.old)).glyphs }
    ensures tags { tags.new ≡ (morx_reel table.now start right_to_left requests.now
        (reel_of rooms.now characters.now
        used.old answers.old heads.old glyphs.old tags.old homes.old)).tags }
    ensures homes { homes.new ≡ (morx_reel table.now start right_to_left requests.now
        (reel_of rooms.now characters.now
        used.old answers.old heads.old glyphs.old tags.old homes.old)).homes }
{
    let choices = Choices {
        right_to_left: right_to_left != 0,
        edition: Edition::Morx,
    };
    u32::from(reel::run(
        table, start, choices, requests, rooms, characters, used, answers, heads, glyphs, tags,
        homes,
    ))
}

// The run of every line of a reel, by the mort table at `start`, with the features that are asked for.
#[unsafe(no_mangle)]
#[tactic(auto, unfolding(crate::specs::Reels::mort_reel, crate::specs::Features::mort_run, crate::specs::Features::run_of, reel::specs::Morx::table_leaves))]
pub extern "C" fn aat_mort_reel(
    table: &[u8],
    start: usize,
    right_to_left: u32,
    requests: &[u32],
    rooms: &[usize],
    characters: &[usize],
    used: &mut [usize],
    answers: &mut [u32],
    heads: &mut [u32],
    glyphs: &mut [u16],
    tags: &mut [u16],
    homes: &mut [u16],
) -> u32
    ensures answer { result ≡ number_of (reel_answer (reel_of rooms.now characters.now
        used.old answers.old heads.old glyphs.old tags.old homes.old)) }
    ensures used { used.new ≡ (mort_reel table.now start right_to_left requests.now
        (reel_of rooms.now characters.now
        used.old answers.old heads.old glyphs.old tags.old homes.old)).used }
    ensures answers { answers.new ≡ (mort_reel table.now start right_to_left requests.now
        (reel_of rooms.now characters.now
        used.old answers.old heads.old glyphs.old tags.old homes.old)).answers }
    ensures heads { heads.new ≡ (mort_reel table.now start right_to_left requests.now
        (reel_of rooms.now characters.now
        used.old answers.old heads.old glyphs.old tags.old homes.old)).heads }
    ensures glyphs { glyphs.new ≡ (mort_reel table.now start right_to_left requests.now
        (reel_of rooms.now characters.now
        used.old answers.old heads.old glyphs.old tags.old homes.old)).glyphs }
    ensures tags { tags.new ≡ (mort_reel table.now start right_to_left requests.now
        (reel_of rooms.now characters.now
        used.old answers.old heads.old glyphs.old tags.old homes.old)).tags }
    ensures homes { homes.new ≡ (mort_reel table.now start right_to_left requests.now
        (reel_of rooms.now characters.now
        used.old answers.old heads.old glyphs.old tags.old homes.old)).homes }
{
    let choices = Choices {
        right_to_left: right_to_left != 0,
        edition: Edition::Mort,
    };
    u32::from(reel::run(
        table, start, choices, requests, rooms, characters, used, answers, heads, glyphs, tags,
        homes,
    ))
}
