// A result of the shaper beside the numbers that the sample has for it.
ghost use Rattle.std.specs.Prelude.{◌≡◌};
ghost use Rattle.replay.specs.Results.{word_at, has_words, is_result};

use shaper::{SHAPER_ROOM, Shaped};

// The 16-bit number at a place, 0 where there is none.
#[tactic(auto, unfolding(crate::specs::Results::word_at))]
pub fn word(bytes: &[u8], at: usize) -> u16
    ensures { result ≡ word_at bytes.now at }
{
    parse::read_u16(bytes, at).unwrap_or(0)
}

// Whether the numbers begin with the first `count` words.
fn has_words(numbers: &[u8], words: &[u16], count: usize) -> bool
    ensures { result ≡ has_words numbers.now words.now count }
{
    if words.len() < count {
        return false;
    }
    for place in 0..count {
        if words[place] != word(numbers, place * 2) {
            return false;
        }
    }
    true
}

// Whether the numbers are the result: answer, heads, used length and characters, then the used glyphs and tags, and the homes.
#[tactic(auto, unfolding(crate::specs::Results::is_result))]
pub fn is_result(
    numbers: &[u8],
    shaped: Shaped,
    glyphs: &[u16; SHAPER_ROOM],
    tags: &[u16; SHAPER_ROOM],
    homes: &[u16; SHAPER_ROOM],
) -> bool
    ensures { result ≡ is_result numbers.now shaped glyphs.now tags.now homes.now }
{
    let used = word(numbers, 4) as usize;
    let characters = word(numbers, 6) as usize;
    u32::from(shaped.answer) == word(numbers, 0) as u32
        && shaped.heads == word(numbers, 2) as u32
        && shaped.used == used
        && shaped.characters == characters
        && numbers.len() == 8 + used * 4 + characters * 2
        && has_words(parse::from(numbers, 8), glyphs, used)
        && has_words(parse::from(numbers, 8 + used * 2), tags, used)
        && has_words(parse::from(numbers, 8 + used * 4), homes, characters)
}
