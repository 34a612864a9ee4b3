// What a caller chooses for a pass or a run of kern or kerx.
ghost use Rattle.std.specs.Prelude.{◌≡◌};
ghost use Rattle.kerning.specs.Choices.{rule_of, reading_of, choices_of, unchosen};

use tables::units::Reading;

// Which two places are a pair.
#[derive(Clone, Copy)]
pub enum PairRule {
    // Neighbours, whatever their glyphs.
    Neighbours,
    // Joined pairs: two glyphs below 0xFFFF with only 0xFFFF between them.
    Joined,
}

#[derive(Clone, Copy)]
pub struct Choices {
    pub pairs: PairRule,
    // Of kerx alone: its lists, lookups and tuples.
    pub reading: Reading,
}

// The bit of joined pairs.
pub const JOINED_PAIRS: u32 = 1;

// The bit of the manual's reading.
pub const MANUAL_LISTS: u32 = 2;

#[tactic(auto, unfolding(crate::specs::Choices::rule_of))]
fn rule_of(bits: u32) -> PairRule
    ensures { result ≡ rule_of bits }
{
    if parse::is_set(bits, JOINED_PAIRS) {
        PairRule::Joined
    } else {
        PairRule::Neighbours
    }
}

#[tactic(auto, unfolding(crate::specs::Choices::reading_of))]
fn reading_of(bits: u32) -> Reading
    ensures { result ≡ reading_of bits }
{
    if parse::is_set(bits, MANUAL_LISTS) {
        Reading::Manual
    } else {
        Reading::Crate
    }
}

// The choices that the bits of a number make; those without a name are not looked at.
impl From<u32> for Choices {
    ghost from_gives = { λ bits choices. choices ≡ choices_of bits };

    #[tactic(auto, unfolding(crate::specs::Choices::choices_of))]
    fn from(bits: u32) -> Choices
        ensures { result ≡ choices_of bits }
    {
        Choices {
            pairs: rule_of(bits),
            reading: reading_of(bits),
        }
    }
}

// No choice made.
impl Default for Choices {
    ghost is_default = { λ choices. choices ≡ unchosen };

    fn default() -> Choices
        ensures { result ≡ unchosen }
    {
        Choices {
            pairs: PairRule::Neighbours,
            reading: Reading::Crate,
        }
    }
}
