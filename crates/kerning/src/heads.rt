// What a subtable's head gives, of whatever its machine or its pairs are: what is ready, or why nothing is.
ghost use Rattle.std.specs.Prelude.{◌≡◌};
ghost use Rattle.kerning.specs.Heads.{barred, is_short, is_tupled, refusal};

use answers::Refusal;

// Why nothing is ready: the head can't be read, or the subtable has tuples, where these are refused.
#[derive(Clone, Copy)]
pub enum Unready {
    Short,
    Tupled,
}

// What refuses a call because of it.
impl From<Unready> for Refusal {
    ghost from_gives = { λ why result. result ≡ refusal why };

    fn from(why: Unready) -> Refusal {
        match why {
            Unready::Short => Refusal::Head,
            Unready::Tupled => Refusal::Tuples,
        }
    }
}

// What a head gives, where tuples are refused or not.
#[tactic(auto, unfolding(crate::specs::Heads::barred))]
pub fn barred<T: Copy>(tupled: bool, opened: Result<T, Unready>) -> Result<T, Unready>
    ensures { result ≡ barred tupled opened }
{
    if tupled {
        opened?;
        return Err(Unready::Tupled);
    }
    opened
}

// Whether the head can't be read.
pub fn is_short<T: Copy>(opened: Result<T, Unready>) -> bool
    ensures { result ≡ is_short opened }
{
    matches!(opened, Err(Unready::Short))
}

// Whether it has tuples that are refused.
pub fn is_tupled<T: Copy>(opened: Result<T, Unready>) -> bool
    ensures { result ≡ is_tupled opened }
{
    matches!(opened, Err(Unready::Tupled))
}
