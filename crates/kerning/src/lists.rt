// A list of numbers, each of which pops a place off the stack and is added to it.
ghost use Rattle.std.specs.Prelude.{◌≡◌, ◌<◌, ◌≤◌, ◌^◌, length};
ghost use Rattle.kerning.specs.Additions.{additions_at, add_all};
ghost use Rattle.kerning.specs.Bounds.{Within};
ghost use Rattle.kerning.specs.declared.lists.Rule.{Rule};
ghost use Rattle.kerning.specs.Lists.{amount_of, ruled, number_at, walk};

// The most places of a stack.
pub const DEPTH: usize = 8;

// When a list ends.
#[derive(Clone, Copy)]
pub enum Rule {
    // kern: an odd number is the last; across the stream one number adds nothing.
    Odd { crossed: bool },
    // kerx, as the crate has it: no number is.
    Never,
    // kerx in the manual's reading: a mark stops it, and pops nothing.
    Marked,
}

// A number of a list, by its rule: none can be read, it stops the list, is the last, or the list goes on.
#[derive(Clone, Copy)]
pub enum Number {
    Short,
    Stop,
    Last(i16),
    More(i16),
}

// How a list was left: whether a number could not be read, and how deep the stack is then.
#[derive(Clone, Copy)]
pub struct Walked {
    pub ended: bool,
    pub depth: usize,
}

// The number of a cross-stream list that puts the stream back, and adds nothing.
pub const BACK: u16 = 0x8000;

// The mark behind a list of kerx's in the manual's reading.
pub const MARK: u16 = 0xFFFF;

// A rule by which a list ends. A type for each has a walk of its own, which its one caller takes in whole.
pub trait EndRule: Copy {
    // Which rule it is.
    ghost rule: { Self → Rule };

    // What it makes of a number.
    fn make(self, number: u16) -> Number
        ensures { result ≡ ruled (rule self) number };
}

// kern's rule.
#[derive(Clone, Copy)]
pub struct Odd {
    pub crossed: bool,
}

// The crate's rule for kerx.
#[derive(Clone, Copy)]
pub struct Never;

// What a number of kern's adds.
#[tactic(auto, unfolding(crate::specs::Lists::amount_of))]
fn amount_of(crossed: bool, number: u16) -> i16
    ensures { result ≡ amount_of crossed number }
{
    if crossed && number == BACK {
        return 0;
    }
    parse::to_signed16(number)
}

impl EndRule for Odd {
    ghost rule = { λ odd. Rule.Odd odd.crossed };

    #[tactic(auto, unfolding(crate::specs::Lists::ruled))]
    fn make(self, number: u16) -> Number {
        if number % 2 == 1 {
            return Number::Last(amount_of(self.crossed, number - 1));
        }
        Number::More(amount_of(self.crossed, number))
    }
}

impl EndRule for Never {
    ghost rule = { λ _. Rule.Never };

    #[tactic(auto, unfolding(crate::specs::Lists::ruled))]
    fn make(self, number: u16) -> Number {
        Number::More(parse::to_signed16(number))
    }
}

// Whichever rule it is.
impl EndRule for Rule {
    ghost rule = { λ rule. rule };

    #[tactic(auto, unfolding(crate::specs::Lists::ruled))]
    fn make(self, number: u16) -> Number {
        match self {
            Rule::Odd { crossed } => Odd { crossed }.make(number),
            Rule::Marked if number == MARK => Number::Stop,
            Rule::Never | Rule::Marked => Never.make(number),
        }
    }
}

// The number at a place of the list.
#[tactic(auto, unfolding(crate::specs::Lists::number_at))]
fn number_at<R: EndRule>(bytes: &[u8], rule: R, place: usize) -> Number
    ensures { result ≡ number_at bytes.now (R.rule rule) place }
{
    match parse::read_u16(bytes, place) {
        Some(number) => rule.make(number),
        None => Number::Short,
    }
}

// A number added at a place; one outside the line is skipped.
#[tactic(auto, unfolding(crate::specs::Additions::additions_at, crate::specs::Additions::add_all))]
fn add_in_line(along: &mut [i64], used: usize, place: usize, number: i16)
    requires { (used ≤ length along.old) × Within (2 ^ 62) along.old }
    ensures { along.new ≡ add_all (additions_at used place number) along.old }
{
    if place < used {
        crate::add(along, place, number);
    }
}

// The list whose first number is at `place`, the others `stride` bytes apart: each pops a place, the one pushed last first. After the last
// number the rest of the stack is dropped.
pub fn walk<R: EndRule>(
    bytes: &[u8],
    rule: R,
    stride: usize,
    place: usize,
    stack: &[usize; DEPTH],
    depth: usize,
    used: usize,
    along: &mut [i64],
) -> Walked
    requires { (stride ≤ 2 ^ 40) × (depth ≤ 8) × (used ≤ length along.old) × Within (2 ^ 61) along.old }
    ensures left { result ≡ (walk bytes.now (R.rule rule) stride stack.now used depth place).left }
    ensures along { along.new ≡ add_all (walk bytes.now (R.rule rule) stride stack.now used depth place).additions
        along.old }
{
    let mut next = place;
    for left in (0..depth).rev() {
        match number_at(bytes, rule, next) {
            Number::Short => {
                return Walked {
                    ended: true,
                    depth: left + 1,
                };
            }
            Number::Stop => {
                return Walked {
                    ended: false,
                    depth: left + 1,
                };
            }
            Number::Last(amount) => {
                add_in_line(along, used, stack[left], amount);
                return Walked {
                    ended: false,
                    depth: 0,
                };
            }
            Number::More(amount) => add_in_line(along, used, stack[left], amount),
        }
        next += stride;
    }
    Walked {
        ended: false,
        depth: 0,
    }
}
