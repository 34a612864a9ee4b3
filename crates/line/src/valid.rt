// The LINE test: one pass over the tags, with a bit for each that was met, and one over the homes.
ghost use Rattle.std.specs.Prelude.{◌≡◌, ◌*◌, ◌/◌, ◌<◌, ◌≤◌, length, replicate};
ghost use Rattle.answers.specs.Limits.{room_limit};
ghost use Rattle.line.specs.Line.{line_of};
ghost use Rattle.line.specs.Test.{is_once_each, are_housed, is_legal, is_valid};
ghost use Rattle.line.specs.Seen.{has_seen, with_tag, are_in_order};

use answers::ROOM;

// Words of 64 bits that have a bit for each tag, and how many are enough for a short line, which does not wait until all are zeroed.
pub const WORDS: usize = ROOM / 64;

const SHORT: usize = 4096;

// Whether the tag was met.
#[tactic(auto, unfolding(crate::specs::Seen::has_seen))]
pub fn has_seen(seen: &[u64], tag: u16) -> bool
    requires { tag / 64 < length seen.now }
    ensures { result ≡ has_seen seen.now tag }
{
    (seen[(tag / 64) as usize] >> (tag % 64)) % 2 == 1
}

// The tag is met.
#[tactic(auto, using(crate::proofs::Seen::one_shifted), unfolding(crate::specs::Seen::with_tag))]
pub fn mark(seen: &mut [u64], tag: u16)
    requires { tag / 64 < length seen.old }
    ensures { seen.new ≡ with_tag seen.old tag }
{
    seen[(tag / 64) as usize] |= 1 << (tag % 64);
}

// Whether the tags are those from 0 up once each, with words in which no tag was met.
#[tactic(auto, using(crate::proofs::Seen::marking_word, crate::proofs::Seen::marking_done))]
fn once_each_in(seen: &mut [u64], tags: &[u16]) -> bool
    requires { (length tags.now ≤ length seen.old * 64) × (seen.old ≡ replicate (length seen.old) 0) }
    ensures { result ≡ is_once_each tags.now (length tags.now) }
{
    for &tag in tags {
        if tags.len() <= tag as usize || has_seen(seen, tag) {
            return false;
        }
        mark(seen, tag);
    }
    true
}

// Whether the tags are those from 0 up once each.
#[tactic(auto, using(crate::proofs::Room::room_words))]
fn once_each(tags: &[u16]) -> bool
    requires { length tags.now ≤ room_limit }
    ensures { result ≡ is_once_each tags.now (length tags.now) }
{
    if tags.len() <= SHORT {
        return once_each_in(&mut [0u64; SHORT / 64], tags);
    }
    once_each_in(&mut [0u64; WORDS], tags)
}

// Whether the tags count up from 0. This loop and the next look at every number, so that several are compared at once.
#[tactic(auto, using(crate::proofs::Room::room_small), unfolding(laws::specs::Lists::every, crate::specs::Seen::are_in_order))]
fn in_order(tags: &[u16]) -> bool
    requires { length tags.now ≤ room_limit }
    ensures { result ≡ are_in_order tags.now (length tags.now) }
{
    let mut all = true;
    for (p, &tag) in tags.iter().enumerate() {
        all &= tag == p as u16;
    }
    all
}

// Whether every home is below the used length.
#[tactic(auto, unfolding(laws::specs::Lists::every, crate::specs::Test::are_housed))]
fn housed(homes: &[u16], used: usize) -> bool
    ensures { result ≡ are_housed homes.now used }
{
    let mut all = true;
    for &home in homes {
        all &= (home as usize) < used;
    }
    all
}

// Whether tags and homes are those of a line of `used` places.
#[tactic(auto, using(crate::proofs::Tests::once_taken, crate::proofs::Tests::order_taken, crate::proofs::Tests::once_in_order), unfolding(crate::specs::Test::is_legal))]
pub fn legal(tags: &[u16], homes: &[u16], used: usize) -> bool
    requires { (used ≤ length tags.now) × (used ≤ room_limit) }
    ensures { result ≡ is_legal tags.now homes.now used }
{
    let tags = &tags[..used];
    homes.len() <= used && housed(homes, used) && (in_order(tags) || once_each(tags))
}

// Whether the lent line is one that LINE does not refuse.
#[tactic(auto, unfolding(answers::specs::Limits::room_limit, crate::specs::Test::is_valid))]
pub fn takes(glyphs: &[u16], tags: &[u16], homes: &[u16], used: usize) -> bool
    ensures { result ≡ is_valid (line_of glyphs.now tags.now homes.now used) }
{
    tags.len() == glyphs.len()
        && glyphs.len() <= ROOM
        && used <= glyphs.len()
        && legal(tags, homes, used)
}
