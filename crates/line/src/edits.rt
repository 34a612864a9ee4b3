// The edits on the lent line: each leaves what `apply` says of its slices.
ghost use Rattle.std.specs.Prelude.{◌≡◌, ◌+◌, ◌/◌, ◌≤◌, ◌<◌, min, length};
ghost use Rattle.std.proofs.Math.Seq.{paste};
ghost use Rattle.answers.specs.Limits.{room_limit};
ghost use Rattle.laws.specs.Backward.{backward};
ghost use Rattle.line.specs.Edits.{width_of};
ghost use Rattle.line.specs.Changes.{windowed, spliced, numbers_from, written, emptied, rehomed, handed, joined_glyphs, joined_homes, glyphs_of};
ghost use Rattle.line.specs.Steps.{raised};

// The glyph of a place whose characters a ligature has taken.
const DELETED: u16 = 0xFFFF;

// Writes a glyph at a place of the line; elsewhere it is skipped.
#[tactic(auto, unfolding(crate::specs::Changes::written))]
pub fn write(glyphs: &mut [u16], used: usize, at: usize, glyph: u16)
    requires { used ≤ length glyphs.old }
    ensures { glyphs.new ≡ written used at glyph glyphs.old }
{
    if at < used {
        glyphs[at] = glyph;
    }
}

// Turns the used part of the line round.
#[tactic(auto, using(crate::proofs::Loops::turned_part, laws::proofs::Backward::backward_none))]
#[inline(always)]
pub fn reverse(glyphs: &mut [u16], tags: &mut [u16], used: usize)
    requires { (used ≤ length glyphs.old) × (used ≤ length tags.old) }
    ensures glyphs { glyphs.new ≡ backward used glyphs.old }
    ensures tags { tags.new ≡ backward used tags.old }
{
    if used == 0 {
        return;
    }
    glyphs[..used].reverse();
    tags[..used].reverse();
}

// What stands from `at` to the used length moves up `count` places. Where the distance is fixed and the moved ones begin the slice, compilers
// make one move of memory of it.
fn raise(part: &mut [u16], at: usize, used: usize, count: usize)
    requires { (at ≤ used) × (used + count ≤ length part.old) }
    ensures { part.new ≡ raised at used count part.old }
{
    if count == 1 {
        part[at..].copy_within(..used - at, 1);
    } else {
        part.copy_within(at..used, at + count);
    }
}

// Writes `count` numbers from `first` up, in order.
#[tactic(auto, using(crate::proofs::Loops::pasting_start, crate::proofs::Loops::number_next, crate::proofs::Loops::pasting_done))]
pub fn number(part: &mut [u16], at: usize, first: usize, count: usize)
    requires { (at + count ≤ length part.old) × (first + count ≤ 65536) }
    ensures { part.new ≡ paste part.old at (numbers_from first count) count }
{
    for k in 0..count {
        part[at + k] = (first + k) as u16;
    }
}

// Writes the glyphs of a list of big-endian bytes.
#[tactic(auto, using(crate::proofs::Loops::pasting_start, crate::proofs::Loops::pasting_done))]
fn put(glyphs: &mut [u16], at: usize, new: &[u8])
    requires { at + length new.now / 2 ≤ length glyphs.old }
    ensures { glyphs.new ≡ paste glyphs.old at (glyphs_of new.now) (length new.now / 2) }
{
    for k in 0..new.len() / 2 {
        glyphs[at + k] = parse::u16_at(new, k * 2);
    }
}

// Inserts the glyphs of `new`, two bytes for each, at a place of the line, or at its end where the place is above that. They get
// the tags from the used length up. Returns the used length afterwards.
pub fn insert(glyphs: &mut [u16], tags: &mut [u16], used: usize, at: usize, new: &[u8]) -> usize
    requires { (used + length new.now / 2 ≤ length glyphs.old) × (used + length new.now / 2 ≤ length tags.old) ×
        (used + length new.now / 2 ≤ room_limit) }
    ensures glyphs { glyphs.new ≡ spliced (min at used) used (glyphs_of new.now) glyphs.old }
    ensures tags { tags.new ≡ spliced (min at used) used (numbers_from used (length new.now / 2)) tags.old }
    ensures used { result ≡ used + length new.now / 2 }
{
    let count = new.len() / 2;
    if count == 0 {
        return used;
    }
    let place = at.min(used);
    raise(glyphs, place, used, count);
    put(glyphs, place, new);
    raise(tags, place, used, count);
    number(tags, place, used, count);
    used + count
}

// The characters of one tag go to another.
#[tactic(auto, using(crate::proofs::Loops::pasting_start, crate::proofs::Loops::rehome_done))]
fn rehome(homes: &mut [u16], from: u16, to: u16)
    ensures { homes.new ≡ rehomed from to homes.old }
{
    for home in homes.iter_mut() {
        *home = if *home == from { to } else { *home };
    }
}

// One component of a ligature at a place of the line: its place is deleted and its characters go to the ligature's tag. At the
// ligature's own place, and off the line, it is skipped.
#[tactic(auto, unfolding(crate::specs::Changes::is_part, crate::specs::Changes::emptied, crate::specs::Changes::handed))]
pub fn join(
    glyphs: &mut [u16],
    tags: &[u16],
    homes: &mut [u16],
    used: usize,
    at: usize,
    part: usize,
)
    requires { (used ≤ length glyphs.old) × (used ≤ length tags.now) × (at < used) }
    ensures glyphs { glyphs.new ≡ emptied used at part glyphs.old }
    ensures homes { homes.new ≡ handed used at part tags.now homes.old }
{
    if part < used && part != at {
        glyphs[part] = DELETED;
        rehome(homes, tags[part], tags[at]);
    }
}

// A ligature with its components, one after the other; off the line all of it is skipped.
#[tactic(auto, using(crate::proofs::Loops::joining_start, crate::proofs::Loops::joining_glyphs, crate::proofs::Loops::joining_homes), unfolding(crate::specs::Changes::joined_glyphs, crate::specs::Changes::joined_homes))]
pub fn ligate(
    glyphs: &mut [u16],
    tags: &[u16],
    homes: &mut [u16],
    used: usize,
    at: usize,
    glyph: u16,
    parts: &[usize],
)
    requires { (used ≤ length glyphs.old) × (used ≤ length tags.now) }
    ensures glyphs { glyphs.new ≡ joined_glyphs used at glyph parts.now glyphs.old }
    ensures homes { homes.new ≡ joined_homes used at parts.now tags.now homes.old }
{
    if used <= at {
        return;
    }
    glyphs[at] = glyph;
    for &part in parts {
        join(glyphs, tags, homes, used, at, part);
    }
}

// A verb on the window from `first` to `last`, whose end is cut to the line.
#[tactic(auto, using(crate::proofs::Returns::window_off, crate::proofs::Returns::window_on))]
pub fn rearrange(
    glyphs: &mut [u16],
    tags: &mut [u16],
    used: usize,
    first: usize,
    last: usize,
    verb: u16,
)
    requires { (used ≤ length glyphs.old) × (used ≤ length tags.old) }
    ensures glyphs { glyphs.new ≡ windowed first (width_of first last used) verb glyphs.old }
    ensures tags { tags.new ≡ windowed first (width_of first last used) verb tags.old }
{
    let end = last.saturating_add(1).min(used);
    if end <= first {
        return;
    }
    verbs::rearrange(&mut glyphs[first..], &mut tags[first..], end - first, verb);
}
