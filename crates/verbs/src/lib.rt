// The sixteen verbs of rearrangement, in place, on the part of a line from a window's first place on.
#![tactic(auto)]

ghost use Rattle.std.specs.Prelude.{◌≡◌, ◌+◌, ◌-◌, ◌≤◌, ◌<◌, min, length};
ghost use Rattle.verbs.specs.Verbs.{groups_of, size_of, moved, taken, rearranged};
ghost use Rattle.verbs.specs.Steps.{Filled, lifted, held_at};

// What stands at one end of a verb's window: no glyph, one, two, or two that change places.
#[derive(Clone, Copy)]
enum Group {
    Absent,
    One,
    Two,
    Flipped,
}

// The groups that a verb moves: the left one to the window's end, and the right one to its start.
#[derive(Clone, Copy)]
struct Groups(Group, Group);

// A group taken out of the line: its first glyph or tag and its second, as many as it has.
#[derive(Clone, Copy)]
struct Held(u16, u16);

// Document 01's table of verbs.
const TABLE: [Groups; 16] = [
    Groups(Group::Absent, Group::Absent), // 0 none
    Groups(Group::One, Group::Absent), // 1 Ax→xA
    Groups(Group::Absent, Group::One), // 2 xD→Dx
    Groups(Group::One, Group::One), // 3 AxD→DxA
    Groups(Group::Two, Group::Absent), // 4 ABx→xAB
    Groups(Group::Flipped, Group::Absent), // 5 ABx→xBA
    Groups(Group::Absent, Group::Two), // 6 xCD→CDx
    Groups(Group::Absent, Group::Flipped), // 7 xCD→DCx
    Groups(Group::One, Group::Two), // 8 AxCD→CDxA
    Groups(Group::One, Group::Flipped), // 9 AxCD→DCxA
    Groups(Group::Two, Group::One), // 10 ABxD→DxAB
    Groups(Group::Flipped, Group::One), // 11 ABxD→DxBA
    Groups(Group::Two, Group::Two), // 12 ABxCD→CDxAB
    Groups(Group::Flipped, Group::Two), // 13 ABxCD→CDxBA
    Groups(Group::Two, Group::Flipped), // 14 ABxCD→DCxAB
    Groups(Group::Flipped, Group::Flipped), // 15 ABxCD→DCxBA
];

// A verb's row of the table.
#[tactic(auto, unfolding(crate::specs::Verbs::groups_of))]
fn groups_of(verb: u16) -> Groups
    ensures { result ≡ groups_of verb }
{
    TABLE[(verb % 16) as usize]
}

// How many places a group has.
fn size_of(group: Group) -> usize
    ensures { (result ≡ size_of group) × (result ≤ 2) }
{
    match group {
        Group::Absent => 0,
        Group::One => 1,
        Group::Two | Group::Flipped => 2,
    }
}

// Takes out the group that starts at `at`, in the order in which the verb puts it down.
fn lift(part: &[u16], at: usize, group: Group) -> Held
    requires { at + size_of group ≤ length part.now }
    ensures { result ≡ lifted part.now at group }
{
    match group {
        Group::Absent => Held(0, 0),
        Group::One => Held(part[at], 0),
        Group::Two => Held(part[at], part[at + 1]),
        Group::Flipped => Held(part[at + 1], part[at]),
    }
}

// Puts a group of `size` down at `at`.
#[tactic(auto, using(crate::proofs::Steps::put_one, crate::proofs::Steps::put_two))]
fn put(part: &mut [u16], at: usize, size: usize, held: Held)
    requires { (size ≤ 2) × (at + size ≤ length part.old) }
    ensures { Filled (held_at held at) at (at + size) part.old part.new }
{
    if size == 0 {
        return;
    }
    part[at] = held.0;
    if size == 1 {
        return;
    }
    part[at + 1] = held.1;
}

// Exchanges the groups at the ends of a window that has room for both.
fn exchange(part: &mut [u16], end: usize, left: Group, right: Group)
    requires { (size_of left + size_of right ≤ end) × (end ≤ length part.old) }
    ensures { part.new ≡ taken (moved right left end) part.old }
{
    let left_size = size_of(left);
    let right_size = size_of(right);
    let first = lift(part, 0, left);
    let last = lift(part, end - right_size, right);
    if left_size != right_size {
        part.copy_within(left_size..end - right_size, right_size);
    }
    put(part, 0, right_size, last);
    put(part, end - left_size, left_size, first);
}

// Rearranges one list: `part` starts with the window, whose end is first cut to the part's.
#[tactic(auto, using(crate::proofs::Steps::stayed, crate::proofs::Steps::carried))]
fn rearrange_part(part: &mut [u16], width: usize, verb: u16)
    ensures { part.new ≡ rearranged verb (min width (length part.old)) part.old }
{
    let Groups(left, right) = groups_of(verb);
    let end = width.min(part.len());
    if end < size_of(left) + size_of(right) {
        return;
    }
    exchange(part, end, left, right);
}

// Rearranges the window of `width` places, or as many as there are, with which the lent parts start: tags move with glyphs.
pub fn rearrange(glyphs: &mut [u16], tags: &mut [u16], width: usize, verb: u16)
    ensures glyphs { glyphs.new ≡ rearranged verb (min width (length glyphs.old)) glyphs.old }
    ensures tags { tags.new ≡ rearranged verb (min width (length tags.old)) tags.old }
{
    rearrange_part(glyphs, width, verb);
    rearrange_part(tags, width, verb);
}
