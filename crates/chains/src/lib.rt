// The heads of a morx table, and of a mort table, its earlier edition: chains, features and subtables as lists that cursors go through, and the walk over
// all heads.
#![tactic(auto)]

ghost use Rattle.std.specs.Prelude.{◌≡◌, ◌+◌, ◌*◌, ◌<◌, ◌≤◌, length};
ghost use Rattle.answers.specs.Refuse.{refuse};
ghost use Rattle.parse.specs.Reads.{u32_at};
ghost use Rattle.chains.specs.Orders.{kind_number, order_of, old_order, order_in, order_number, is_reversed, is_vertical};
ghost use Rattle.chains.specs.Lists.{cursor, listed, width, number_at, chain_bytes, subtable_bytes, chains_from, chain_at, next_chain, feature_at, next_feature, subtable_at, next_subtable};
ghost use Rattle.chains.specs.Entries.{chains_call, chain_call, feature_call, subtable_call};
ghost use Rattle.chains.specs.Walk.{walk_from, next_head};

use answers::Refusal;

pub mod features;

// The two editions of a table with chains.
#[derive(Clone, Copy)]
pub enum Edition {
    Morx,
    Mort,
}

// Where a list goes on: the place of its next element in the table, and how many elements its count still gives.
#[derive(Clone, Copy)]
pub struct Cursor {
    pub place: usize,
    pub left: usize,
}

// A chain: its default flags, its features, its subtables, and the chains behind it.
#[derive(Clone, Copy)]
pub struct Chain {
    pub flags: u32,
    pub features: Cursor,
    pub subtables: Cursor,
    pub next: Cursor,
}

// A feature: its type and setting, the flags that it sets and those that it keeps, and the features behind it.
#[derive(Clone, Copy)]
pub struct Feature {
    pub selector: u16,
    pub setting: u16,
    pub enable: u32,
    pub disable: u32,
    pub next: Cursor,
}

// The order in which a subtable wants the glyphs.
#[derive(Clone, Copy)]
pub enum Order {
    Layout,
    ReverseLayout,
    Logical,
    ReverseLogical,
}

// A subtable: where its head begins, its coverage with what that says, its flags, and the subtables behind it.
#[derive(Clone, Copy)]
pub struct Subtable {
    pub place: usize,
    pub coverage: u32,
    // kept: the C interface gives the number of any kind, of those that no pass takes too.
    pub kind: u32,
    pub order: Order,
    pub vertical: bool,
    pub flags: u32,
    pub next: Cursor,
}

// A head that a walk reads.
#[derive(Clone, Copy)]
pub enum Head {
    Chain(Chain),
    Subtable(Subtable),
}

// Where a walk stands: the subtables that are left of the chain it is in, and the chains behind that.
#[derive(Clone, Copy)]
pub struct Walk {
    pub subtables: Cursor,
    pub chains: Cursor,
}

// A head, and the walk behind it.
#[derive(Clone, Copy)]
pub struct NextHead {
    pub head: Head,
    pub next: Walk,
}

// The coverage's bit for vertical text alone.
pub const VERTICAL: u32 = 0x8000_0000;

// The coverage's bit for descending order.
pub const DESCENDING: u32 = 0x4000_0000;

// The coverage's bit for both directions of text, which takes that for vertical text back.
pub const BOTH: u32 = 0x2000_0000;

// The coverage's bit for the order of characters.
pub const LOGICAL: u32 = 0x1000_0000;

// How many kinds the coverage's low byte can tell.
const KINDS: u32 = 256;

// The same bits of a mort coverage, which has none for the order of characters and three bits for its kind.
const OLD_VERTICAL: u32 = 0x8000;

const OLD_DESCENDING: u32 = 0x4000;

const OLD_BOTH: u32 = 0x2000;

const OLD_KINDS: u32 = 8;

// The number of bytes of a feature.
const FEATURE: usize = 12;

// The order that a coverage asks for.
#[tactic(auto, unfolding(crate::specs::Orders::order_of))]
pub fn order_of(coverage: u32) -> Order
    ensures { result ≡ order_of coverage }
{
    let descending = parse::is_set(coverage, DESCENDING);
    if parse::is_set(coverage, LOGICAL) {
        return if descending {
            Order::ReverseLogical
        } else {
            Order::Logical
        };
    }
    if descending {
        Order::ReverseLayout
    } else {
        Order::Layout
    }
}

// The number of an order.
// kept: the numbers are the C interface's, so each stands beside its order.
pub fn order_number(order: Order) -> u32
    ensures { result ≡ order_number order }
{
    match order {
        Order::Layout => 0,
        Order::ReverseLayout => 1,
        Order::Logical => 2,
        Order::ReverseLogical => 3,
    }
}

// Whether a line of this direction is turned for that order.
pub fn should_reverse(order: Order, right_to_left: bool) -> bool
    ensures { result ≡ is_reversed order right_to_left }
{
    match order {
        Order::Layout => right_to_left,
        Order::ReverseLayout => !right_to_left,
        Order::Logical => false,
        Order::ReverseLogical => true,
    }
}

// The order that a mort coverage asks for.
#[tactic(auto, unfolding(crate::specs::Orders::old_order))]
fn old_order(coverage: u32) -> Order
    ensures { result ≡ old_order coverage }
{
    if parse::is_set(coverage, OLD_DESCENDING) {
        return Order::ReverseLayout;
    }
    Order::Layout
}

// The order that a coverage of an edition asks for.
#[tactic(auto, unfolding(crate::specs::Orders::order_in))]
fn order_in(edition: Edition, coverage: u32) -> Order
    ensures { result ≡ order_in edition coverage }
{
    match edition {
        Edition::Morx => order_of(coverage),
        Edition::Mort => old_order(coverage),
    }
}

// The number of the kind that a coverage of an edition tells.
#[tactic(auto, unfolding(crate::specs::Orders::kind_number))]
fn kind_number(edition: Edition, coverage: u32) -> u32
    ensures { result ≡ kind_number edition coverage }
{
    match edition {
        Edition::Morx => coverage % KINDS,
        Edition::Mort => coverage % OLD_KINDS,
    }
}

// Whether a coverage is for vertical text alone.
#[tactic(auto, unfolding(crate::specs::Orders::is_vertical))]
fn is_vertical(edition: Edition, coverage: u32) -> bool
    ensures { result ≡ is_vertical edition coverage }
{
    match edition {
        Edition::Morx => !parse::is_set(coverage, BOTH) && parse::is_set(coverage, VERTICAL),
        Edition::Mort => !parse::is_set(coverage, OLD_BOTH)
            && parse::is_set(coverage, OLD_VERTICAL),
    }
}

// The 32-bit number whose halves these are.
fn joined(high: u16, low: u16) -> u32
    ensures { result ≡ high * 65536 + low }
{
    u32::from(high) * 65536 + u32::from(low)
}

// The 32-bit number at a place that is known to lie in the table.
fn u32_at(table: &[u8], at: usize) -> u32
    requires { at + 4 ≤ length table.now }
    ensures { result ≡ u32_at table.now at }
{
    joined(parse::u16_at(table, at), parse::u16_at(table, at + 2))
}

// How many bytes an edition's counts, lengths and coverages of subtables have.
#[tactic(auto, unfolding(crate::specs::Lists::width))]
fn width(edition: Edition) -> usize
    ensures { (result ≡ width edition) × (result ≤ 4) }
{
    match edition {
        Edition::Morx => 4,
        Edition::Mort => 2,
    }
}

// Such a number, at a place that is known to lie in the table.
#[tactic(auto, unfolding(crate::specs::Lists::number_at, crate::specs::Lists::width))]
fn number_at(edition: Edition, table: &[u8], at: usize) -> u32
    requires { at + width edition ≤ length table.now }
    ensures { result ≡ number_at edition table.now at }
{
    match edition {
        Edition::Morx => u32_at(table, at),
        Edition::Mort => u32::from(parse::u16_at(table, at)),
    }
}

// The chains of the table at `start`; none where it does not say how many it has.
#[tactic(auto, unfolding(crate::specs::Lists::chains_from, crate::specs::Lists::chain_count))]
pub fn chains_from(table: &[u8], start: usize) -> Cursor
    requires { start ≤ length table.now }
    ensures { result ≡ chains_from table.now start }
{
    Cursor {
        place: start + 8,
        left: parse::read_u32(table, start + 4).unwrap_or(0) as usize,
    }
}

// Where the next element of a list has its head, of so many bytes, and how many are behind it. One whose head is not wholly in the table ends the list.
#[tactic(auto, unfolding(parse::specs::Parts::read_part))]
fn next_of(table: &[u8], list: Cursor, head: usize) -> Option<Cursor>
    ensures { result ≡ listed table.now list head cursor }
{
    let left = list.left.checked_sub(1)?;
    parse::read_part(table, list.place, head)?;
    Some(Cursor {
        place: list.place,
        left,
    })
}

// The chain whose head lies at a place, with so many behind it.
#[tactic(auto, unfolding(crate::specs::Lists::chain_at))]
fn chain_at(edition: Edition, table: &[u8], at: Cursor) -> Chain
    requires { at.place + chain_bytes edition ≤ length table.now }
    ensures { result ≡ chain_at edition table.now at.place at.left }
{
    let wide = width(edition);
    let features = number_at(edition, table, at.place + 8) as usize;
    Chain {
        flags: u32_at(table, at.place),
        features: Cursor {
            place: at.place + (8 + 2 * wide),
            left: features,
        },
        subtables: Cursor {
            place: at.place + (8 + 2 * wide) + features * FEATURE,
            left: number_at(edition, table, at.place + (8 + wide)) as usize,
        },
        next: Cursor {
            place: at.place + u32_at(table, at.place + 4) as usize,
            left: at.left,
        },
    }
}

// The next chain of a list.
#[tactic(auto, unfolding(crate::specs::Lists::next_chain, parse::specs::Reads::inside))]
pub fn chain_from(edition: Edition, table: &[u8], cursor: Cursor) -> Option<Chain>
    ensures { result ≡ next_chain edition table.now cursor }
{
    let head = 8 + 2 * width(edition);
    let at = next_of(table, cursor, head)?;
    Some(chain_at(edition, table, at))
}

// The feature that lies at a place, with so many behind it.
#[tactic(auto, unfolding(crate::specs::Lists::feature_at))]
fn feature_at(table: &[u8], at: Cursor) -> Feature
    requires { at.place + 12 ≤ length table.now }
    ensures { result ≡ feature_at table.now at.place at.left }
{
    Feature {
        selector: parse::u16_at(table, at.place),
        setting: parse::u16_at(table, at.place + 2),
        enable: u32_at(table, at.place + 4),
        disable: u32_at(table, at.place + 8),
        next: Cursor {
            place: at.place + FEATURE,
            left: at.left,
        },
    }
}

// The next feature of a list.
#[tactic(auto, unfolding(crate::specs::Lists::next_feature, parse::specs::Reads::inside))]
pub fn feature_from(table: &[u8], cursor: Cursor) -> Option<Feature>
    ensures { result ≡ next_feature table.now cursor }
{
    let at = next_of(table, cursor, FEATURE)?;
    Some(feature_at(table, at))
}

// The subtable whose head lies at a place, with so many behind it.
#[tactic(auto, unfolding(crate::specs::Lists::subtable_at))]
fn subtable_at(edition: Edition, table: &[u8], at: Cursor) -> Subtable
    requires { at.place + subtable_bytes edition ≤ length table.now }
    ensures { result ≡ subtable_at edition table.now at.place at.left }
{
    let wide = width(edition);
    let size = number_at(edition, table, at.place) as usize;
    let coverage = number_at(edition, table, at.place + wide);
    Subtable {
        place: at.place,
        coverage,
        kind: kind_number(edition, coverage),
        order: order_in(edition, coverage),
        vertical: is_vertical(edition, coverage),
        flags: u32_at(table, at.place + 2 * wide),
        next: Cursor {
            place: at.place + size,
            left: at.left,
        },
    }
}

// The next subtable of a list.
#[tactic(auto, unfolding(crate::specs::Lists::next_subtable, parse::specs::Reads::inside))]
pub fn subtable_from(edition: Edition, table: &[u8], cursor: Cursor) -> Option<Subtable>
    ensures { result ≡ next_subtable edition table.now cursor }
{
    let head = 2 * width(edition) + 4;
    let at = next_of(table, cursor, head)?;
    Some(subtable_at(edition, table, at))
}

// The chains of the table at `start`; the tests before them: TABLE, HEAD.
#[tactic(auto, unfolding(crate::specs::Entries::chains_call, crate::specs::Entries::chains_tests, crate::specs::Entries::start_test, answers::specs::Refuse::refuse))]
pub fn chains(table: &[u8], start: usize) -> Result<Cursor, Refusal>
    ensures { result ≡ chains_call table.now start }
{
    answers::refuse_table(table.len())?;
    if table.len() < start {
        return Err(Refusal::Head);
    }
    Ok(chains_from(table, start))
}

// The next chain of a list, whatever the cursor's numbers are.
#[tactic(auto, unfolding(crate::specs::Entries::chain_call))]
pub fn next_chain(edition: Edition, table: &[u8], cursor: Cursor) -> Result<Option<Chain>, Refusal>
    ensures { result ≡ chain_call edition table.now cursor }
{
    answers::refuse_table(table.len())?;
    Ok(chain_from(edition, table, cursor))
}

// The next feature of a list, whatever the cursor's numbers are.
#[tactic(auto, unfolding(crate::specs::Entries::feature_call))]
pub fn next_feature(table: &[u8], cursor: Cursor) -> Result<Option<Feature>, Refusal>
    ensures { result ≡ feature_call table.now cursor }
{
    answers::refuse_table(table.len())?;
    Ok(feature_from(table, cursor))
}

// The next subtable of a list, whatever the cursor's numbers are.
#[tactic(auto, unfolding(crate::specs::Entries::subtable_call))]
pub fn next_subtable(
    edition: Edition,
    table: &[u8],
    cursor: Cursor,
) -> Result<Option<Subtable>, Refusal>
    ensures { result ≡ subtable_call edition table.now cursor }
{
    answers::refuse_table(table.len())?;
    Ok(subtable_from(edition, table, cursor))
}

// The start of a walk: in no chain yet.
#[tactic(auto, unfolding(crate::specs::Walk::walk_from))]
pub fn walk_from(table: &[u8], start: usize) -> Walk
    requires { start ≤ length table.now }
    ensures { result ≡ walk_from table.now start }
{
    Walk {
        subtables: Cursor { place: 0, left: 0 },
        chains: chains_from(table, start),
    }
}

// The next head: the chain's next subtable, and behind its last one the next chain.
#[tactic(auto, unfolding(crate::specs::Walk::next_head))]
pub fn next_head(edition: Edition, table: &[u8], walk: Walk) -> Option<NextHead>
    ensures { result ≡ next_head edition table.now walk }
{
    if let Some(subtable) = subtable_from(edition, table, walk.subtables) {
        let behind = subtable.next;
        return Some(NextHead {
            head: Head::Subtable(subtable),
            next: Walk {
                subtables: behind,
                chains: walk.chains,
            },
        });
    }
    let chain = chain_from(edition, table, walk.chains)?;
    Some(NextHead {
        head: Head::Chain(chain),
        next: Walk {
            subtables: chain.subtables,
            chains: chain.next,
        },
    })
}
