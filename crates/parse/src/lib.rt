// Big-endian reads from a table, as the crate's `Bytes`: a read succeeds exactly when its place is below the table's end
// and all its bytes lie in the table.
#![tactic(auto)]

ghost use Rattle.std.specs.Prelude.{◌≡◌, ◌+◌, ◌<◌, ◌≤◌, length, drop};
ghost use Rattle.laws.specs.Bits.{is_set};
ghost use Rattle.laws.specs.Signed.{signed16};
ghost use Rattle.parse.specs.Reads.{u16_at, read_u8, read_u16, read_i16, read_u32};
ghost use Rattle.parse.specs.Parts.{read_part};

pub mod bytes;

// A byte as a number that sums and products have room for.
fn wide(byte: u8) -> u32
    ensures { (result ≡ byte) × (result < 256) }
{
    byte as u32
}

// Whether a bit of a number that was read is set; masks are powers of two.
pub fn is_set(number: u32, mask: u32) -> bool
    requires { 1 ≤ mask }
    ensures { result ≡ is_set number mask }
{
    number / mask % 2 == 1
}

#[tactic(auto, unfolding(crate::specs::Reads::read_u8, crate::specs::Reads::inside))]
pub fn read_u8(table: &[u8], at: usize) -> Option<u8>
    ensures { result ≡ read_u8 table.now at }
{
    table.get(at).copied()
}

// The 16-bit number at a place that is known to lie in the table.
pub fn u16_at(table: &[u8], at: usize) -> u16
    requires { at + 2 ≤ length table.now }
    ensures { result ≡ u16_at table.now at }
{
    (wide(table[at]) * 256 + wide(table[at + 1])) as u16
}

#[tactic(auto, unfolding(crate::specs::Reads::read_u16, crate::specs::Reads::inside))]
pub fn read_u16(table: &[u8], at: usize) -> Option<u16>
    ensures { result ≡ read_u16 table.now at }
{
    if table.len() < 2 || table.len() - 2 < at {
        return None;
    }
    Some(u16_at(table, at))
}

#[tactic(auto, unfolding(crate::specs::Reads::read_u32, crate::specs::Reads::inside))]
pub fn read_u32(table: &[u8], at: usize) -> Option<u32>
    ensures { result ≡ read_u32 table.now at }
{
    if table.len() < 4 || table.len() - 4 < at {
        return None;
    }
    let high = wide(table[at]) * 256 + wide(table[at + 1]);
    let low = wide(table[at + 2]) * 256 + wide(table[at + 3]);
    Some(high * 65536 + low)
}

// The signed value of a 16-bit number.
#[tactic(auto, using(laws::proofs::Signed::signed16_low, laws::proofs::Signed::signed16_high))]
pub fn to_signed16(number: u16) -> i16
    ensures { result ≡ signed16 number }
{
    if number < 32768 {
        return number as i16;
    }
    -1 - ((65535 - number) as i16)
}

#[tactic(auto, unfolding(crate::specs::Reads::read_u16, crate::specs::Reads::read_i16, crate::specs::Reads::inside))]
pub fn read_i16(table: &[u8], at: usize) -> Option<i16>
    ensures { result ≡ read_i16 table.now at }
{
    read_u16(table, at).map(to_signed16)
}

// Where `size` bytes from `at` on end. A list of no bytes at or past the table's end is not there, as in the crate.
#[tactic(auto, unfolding(crate::specs::Parts::read_part, crate::specs::Reads::inside))]
pub fn read_part(table: &[u8], at: usize, size: usize) -> Option<usize>
    ensures { result ≡ read_part table.now at size }
{
    if table.len() < size || table.len() - size < at || table.len() <= at {
        return None;
    }
    Some(at + size)
}

// The table from `start` on; nothing of it where the start is past its end.
#[tactic(auto, using(laws::proofs::Parts::part_is))]
pub fn from(table: &[u8], start: usize) -> &[u8]
    ensures { result.now ≡ drop start table.now }
{
    &table[start.min(table.len())..]
}
