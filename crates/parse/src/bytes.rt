// The crate's `Bytes`: a reader that holds the lent table and the place in it where its own bytes start.
ghost use Rattle.std.specs.Prelude.{◌≡◌, drop};
ghost use Rattle.parse.specs.Reads.{read_u8, read_u16, read_i16, read_u32};
ghost use Rattle.parse.specs.Bytes.{bytes_of};

#[derive(Clone, Copy)]
pub struct Bytes<'a> {
    pub table: &'a [u8],
    pub start: usize,
}

impl<'a> Bytes<'a> {
    pub fn new(table: &'a [u8], start: usize) -> Bytes<'a>
        ensures { (result.table ≡ table.entry) × (result.start ≡ start) }
    {
        Bytes { table, start }
    }

    pub fn read_u8(self, at: usize) -> Option<u8>
        ensures { result ≡ read_u8 (bytes_of self.entry) at }
    {
        crate::read_u8(crate::from(self.table, self.start), at)
    }

    pub fn read_u16(self, at: usize) -> Option<u16>
        ensures { result ≡ read_u16 (bytes_of self.entry) at }
    {
        crate::read_u16(crate::from(self.table, self.start), at)
    }

    pub fn read_i16(self, at: usize) -> Option<i16>
        ensures { result ≡ read_i16 (bytes_of self.entry) at }
    {
        crate::read_i16(crate::from(self.table, self.start), at)
    }

    pub fn read_u32(self, at: usize) -> Option<u32>
        ensures { result ≡ read_u32 (bytes_of self.entry) at }
    {
        crate::read_u32(crate::from(self.table, self.start), at)
    }
}
