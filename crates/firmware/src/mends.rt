// The exported mending of a lookup table.
ghost use Rattle.std.specs.Prelude.{◌≡◌};
ghost use Rattle.answers.specs.Numbers.{number_of};
ghost use Rattle.mend.specs.Mend.{mend_call};

// Mends the lookup table at `start`.
#[unsafe(no_mangle)]
pub extern "C" fn aat_mend(
    table: &[u8],
    start: usize,
    buffer: &mut [u8],
    numbers: &mut [u16],
    size: &mut usize,
) -> u32
    ensures answer { result ≡ number_of (mend_call buffer.old numbers.old size.old table.now start).answer }
    ensures buffer { buffer.new ≡ (mend_call buffer.old numbers.old size.old table.now
        start).buffer }
    ensures numbers { numbers.new ≡ (mend_call buffer.old numbers.old size.old table.now
        start).numbers }
    ensures size { size.new ≡ (mend_call buffer.old numbers.old size.old table.now start).size }
{
    u32::from(mend::mend(table, start, buffer, numbers, size))
}
