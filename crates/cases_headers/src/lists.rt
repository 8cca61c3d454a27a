// The entries of blocks 8, 9 and 10, made for a case.
ghost use Rattle.std.specs.Prelude.{◌≡◌, take};

use crate::values;
use rules::Refusal;
use std::array;

// The first n numbers of a list. A line that cases_writer has, too: no crate below both would be its place.
pub(crate) fn first<T>(list: &[T], n: u16) -> &[T]
    ensures { result.now ≡ take n list.now }
{
    &list[..list.len().min(usize::from(n))]
}

// Writes a good header with lists of a, b and c entries.
pub(crate) fn write(out: &mut [u8], order: u8, a: u16, b: u16, c: u16) -> Result<(), Refusal> {
    // neighbours differ in every byte, and so do parts that start elsewhere
    // by from_fn, which takes 123 KiB of the stack more than fills in place would: no input makes it more
    let shorts: [u16; 49152] = array::from_fn(|i| ((i % 65536 * 259 + 513) % 65536) as u16);
    let shifts: [u32; 16384] = array::from_fn(|i| ((i % 65536 * 16909060 + 3735928559)
        % 4294967296) as u32);
    let times: [u64; 8192] = array::from_fn(|i| (i % 65536) as u64 * 72623859790382 + 4660);
    writer::write(
        out,
        values::good(order),
        first(&shorts, a),
        first(&shifts, a),
        first(&shifts[8192..], a),
        first(&shorts[8192..], b),
        first(&times, b),
        first(&shorts[16384..], c),
        first(&shorts[32768..], c),
    )
}
