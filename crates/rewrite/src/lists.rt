// The entries of blocks 8, 9 and 10, each value in a list of its own.
ghost use Rattle.std.specs.Prelude.{◌<◌, length};

use header::Header;
use rules::Refusal;
use wire::Word;

// One more than a count of two bytes can be.
pub(crate) const LONG: usize = 65536;

#[derive(Drop)]
pub(crate) struct Lists {
    pub(crate) lines8: [u16; LONG],
    pub(crate) column_shifts: [u32; LONG],
    pub(crate) line_shifts: [u32; LONG],
    pub(crate) lines9: [u16; LONG],
    pub(crate) times: [u64; LONG],
    pub(crate) lines10: [u16; LONG],
    pub(crate) pixels: [u16; LONG],
}

// A column of numbers as an image states them, the first at a place and each a stride after the one before. The reader's, which asks bounds, is private there.
fn state<const N: usize, W: Word<N>>(
    numbers: &mut [W],
    s: &[u8],
    at: usize,
    stride: usize,
    order: u8,
)
    requires { (length numbers.old < 65536) × (at < 4294967296) × (stride < 256) }
{
    for (i, number) in numbers.iter_mut().enumerate() {
        *number = wire::number_at(s, at + stride * i, order);
    }
}

// The first n places of a list, or all where there are fewer. Of a list that is lent to write.
fn first<T>(list: &mut [T; LONG], n: usize) -> &mut [T] {
    &mut list[..n.min(LONG)]
}

impl Lists {
    // A file's entries of each block, read by the readers into lists that are lent for so many.
    pub(crate) fn read8(&mut self, s: &[u8], room: usize) -> Result<(), Refusal> {
        let Lists {
            lines8,
            column_shifts,
            line_shifts,
            ..
        } = self;
        reader::read_shifts(
            s,
            first(lines8, room),
            first(column_shifts, room),
            first(line_shifts, room),
        )
    }

    pub(crate) fn read9(&mut self, s: &[u8], room: usize) -> Result<(), Refusal> {
        let Lists { lines9, times, .. } = self;
        reader::read_times(s, first(lines9, room), first(times, room))
    }

    pub(crate) fn read10(&mut self, s: &[u8], room: usize) -> Result<(), Refusal> {
        let Lists {
            lines10,
            pixels,
            ..
        } = self;
        reader::read_errors(s, first(lines10, room), first(pixels, room))
    }

    // The entries that an image states, whether it is a file or not, as many as it states.
    // Only where a reader refuses does the writer get these.
    pub(crate) fn state(&mut self, s: &[u8]) {
        let order = wire::byte_at(s, 5);
        let (a, b, c) = (header::a_of(s), header::b_of(s), header::c_of(s));
        let at9 = header::place9(a);
        let at10 = header::place10(a, b);
        let (n, m, k) = (usize::from(a), usize::from(b), usize::from(c));
        state(&mut self.lines8[..n], s, 1072, 10, order);
        state(&mut self.column_shifts[..n], s, 1074, 10, order);
        state(&mut self.line_shifts[..n], s, 1078, 10, order);
        state(&mut self.lines9[..m], s, at9 + 5, 10, order);
        state(&mut self.times[..m], s, at9 + 7, 10, order);
        state(&mut self.lines10[..k], s, at10 + 7, 4, order);
        state(&mut self.pixels[..k], s, at10 + 9, 4, order);
    }

    // Writes a header, and of each list as many entries as the image states.
    pub(crate) fn write(&self, s: &[u8], out: &mut [u8], h: Header) -> Result<(), Refusal> {
        let a = usize::from(header::a_of(s));
        let b = usize::from(header::b_of(s));
        let c = usize::from(header::c_of(s));
        writer::write(
            out,
            h,
            &self.lines8[..a],
            &self.column_shifts[..a],
            &self.line_shifts[..a],
            &self.lines9[..b],
            &self.times[..b],
            &self.lines10[..c],
            &self.pixels[..c],
        )
    }
}
