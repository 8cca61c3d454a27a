#![tactic(auto)]
// Bytes and numbers: read at a place of a file, and stored at a place of a lent slice, in either byte order.
// Every function takes every place: past the end a byte reads as 0, and nothing is stored.
ghost use Rattle.std.specs.Prelude.{◌≡◌, ℕ, [], ◌∷◌, ◌+◌, ◌-◌, ◌<◌, ◌^◌, length, get_or, take, drop};
ghost use Rattle.wire.specs.Wire.{span, num, digits, eqs, store, Stored};

// An unsigned number of N bytes. The order is a file's own byte, 0 the lowest byte first and any other the highest, and no enum: every reader, and the
// writer's refusal of an order above 1, answer for all 256. The three impls differ in the type alone: rt ci takes none that a macro of the repository wrote.
pub trait Word<const N: usize>: Copy {
    // The number that it is.
    ghost number: { Self → ℕ };

    fn from_bytes(bytes: [u8; N], order: u8) -> Self
        ensures { number result ≡ num order bytes.entry };

    fn to_bytes(self, order: u8) -> [u8; N]
        ensures { result ≡ digits order N (number self) };

    // An array of so many bytes fits the memory.
    ghost narrow: { N < 2 ^ 63 };
}

impl Word<2> for u16 {
    ghost number = { λ x. x };

    ghost use Rattle.std.proofs.Common.{rules};

    ghost narrow = { Prim.search rules };

    #[tactic(auto, unfolding(crate::specs::Wire::num, crate::specs::Wire::low))]
    fn from_bytes(bytes: [u8; 2], order: u8) -> u16
        ensures { result ≡ num order bytes }
    {
        if order == 0 {
            u16::from_le_bytes(bytes)
        } else {
            u16::from_be_bytes(bytes)
        }
    }

    #[tactic(auto, unfolding(crate::specs::Wire::digits, crate::specs::Wire::lows))]
    fn to_bytes(self, order: u8) -> [u8; 2] {
        if order == 0 {
            self.to_le_bytes()
        } else {
            self.to_be_bytes()
        }
    }
}

impl Word<4> for u32 {
    ghost number = { λ x. x };

    ghost use Rattle.std.proofs.Common.{rules};

    ghost narrow = { Prim.search rules };

    #[tactic(auto, unfolding(crate::specs::Wire::num, crate::specs::Wire::low))]
    fn from_bytes(bytes: [u8; 4], order: u8) -> u32
        ensures { result ≡ num order bytes }
    {
        if order == 0 {
            u32::from_le_bytes(bytes)
        } else {
            u32::from_be_bytes(bytes)
        }
    }

    #[tactic(auto, unfolding(crate::specs::Wire::digits, crate::specs::Wire::lows))]
    fn to_bytes(self, order: u8) -> [u8; 4] {
        if order == 0 {
            self.to_le_bytes()
        } else {
            self.to_be_bytes()
        }
    }
}

impl Word<8> for u64 {
    ghost number = { λ x. x };

    ghost use Rattle.std.proofs.Common.{rules};

    ghost narrow = { Prim.search rules };

    #[tactic(auto, using(crate::proofs::Eights::eights))]
    fn from_bytes(bytes: [u8; 8], order: u8) -> u64
        ensures { result ≡ num order bytes }
    {
        if order == 0 {
            u64::from_le_bytes(bytes)
        } else {
            u64::from_be_bytes(bytes)
        }
    }

    #[tactic(auto, unfolding(crate::specs::Wire::digits, crate::specs::Wire::lows))]
    fn to_bytes(self, order: u8) -> [u8; 8] {
        if order == 0 {
            self.to_le_bytes()
        } else {
            self.to_be_bytes()
        }
    }
}

// The byte at a place.
pub fn byte_at(s: &[u8], at: usize) -> u8
    ensures { result ≡ get_or s.now at 0 }
{
    if at < s.len() { s[at] } else { 0 }
}

// How many bytes there are from a place on.
pub fn left(s: &[u8], at: usize) -> usize
    ensures { result ≡ length s.now - at }
{
    s.len().saturating_sub(at)
}

// The bytes from a place on.
pub fn rest(s: &[u8], at: usize) -> &[u8]
    ensures { result.now ≡ drop at s.now }
{
    if at <= s.len() { &s[at..] } else { &[] }
}

// The first n bytes from a place on, or as many as there are.
pub fn piece(s: &[u8], at: usize, n: usize) -> &[u8]
    ensures { result.now ≡ take n (drop at s.now) }
{
    let rest = rest(s, at);
    &rest[..n.min(rest.len())]
}

// The N bytes from a place on.
#[tactic(auto, using(crate::proofs::Spans::spans))]
pub fn bytes_at<const N: usize>(s: &[u8], at: usize) -> [u8; N]
    ensures { result ≡ span s.now at N }
{
    let rest = rest(s, at);
    match rest.first_chunk() {
        Some(bytes) => *bytes,
        None => padded(rest),
    }
}

// The first N bytes, and 0 for each that is missing.
fn padded<const N: usize>(s: &[u8]) -> [u8; N]
    ensures { result ≡ span s.now 0 N }
{
    let mut bytes = [0; N];
    fill(&mut bytes, s, 0);
    bytes
}

// Fills a lent slice with the bytes from a place on.
#[tactic(auto, using(crate::proofs::Spans::spans))]
pub fn fill(dst: &mut [u8], s: &[u8], at: usize)
    ensures { dst.new ≡ span s.now at (length dst.old) }
{
    let rest = rest(s, at);
    for (i, byte) in dst.iter_mut().enumerate() {
        *byte = byte_at(rest, i);
    }
}

// The number of N bytes from a place on.
pub fn number_at<const N: usize, W: Word<N>>(s: &[u8], at: usize, order: u8) -> W
    ensures { W.number result ≡ num order (span s.now at N) }
{
    W::from_bytes(bytes_at(s, at), order)
}

// Whether two runs of bytes are the same.
#[tactic(auto, using(crate::proofs::Equal::pointwise_eqs))]
pub fn same(a: &[u8], b: &[u8]) -> bool
    ensures { result ≡ eqs a.now b.now }
{
    a == b
}

// Stores a run of bytes from a place on. Where there is room for all, the copy is as long as the run, which the compiler knows of a number's bytes.
#[tactic(auto, using(crate::proofs::Stores::stores))]
pub fn put(out: &mut [u8], at: usize, src: &[u8])
    ensures { out.new ≡ store out.old at src.now }
{
    if at > out.len() {
        return;
    }
    let room = out.len() - at;
    if src.len() <= room {
        out[at..at + src.len()].copy_from_slice(src);
    } else {
        out[at..].copy_from_slice(&src[..room]);
    }
}

// Stores N bytes.
pub fn put_bytes<const N: usize>(out: &mut [u8], at: usize, bytes: [u8; N])
    ensures { Stored N out.old at bytes.entry out.new }
{
    put(out, at, &bytes);
}

// Stores one byte.
pub fn put_byte(out: &mut [u8], at: usize, b: u8)
    ensures { Stored 1 out.old at (b ∷ []) out.new }
{
    put(out, at, &[b]);
}

// Stores a number of N bytes.
pub fn put_number<const N: usize, W: Word<N>>(out: &mut [u8], at: usize, x: W, order: u8)
    ensures { Stored N out.old at (digits order N (W.number x)) out.new }
{
    put_bytes(out, at, x.to_bytes(order));
}
