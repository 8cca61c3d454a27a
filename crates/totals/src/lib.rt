#![tactic(auto)]
// How many counts of a file read as each kind, and how many error pixels its block 10 lists.
ghost use Rattle.std.specs.Prelude.{◌≡◌, true, ◌*◌, ◌≤◌, length};
ghost use Rattle.frame.specs.Counts.{counts};
ghost use Rattle.totals.specs.Counting.{Totalled, Limit, Fine, Sorted, Roomy, with_one};
ghost use Rattle.totals.specs.Files.{totals_of, pixels_of};

use reading::{Calibration, Reading};

// How many counts read as each kind.
#[derive(Clone, Copy, Default)]
pub struct Totals {
    pub radiance: u64,
    pub error: u64,
    pub outside: u64,
    pub over: u64,
    pub uncalibrated: u64,
}

// ---- counting without a float for each count

// The first count that is over range or special.
fn limit_of(bits: u16) -> u16
    ensures { Limit bits result }
{
    if bits < 16 { 1u16 << bits } else { 65534 }
}

// How many counts pass each of four tests.
#[derive(Clone, Copy, Default)]
struct Passed {
    error: u64,
    outside: u64,
    over: u64,
    below: u64,
}

// Counters as wide as the counts, which at most 256 counts can't fill, let this run over many counts at a time.
fn sort_piece(xs: &[u16], limit: u16) -> Passed
    requires { length xs.now ≤ 256 }
    ensures sorted { Sorted limit xs.now result.error result.outside result.over result.below }
    ensures numbers_in_bounds { (result.error ≤ length xs.now) × (result.outside ≤ length xs.now) × (result.over ≤ length xs.now) × (result.below ≤ length xs.now) }
{
    let mut error: u16 = 0;
    let mut outside: u16 = 0;
    let mut over: u16 = 0;
    let mut below: u16 = 0;
    for x in xs {
        error += u16::from(*x == 65535);
        outside += u16::from(*x == 65534);
        over += u16::from((limit <= *x) & (*x < 65534));
        below += u16::from(*x < limit);
    }
    Passed {
        error: u64::from(error),
        outside: u64::from(outside),
        over: u64::from(over),
        below: u64::from(below),
    }
}

// The counts of some bytes, by way of a lent buffer of their length.
fn sort_bytes(buffer: &mut [u16], src: &[u8], order: u8, limit: u16) -> Passed
    requires { (length buffer.old ≤ 256) × (length src.now ≡ length buffer.old * 2) }
    ensures buffer_len_unchanged { length buffer.new ≡ length buffer.old }
    ensures sorted { Sorted limit (counts order src.now) result.error result.outside result.over result.below }
    ensures numbers_in_bounds { (result.error ≤ length src.now) × (result.outside ≤ length src.now) × (result.over ≤ length src.now) × (result.below ≤ length src.now) }
{
    frame::counts_into(buffer, src, order);
    sort_piece(buffer, limit)
}

// The same of any length, in pieces of 256 counts.
fn sort_all(src: &[u8], order: u8, limit: u16) -> Passed
    ensures { Sorted limit (counts order src.now) result.error result.outside result.over result.below }
{
    let mut buffer: [u16; 256] = [0; 256];
    let mut sum = Passed::default();
    for piece in src[..src.len() / 2 * 2].chunks(512) {
        let n = piece.len() / 2;
        let sorted = sort_bytes(&mut buffer[..n], piece, order, limit);
        sum.error += sorted.error;
        sum.outside += sorted.outside;
        sum.over += sorted.over;
        sum.below += sorted.below;
    }
    sum
}

// ---- with a reading for each count

// Whether no count below the limit reads as uncalibrated.
fn all_fine(cal: Calibration) -> bool
    ensures { result ≡ true → Fine cal }
{
    for k in 0..limit_of(cal.bits) {
        if matches!(reading::read(cal, k), Reading::Uncalibrated) {
            return false;
        }
    }
    true
}

// The totals with one reading more.
fn with_one(totals: Totals, reading: Reading) -> Totals
    requires { Roomy totals }
    ensures { result ≡ with_one totals reading }
{
    match reading {
        Reading::Radiance(_) => Totals {
            radiance: totals.radiance + 1,
            ..totals
        },
        Reading::ErrorPixel => Totals {
            error: totals.error + 1,
            ..totals
        },
        Reading::Outside => Totals {
            outside: totals.outside + 1,
            ..totals
        },
        Reading::OverRange => Totals {
            over: totals.over + 1,
            ..totals
        },
        Reading::Uncalibrated => Totals {
            uncalibrated: totals.uncalibrated + 1,
            ..totals
        },
    }
}

// Right for every calibration.
fn read_all(cal: Calibration, order: u8, src: &[u8]) -> Totals
    ensures { Totalled cal (counts order src.now) result.radiance result.error result.outside result.over result.uncalibrated }
{
    let mut totals = Totals::default();
    for i in 0..src.len() / 2 {
        let count = frame::count_of(order, src[i * 2], src[i * 2 + 1]);
        totals = with_one(totals, reading::read(cal, count));
    }
    totals
}

// How many counts of some bytes read as each kind.
fn totals_in(cal: Calibration, order: u8, src: &[u8]) -> Totals
    ensures { Totalled cal (counts order src.now) result.radiance result.error result.outside result.over result.uncalibrated }
{
    if !all_fine(cal) {
        return read_all(cal, order, src);
    }
    let t = sort_all(src, order, limit_of(cal.bits));
    Totals {
        radiance: t.below,
        error: t.error,
        outside: t.outside,
        over: t.over,
        uncalibrated: 0,
    }
}

// The same of a file's counts, by the gain, the constant and the valid bits of its block 5.
pub fn totals_of(file: &[u8]) -> Totals
    ensures { result ≡ totals_of file.now }
{
    let facts = accept::facts_of(file);
    totals_in(
        accept::calibration(facts),
        facts.order,
        frame::counts_in(file),
    )
}

// ---- block 10

// The sum of the error pixels that block 10 lists.
#[tactic(auto, using(crate::proofs::Listed::listing))]
pub fn pixels_of(file: &[u8]) -> u32
    ensures { result ≡ pixels_of file.now }
{
    let order = wire::byte_at(file, 5);
    let at = header::place10(header::a_of(file), header::b_of(file)) + 9;
    let n = usize::from(header::c_of(file));
    let mut sum = 0;
    for i in 0..n {
        let pixels: u16 = wire::number_at(file, at + 4 * i, order);
        sum += u32::from(pixels);
    }
    sum
}
