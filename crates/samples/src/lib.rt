#![tactic(auto)]
// A file by a plan of numbers, stored at the front of a lent buffer: a good one where the numbers are good, and else what they say.
ghost use Rattle.std.specs.Prelude.{◌≡◌, ◌+◌, ◌*◌, ◌%◌, ◌<◌, ◌≤◌, [], ◌∷◌, length};
ghost use Rattle.wire.specs.Wire.{digits, rows, Stored};
ghost use Rattle.samples.specs.Pieces.{filed};
ghost use Rattle.samples.specs.Sample.{paper_plan, bits_for, resolution_for, two, head, length_for, basic, name, dated, middle, back, byte_of, count_of, sample};

// What a file is made of; the rest of it follows from these.
#[derive(Clone, Copy)]
pub struct Plan {
    pub order: u8,
    // a digit
    pub satellite: u8,
    // yyyymmdd and hhmm
    pub date: u32,
    pub timeline: u16,
    pub band: u16,
    // four letters, of which the first is the highest byte
    pub area: u32,
    pub columns: u16,
    pub lines: u16,
    pub number: u8,
    pub total: u8,
    pub first: u16,
    // the entries of blocks 8, 9 and 10
    pub a: u16,
    pub b: u16,
    pub c: u16,
    // the first byte of the header where no rule speaks, entries too, and what the next one is more
    pub fill: u8,
    pub vary: u8,
    // the first count, and what the next one is more
    pub count: u16,
    pub step: u16,
}

// The paper's file of 1,479 bytes, which other plans start from.
#[tactic(auto, unfolding(crate::specs::Sample::paper_plan))]
pub fn paper() -> Plan
    ensures { result ≡ paper_plan }
{
    Plan {
        order: 0,
        satellite: 8,
        date: 20150707,
        timeline: 200,
        band: 13,
        area: 0x464c_444b,
        columns: 4,
        lines: 2,
        number: 1,
        total: 2,
        first: 1,
        a: 0,
        b: 0,
        c: 0,
        fill: 0,
        vary: 0,
        count: 0,
        step: 0,
    }
}

fn bits_of(band: u16) -> u16
    ensures { result ≡ bits_for band }
{
    match band {
        7 => 14,
        10..=15 => 12,
        _ => 11,
    }
}

fn resolution_of(band: u16) -> u32
    ensures { result ≡ resolution_for band }
{
    match band {
        3 => 5,
        0..=4 => 10,
        _ => 20,
    }
}

// The last two digits of a number as text: not from `format`, whose code is tried on these files.
fn two(n: u32) -> [u8; 2]
    ensures { result ≡ two n }
{
    [b'0' + (n / 10 % 10) as u8, b'0' + (n % 10) as u8]
}

fn put_two(out: &mut [u8], at: usize, n: u32)
    ensures { Stored 2 out.old at (two n) out.new }
{
    wire::put_bytes(out, at, two(n));
}

// The number and the length of a block.
fn put_head(out: &mut [u8], at: usize, block: u8, long: u32, order: u8)
    requires { at < 10000000 }
    ensures { Stored 3 out.old at (head order block long) out.new }
{
    wire::put_byte(out, at, block);
    wire::put_number(out, at + 1, (long % 65536) as u16, order);
}

// Number i of those below `size` that begin with `first`, where each is `step` more than the one before it, round and round.
fn nth(first: usize, step: usize, i: usize, size: usize) -> usize
    requires { (first < size) × (step < size) × (0 < size) × (size ≤ 65536) }
    ensures { (result ≡ (first + step * (i % size)) % size) × (result < size) }
{
    (first + step * (i % size)) % size
}

// The first n bytes of the header where no rule speaks.
fn spread(out: &mut [u8], n: usize, p: Plan)
    ensures { Stored (1 * n) out.old 0 (rows (λ i. byte_of p i ∷ []) n) out.new }
{
    for i in 0..n {
        let byte = nth(usize::from(p.fill), usize::from(p.vary), i, 256);
        wire::put_byte(out, i, byte as u8);
    }
}

// The first n counts, from a place on.
fn put_counts(out: &mut [u8], at: usize, n: usize, p: Plan)
    requires { (at < 10000000) × (n < 4294967296) }
    ensures { Stored (2 * n) out.old at (rows (λ i. digits p.order 2 (count_of p i)) n) out.new }
{
    for i in 0..n {
        let count = nth(usize::from(p.count), usize::from(p.step), i, 65536);
        wire::put_number(out, at + 2 * i, count as u16, p.order);
    }
}

// The fields of block 1, of its name and the date there, of blocks 2 to 7 and of those after them.
#[tactic(auto, unfolding(crate::specs::Pieces::filed, crate::specs::Sample::basic))]
fn put_basic(out: &mut [u8], p: Plan)
    ensures { out.new ≡ filed out.old (basic p) }
{
    let [_, digit] = two(u32::from(p.satellite));
    let satellite = [
        b'H', b'i', b'm', b'a', b'w', b'a', b'r', b'i', b'-', digit, 0, 0, 0, 0, 0, 0,
    ];
    let counts = header::data_length(p.columns, p.lines) % 4294967296;
    put_head(out, 0, 1, 282, p.order);
    wire::put_number(out, 3, 11u16, p.order);
    wire::put_byte(out, 5, p.order);
    wire::put(out, 6, &satellite);
    wire::put_number(out, 38, p.area, 1);
    wire::put_number(out, 44, p.timeline, p.order);
    wire::put_number(out, 70, header::header_length(p.a, p.b, p.c), p.order);
    wire::put_number(out, 74, counts as u32, p.order);
}

#[tactic(auto, unfolding(crate::specs::Pieces::filed, crate::specs::Sample::name))]
fn put_name(out: &mut [u8], p: Plan)
    ensures { out.new ≡ filed out.old (name p) }
{
    let zeros = [0u8; 85];
    wire::put(out, 114, b"HS_H00_00000000_0000_B00_0000_R00_S0000.DAT");
    wire::put(out, 157, &zeros);
    put_two(out, 118, u32::from(p.satellite));
    put_two(out, 130, u32::from(p.timeline / 100));
    put_two(out, 132, u32::from(p.timeline));
    put_two(out, 136, u32::from(p.band));
    wire::put_number(out, 139, p.area, 1);
    put_two(out, 145, resolution_of(p.band));
    put_two(out, 149, u32::from(p.number));
    put_two(out, 151, u32::from(p.total));
}

#[tactic(auto, unfolding(crate::specs::Pieces::filed, crate::specs::Sample::dated))]
fn put_date(out: &mut [u8], date: u32)
    ensures { out.new ≡ filed out.old (dated date) }
{
    put_two(out, 121, date / 1000000);
    put_two(out, 123, date / 10000);
    put_two(out, 125, date / 100);
    put_two(out, 127, date);
}

#[tactic(auto, unfolding(crate::specs::Pieces::filed, crate::specs::Sample::middle))]
fn put_middle(out: &mut [u8], p: Plan)
    ensures { out.new ≡ filed out.old (middle p) }
{
    put_head(out, 282, 2, 50, p.order);
    wire::put_number(out, 285, 16u16, p.order);
    wire::put_number(out, 287, p.columns, p.order);
    wire::put_number(out, 289, p.lines, p.order);
    wire::put_byte(out, 291, 0);
    put_head(out, 332, 3, 127, p.order);
    put_head(out, 459, 4, 139, p.order);
    put_head(out, 598, 5, 147, p.order);
    wire::put_number(out, 601, p.band, p.order);
    wire::put_number(out, 611, bits_of(p.band), p.order);
    wire::put_number(out, 613, 65535u16, p.order);
    wire::put_number(out, 615, 65534u16, p.order);
    put_head(out, 745, 6, 259, p.order);
    put_head(out, 1004, 7, 47, p.order);
    wire::put_byte(out, 1007, p.total);
    wire::put_byte(out, 1008, p.number);
    wire::put_number(out, 1009, p.first, p.order);
}

#[tactic(auto, unfolding(crate::specs::Pieces::filed, crate::specs::Sample::back))]
fn put_back(out: &mut [u8], p: Plan)
    ensures { out.new ≡ filed out.old (back p) }
{
    put_head(out, 1051, 8, 61 + 10 * u32::from(p.a), p.order);
    wire::put_number(out, 1070, p.a, p.order);
    let at = header::place9(p.a);
    put_head(out, at, 9, 45 + 10 * u32::from(p.b), p.order);
    wire::put_number(out, at + 3, p.b, p.order);
    let at = header::place10(p.a, p.b);
    wire::put_byte(out, at, 10);
    wire::put_number(out, at + 1, 47 + 4 * u32::from(p.c), p.order);
    wire::put_number(out, at + 5, p.c, p.order);
    let at = header::place11(p.a, p.b, p.c);
    put_head(out, at, 11, 259, p.order);
}

// Makes the file of a plan, as much of it as there is room for, and answers how long it is.
#[tactic(auto, using(crate::proofs::Filing::filed_append), unfolding(crate::specs::Pieces::filed, crate::specs::Sample::sample))]
pub fn make(out: &mut [u8], p: Plan) -> usize
    ensures { (result ≡ length_for p) × (out.new ≡ sample p out.old) }
{
    let room = out.len();
    let front = header::header_length(p.a, p.b, p.c) as usize;
    let counts = usize::from(p.columns) * usize::from(p.lines);
    spread(out, front.min(room), p);
    put_basic(out, p);
    put_name(out, p);
    put_date(out, p.date);
    put_middle(out, p);
    put_back(out, p);
    put_counts(out, front, counts.min(room), p);
    front + header::data_length(p.columns, p.lines)
}
