#![tactic(auto)]
// Acceptance: a byte string in, and out the file's facts or the first refusal with its number, block and offset.
ghost use Rattle.std.specs.Prelude.{◌≡◌, ◌<◌};
ghost use Rattle.rules.specs.Rules.{paper, paper_reply, fine, judge};
ghost use Rattle.accept.specs.Checks.{begins, shape, entries, shape1, fields1, fixed2, fields2, fixed5, fields5, fields7, sums, names, ends, blocks1to4, blocks5to7, blocks8to11, whole, checks};
ghost use Rattle.accept.specs.Answers.{facts_of, calibration_in, answer_of};

use header::{Block1, Block2, Block5, Block7};
use reading::Calibration;
use rules::{Refusal, Why, require};

// What an accepted file is known by.
#[derive(Clone, Copy, Debug, PartialEq, Eq)]
pub struct Facts {
    pub order: u8,
    // 8 or 9, and 0 for any other text: facts are told of every byte string
    pub satellite: u8,
    pub day: u32,
    pub timeline: u16,
    pub band: u16,
    pub bits: u16,
    // the four letters, the first one highest
    pub area: u32,
    pub columns: u16,
    pub lines: u16,
    pub total: u8,
    pub number: u8,
    pub first: u16,
    // quality flag 1
    pub quality: u8,
    // gain and constant as they stand, bit for bit
    pub gain: u64,
    pub constant: u64,
    // the entries of blocks 8, 9 and 10
    pub a: u16,
    pub b: u16,
    pub c: u16,
    // the header's length
    pub header: u32,
}

// Each of these makes the checks of one table, in the table's order: the refusal's name stands for its number.
// How a block starts: room for it, its number, and its length. `least` is the room that is wanted, `stated` the length that the block states,
// and `full` the one that it is to have. No block begins at 2,000,000 or beyond, so that its place and its length's are offsets: three
// functions ask for it, and a type for such places would be no plainer, since header's places and every reader take plain numbers.
#[tactic(auto, unfolding(crate::specs::Checks::begins))]
fn check_start(
    s: &[u8],
    block: u8,
    at: usize,
    stated: usize,
    least: usize,
    full: usize,
) -> Result<(), Refusal>
    requires { at < 2000000 }
    ensures { paper result ≡ judge fine (begins s.now block at stated least full) }
{
    let offset = at as u32;
    require(least <= wire::left(s, at), Why::Short, block, offset)?;
    require(wire::byte_at(s, at) == block, Why::Number, block, offset)?;
    require(stated == full, Why::Length, block, offset + 1)
}

// A block of fixed length n.
#[tactic(auto, unfolding(crate::specs::Checks::begins, crate::specs::Checks::shape))]
fn check_shape(s: &[u8], order: u8, block: u8, at: usize, n: u16) -> Result<(), Refusal>
    requires { at < 2000000 }
    ensures { paper result ≡ judge fine (shape s.now order block at n) }
{
    let stated: u16 = wire::number_at(s, at + 1, order);
    let full = usize::from(n);
    check_start(s, block, at, usize::from(stated), full, full)
}

// A block with entries: `least` is its length without them, and `full` with them.
#[tactic(auto, unfolding(crate::specs::Checks::begins, crate::specs::Checks::entries))]
fn check_entries(
    s: &[u8],
    block: u8,
    at: usize,
    stated: usize,
    least: usize,
    full: usize,
) -> Result<(), Refusal>
    requires { at < 2000000 }
    ensures { paper result ≡ judge fine (entries s.now block at stated least full) }
{
    check_start(s, block, at, stated, least, full)?;
    require(full <= wire::left(s, at), Why::Short, block, at as u32)
}

#[tactic(auto, unfolding(crate::specs::Checks::shape1))]
fn check_shape1(s: &[u8], order: u8) -> Result<(), Refusal>
    ensures { paper result ≡ judge fine (shape1 s.now order) }
{
    require(282 <= wire::left(s, 0), Why::Short, 1, 0)?;
    require(wire::byte_at(s, 0) == 1, Why::Number, 1, 0)?;
    require(order <= 1, Why::Order, 1, 5)?;
    let stated: u16 = wire::number_at(s, 1, order);
    require(stated == 282, Why::Length, 1, 1)?;
    let blocks: u16 = wire::number_at(s, 3, order);
    require(blocks == 11, Why::Fixed, 1, 3)
}

// The tables of values are the writer's too.
#[tactic(auto, unfolding(crate::specs::Checks::fields1))]
pub fn check_fields1(w: Block1) -> Result<(), Refusal>
    ensures { paper result ≡ judge fine (fields1 w) }
{
    let good = format::satellite_of(w.satellite) != 0;
    require(good, Why::Satellite, 1, 6)?;
    require(format::good_area(w.area), Why::Area, 1, 38)?;
    require(calendar::good_timeline(w.timeline), Why::Timeline, 1, 44)
}

#[tactic(auto, unfolding(crate::specs::Checks::fixed2))]
fn check_fixed2(s: &[u8], order: u8) -> Result<(), Refusal>
    ensures { paper result ≡ judge fine (fixed2 s.now order) }
{
    let bits: u16 = wire::number_at(s, 285, order);
    require(bits == 16, Why::Fixed, 2, 285)
}

#[tactic(auto, unfolding(crate::specs::Checks::fields2))]
pub fn check_fields2(w: Block2) -> Result<(), Refusal>
    ensures { paper result ≡ judge fine (fields2 w) }
{
    let flag = w.compression;
    require(!((flag == 1) | (flag == 2)), Why::Packed, 2, 291)?;
    require(format::good_size(w.columns), Why::Size, 2, 287)?;
    require(format::good_size(w.lines), Why::Size, 2, 289)?;
    require(flag <= 2, Why::Compression, 2, 291)
}

#[tactic(auto, unfolding(crate::specs::Checks::fixed5))]
fn check_fixed5(s: &[u8], order: u8) -> Result<(), Refusal>
    ensures { paper result ≡ judge fine (fixed5 s.now order) }
{
    let error: u16 = wire::number_at(s, 613, order);
    require(error == 65535, Why::Fixed, 5, 613)?;
    let outside: u16 = wire::number_at(s, 615, order);
    require(outside == 65534, Why::Fixed, 5, 615)
}

#[tactic(auto, unfolding(crate::specs::Checks::fields5))]
pub fn check_fields5(w: Block5) -> Result<(), Refusal>
    ensures { paper result ≡ judge fine (fields5 w) }
{
    require(format::good_band(w.band), Why::Band, 5, 601)?;
    require(w.bits == format::band_of(w.band).bits, Why::Bits, 5, 611)
}

#[tactic(auto, unfolding(crate::specs::Checks::fields7))]
pub fn check_fields7(w: Block7, lines: u16) -> Result<(), Refusal>
    ensures { paper result ≡ judge fine (fields7 w lines) }
{
    require(format::good_total(w.total), Why::Segment, 7, 1007)?;
    let good = format::good_number(w.number, w.total);
    require(good, Why::Segment, 7, 1008)?;
    require(format::good_first(w.first, lines), Why::Segment, 7, 1009)
}

#[tactic(auto, unfolding(crate::specs::Checks::sums))]
fn check_sums(s: &[u8], order: u8, front: u32, counts: usize) -> Result<(), Refusal>
    ensures { paper result ≡ judge fine (sums s.now order front counts) }
{
    let stated: u32 = wire::number_at(s, 70, order);
    require(stated == front, Why::HeaderSum, 1, 70)?;
    let stated: u32 = wire::number_at(s, 74, order);
    require(stated as usize == counts, Why::DataSum, 1, 74)
}

#[tactic(auto, unfolding(crate::specs::Checks::names))]
pub fn check_name(w: Block1, x: Block5, y: Block7) -> Result<(), Refusal>
    ensures { paper result ≡ judge fine (names w x y) }
{
    let number = format::satellite_of(w.satellite);
    let good = format::good_name(
        w.name, number, w.timeline, x.band, w.area, y.number, y.total,
    );
    require(good, Why::Name, 1, 114)
}

#[tactic(auto, unfolding(crate::specs::Checks::ends))]
fn check_ends(s: &[u8], front: u32, counts: usize) -> Result<(), Refusal>
    ensures { paper result ≡ judge fine (ends s.now front counts) }
{
    let left = wire::left(s, front as usize);
    require(counts <= left, Why::Cut, 12, front)?;
    require(left <= counts, Why::Tail, 12, front)
}

// The checks of the blocks, in their order.
#[tactic(auto, using(rules::proofs::Judge::judging), unfolding(crate::specs::Checks::blocks1to4))]
fn check_blocks1to4(s: &[u8], order: u8) -> Result<(), Refusal>
    ensures { paper result ≡ judge fine (blocks1to4 s.now order) }
{
    check_shape1(s, order)?;
    check_fields1(header::read_block1(s, order))?;
    check_shape(s, order, 2, 282, 50)?;
    check_fixed2(s, order)?;
    check_fields2(header::read_block2(s, order))?;
    check_shape(s, order, 3, 332, 127)?;
    check_shape(s, order, 4, 459, 139)
}

#[tactic(auto, using(rules::proofs::Judge::judging), unfolding(crate::specs::Checks::blocks5to7))]
fn check_blocks5to7(s: &[u8], order: u8) -> Result<(), Refusal>
    ensures { paper result ≡ judge fine (blocks5to7 s.now order) }
{
    check_shape(s, order, 5, 598, 147)?;
    check_fixed5(s, order)?;
    check_fields5(header::read_block5(s, order))?;
    check_shape(s, order, 6, 745, 259)?;
    check_shape(s, order, 7, 1004, 47)?;
    let lines = header::read_block2(s, order).lines;
    check_fields7(header::read_block7(s, order), lines)
}

#[tactic(auto, using(rules::proofs::Judge::judging), unfolding(crate::specs::Checks::blocks8to11))]
fn check_blocks8to11(s: &[u8], order: u8, a: u16, b: u16, c: u16) -> Result<(), Refusal>
    ensures { paper result ≡ judge fine (blocks8to11 s.now order a b c) }
{
    let full8 = 61 + 10 * usize::from(a);
    let full9 = 45 + 10 * usize::from(b);
    let full10 = 47 + 4 * usize::from(c);
    let at9 = header::place9(a);
    let at10 = header::place10(a, b);
    let at11 = header::place11(a, b, c);
    let stated8: u16 = wire::number_at(s, 1052, order);
    let stated9: u16 = wire::number_at(s, at9 + 1, order);
    let stated10: u32 = wire::number_at(s, at10 + 1, order);
    check_entries(s, 8, 1051, usize::from(stated8), 61, full8)?;
    check_entries(s, 9, at9, usize::from(stated9), 45, full9)?;
    check_entries(s, 10, at10, stated10 as usize, 47, full10)?;
    check_shape(s, order, 11, at11, 259)
}

#[tactic(auto, using(rules::proofs::Judge::judging), unfolding(crate::specs::Checks::whole))]
fn check_whole(s: &[u8], order: u8, front: u32, counts: usize) -> Result<(), Refusal>
    ensures { paper result ≡ judge fine (whole s.now order front counts) }
{
    let w = header::read_block1(s, order);
    let x = header::read_block5(s, order);
    let y = header::read_block7(s, order);
    check_sums(s, order, front, counts)?;
    check_name(w, x, y)?;
    check_ends(s, front, counts)
}

// Every check of a file: the first that fails answers.
#[tactic(auto, using(rules::proofs::Judge::judging), unfolding(crate::specs::Checks::checks))]
pub fn check_file(s: &[u8]) -> Result<(), Refusal>
    ensures { paper result ≡ judge fine (checks s.now) }
{
    let order = wire::byte_at(s, 5);
    let a = header::a_of(s);
    let b = header::b_of(s);
    let c = header::c_of(s);
    let sizes = header::read_block2(s, order);
    let front = header::header_length(a, b, c);
    let counts = header::data_length(sizes.columns, sizes.lines);
    check_blocks1to4(s, order)?;
    check_blocks5to7(s, order)?;
    check_blocks8to11(s, order, a, b, c)?;
    check_whole(s, order, front, counts)
}

// Judges a file: the same, and both are promised, each by theorems of its own (OneAnswer, Demand1).
pub fn verdict(s: &[u8]) -> Result<(), Refusal>
    ensures { paper result ≡ judge fine (checks s.now) }
{
    check_file(s)
}

// What a file is known by, whether it is accepted or not.
#[tactic(auto, unfolding(crate::specs::Answers::facts_of, header::specs::Values::block1_of))]
pub fn facts_of(s: &[u8]) -> Facts
    ensures { result ≡ facts_of s.now }
{
    let order = wire::byte_at(s, 5);
    let v = header::read_block1(s, order);
    let w = header::read_block2(s, order);
    let x = header::read_block5(s, order);
    let y = header::read_block7(s, order);
    let a = header::a_of(s);
    let b = header::b_of(s);
    let c = header::c_of(s);
    Facts {
        order,
        satellite: format::satellite_of(v.satellite),
        day: format::day_or_0(format::date_of(v.name)),
        timeline: v.timeline,
        band: x.band,
        bits: x.bits,
        area: wire::number_at(s, 38, 1),
        columns: w.columns,
        lines: w.lines,
        total: y.total,
        number: y.number,
        first: y.first,
        quality: v.quality1,
        gain: x.gain,
        constant: x.constant,
        a,
        b,
        c,
        header: header::header_length(a, b, c),
    }
}

// What the counts of a file are read by: its own gain and constant, together, and its valid bits.
#[tactic(auto, unfolding(crate::specs::Answers::calibration_in))]
pub fn calibration(f: Facts) -> Calibration
    ensures { result ≡ calibration_in f }
{
    reading::calibration_of(f.gain, f.constant, f.bits)
}

// The answer to a file: what it is known by, or the first check that fails.
#[tactic(auto, unfolding(crate::specs::Answers::answer_of))]
pub fn accept(file: &[u8]) -> Result<Facts, Refusal>
    ensures { paper_reply result ≡ answer_of file.now }
{
    check_file(file)?;
    Ok(facts_of(file))
}
