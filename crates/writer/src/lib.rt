#![tactic(auto)]
// The header written to a lent output: every value that is not derived goes in, and lengths, sums, numbers and fixed values are derived.
ghost use Rattle.std.specs.Prelude.{◌≡◌, ◌<◌, ◌≤◌, length, map, OnOk};
ghost use Rattle.wire.specs.Wire.{Stored};
ghost use Rattle.rules.specs.Rules.{judge, tables, fine, paper};
ghost use Rattle.header.specs.Places.{at8, length8, length9, length10};
ghost use Rattle.header.specs.Encode.{carrying, bytes8, bytes9, bytes10};
ghost use Rattle.writer.specs.Given.{lengths, parts, ruled, Wrote};
ghost use Rattle.writer.specs.Sizes.{entries_from, scattered, bytes_of, Fits, StoredBack, StoredAll};
ghost use Rattle.writer.specs.Lent.{lent};

use header::{Block8, Header};
use rules::{Refusal, Why};
use wire::Word;

// The entries as they are lent: of block 8 lines, column shifts and line shifts, of 9 lines and times, of 10 lines and error pixels.
#[derive(Clone, Copy)]
struct Lent<'a> {
    lines8: &'a [u16],
    column_shifts: &'a [u32],
    line_shifts: &'a [u32],
    lines9: &'a [u16],
    times: &'a [u64],
    lines10: &'a [u16],
    pixels: &'a [u16],
}

// A column of numbers, the first at a place and each a stride after the one before.
#[tactic(auto, using(crate::proofs::Scattered::scattered_more, crate::proofs::Scattered::scattered_none))]
fn write_column<const N: usize, W: Word<N>>(
    out: &mut [u8],
    at: usize,
    stride: usize,
    order: u8,
    numbers: &[W],
)
    requires { (at < 1000000) × (stride < 256) × (length numbers.now < 65536) }
    ensures { out.new ≡ scattered out.old at stride (bytes_of order N (map W.number numbers.now)) (length numbers.now) }
{
    for (i, number) in numbers.iter().enumerate() {
        wire::put_number(out, at + stride * i, *number, order);
    }
}

// The blocks with entries. Blocks 9 and 10 stay two functions: one over the widths of a length and of a column
// would take three parameters more, and be no plainer.
fn write8(out: &mut [u8], order: u8, v: Block8, lines: &[u16], xs: &[u32], ys: &[u32])
    requires { (length lines.now ≤ 6547) × (length xs.now ≡ length lines.now) × (length ys.now ≡ length lines.now) }
    ensures { Stored (length8 (length lines.now)) out.old at8
        (bytes8 order v lines.now xs.now ys.now) out.new }
{
    let a = lines.len();
    wire::put_byte(out, 1051, 8);
    wire::put_number(out, 1052, (61 + 10 * a) as u16, order);
    wire::put_number(out, 1054, v.column, order);
    wire::put_number(out, 1058, v.line, order);
    wire::put_number(out, 1062, v.rotation, order);
    wire::put_number(out, 1070, a as u16, order);
    write_column(out, 1072, 10, order, lines);
    write_column(out, 1074, 10, order, xs);
    write_column(out, 1078, 10, order, ys);
    wire::put_bytes(out, 1072 + 10 * a, v.spare);
}

fn write9(out: &mut [u8], at: usize, order: u8, spare: [u8; 40], lines: &[u16], times: &[u64])
    requires { (at < 100000) × (length lines.now ≤ 6549) × (length times.now ≡ length lines.now) }
    ensures { Stored (length9 (length lines.now)) out.old at (bytes9 order spare lines.now times.now) out.new }
{
    let b = lines.len();
    wire::put_byte(out, at, 9);
    wire::put_number(out, at + 1, (45 + 10 * b) as u16, order);
    wire::put_number(out, at + 3, b as u16, order);
    write_column(out, at + 5, 10, order, lines);
    write_column(out, at + 7, 10, order, times);
    wire::put_bytes(out, at + 5 + 10 * b, spare);
}

// Its length has four bytes, where those of blocks 8 and 9 have two.
fn write10(out: &mut [u8], at: usize, order: u8, spare: [u8; 40], lines: &[u16], pixels: &[u16])
    requires { (at < 190000) × (length lines.now ≤ 65535) × (length pixels.now ≡ length lines.now) }
    ensures { Stored (length10 (length lines.now)) out.old at (bytes10 order spare lines.now pixels.now) out.new }
{
    let c = lines.len();
    wire::put_byte(out, at, 10);
    wire::put_number(out, at + 1, (47 + 4 * c) as u32, order);
    wire::put_number(out, at + 5, c as u16, order);
    write_column(out, at + 7, 4, order, lines);
    write_column(out, at + 9, 4, order, pixels);
    wire::put_bytes(out, at + 7 + 4 * c, spare);
}

// Block 11. It only carries bytes, as 3, 4 and 6 do, and is stored here all the same: its place wants a bound, which no public function asks.
fn write11(out: &mut [u8], at: usize, order: u8, spare: [u8; 256])
    requires { at < 1000000 }
    ensures { Stored 259 out.old at (carrying 11 order 259 spare) out.new }
{
    wire::put_byte(out, at, 11);
    wire::put_number(out, at + 1, 259u16, order);
    wire::put_bytes(out, at + 3, spare);
}

// Blocks 8 to 11, then the whole header, where every count and length has room in its field.
fn write_back(out: &mut [u8], h: Header, e: Lent<'_>)
    requires { Fits h (lent e) }
    ensures { StoredBack out.old h (lent e.entry) out.new }
{
    let a = e.lines8.len() as u16;
    let b = e.lines9.len() as u16;
    let c = e.lines10.len() as u16;
    let order = h.block1.order;
    let (at9, at10) = (header::place9(a), header::place10(a, b));
    write8(
        out,
        order,
        h.block8,
        e.lines8,
        e.column_shifts,
        e.line_shifts,
    );
    write9(out, at9, order, h.spare9, e.lines9, e.times);
    write10(out, at10, order, h.spare10, e.lines10, e.pixels);
    write11(out, header::place11(a, b, c), order, h.spare11);
}

fn write_all(out: &mut [u8], h: Header, e: Lent<'_>)
    requires { Fits h (lent e) }
    ensures { StoredAll out.old h (lent e.entry) out.new }
{
    let a = e.lines8.len() as u16;
    let b = e.lines9.len() as u16;
    let c = e.lines10.len() as u16;
    let front = header::header_length(a, b, c);
    let counts = header::data_length(h.block2.columns, h.block2.lines) as u32;
    blocks::write_front(out, h, front, counts);
    write_back(out, h, e);
}

// A block of n entries, at most so many, and as many of m.
fn check_lengths(block: u8, most: usize, n: usize, m: usize) -> Result<(), Refusal>
    ensures ruling { paper result ≡ judge fine (lengths block most n m) }
    ensures few { OnOk result (n ≤ most) }
{
    rules::require(n <= most, Why::Length, block, 0)?;
    rules::require(m == n, Why::Length, block, 0)
}

// Every check, with the places that a file's values would have.
#[tactic(auto, using(rules::proofs::Judge::judging), unfolding(crate::specs::Given::orders, crate::specs::Given::lengths8, crate::specs::Given::lengths9, crate::specs::Given::lengths10, crate::specs::Given::room))]
fn check_placed(h: Header, e: Lent<'_>, n: usize) -> Result<(), Refusal>
    ensures { paper result ≡ judge fine (tables (parts h (lent e.entry) n)) }
{
    rules::require(h.block1.order <= 1, Why::Order, 1, 0)?;
    accept::check_fields1(h.block1)?;
    accept::check_fields2(h.block2)?;
    accept::check_fields5(h.block5)?;
    accept::check_fields7(h.block7, h.block2.lines)?;
    check_lengths(8, 6547, e.lines8.len(), e.column_shifts.len())?;
    rules::require(e.line_shifts.len() == e.lines8.len(), Why::Length, 8, 0)?;
    check_lengths(9, 6549, e.lines9.len(), e.times.len())?;
    check_lengths(10, 65535, e.lines10.len(), e.pixels.len())?;
    accept::check_name(h.block1, h.block5, h.block7)?;
    let a = e.lines8.len() as u16;
    let b = e.lines9.len() as u16;
    let c = e.lines10.len() as u16;
    let least = header::header_length(a, b, c) as usize;
    rules::require(least <= n, Why::Room, 0, 0)
}

// Judges the values and entries that a header is to be written of, and the room of n bytes.
fn check_given(h: Header, e: Lent<'_>, n: usize) -> Result<(), Refusal>
    ensures { paper result ≡ ruled h (lent e.entry) n }
{
    rules::placeless(check_placed(h, e, n))
}

// Writes a header, or says why not and leaves every byte as it was. The entries are lent one by one, as the clause names them; inside they are one `Lent`.
#[tactic(auto, using(crate::proofs::Written::writing))]
pub fn write(
    out: &mut [u8],
    h: Header,
    lines8: &[u16],
    column_shifts: &[u32],
    line_shifts: &[u32],
    lines9: &[u16],
    times: &[u64],
    lines10: &[u16],
    pixels: &[u16],
) -> Result<(), Refusal>
    ensures { Wrote out.old h
        (entries_from lines8.now column_shifts.now line_shifts.now lines9.now
        times.now lines10.now pixels.now)
        result out.new }
{
    let e = Lent {
        lines8,
        column_shifts,
        line_shifts,
        lines9,
        times,
        lines10,
        pixels,
    };
    check_given(h, e, out.len())?;
    write_all(out, h, e);
    Ok(())
}
