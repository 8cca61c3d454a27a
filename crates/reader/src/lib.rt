#![tactic(auto)]
// The header of an accepted file as values, and its entries in lent slices.
ghost use Rattle.std.specs.Prelude.{◌≡◌, ◌<◌, ◌≤◌, length, map, OnOk};
ghost use Rattle.rules.specs.Rules.{paper, fine, judge};
ghost use Rattle.header.specs.Entries.{column};
ghost use Rattle.reader.specs.Reads.{ReadAs, rooms2, rooms3, Shifts, Times, Errors};

use header::Header;
use rules::{Refusal, Why};
use wire::Word;

// The verdict on a file, and its values; those of a refused one are all 0, which a clause says, so that they stand beside the verdict.
#[derive(Clone, Copy)]
pub struct HeaderRead {
    pub verdict: Result<(), Refusal>,
    pub header: Header,
}

#[tactic(auto, unfolding(rules::specs::Rules::after))]
pub fn read(file: &[u8]) -> HeaderRead
    ensures { ReadAs file.now result }
{
    let verdict = accept::verdict(file);
    let header = match verdict {
        Ok(()) => header::read_header(file),
        Err(_) => header::read_header(b""),
    };
    HeaderRead { verdict, header }
}

// A column of numbers, the first at a place and each a stride after the one before.
#[tactic(auto, using(crate::proofs::Columns::column_from_each))]
fn read_column<const N: usize, W: Word<N>>(
    numbers: &mut [W],
    s: &[u8],
    at: usize,
    stride: usize,
    order: u8,
)
    requires { (length numbers.old < 65536) × (at < 4294967296) × (stride < 256) }
    ensures { map W.number numbers.new ≡ column s.now order at stride N (length numbers.old) }
{
    for (i, number) in numbers.iter_mut().enumerate() {
        *number = wire::number_at(s, at + stride * i, order);
    }
}

// Slices of x, y and z numbers have room for n.
#[tactic(auto, unfolding(crate::specs::Reads::rooms2))]
fn check_rooms2(n: usize, x: usize, y: usize) -> Result<(), Refusal>
    ensures ruling { paper result ≡ judge fine (rooms2 n x y) }
    ensures room { OnOk result ((n ≤ x) × (n ≤ y)) }
{
    rules::require(n <= x, Why::Room, 0, 0)?;
    rules::require(n <= y, Why::Room, 0, 0)
}

#[tactic(auto, unfolding(crate::specs::Reads::rooms2, crate::specs::Reads::rooms3))]
fn check_rooms3(n: usize, x: usize, y: usize, z: usize) -> Result<(), Refusal>
    ensures ruling { paper result ≡ judge fine (rooms3 n x y z) }
    ensures room { OnOk result ((n ≤ x) × (n ≤ y) × (n ≤ z)) }
{
    check_rooms2(n, x, y)?;
    rules::require(n <= z, Why::Room, 0, 0)
}

// Block 8's entries: their lines, column shifts and line shifts. The slices are lent one by one, here and below: the clause says what each holds, on a refusal too.
#[tactic(auto, using(crate::proofs::Filled::reading), unfolding(crate::specs::Reads::filled, rules::specs::Rules::after, header::specs::Entries::entries_of))]
pub fn read_shifts(
    file: &[u8],
    lines: &mut [u16],
    column_shifts: &mut [u32],
    line_shifts: &mut [u32],
) -> Result<(), Refusal>
    ensures { Shifts file.now lines.old column_shifts.old line_shifts.old result
        lines.new column_shifts.new line_shifts.new }
{
    let order = wire::byte_at(file, 5);
    let n = usize::from(header::a_of(file));
    accept::verdict(file)?;
    check_rooms3(n, lines.len(), column_shifts.len(), line_shifts.len())?;
    read_column(&mut lines[..n], file, 1072, 10, order);
    read_column(&mut column_shifts[..n], file, 1074, 10, order);
    read_column(&mut line_shifts[..n], file, 1078, 10, order);
    Ok(())
}

// Block 9's entries: their lines and times.
#[tactic(auto, using(crate::proofs::Filled::reading), unfolding(crate::specs::Reads::filled, rules::specs::Rules::after, header::specs::Entries::entries_of))]
pub fn read_times(file: &[u8], lines: &mut [u16], times: &mut [u64]) -> Result<(), Refusal>
    ensures { Times file.now lines.old times.old result lines.new times.new }
{
    let order = wire::byte_at(file, 5);
    let at = header::place9(header::a_of(file));
    let n = usize::from(header::b_of(file));
    accept::verdict(file)?;
    check_rooms2(n, lines.len(), times.len())?;
    read_column(&mut lines[..n], file, at + 5, 10, order);
    read_column(&mut times[..n], file, at + 7, 10, order);
    Ok(())
}

// Block 10's entries: their lines and error pixels.
#[tactic(auto, using(crate::proofs::Filled::reading), unfolding(crate::specs::Reads::filled, rules::specs::Rules::after, header::specs::Entries::entries_of))]
pub fn read_errors(file: &[u8], lines: &mut [u16], pixels: &mut [u16]) -> Result<(), Refusal>
    ensures { Errors file.now lines.old pixels.old result lines.new pixels.new }
{
    let order = wire::byte_at(file, 5);
    let at = header::place10(header::a_of(file), header::b_of(file));
    let n = usize::from(header::c_of(file));
    accept::verdict(file)?;
    check_rooms2(n, lines.len(), pixels.len())?;
    read_column(&mut lines[..n], file, at + 7, 4, order);
    read_column(&mut pixels[..n], file, at + 9, 4, order);
    Ok(())
}
