// Bytes and numbers read at places of a run of bytes.
ghost use Rattle.std.specs.Prelude.{◌≡◌};
ghost use Rattle.wire.specs.Wire.{span};

use crate::BYTES;
use crate::hex::Hex;
use std::io;

// The last byte, the end, and the highest place that there is.
const PLACES: [usize; 3] = [8, 9, usize::MAX];

// What a slice holds before it is filled.
const BLANK: [u8; 4] = [0xee; 4];

// How many bytes, the byte order and the place.
const NUMBERS: [(u8, u8, usize); 14] = [
    (2, 0, 0),
    (2, 1, 0),
    (2, 0, 8),
    (2, 1, 8),
    (2, 1, usize::MAX),
    (4, 0, 0),
    (4, 255, 0),
    (4, 0, 7),
    (4, 1, 7),
    (4, 0, 9),
    (8, 0, 0),
    (8, 1, 0),
    (8, 1, 4),
    (8, 0, usize::MAX),
];

// How many bytes, and the place.
const PIECES: [(usize, usize); 4] = [(3, 2), (5, 7), (1, 9), (usize::MAX, usize::MAX)];

const RUN: [u8; 6] = [1, 2, 1, 2, 1, 3];

// Two pieces of RUN: place and length of one, and of the other.
const PAIRS: [[(usize, usize); 2]; 4] = [
    [(0, 2), (2, 2)],
    [(0, 2), (4, 2)],
    [(0, 2), (0, 3)],
    [(0, 0), (6, 0)],
];

// What was blank, filled from a place on.
fn filled(s: &[u8], at: usize) -> [u8; 4]
    ensures { result ≡ span s.now at 4 }
{
    let mut bytes = BLANK;
    wire::fill(&mut bytes, s, at);
    bytes
}

pub(crate) fn run_places(rt: &impl Print) -> io::Result<()> {
    let s = &BYTES;
    for at in PLACES {
        let asked = Hex(s);
        println!(rt; "byte at {at} of {asked}: {:02x}", wire::byte_at(s, at))?;
        println!(rt; "left at {at} of {asked}: {}", wire::left(s, at))?;
        println!(rt; "rest at {at} of {asked}: {}", Hex(wire::rest(s, at)))?;
        println!(rt;
            "fill {} at {at} of {asked}: {}",
            Hex(&BLANK),
            Hex(&filled(s, at))
        )?;
    }
    Ok(())
}

// The number of two, four or eight bytes: the rows of cases have the width as a number, and show it.
fn number_at(s: &[u8], width: u8, order: u8, at: usize) -> u64 {
    match width {
        2 => u64::from(wire::number_at::<2, u16>(s, at, order)),
        4 => u64::from(wire::number_at::<4, u32>(s, at, order)),
        _ => wire::number_at(s, at, order),
    }
}

pub(crate) fn run_numbers(rt: &impl Print) -> io::Result<()> {
    for (width, order, at) in NUMBERS {
        let n = number_at(&BYTES, width, order, at);
        println!(rt;
            "u{} order {order} at {at} of {}: {n:0digits$x}",
            8 * usize::from(width),
            Hex(&BYTES),
            digits = 2 * usize::from(width)
        )?;
    }
    Ok(())
}

pub(crate) fn run_pieces(rt: &impl Print) -> io::Result<()> {
    for (n, at) in PIECES {
        let piece = wire::piece(&BYTES, at, n);
        println!(rt; "piece {n} at {at} of {}: {}", Hex(&BYTES), Hex(piece))?;
    }
    Ok(())
}

pub(crate) fn run_sames(rt: &impl Print) -> io::Result<()> {
    for [(at, n), (other, m)] in PAIRS {
        let a = wire::piece(&RUN, at, n);
        let b = wire::piece(&RUN, other, m);
        let answer = if wire::same(a, b) { "yes" } else { "no" };
        println!(rt; "same {} {}: {answer}", Hex(a), Hex(b))?;
    }
    Ok(())
}
