// Numbers and runs of bytes stored at places of a lent slice.
use crate::BYTES;
use crate::hex::Hex;
use std::io;

// What every slice is filled with before a case: it shows what was kept.
const BLANK: [u8; 9] = [0xee; 9];

// How many bytes, the number, the byte order and the place.
const NUMBERS: [(u8, u64, u8, usize); 14] = [
    (1, 0x5a, 0, 8),
    (1, 0x5a, 0, 9),
    (1, 0x5a, 0, usize::MAX),
    (2, 0x1234, 0, 0),
    (2, 0x1234, 1, 0),
    (2, 0x1234, 1, 8),
    (4, 0x1234_5678, 0, 5),
    (4, 0x1234_5678, 1, 5),
    (4, 0x1234_5678, 0, 7),
    (4, 0x1234_5678, 1, 9),
    (8, 0x1234_5678_9abc_def0, 0, 1),
    (8, 0x1234_5678_9abc_def0, 255, 1),
    (8, 0x1234_5678_9abc_def0, 1, 4),
    (8, 0x1234_5678_9abc_def0, 0, usize::MAX),
];

// How many of BYTES, and the place.
const RUNS: [(usize, usize); 3] = [(3, 3), (3, 7), (9, usize::MAX)];

// What is stored, and its name.
fn show_what(rt: &impl Print, width: u8, x: u64, order: u8) -> io::Result<()> {
    if width == 1 {
        print!(rt; "put_byte {x:02x}")
    } else {
        print!(rt;
            "put_u{} {x:0digits$x} order {order}",
            8 * usize::from(width),
            digits = 2 * usize::from(width)
        )
    }
}

// Stores the lowest bytes of a number, one, two, four or eight of them: the rows of cases have the width as a number, and show it.
fn store(out: &mut [u8], width: u8, x: u64, order: u8, at: usize) {
    match width {
        1 => wire::put_byte(out, at, (x % 256) as u8),
        2 => wire::put_number(out, at, (x % 65536) as u16, order),
        4 => wire::put_number(out, at, (x % 4294967296) as u32, order),
        _ => wire::put_number(out, at, x, order),
    }
}

pub(crate) fn run_numbers(rt: &impl Print) -> io::Result<()> {
    for (width, x, order, at) in NUMBERS {
        let mut out = BLANK;
        store(&mut out, width, x, order, at);
        show_what(rt, width, x, order)?;
        println!(rt; " at {at} of {}: {}", Hex(&BLANK), Hex(&out))?;
    }
    Ok(())
}

pub(crate) fn run_runs(rt: &impl Print) -> io::Result<()> {
    for (n, at) in RUNS {
        let run = wire::piece(&BYTES, 0, n);
        let mut out = BLANK;
        wire::put(&mut out, at, run);
        println!(rt;
            "put {} at {at} of {}: {}",
            Hex(run),
            Hex(&BLANK),
            Hex(&out)
        )?;
    }
    Ok(())
}
