#![tactic(auto)]
// Makes files, good and damaged, in both byte orders, and has each judged.
// It writes a line for each: how the file was made, then the answer. The answers in the file stdout were worked out apart from this code.
mod broken;
mod cases;
mod changes;
mod entries;
mod fields;
mod good;
mod names;
mod order;

use cases::{Case, Start};
use std::io;

fn show_all(rt: &impl Print, buffer: &mut [u8], cases: &[Case]) -> io::Result<()> {
    for case in cases {
        case.show(rt, buffer)?;
    }
    Ok(())
}

fn main(rt: HostRuntime) -> io::Result<()> {
    // the longest file that the listing reads
    let mut buffer = [0; 65536];
    show_all(&rt, &mut buffer, good::GOOD)?;
    for changes in broken::IN_BOTH_ORDERS {
        Case(Start::Little, changes).show(&rt, &mut buffer)?;
        Case(Start::Big, changes).show(&rt, &mut buffer)?;
    }
    show_all(&rt, &mut buffer, broken::BROKEN)?;
    show_all(&rt, &mut buffer, names::NAMED)?;
    show_all(&rt, &mut buffer, order::ORDERED)?;
    show_all(&rt, &mut buffer, entries::COUNTED)
}
