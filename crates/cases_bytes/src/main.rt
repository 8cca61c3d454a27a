#![tactic(auto)]
// Runs cases of bytes and numbers, read and stored at places of a slice, past its end too.
// It writes a line for each: what is asked, then the answer. The answers in the file stdout were worked out apart from this code.
mod hex;
mod reads;
mod stores;

use std::io;

// The run of bytes that is read, and that pieces to store are taken from.
const BYTES: [u8; 9] = [0x01, 0x23, 0x45, 0x67, 0x89, 0xab, 0xcd, 0xef, 0x5a];

fn main(rt: HostRuntime) -> io::Result<()> {
    reads::run_places(&rt)?;
    reads::run_numbers(&rt)?;
    reads::run_pieces(&rt)?;
    reads::run_sames(&rt)?;
    stores::run_numbers(&rt)?;
    stores::run_runs(&rt)
}
