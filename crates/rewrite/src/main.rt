#![tactic(auto)]
// Has any bytes read by the four readers, and writes what they read: the host tests compare its answers with an independent reader and writer.
// Numbers are little-endian. A request: the image's length, the output's length, how many entries each slice lent to a reader has room for
// (beyond 65,536 counts as that), 4 bytes each, and the image. Its answer: what reader::read, read_shifts, read_times, read_errors and the writer say,
// a refusal's number and block, a byte each, and its offset, 4 bytes, or zeros for none; and the output.
// Where a reader refuses, the writer is given what the image states, read as a file would have it.
mod lists;
mod serve;

use lists::{LONG, Lists};
use std::io;

// The image, the output and the entries have their places here, and are lent to every request.
fn main(rt: HostRuntime) -> io::Result<()> {
    let mut image = [0; 65536];
    let mut out = [0; 400000];
    let mut lists = Lists {
        lines8: [0; LONG],
        column_shifts: [0; LONG],
        line_shifts: [0; LONG],
        lines9: [0; LONG],
        times: [0; LONG],
        lines10: [0; LONG],
        pixels: [0; LONG],
    };
    serve::run(&rt, &mut image, &mut out, &mut lists)
}
