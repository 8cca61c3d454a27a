#![tactic(auto)]
// Runs the paper's cases of dates, shots, counts and quality marks, and more at the edges.
// It writes a line for each: what is asked, then the answer. The answers in the file stdout were worked out apart from this code.
mod counts;
mod dates;
mod quality;
mod shots;
mod told;

use std::io;

fn main(rt: HostRuntime) -> io::Result<()> {
    dates::run(&rt)?;
    shots::run_slots(&rt)?;
    shots::run_films(&rt)?;
    counts::run(&rt)?;
    quality::run(&rt)
}
