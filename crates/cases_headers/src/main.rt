#![tactic(auto)]
// Writes headers of good values, reads them back and writes them again.
// It writes a line for each case: what is given, then the answer. The answers in the file stdout were worked out apart from this code.
mod copies;
mod lists;
mod values;

use std::io;

fn main(rt: HostRuntime) -> io::Result<()> {
    copies::run(&rt)
}
