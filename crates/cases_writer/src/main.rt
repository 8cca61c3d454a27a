#![tactic(auto)]
// Gives the writer values that it turns away, and good ones beside them.
// It writes a line for each case: what is given, then the answer. The answers in the file stdout were worked out apart from this code.
mod cases;
mod change;
mod given;
mod show;

use cases::CASES;
use std::io;

fn main(rt: HostRuntime) -> io::Result<()> {
    for changes in CASES {
        show::case(&rt, changes)?;
    }
    Ok(())
}
