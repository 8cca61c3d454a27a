#![tactic(auto)]
// Lists one file: reads standard input to its end, or to one byte past 65,536, and writes the file's line.
ghost use Rattle.std.specs.Io.{ReadsAtMost};

use std::io;
use std::io::Read;

// Reads until a buffer is full or the input ends, and answers how many bytes that put at the buffer's start. The loop is by hand: the listing lives
// in 64 KiB of its own, where `read_to_end` reads into the heap, and what `read_exact` reads before an early end it does not tell.
fn read_full(input: &mut impl Read, buf: &mut [u8]) -> io::Result<usize>
    ensures { ReadsAtMost result buf.new }
{
    let mut done = 0;
    while done < buf.len() {
        let n = input.read(&mut buf[done..])?;
        if n == 0 {
            break;
        }
        done += n;
    }
    Ok(done)
}

// Writes the line of what was read.
#[tactic(auto, using(listing::proofs::Words::within))]
fn list(rt: &impl Print, file: &[u8]) -> io::Result<()> {
    let mut out = [0u8; 64];
    let n = listing::line(file, &mut out);
    rt.write_all(&out[..n])
}

fn main(rt: HostRuntime) -> io::Result<()> {
    let mut file = [0u8; 65537];
    let n = read_full(&mut rt.reader(), &mut file)?;
    list(&rt, &file[..n])
}
