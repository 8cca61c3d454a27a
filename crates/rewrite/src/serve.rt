// Requests, one after the other, and their answers.
ghost use Rattle.std.specs.Prelude.{◌≤◌, IfOk, IfSome};

use crate::lists::Lists;
use header::Header;
use rules::Refusal;
use std::io;
use std::io::{ErrorKind, Read};

// How long a request's image and output are, and how many entries each lent list has room for.
#[derive(Clone, Copy)]
struct Request {
    image: usize,
    output: usize,
    room: usize,
}

// The byte that every output is filled with before it is written: it shows what was kept.
const BLANK: u8 = 0xaa;

// Notes a refusal's number, block and offset at a place, where zeros are, and says whether there was none.
fn fine(notes: &mut [u8; 30], at: usize, verdict: Result<(), Refusal>) -> bool {
    if let Err(t) = verdict {
        let [a, b, c, d] = t.offset.to_le_bytes();
        wire::put(notes, at, &[rules::number_of(t.why), t.block, a, b, c, d]);
    }
    verdict.is_ok()
}

// Has an image read by the four readers, and notes what they say. The values and entries are theirs,
// or what the image states where one of them refuses.
fn read(s: &[u8], room: usize, notes: &mut [u8; 30], lists: &mut Lists) -> Header {
    let first = reader::read(s);
    let fine8 = fine(notes, 6, lists.read8(s, room));
    let fine9 = fine(notes, 12, lists.read9(s, room));
    let fine10 = fine(notes, 18, lists.read10(s, room));
    if fine(notes, 0, first.verdict) && fine8 && fine9 && fine10 {
        return first.header;
    }
    lists.state(s);
    header::read_header(s)
}

// Fills a buffer from the input, and says whether there was as much of it.
fn filled(input: &mut impl Read, buf: &mut [u8]) -> io::Result<bool> {
    match input.read_exact(buf) {
        Ok(()) => Ok(true),
        Err(e) if e.kind() == ErrorKind::UnexpectedEof => Ok(false),
        Err(e) => Err(e),
    }
}

// Reads the next request, its image into its place; none at the end of the input,
// and where a length is more than its place holds, which ends the requests, too.
fn asked(input: &mut impl Read, image: &mut [u8], longest: usize) -> io::Result<Option<Request>>
    ensures { IfOk result (λ asked. IfSome asked (λ n. n.output ≤ longest)) }
{
    let mut sizes = [0; 12];
    if !filled(input, &mut sizes)? {
        return Ok(None);
    }
    let n = wire::number_at::<4, u32>(&sizes, 0, 0) as usize;
    let output = wire::number_at::<4, u32>(&sizes, 4, 0) as usize;
    let room = wire::number_at::<4, u32>(&sizes, 8, 0) as usize;
    if n > image.len() || !filled(input, &mut image[..n])? || output > longest {
        return Ok(None);
    }
    Ok(Some(Request {
        image: n,
        output,
        room,
    }))
}

// Answers one request: what the readers say, what the writer says, and the output.
fn answer(
    rt: &impl Print,
    s: &[u8],
    room: usize,
    out: &mut [u8],
    lists: &mut Lists,
) -> io::Result<()> {
    let mut notes = [0; 30];
    let h = read(s, room, &mut notes, lists);
    out.fill(BLANK);
    fine(&mut notes, 24, lists.write(s, out, h));
    rt.write_all(&notes)?;
    rt.write_all(out)
}

// Answers requests to the end of the input: so many at most, so that it ends.
pub(crate) fn run(
    rt: &(impl Input + Print),
    image: &mut [u8],
    out: &mut [u8],
    lists: &mut Lists,
) -> io::Result<()> {
    let mut input = rt.reader();
    for _ in 0..4_000_000u32 {
        let Some(n) = asked(&mut input, image, out.len())? else {
            return Ok(());
        };
        let s = wire::piece(image, 0, n.image);
        let out = &mut out[..n.output];
        answer(rt, s, n.room, out, lists)?;
    }
    Ok(())
}
