#![tactic(auto)]
// Writes one good segment of any size, a test card, to standard output. Its arguments: satellite, date (yyyymmdd), timeline (hhmm), band,
// area, columns, lines, number, total and byte order, as in `testcard 8 20150707 0200 13 FLDK 5500 550 3 10 0`. The lines are one number for
// all segments, or a number for each, as `900+1850+1850+900` of a total of 4. The writer judges them: what it refuses is told in one line on
// standard error, and nothing is written.
mod card;
mod carried;
mod cut;
mod faults;
mod reals;
mod values;
mod words;

use card::Frame;
use header::Header;
use std::io;

// The longest line has 22,000 counts.
const LINE: usize = 44000;

// Writes the counts of a line.
fn send_line(
    rt: &impl Print,
    line: &mut [u8; LINE],
    f: Frame,
    at: u32,
    order: u8,
) -> io::Result<()> {
    card::draw(line, f, at, order);
    rt.write_all(wire::piece(line, 0, 2 * usize::from(f.columns)))
}

// Writes the counts of a segment, line by line.
fn send_counts(rt: &impl Print, f: Frame, first: u16, lines: u16, order: u8) -> io::Result<()> {
    let mut line = [0u8; LINE];
    for i in 0..lines {
        send_line(rt, &mut line, f, u32::from(first) + u32::from(i), order)?;
    }
    Ok(())
}

// Writes a header that the writer took, and its counts, of a frame of so many lines.
fn send(rt: &impl Print, out: &[u8], h: Header, all: u32) -> io::Result<()> {
    let frame = card::frame_of(h, all);
    rt.write_all(out)?;
    send_counts(rt, frame, h.block7.first, h.block2.lines, h.block1.order)
}

fn main(rt: HostRuntime) -> io::Result<()> {
    if !words::are_ten(&rt) {
        return faults::usage(&rt);
    }
    let a = words::read(&rt);
    let cut = cut::read(&rt, a.number, a.total);
    let h = values::header_of(a, cut);
    let mut out = [0u8; 1463];
    if let Err(t) = writer::write(&mut out, h, &[], &[], &[], &[], &[], &[], &[]) {
        return faults::refusal(&rt, t);
    }
    match send(&rt, &out, h, cut.all) {
        Ok(()) => Ok(()),
        Err(e) => faults::unsent(&rt, e),
    }
}
