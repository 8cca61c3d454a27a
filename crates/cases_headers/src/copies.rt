// Headers that are written, read back and written again.
ghost use Rattle.std.specs.Prelude.{◌≡◌, ◌↔◌, IsTrue, All};

use crate::lists;
use crate::lists::first;
use rules::Refusal;
use std::io;

// The byte that every output is filled with before a case: it shows what was kept.
const BLANK: u8 = 0xaa;

// The counts of 4 columns and 2 lines.
static COUNTS: [u8; 16] = [1, 2, 3, 4, 5, 6, 7, 8, 9, 10, 11, 12, 13, 14, 15, 16];

// Byte order, a, b and c: none, a few, one in one block, and in one block as many as the output has room for.
static CASES: [(u8, u16, u16, u16); 16] = [
    (0, 0, 0, 0),
    (1, 0, 0, 0),
    (0, 4, 2, 0),
    (1, 4, 2, 0),
    (0, 4, 2, 3),
    (1, 4, 2, 3),
    (0, 1, 0, 0),
    (1, 1, 0, 0),
    (0, 0, 1, 0),
    (1, 0, 0, 1),
    (0, 5852, 0, 0),
    (1, 5852, 0, 0),
    (0, 0, 5852, 0),
    (1, 0, 5852, 0),
    (0, 0, 0, 14630),
    (1, 0, 0, 14630),
];

// Whether every byte is still the one that outputs are filled with.
// A line that cases_writer has, too: no crate below both would be its place.
fn is_blank(out: &[u8]) -> bool
    ensures { IsTrue result ↔ All (λ byte. byte ≡ BLANK) out.now }
{
    out.iter().all(|&byte| byte == BLANK)
}

fn tell(rt: &impl Print, verdict: Result<(), Refusal>, done: &str) -> io::Result<()> {
    let mut room = [0; 64];
    let n = say::verdict(&mut room, verdict, done.as_bytes());
    rt.write_all(wire::piece(&room, 0, n))
}

// Reads a file, and writes the header that it has.
fn rewrite(rt: &impl Print, out: &mut [u8], file: &[u8]) -> io::Result<()> {
    let mut lines8 = [0; 8192];
    let mut xs = [0; 8192];
    let mut ys = [0; 8192];
    let mut lines9 = [0; 8192];
    let mut times = [0; 8192];
    let mut lines10 = [0; 16384];
    let mut pixels = [0; 16384];
    let read = reader::read(file);
    let shifts = reader::read_shifts(file, &mut lines8, &mut xs, &mut ys);
    tell(rt, read.verdict, ", read")?;
    tell(rt, shifts, "")?;
    tell(rt, reader::read_times(file, &mut lines9, &mut times), "")?;
    tell(rt, reader::read_errors(file, &mut lines10, &mut pixels), "")?;
    let a = header::a_of(file);
    let b = header::b_of(file);
    let c = header::c_of(file);
    let verdict = writer::write(
        out,
        read.header,
        first(&lines8, a),
        first(&xs, a),
        first(&ys, a),
        first(&lines9, b),
        first(&times, b),
        first(&lines10, c),
        first(&pixels, c),
    );
    tell(rt, verdict, ", written again ")
}

// Reads a file of n bytes of header, and writes that header again. kept: whether the first output's rest was.
fn again(rt: &impl Print, file: &[u8], n: usize, kept: bool) -> io::Result<()> {
    let mut out = [BLANK; 60000];
    tell(rt, accept::verdict(file), ", accepted")?;
    rewrite(rt, &mut out, file)?;
    let same = wire::piece(file, 0, n) == wire::piece(&out, 0, n);
    let kept = kept && is_blank(wire::rest(&out, n));
    let same = if same { "the same" } else { "OTHERWISE" };
    let kept = if kept { "rest kept" } else { "REST CHANGED" };
    println!(rt; "{same}, {kept}")
}

fn show(rt: &impl Print, order: u8, a: u16, b: u16, c: u16) -> io::Result<()> {
    let mut out = [BLANK; 60000];
    let verdict = lists::write(&mut out, order, a, b, c);
    // the length that the header states of itself
    let n: u32 = wire::number_at(&out, 70, order);
    print!(rt; "order {order} a {a} b {b} c {c}: header {n}")?;
    tell(rt, verdict, ", written")?;
    let n = n as usize;
    let kept = is_blank(wire::rest(&out, n));
    wire::put(&mut out, n, &COUNTS);
    again(rt, wire::piece(&out, 0, n + 16), n, kept)
}

pub(crate) fn run(rt: &impl Print) -> io::Result<()> {
    for (order, a, b, c) in CASES {
        show(rt, order, a, b, c)?;
    }
    Ok(())
}
