// The picture: a disk that fills the frame of all segments, ever brighter towards its last line and column, and rings that move from shot
// to shot. So it shows when a segment is in another's place, or of another shot.
ghost use Rattle.std.specs.Prelude.{◌^◌, ◌<◌, ◌≤◌};
ghost use Rattle.testcard.specs.Card.{Shown};

use header::Header;

// The frame: its columns, the lines of all its segments, valid bits, and how far the rings have moved.
#[derive(Clone, Copy)]
pub struct Frame {
    pub columns: u16,
    pub lines: u32,
    pub bits: u16,
    pub moved: u32,
}

const OUTSIDE: u16 = 65534;

// The square of the way from the middle to an edge, and an eighth of that from ring to ring.
const EDGE: u32 = 0x4000_0000;

const RING: u64 = 0x0800_0000;

// Each shot moves the rings by 25 parts of 149: neighbours differ plainly, and so do two days' shots of one timeline.
fn moved_by(slot: u64) -> u32
    ensures { result < 134217728 }
{
    let parts = (slot % 149) * 25 % 149;
    (RING / 149 * parts) as u32
}

// The frame of a header's shot, of so many lines.
pub(crate) fn frame_of(h: Header, lines: u32) -> Frame {
    let day = format::day_or_0(format::date_of(h.block1.name));
    let slot = calendar::slot(day, h.block1.timeline).unwrap_or(0);
    Frame {
        columns: h.block2.columns,
        lines,
        bits: h.block5.bits,
        moved: moved_by(slot),
    }
}

// Where a column or a line lies among n, from 0 at one edge to 65,535 at the other; one that is not among them lies at that edge.
fn place(i: u32, n: u32) -> u16 {
    if (1..=n).contains(&i) {
        ((2 * u64::from(i) - 1) * 32768 / u64::from(n)) as u16
    } else {
        65535
    }
}

// How far a place lies from the middle.
fn way(place: u16) -> u32
    ensures { result ≤ 32768 }
{
    u32::from(place).abs_diff(32768)
}

fn squared(way: u32) -> u32
    requires { way ≤ 32768 }
    ensures { result ≤ 1073741824 }
{
    way * way
}

// The first of a level's 16 bits.
#[tactic(auto, using(crate::proofs::Shades::shade))]
fn scaled(level: u16, bits: u16) -> u16
    ensures { result < 2 ^ bits }
{
    (u32::from(level) >> 16u16.saturating_sub(bits)) as u16
}

// The count at a column and a line of the frame, both counted from 1.
fn count_at(f: Frame, column: u32, line: u32) -> u16
    ensures { Shown f.bits result }
{
    let x = place(column, u32::from(f.columns));
    let y = place(line, f.lines);
    let out = squared(way(x)) + squared(way(y));
    if EDGE < out {
        return OUTSIDE;
    }
    let light = (u64::from(x) + u64::from(y)) / 2;
    // 65,536 levels from ring to ring, as there are of light
    let ring = (u64::from(out) + u64::from(f.moved)) % RING / 2048;
    scaled(((3 * light + ring) / 4) as u16, f.bits)
}

// Stores the counts of a line of the frame at the front of a buffer.
pub(crate) fn draw(out: &mut [u8], f: Frame, line: u32, order: u8) {
    for i in 0..f.columns {
        let count = count_at(f, u32::from(i) + 1, line);
        wire::put_number(out, 2 * usize::from(i), count, order);
    }
}
