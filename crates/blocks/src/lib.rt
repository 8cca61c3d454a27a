#![tactic(auto)]
// Blocks 1 to 7, whose lengths are fixed, stored in a lent output.
ghost use Rattle.std.specs.Prelude.{◌+◌, ◌<◌};
ghost use Rattle.wire.specs.Wire.{join, Stored};
ghost use Rattle.header.specs.Encode.{bytes1, bytes2, carrying, bytes5, bytes7, front_blocks};

use header::{Block1, Block2, Block5, Block7, Header};

// The blocks, each stored piece by piece. front and counts: the lengths of the header and of the counts.
fn write1(out: &mut [u8], v: Block1, front: u32, counts: u32)
    ensures { Stored 282 out.old 0 (bytes1 v front counts) out.new }
{
    wire::put_byte(out, 0, 1);
    wire::put_number(out, 1, 282u16, v.order);
    wire::put_number(out, 3, 11u16, v.order);
    wire::put_byte(out, 5, v.order);
    wire::put_bytes(out, 6, v.satellite);
    wire::put_bytes(out, 22, v.centre);
    wire::put_bytes(out, 38, v.area);
    wire::put_bytes(out, 42, v.other);
    wire::put_number(out, 44, v.timeline, v.order);
    wire::put_number(out, 46, v.started, v.order);
    wire::put_number(out, 54, v.ended, v.order);
    wire::put_number(out, 62, v.created, v.order);
    wire::put_number(out, 70, front, v.order);
    wire::put_number(out, 74, counts, v.order);
    wire::put_byte(out, 78, v.quality1);
    wire::put_byte(out, 79, v.quality2);
    wire::put_byte(out, 80, v.quality3);
    wire::put_byte(out, 81, v.quality4);
    wire::put_bytes(out, 82, v.version);
    wire::put_bytes(out, 114, v.name);
    wire::put_bytes(out, 242, v.spare);
}

fn write2(out: &mut [u8], order: u8, v: Block2)
    ensures { Stored 50 out.old 282 (bytes2 order v) out.new }
{
    wire::put_byte(out, 282, 2);
    wire::put_number(out, 283, 50u16, order);
    wire::put_number(out, 285, 16u16, order);
    wire::put_number(out, 287, v.columns, order);
    wire::put_number(out, 289, v.lines, order);
    wire::put_byte(out, 291, v.compression);
    wire::put_bytes(out, 292, v.spare);
}

// A block that only carries N bytes: 3, 4 or 6.
fn write_carrying<const N: usize>(
    out: &mut [u8],
    at: usize,
    number: u8,
    order: u8,
    carried: [u8; N],
)
    requires { (at < 1000000) × (N < 65533) }
    ensures { Stored (N + 3) out.old at (carrying number order (N + 3) carried.entry) out.new }
{
    wire::put_byte(out, at, number);
    wire::put_number(out, at + 1, (N + 3) as u16, order);
    wire::put_bytes(out, at + 3, carried);
}

fn write5(out: &mut [u8], order: u8, v: Block5)
    ensures { Stored 147 out.old 598 (bytes5 order v) out.new }
{
    wire::put_byte(out, 598, 5);
    wire::put_number(out, 599, 147u16, order);
    wire::put_number(out, 601, v.band, order);
    wire::put_number(out, 603, v.wavelength, order);
    wire::put_number(out, 611, v.bits, order);
    wire::put_number(out, 613, 65535u16, order);
    wire::put_number(out, 615, 65534u16, order);
    wire::put_number(out, 617, v.gain, order);
    wire::put_number(out, 625, v.constant, order);
    wire::put_bytes(out, 633, v.carried);
}

fn write7(out: &mut [u8], order: u8, v: Block7)
    ensures { Stored 47 out.old 1004 (bytes7 order v) out.new }
{
    wire::put_byte(out, 1004, 7);
    wire::put_number(out, 1005, 47u16, order);
    wire::put_byte(out, 1007, v.total);
    wire::put_byte(out, 1008, v.number);
    wire::put_number(out, 1009, v.first, order);
    wire::put_bytes(out, 1011, v.spare);
}

// All seven.
pub fn write_front(out: &mut [u8], h: Header, front: u32, counts: u32)
    ensures { Stored 1051 out.old 0 (join (front_blocks h front counts)) out.new }
{
    write1(out, h.block1, front, counts);
    write2(out, h.block1.order, h.block2);
    write_carrying(out, 332, 3, h.block1.order, h.carried3);
    write_carrying(out, 459, 4, h.block1.order, h.carried4);
    write5(out, h.block1.order, h.block5);
    write_carrying(out, 745, 6, h.block1.order, h.carried6);
    write7(out, h.block1.order, h.block7);
}
