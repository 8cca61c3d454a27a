#![tactic(auto)]
// The header's values by block, as a file has them in a byte order: past its end every byte is 0.
ghost use Rattle.std.specs.Prelude.{◌≡◌, ◌+◌, ◌*◌};
ghost use Rattle.wire.specs.Wire.{span};
ghost use Rattle.header.specs.Places.{a_of, b_of, c_of, at9, at10, at11, header_length, data_length};
ghost use Rattle.header.specs.Values.{block1_of, block2_of, block5_of, block7_of, block8_of, header_of};

// Basic information. Here and below runs of bytes are arrays of their length: the library has no heap.
#[derive(Clone, Copy)]
pub struct Block1 {
    // the file's own byte, above 1 too: the writer refuses that
    pub order: u8,
    pub satellite: [u8; 16],
    pub centre: [u8; 16],
    pub area: [u8; 4],
    pub other: [u8; 2],
    pub timeline: u16,
    pub started: u64,
    pub ended: u64,
    pub created: u64,
    pub quality1: u8,
    pub quality2: u8,
    pub quality3: u8,
    pub quality4: u8,
    pub version: [u8; 32],
    pub name: [u8; 128],
    pub spare: [u8; 40],
}

// Data information.
#[derive(Clone, Copy)]
pub struct Block2 {
    pub columns: u16,
    pub lines: u16,
    pub compression: u8,
    pub spare: [u8; 40],
}

// Calibration.
#[derive(Clone, Copy)]
pub struct Block5 {
    pub band: u16,
    pub wavelength: u64,
    pub bits: u16,
    pub gain: u64,
    pub constant: u64,
    pub carried: [u8; 112],
}

// Segment.
#[derive(Clone, Copy)]
pub struct Block7 {
    pub total: u8,
    pub number: u8,
    pub first: u16,
    pub spare: [u8; 40],
}

// Position correction, but for its entries.
#[derive(Clone, Copy)]
pub struct Block8 {
    pub column: u32,
    pub line: u32,
    pub rotation: u64,
    pub spare: [u8; 40],
}

// Every value of a header that is not derived, but the entries of blocks 8, 9 and 10.
#[derive(Clone, Copy)]
pub struct Header {
    pub block1: Block1,
    pub block2: Block2,
    pub carried3: [u8; 124],
    pub carried4: [u8; 136],
    pub block5: Block5,
    pub carried6: [u8; 256],
    pub block7: Block7,
    pub block8: Block8,
    pub spare9: [u8; 40],
    pub spare10: [u8; 40],
    pub spare11: [u8; 256],
}

// The values of a block.
#[tactic(auto, unfolding(crate::specs::Values::block1_of))]
pub fn read_block1(s: &[u8], order: u8) -> Block1
    ensures { result ≡ block1_of s.now order }
{
    Block1 {
        order,
        satellite: wire::bytes_at(s, 6),
        centre: wire::bytes_at(s, 22),
        area: wire::bytes_at(s, 38),
        other: wire::bytes_at(s, 42),
        timeline: wire::number_at(s, 44, order),
        started: wire::number_at(s, 46, order),
        ended: wire::number_at(s, 54, order),
        created: wire::number_at(s, 62, order),
        quality1: wire::byte_at(s, 78),
        quality2: wire::byte_at(s, 79),
        quality3: wire::byte_at(s, 80),
        quality4: wire::byte_at(s, 81),
        version: wire::bytes_at(s, 82),
        name: wire::bytes_at(s, 114),
        spare: wire::bytes_at(s, 242),
    }
}

#[tactic(auto, unfolding(crate::specs::Values::block2_of))]
pub fn read_block2(s: &[u8], order: u8) -> Block2
    ensures { result ≡ block2_of s.now order }
{
    Block2 {
        columns: wire::number_at(s, 287, order),
        lines: wire::number_at(s, 289, order),
        compression: wire::byte_at(s, 291),
        spare: wire::bytes_at(s, 292),
    }
}

#[tactic(auto, unfolding(crate::specs::Values::block5_of))]
pub fn read_block5(s: &[u8], order: u8) -> Block5
    ensures { result ≡ block5_of s.now order }
{
    Block5 {
        band: wire::number_at(s, 601, order),
        wavelength: wire::number_at(s, 603, order),
        bits: wire::number_at(s, 611, order),
        gain: wire::number_at(s, 617, order),
        constant: wire::number_at(s, 625, order),
        carried: wire::bytes_at(s, 633),
    }
}

#[tactic(auto, unfolding(crate::specs::Values::block7_of))]
pub fn read_block7(s: &[u8], order: u8) -> Block7
    ensures { result ≡ block7_of s.now order }
{
    Block7 {
        total: wire::byte_at(s, 1007),
        number: wire::byte_at(s, 1008),
        first: wire::number_at(s, 1009, order),
        spare: wire::bytes_at(s, 1011),
    }
}

// a: the entries of block 8, before its spare.
#[tactic(auto, unfolding(crate::specs::Values::block8_of))]
pub fn read_block8(s: &[u8], order: u8, a: u16) -> Block8
    ensures { result ≡ block8_of s.now order a }
{
    Block8 {
        column: wire::number_at(s, 1054, order),
        line: wire::number_at(s, 1058, order),
        rotation: wire::number_at(s, 1062, order),
        spare: wire::bytes_at(s, 1072 + 10 * usize::from(a)),
    }
}

// Where blocks 9, 10 and 11 stand, by the entries before them.
pub fn place9(a: u16) -> usize
    ensures { result ≡ at9 a }
{
    1112 + 10 * usize::from(a)
}

pub fn place10(a: u16, b: u16) -> usize
    ensures { result ≡ at10 a b }
{
    1157 + 10 * usize::from(a) + 10 * usize::from(b)
}

pub fn place11(a: u16, b: u16, c: u16) -> usize
    ensures { result ≡ at11 a b c }
{
    1204 + 10 * usize::from(a) + 10 * usize::from(b) + 4 * usize::from(c)
}

// The entries of blocks 8, 9 and 10, as a file states them.
pub fn a_of(s: &[u8]) -> u16
    ensures { result ≡ a_of s.now }
{
    wire::number_at(s, 1070, wire::byte_at(s, 5))
}

pub fn b_of(s: &[u8]) -> u16
    ensures { result ≡ b_of s.now }
{
    wire::number_at(s, place9(a_of(s)) + 3, wire::byte_at(s, 5))
}

pub fn c_of(s: &[u8]) -> u16
    ensures { result ≡ c_of s.now }
{
    wire::number_at(s, place10(a_of(s), b_of(s)) + 5, wire::byte_at(s, 5))
}

// The header's length by its entries, and that of the counts.
pub fn header_length(a: u16, b: u16, c: u16) -> u32
    ensures { result ≡ header_length a b c }
{
    1463 + 10 * u32::from(a) + 10 * u32::from(b) + 4 * u32::from(c)
}

pub fn data_length(columns: u16, lines: u16) -> usize
    ensures { result ≡ data_length columns lines }
{
    2 * usize::from(columns) * usize::from(lines)
}

// The spares that stand behind entries.
fn read_spare9(s: &[u8], a: u16, b: u16) -> [u8; 40]
    ensures { result ≡ span s.now (at9 a + 5 + 10 * b) 40 }
{
    wire::bytes_at(s, place9(a) + 5 + 10 * usize::from(b))
}

fn read_spare10(s: &[u8], a: u16, b: u16, c: u16) -> [u8; 40]
    ensures { result ≡ span s.now (at10 a b + 7 + 4 * c) 40 }
{
    wire::bytes_at(s, place10(a, b) + 7 + 4 * usize::from(c))
}

fn read_spare11(s: &[u8], a: u16, b: u16, c: u16) -> [u8; 256]
    ensures { result ≡ span s.now (at11 a b c + 3) 256 }
{
    wire::bytes_at(s, place11(a, b, c) + 3)
}

// The values of a header.
#[tactic(auto, unfolding(crate::specs::Values::header_of))]
pub fn read_header(s: &[u8]) -> Header
    ensures { result ≡ header_of s.now }
{
    let order = wire::byte_at(s, 5);
    let a = a_of(s);
    let b = b_of(s);
    let c = c_of(s);
    Header {
        block1: read_block1(s, order),
        block2: read_block2(s, order),
        carried3: wire::bytes_at(s, 335),
        carried4: wire::bytes_at(s, 462),
        block5: read_block5(s, order),
        carried6: wire::bytes_at(s, 748),
        block7: read_block7(s, order),
        block8: read_block8(s, order, a),
        spare9: read_spare9(s, a, b),
        spare10: read_spare10(s, a, b, c),
        spare11: read_spare11(s, a, b, c),
    }
}
