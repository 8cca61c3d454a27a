// The fields of a file that a case can set.
ghost use Rattle.std.specs.Prelude.{◌<◌};

use Field::Named;
use Form::{Digits, U8, U16, U32, UpperHalf};
use samples::Plan;
use std::fmt;

#[derive(Clone, Copy)]
pub enum Field {
    // a block's number, and its length
    Number(u8),
    Length(u8),
    // a byte of block 1, by its place
    Byte(u16),
    // any other: its block, its place there, its name and its form
    Named(u8, u16, &'static str, Form),
}

// How a field holds a number.
#[derive(Clone, Copy)]
pub enum Form {
    U8,
    U16,
    U32,
    // the upper half of eight bytes, of which the lower half is 0
    UpperHalf,
    // so many decimal digits, as text
    Digits(u8),
}

impl Field {
    // Its block, its place there, its name and its form.
    fn layout(self) -> (u8, u16, &'static str, Form) {
        match self {
            Field::Number(block) => (block, 0, "number", U8),
            Field::Length(10) => (10, 1, "length", U32),
            Field::Length(block) => (block, 1, "length", U16),
            Field::Byte(place) => (1, place, "byte", U8),
            Named(block, place, name, form) => (block, place, name, form),
        }
    }

    // Where it stands in the file of a plan.
    fn at(self, plan: &Plan) -> usize
        ensures { result < 3000000 }
    {
        let (block, place, _, _) = self.layout();
        start(block, plan) + usize::from(place)
    }

    // Sets it to a number in the file of a plan.
    pub(crate) fn set(self, out: &mut [u8], plan: &Plan, n: u32) {
        let at = self.at(plan);
        let (_, _, _, form) = self.layout();
        match form {
            U8 => wire::put_byte(out, at, (n % 256) as u8),
            U16 => wire::put_number(out, at, (n % 65536) as u16, plan.order),
            U32 => wire::put_number(out, at, n, plan.order),
            UpperHalf => wire::put_number(out, at, u64::from(n) << 32, plan.order),
            Digits(width) => {
                // not from `format`, whose code is tried on these files
                let mut rest = n;
                for place in (0..usize::from(width)).rev() {
                    wire::put_byte(out, at + place, b'0' + (rest % 10) as u8);
                    rest /= 10;
                }
            }
        }
    }

    // Sets it to letters, which stand in a file as they are read, in either byte order.
    pub(crate) fn set_letters(self, out: &mut [u8], plan: &Plan, letters: &str) {
        wire::put(out, self.at(plan), letters.as_bytes());
    }
}

impl fmt::Display for Field {
    fn fmt<W: fmt::Write>(&self, f: &mut fmt::Formatter<W>) -> fmt::Result {
        let (block, place, name, _) = self.layout();
        let name = str::from_utf8(say::trimmed(name.as_bytes())).unwrap_or(name);
        match self {
            Field::Byte(_) => write!(f, "block {block} {name} {place}"),
            _ => write!(f, "block {block} {name}"),
        }
    }
}

// Where a block starts in the file of a plan, by the entries of those before it: a match on the block's number and no table, since three of the
// places follow from the plan.
fn start(block: u8, plan: &Plan) -> usize
    ensures { result < 2000000 }
{
    let start9 = 1112 + 10 * usize::from(plan.a);
    let start10 = start9 + 45 + 10 * usize::from(plan.b);
    match block {
        1 => 0,
        2 => 282,
        3 => 332,
        4 => 459,
        5 => 598,
        6 => 745,
        7 => 1004,
        8 => 1051,
        9 => start9,
        10 => start10,
        _ => start10 + 47 + 4 * usize::from(plan.c),
    }
}

pub const BLOCKS: Field = Named(1, 3, "blocks", U16);

pub const ORDER: Field = Named(1, 5, "order", U8);

pub const SATELLITE: Field = Named(1, 15, "satellite", Digits(1));

pub const AREA: Field = Named(1, 38, "area", U32);

pub const TIMELINE: Field = Named(1, 44, "timeline", U16);

pub const START: Field = Named(1, 46, "start", UpperHalf);

pub const HEADER_SUM: Field = Named(1, 70, "header sum", U32);

pub const DATA_SUM: Field = Named(1, 74, "data sum", U32);

pub const QUALITY: Field = Named(1, 78, "quality", U8);

pub const NAME_SATELLITE: Field = Named(1, 118, "name satellite", Digits(2));

pub const NAME_DATE: Field = Named(1, 121, "name date", Digits(8));

pub const NAME_TIME: Field = Named(1, 130, "name time", Digits(4));

pub const NAME_BAND: Field = Named(1, 136, "name band", Digits(2));

pub const NAME_AREA: Field = Named(1, 139, "name area", U32);

pub const NAME_RESOLUTION: Field = Named(1, 145, "name resolution", Digits(2));

pub const NAME_SEGMENT: Field = Named(1, 149, "name segment", Digits(2));

pub const NAME_TOTAL: Field = Named(1, 151, "name total", Digits(2));

// The first two of the four bytes of block 10's length.
pub const HALF_LENGTH: Field = Named(10, 1, "half length", U16);

pub const BITS: Field = Named(2, 3, "bits", U16);

pub const COLUMNS: Field = Named(2, 5, "columns", U16);

pub const LINES: Field = Named(2, 7, "lines", U16);

pub const FLAG: Field = Named(2, 9, "flag", U8);

pub const BAND: Field = Named(5, 3, "band", U16);

pub const VALID_BITS: Field = Named(5, 13, "valid bits", U16);

pub const ERROR_COUNT: Field = Named(5, 15, "error count", U16);

pub const OUTSIDE_COUNT: Field = Named(5, 17, "outside count", U16);

pub const GAIN: Field = Named(5, 19, "gain", UpperHalf);

pub const CONSTANT: Field = Named(5, 27, "constant", UpperHalf);

pub const TOTAL: Field = Named(7, 3, "total", U8);

pub const SEGMENT: Field = Named(7, 4, "segment", U8);

pub const FIRST: Field = Named(7, 5, "first", U16);

pub const ENTRIES8: Field = Named(8, 19, "a", U16);

pub const ENTRIES9: Field = Named(9, 3, "b", U16);

pub const ENTRIES10: Field = Named(10, 5, "c", U16);
