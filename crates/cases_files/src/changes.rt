// What a case changes of the file that it starts from.
use crate::fields::Field::{self, Byte, Named};
use crate::fields::Form::UpperHalf;
use samples::Plan;
use std::fmt;

#[derive(Clone, Copy)]
pub enum Change {
    // Of the plan that the file is made by, so that all that follows from it agrees.
    Satellite(u8),
    Date(u32),
    Timeline(u16),
    Band(u16),
    Area(&'static str),
    Columns(u16),
    Lines(u16),
    Segment(u8),
    Total(u8),
    First(u16),
    // the entries of blocks 8, 9 and 10
    Entries8(u16),
    Entries9(u16),
    Entries10(u16),
    // what every byte holds that no rule speaks of
    Fill(u8),
    // Of the file that was made, where nothing else follows: a field is set to a number, or to letters.
    Set(Field, u32),
    Letters(Field, &'static str),
    // how many bytes the file has, fewer or more than before
    Bytes(usize),
}

impl Change {
    // Changes the plan.
    pub(crate) fn plan(self, plan: &mut Plan) {
        match self {
            Change::Satellite(n) => plan.satellite = n,
            Change::Date(n) => plan.date = n,
            Change::Timeline(n) => plan.timeline = n,
            Change::Band(n) => plan.band = n,
            Change::Area(letters) => plan.area = wire::number_at(letters.as_bytes(), 0, 1),
            Change::Columns(n) => plan.columns = n,
            Change::Lines(n) => plan.lines = n,
            Change::Segment(n) => plan.number = n,
            Change::Total(n) => plan.total = n,
            Change::First(n) => plan.first = n,
            Change::Entries8(n) => plan.a = n,
            Change::Entries9(n) => plan.b = n,
            Change::Entries10(n) => plan.c = n,
            Change::Fill(byte) => {
                plan.fill = byte;
                // a count is two of these bytes
                plan.count = u16::from_be_bytes([byte, byte]);
            }
            _ => {}
        }
    }

    // Changes the file that was made.
    pub(crate) fn file(self, out: &mut [u8], plan: &Plan) {
        match self {
            Change::Set(field, n) => field.set(out, plan, n),
            Change::Letters(field, letters) => field.set_letters(out, plan, letters),
            _ => {}
        }
    }
}

impl fmt::Display for Change {
    fn fmt<W: fmt::Write>(&self, f: &mut fmt::Formatter<W>) -> fmt::Result {
        match *self {
            Change::Satellite(n) => write!(f, "satellite {n}"),
            Change::Date(n) => write!(f, "date {n}"),
            Change::Timeline(n) => write!(f, "timeline {n}"),
            Change::Band(n) => write!(f, "band {n}"),
            Change::Area(letters) => write!(f, "area {letters}"),
            Change::Columns(n) => write!(f, "columns {n}"),
            Change::Lines(n) => write!(f, "lines {n}"),
            Change::Segment(n) => write!(f, "segment {n}"),
            Change::Total(n) => write!(f, "total {n}"),
            Change::First(n) => write!(f, "first {n}"),
            Change::Entries8(n) => write!(f, "a {n}"),
            Change::Entries9(n) => write!(f, "b {n}"),
            Change::Entries10(n) => write!(f, "c {n}"),
            Change::Fill(byte) => write!(f, "fill {byte}"),
            Change::Bytes(n) => write!(f, "bytes {n}"),
            // bytes without a name, and floats, in hexadecimal
            Change::Set(field @ Byte(_), n) => write!(f, "set {field} {n:02x}"),
            Change::Set(field @ Named(.., UpperHalf), n) => write!(f, "set {field} {n:08x}"),
            Change::Set(field, n) => write!(f, "set {field} {n}"),
            Change::Letters(field, letters) => write!(f, "set {field} {letters}"),
        }
    }
}
