// What a case changes of good values, each with what it is told by.
use std::fmt;

#[derive(Clone, Copy)]
pub enum Change {
    Order(u8),
    Satellite(u8),
    Area(&'static str),
    Timeline(u16),
    Columns(u16),
    Lines(u16),
    Flag(u8),
    Band(u16),
    Bits(u16),
    Total(u8),
    Number(u8),
    First(u16),
    // the length of one list of blocks 8, 9 and 10
    Lines8(usize),
    ColumnShifts(usize),
    LineShifts(usize),
    Lines9(usize),
    Times(usize),
    Lines10(usize),
    Pixels(usize),
    // the length of every list of block 8, 9 or 10
    A(usize),
    B(usize),
    C(usize),
    // of the name
    Date(u32),
    // a place of the name, and the byte there
    Name(usize, u8),
    // the length of the output
    Room(usize),
}

impl fmt::Display for Change {
    fn fmt<W: fmt::Write>(&self, f: &mut fmt::Formatter<W>) -> fmt::Result {
        match *self {
            Change::Order(order) => write!(f, "order {order}"),
            Change::Satellite(digit) => write!(f, "satellite {digit}"),
            Change::Area(letters) => write!(f, "area {letters}"),
            Change::Timeline(timeline) => write!(f, "timeline {timeline}"),
            Change::Columns(columns) => write!(f, "columns {columns}"),
            Change::Lines(lines) => write!(f, "lines {lines}"),
            Change::Flag(flag) => write!(f, "flag {flag}"),
            Change::Band(band) => write!(f, "band {band}"),
            Change::Bits(bits) => write!(f, "valid bits {bits}"),
            Change::Total(total) => write!(f, "total {total}"),
            Change::Number(number) => write!(f, "number {number}"),
            Change::First(first) => write!(f, "first line {first}"),
            Change::Lines8(n) => write!(f, "lines of block 8 {n}"),
            Change::ColumnShifts(n) => write!(f, "column shifts {n}"),
            Change::LineShifts(n) => write!(f, "line shifts {n}"),
            Change::Lines9(n) => write!(f, "lines of block 9 {n}"),
            Change::Times(n) => write!(f, "times {n}"),
            Change::Lines10(n) => write!(f, "lines of block 10 {n}"),
            Change::Pixels(n) => write!(f, "error pixels {n}"),
            Change::A(n) => write!(f, "a {n}"),
            Change::B(n) => write!(f, "b {n}"),
            Change::C(n) => write!(f, "c {n}"),
            Change::Date(date) => write!(f, "date {date}"),
            Change::Name(at, byte) => write!(f, "name at {at} '{}'", char::from(byte)),
            Change::Room(n) => write!(f, "room {n}"),
        }
    }
}
