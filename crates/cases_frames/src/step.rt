// A step of a scene: what is changed in the plan for it alone, and what is done.
use std::fmt;

#[derive(Clone, Copy)]
pub enum Change {
    Satellite(u8),
    Day(u32),
    Timeline(u16),
    Band(u16),
    Area(&'static str),
    Columns(u16),
    Total(u8),
    Lines(u16),
    // its number, and its first line
    Segment(u8, u16),
    Order(u8),
    // 0 for counts of 65,534; others are told by their counts
    Take(u8),
    // of block 10
    Entries(u16),
    // the place of a byte that is damaged, and what it is
    Byte(usize, u8),
    // how many there are
    Bytes(usize),
    // how many counts are lent
    Strip(usize),
    Leader(usize),
}

impl fmt::Display for Change {
    fn fmt<W: fmt::Write>(&self, f: &mut fmt::Formatter<W>) -> fmt::Result {
        match *self {
            Change::Satellite(digit) => write!(f, "satellite {digit}"),
            Change::Day(day) => write!(f, "day {day}"),
            Change::Timeline(timeline) => write!(f, "timeline {timeline}"),
            Change::Band(band) => write!(f, "band {band}"),
            Change::Area(letters) => write!(f, "area {letters}"),
            Change::Columns(columns) => write!(f, "columns {columns}"),
            Change::Total(total) => write!(f, "total {total}"),
            Change::Lines(lines) => write!(f, "lines {lines}"),
            Change::Segment(number, first) => write!(f, "segment {number} from line {first}"),
            Change::Order(order) => write!(f, "order {order}"),
            Change::Take(take) => write!(f, "take {take}"),
            Change::Entries(entries) => write!(f, "entries {entries}"),
            Change::Byte(at, byte) => write!(f, "byte {at} as {byte}"),
            Change::Bytes(bytes) => write!(f, "bytes {bytes}"),
            Change::Strip(counts) => write!(f, "strip {counts}"),
            Change::Leader(counts) => write!(f, "leader {counts}"),
        }
    }
}

#[derive(Clone, Copy)]
pub enum Deed {
    // a slate is made
    Try,
    Open,
    Offer,
    // for a line of the frame
    Ask(u16),
    // the strip as it lies there
    Show,
    // a number of the record, by hand
    Mark(u8),
    MarkAll,
}

impl fmt::Display for Deed {
    fn fmt<W: fmt::Write>(&self, f: &mut fmt::Formatter<W>) -> fmt::Result {
        match *self {
            Deed::Try => write!(f, "slated:"),
            Deed::Open => write!(f, "opened:"),
            Deed::Offer => write!(f, "offered:"),
            Deed::Ask(line) => write!(f, "line {line}, asked:"),
            Deed::Show => write!(f, "shown:"),
            Deed::Mark(number) => write!(f, "number {number}, marked:"),
            Deed::MarkAll => write!(f, "marked:"),
        }
    }
}

#[derive(Clone, Copy)]
pub struct Step(pub &'static [Change], pub Deed);

impl fmt::Display for Step {
    fn fmt<W: fmt::Write>(&self, f: &mut fmt::Formatter<W>) -> fmt::Result {
        let Step(changes, deed) = *self;
        for change in changes {
            write!(f, "{change}, ")?;
        }
        write!(f, "{deed}")
    }
}
