// Records, and lines of a frame.
use crate::step::Change::{Bytes, Leader, Segment, Strip, Timeline};
use crate::step::Deed::{Ask, Mark, MarkAll, Offer, Open};
use crate::step::Step;

pub static LINES: &[Step] = &[
    Step(&[], Open),
    Step(&[], Ask(3)),
    Step(&[Segment(2, 3)], Offer),
    // the segment that is in needs no leader
    Step(&[], Ask(3)),
    Step(&[], Ask(4)),
    Step(&[Leader(0)], Ask(3)),
    Step(&[Leader(3)], Ask(4)),
    // and those that are missing do
    Step(&[], Ask(1)),
    Step(&[], Ask(2)),
    Step(&[], Ask(5)),
    Step(&[], Ask(6)),
    Step(&[Leader(5)], Ask(2)),
    Step(&[Leader(3)], Ask(2)),
    Step(&[Leader(0)], Ask(5)),
    // lines that the frame does not have
    Step(&[], Ask(0)),
    Step(&[], Ask(7)),
    Step(&[], Ask(257)),
    Step(&[], Ask(65535)),
    // a strip of another size
    Step(&[Strip(0)], Ask(3)),
    Step(&[Strip(23)], Ask(3)),
    Step(&[Strip(25)], Ask(3)),
    Step(&[Strip(25)], Ask(1)),
];

pub static RECORDS: &[Step] = &[
    Step(&[], Open),
    Step(&[Segment(1, 1)], Offer),
    // marked by hand: no file was placed, but the record alone says what has come
    Step(&[], Mark(3)),
    Step(&[], Ask(5)),
    Step(&[Segment(3, 5)], Offer),
    // a number above the total, before strip, file and shot
    Step(&[], Mark(4)),
    Step(&[Segment(2, 3)], Offer),
    Step(&[Strip(23), Segment(2, 3)], Offer),
    Step(&[Bytes(0)], Offer),
    Step(&[Timeline(210)], Offer),
    Step(&[], Ask(1)),
    Step(&[], Ask(3)),
    // the last number of all, and all of them
    Step(&[], Open),
    Step(&[], Mark(99)),
    Step(&[Segment(1, 1)], Offer),
    Step(&[], Ask(1)),
    Step(&[], MarkAll),
    Step(&[Segment(1, 1)], Offer),
    Step(&[], Ask(1)),
];

// 99 segments of one count.
pub static NINETY_NINE: &[Step] = &[
    Step(&[], Open),
    Step(&[Segment(99, 99)], Offer),
    Step(&[Segment(1, 1)], Offer),
    Step(&[], Ask(1)),
    Step(&[], Ask(2)),
    Step(&[], Ask(98)),
    Step(&[], Ask(99)),
    Step(&[], Ask(100)),
    Step(&[], Mark(50)),
    Step(&[], MarkAll),
    Step(&[Segment(2, 2)], Offer),
    Step(&[], Ask(98)),
    Step(&[], Ask(99)),
];
