// Opening frames, and offering them files.
use crate::step::Change::{
    Area, Band, Byte, Bytes, Columns, Day, Entries, Leader, Lines, Order, Satellite, Segment,
    Strip, Take, Timeline, Total,
};
use crate::step::Deed::{Ask, Offer, Open, Show};
use crate::step::Step;

// One segment: eight counts, and the ninth is not the frame's.
pub static OPENING: &[Step] = &[
    Step(&[Strip(9)], Show),
    Step(&[Strip(0)], Open),
    Step(&[Strip(7)], Open),
    Step(&[Strip(9)], Open),
    Step(&[Strip(9)], Show),
    Step(&[], Open),
    Step(&[Strip(9)], Show),
    Step(&[], Offer),
    Step(&[Strip(9)], Show),
    // opened once more
    Step(&[], Open),
    Step(&[Strip(9)], Show),
];

pub static OFFERS: &[Step] = &[
    Step(&[], Open),
    Step(&[Segment(2, 3)], Offer),
    // a part that disagrees, in turn
    Step(&[Satellite(9)], Offer),
    Step(&[Day(57209)], Offer),
    Step(&[Day(57211)], Offer),
    Step(&[Timeline(150)], Offer),
    Step(&[Timeline(210)], Offer),
    Step(&[Band(12)], Offer),
    Step(&[Band(14)], Offer),
    Step(&[Area("JP01")], Offer),
    Step(&[Columns(3), Bytes(1475)], Offer),
    Step(&[Columns(5), Bytes(1483)], Offer),
    Step(&[Total(2)], Offer),
    Step(&[Total(4)], Offer),
    Step(&[Lines(1), Bytes(1471)], Offer),
    Step(&[Lines(3), Bytes(1487)], Offer),
    // columns and lines exchanged: as many counts
    Step(&[Columns(2), Lines(4)], Offer),
    Step(&[Segment(1, 2)], Offer),
    Step(&[Segment(3, 3)], Offer),
    Step(&[Segment(3, 6)], Offer),
    // the same file again, another take of it, the other byte order, and one with entries
    Step(&[Segment(2, 3)], Offer),
    Step(&[Take(2), Segment(2, 3)], Offer),
    Step(&[Take(0), Segment(2, 3)], Offer),
    Step(&[Order(1), Segment(2, 3)], Offer),
    Step(&[Entries(2), Bytes(1487), Segment(2, 3)], Offer),
    // damaged: SHORT twice, NUMBER, ORDER, LENGTH, FIXED, PACKED, a field, HEADER SUM, DATA SUM, NAME, CUT and TAIL
    Step(&[Bytes(0)], Offer),
    Step(&[Bytes(1462)], Offer),
    Step(&[Byte(282, 3)], Offer),
    Step(&[Byte(5, 2)], Offer),
    Step(&[Byte(1160, 1)], Offer),
    Step(&[Byte(285, 15)], Offer),
    Step(&[Byte(291, 1)], Offer),
    Step(&[Byte(1007, 0)], Offer),
    Step(&[Byte(70, 0xb8)], Offer),
    Step(&[Byte(74, 17)], Offer),
    Step(&[Byte(114, 0x68)], Offer),
    Step(&[Bytes(1478)], Offer),
    Step(&[Bytes(1480)], Offer),
    // which of two answers: strip, file, shot, number
    Step(&[Strip(23), Bytes(0)], Offer),
    Step(&[Strip(23), Timeline(210)], Offer),
    Step(&[Timeline(210), Bytes(1480)], Offer),
    Step(&[Segment(2, 3), Bytes(1480)], Offer),
    Step(&[Timeline(210), Segment(2, 3)], Offer),
    // a strip of another size
    Step(&[Strip(0)], Offer),
    Step(&[Strip(23)], Offer),
    Step(&[Strip(25)], Offer),
    Step(&[Strip(25)], Show),
    // the others: one in the other byte order, and one whose counts are all 65,534
    Step(&[Order(1)], Offer),
    Step(&[Take(0), Segment(3, 5)], Offer),
    Step(&[Strip(25)], Show),
    Step(&[Leader(0)], Ask(6)),
    Step(&[Segment(3, 5)], Offer),
];

// Three segments in each byte order, and with entries before their counts.
pub static COUNTS: &[Step] = &[
    Step(&[], Open),
    Step(&[Segment(1, 1)], Offer),
    Step(&[Segment(2, 3)], Offer),
    Step(&[Segment(3, 5)], Offer),
    Step(&[], Show),
    Step(&[], Open),
    Step(&[Order(1), Segment(1, 1)], Offer),
    Step(&[Order(1), Segment(2, 3)], Offer),
    Step(&[Order(1), Segment(3, 5)], Offer),
    Step(&[], Show),
    Step(&[], Open),
    Step(&[Entries(2), Bytes(1487), Segment(1, 1)], Offer),
    Step(&[Entries(2), Bytes(1487), Order(1), Segment(3, 5)], Offer),
    Step(&[], Show),
];
