// The night that this is for: nine segments of 0200 have come, and one of 0210 in the place of the tenth.
use crate::step::Change::{Day, Segment, Timeline};
use crate::step::Deed::{Ask, Offer, Open, Show};
use crate::step::Step;

pub static NIGHT: &[Step] = &[
    Step(&[], Open),
    Step(&[Segment(1, 1)], Offer),
    Step(&[Segment(2, 3)], Offer),
    Step(&[Segment(3, 5)], Offer),
    Step(&[Segment(4, 7)], Offer),
    Step(&[Segment(5, 9)], Offer),
    Step(&[Segment(6, 11)], Offer),
    Step(&[Segment(7, 13)], Offer),
    Step(&[Segment(8, 15)], Offer),
    Step(&[Segment(9, 17)], Offer),
    // the stray, and the lines that it would have had
    Step(&[Timeline(210), Segment(10, 19)], Offer),
    Step(&[], Ask(1)),
    Step(&[], Ask(18)),
    Step(&[], Ask(19)),
    Step(&[], Ask(20)),
    // 0200 of the next day
    Step(&[Day(57211), Segment(10, 19)], Offer),
    Step(&[], Ask(19)),
    // the tenth, and what would have come instead
    Step(&[Segment(10, 19)], Offer),
    Step(&[Timeline(210), Segment(10, 19)], Offer),
    Step(&[Day(57211), Segment(10, 19)], Offer),
    Step(&[], Ask(18)),
    Step(&[], Ask(19)),
    Step(&[], Ask(20)),
    Step(&[], Ask(21)),
    Step(&[], Show),
];
