// Slates: each part at its limits and just beyond.
use crate::step::Change::{Area, Band, Columns, Day, Lines, Satellite, Timeline, Total};
use crate::step::Deed::Try;
use crate::step::Step;

pub static SLATES: &[Step] = &[
    Step(&[], Try),
    Step(&[Satellite(0)], Try),
    Step(&[Satellite(7)], Try),
    Step(&[Satellite(8)], Try),
    Step(&[Satellite(9)], Try),
    Step(&[Satellite(10)], Try),
    Step(&[Day(0)], Try),
    Step(&[Day(51543)], Try),
    Step(&[Day(51544)], Try),
    Step(&[Day(88068)], Try),
    Step(&[Day(88069)], Try),
    // 57,210 in its lower two bytes
    Step(&[Day(122746)], Try),
    Step(&[Timeline(0)], Try),
    Step(&[Timeline(60)], Try),
    Step(&[Timeline(205)], Try),
    Step(&[Timeline(2350)], Try),
    Step(&[Timeline(2360)], Try),
    Step(&[Timeline(2400)], Try),
    Step(&[Band(0)], Try),
    Step(&[Band(1)], Try),
    Step(&[Band(16)], Try),
    Step(&[Band(17)], Try),
    // 13 in its lower byte
    Step(&[Band(269)], Try),
    Step(&[Area("FLDK")], Try),
    Step(&[Area("JP04")], Try),
    Step(&[Area("JP05")], Try),
    Step(&[Area("R420")], Try),
    Step(&[Area("R421")], Try),
    Step(&[Area("fldk")], Try),
    Step(&[Columns(0)], Try),
    Step(&[Columns(1)], Try),
    Step(&[Columns(22000)], Try),
    Step(&[Columns(22001)], Try),
    Step(&[Total(0)], Try),
    Step(&[Total(1)], Try),
    Step(&[Total(99)], Try),
    Step(&[Total(100)], Try),
    Step(&[Lines(0)], Try),
    Step(&[Lines(1)], Try),
    // N x L: 22,000, and 22,001
    Step(&[Lines(2200)], Try),
    Step(&[Total(7), Lines(3143)], Try),
    Step(&[Total(1), Lines(22001)], Try),
    // 65,536, which 16 bits do not hold, and one line more
    Step(&[Total(64), Lines(1024)], Try),
    Step(&[Total(1), Lines(65535)], Try),
    Step(&[Total(99), Lines(662)], Try),
    // the largest frame
    Step(&[Columns(22000), Lines(2200)], Try),
];
