// Files that break one rule, and files at the edge of one.
use crate::cases::Case;
use crate::cases::Start::*;
use crate::changes::Change;
use crate::changes::Change::*;
use crate::fields::Field::*;
use crate::fields::*;

// In both byte orders.
pub static IN_BOTH_ORDERS: &[&[Change]] = &[
    // LENGTH: the bytes the other way round, one more, and in the upper or the lower half of block 10's four bytes
    &[Set(Length(1), 6657)],
    &[Set(Length(8), 62)],
    &[Set(Length(10), 65583)],
    &[Set(Length(10), 3080192)],
    // FIXED
    &[Set(BLOCKS, 2816)],
    &[Set(BITS, 17)],
    &[Set(ERROR_COUNT, 65534)],
    // the fields of block 1, and the last timeline, which the name then contradicts
    &[Set(TIMELINE, 2400)],
    &[Set(TIMELINE, 2350)],
    // the fields of block 2, and the largest sizes, which the data sum then contradicts
    &[Set(COLUMNS, 0)],
    &[Set(COLUMNS, 22000)],
    &[Set(COLUMNS, 22001)],
    &[Set(LINES, 22000)],
    &[Set(LINES, 22001)],
    // the fields of block 5, and a band with the same valid bits, which the name then contradicts
    &[Set(BAND, 14)],
    &[Set(BAND, 17)],
    &[Set(VALID_BITS, 11)],
    // the fields of block 7, and the last first line of two
    &[Set(FIRST, 21999)],
    &[Set(FIRST, 22000)],
    &[Set(FIRST, 65535)],
    // HEADER SUM
    &[Set(HEADER_SUM, 1462)],
    // DATA SUM: counts are two bytes, and the sum four
    &[Set(DATA_SUM, 15)],
    &[Set(DATA_SUM, 65552)],
    // TAIL
    &[Bytes(1480)],
];

// In one byte order each.
pub static BROKEN: &[Case] = &[
    // NUMBER
    Case(Little, &[Set(Number(1), 0)]),
    Case(Big, &[Set(Number(2), 3)]),
    Case(Little, &[Set(Number(3), 2)]),
    Case(Big, &[Set(Number(4), 0)]),
    Case(Little, &[Set(Number(5), 255)]),
    Case(Big, &[Set(Number(6), 7)]),
    Case(Little, &[Set(Number(7), 8)]),
    Case(BigFull, &[Set(Number(8), 9)]),
    Case(LittleFull, &[Set(Number(9), 8)]),
    Case(BigFull, &[Set(Number(10), 11)]),
    Case(LittleFull, &[Set(Number(11), 10)]),
    // ORDER
    Case(Little, &[Set(ORDER, 2)]),
    Case(Big, &[Set(ORDER, 255)]),
    // the other byte order makes the length of block 1 another
    Case(Little, &[Set(ORDER, 1)]),
    Case(Big, &[Set(ORDER, 0)]),
    // LENGTH
    Case(Big, &[Set(Length(1), 281)]),
    Case(Little, &[Set(Length(1), 283)]),
    Case(Little, &[Set(Length(2), 49)]),
    Case(Big, &[Set(Length(3), 128)]),
    Case(Big, &[Set(Length(4), 140)]),
    Case(Little, &[Set(Length(5), 0)]),
    Case(Big, &[Set(Length(6), 260)]),
    Case(Little, &[Set(Length(7), 46)]),
    Case(LittleFull, &[Set(Length(8), 61)]),
    Case(BigFull, &[Set(Length(9), 45)]),
    Case(LittleFull, &[Set(Length(10), 47)]),
    Case(Big, &[Set(Length(10), 46)]),
    Case(Little, &[Set(Length(11), 258)]),
    // FIXED
    Case(Little, &[Set(BLOCKS, 10)]),
    Case(Big, &[Set(BLOCKS, 12)]),
    Case(Big, &[Set(BITS, 15)]),
    Case(Little, &[Set(ERROR_COUNT, 0)]),
    Case(Big, &[Set(OUTSIDE_COUNT, 65533)]),
    Case(Little, &[Set(OUTSIDE_COUNT, 65535)]),
    // PACKED, and the other flags
    Case(Little, &[Set(FLAG, 1)]),
    Case(Big, &[Set(FLAG, 2)]),
    Case(Big, &[Set(FLAG, 3)]),
    Case(Big, &[Set(FLAG, 255)]),
    // lines
    Case(Little, &[Set(LINES, 0)]),
    // satellite, its digit, a letter, the first and the last of its zeros; the first is a good one, which the name then contradicts
    Case(Little, &[Set(SATELLITE, 9)]),
    Case(Little, &[Set(SATELLITE, 7)]),
    Case(Big, &[Set(Byte(15), 0x3a)]),
    Case(Little, &[Set(Byte(6), 0x68)]),
    Case(Little, &[Set(Byte(16), 0x20)]),
    Case(Big, &[Set(Byte(21), 0x01)]),
    // area, beside each series, and a small letter; the first is a good one, which the name then contradicts
    Case(Little, &[Letters(AREA, "JP01")]),
    Case(Little, &[Letters(AREA, "JP00")]),
    Case(Big, &[Letters(AREA, "JP05")]),
    Case(Little, &[Letters(AREA, "R300")]),
    Case(Big, &[Letters(AREA, "R305")]),
    Case(Little, &[Letters(AREA, "R400")]),
    Case(Big, &[Letters(AREA, "R421")]),
    Case(Little, &[Letters(AREA, "R500")]),
    Case(Big, &[Letters(AREA, "R521")]),
    Case(Big, &[Set(Byte(38), 0x66)]),
    // timeline
    Case(Little, &[Set(TIMELINE, 5)]),
    Case(Big, &[Set(TIMELINE, 60)]),
    Case(Little, &[Set(TIMELINE, 2360)]),
    // a band below the first, bands that have other valid bits than the file's 12, and other valid bits
    Case(Big, &[Set(BAND, 0)]),
    Case(Little, &[Set(BAND, 7)]),
    Case(Big, &[Set(BAND, 9)]),
    Case(Little, &[Set(BAND, 16)]),
    Case(Big, &[Set(VALID_BITS, 14)]),
    Case(Little, &[Set(VALID_BITS, 13)]),
    // segment total, number and first line, and good ones, which the name then contradicts
    Case(Little, &[Set(TOTAL, 0)]),
    Case(Big, &[Set(TOTAL, 1)]),
    Case(Little, &[Set(TOTAL, 99)]),
    Case(Big, &[Set(TOTAL, 100)]),
    Case(Big, &[Set(SEGMENT, 0)]),
    Case(Little, &[Set(SEGMENT, 2)]),
    Case(Big, &[Set(SEGMENT, 3)]),
    Case(Little, &[Set(FIRST, 0)]),
    // HEADER SUM: its four bytes count
    Case(Little, &[Set(HEADER_SUM, 66999)]),
    Case(Big, &[Set(HEADER_SUM, 1464)]),
    // TAIL
    Case(LittleFull, &[Bytes(1553)]),
];
