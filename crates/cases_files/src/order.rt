// The order of the checks: files that break two rules, and files that are cut.
use crate::cases::Case;
use crate::cases::Start::*;
use crate::changes::Change::*;
use crate::fields::Field::*;
use crate::fields::*;

pub static ORDERED: &[Case] = &[
    // SHORT before NUMBER, ORDER and LENGTH of its block
    Case(Little, &[Set(Number(1), 0), Bytes(281)]),
    Case(Big, &[Set(ORDER, 7), Bytes(281)]),
    Case(Little, &[Set(Number(3), 9), Bytes(400)]),
    Case(Big, &[Set(Length(5), 0), Bytes(744)]),
    Case(LittleFull, &[Set(Length(8), 61), Bytes(1111)]),
    // NUMBER before ORDER and LENGTH, ORDER before LENGTH
    Case(Little, &[Set(Number(1), 0), Set(ORDER, 2)]),
    Case(Big, &[Set(Number(4), 5), Set(Length(4), 0)]),
    Case(Little, &[Set(ORDER, 2), Set(Length(1), 281)]),
    Case(LittleFull, &[Set(Number(10), 9), Set(Length(10), 46)]),
    // LENGTH before FIXED and the fields
    Case(Big, &[Set(Length(1), 281), Set(BLOCKS, 12)]),
    Case(Little, &[Set(Length(2), 51), Set(BITS, 8)]),
    Case(Big, &[Set(Length(5), 146), Set(ERROR_COUNT, 0)]),
    Case(Little, &[Set(Length(7), 48), Set(TOTAL, 0)]),
    // FIXED before PACKED before the fields
    Case(Big, &[Set(BLOCKS, 12), Set(TIMELINE, 60)]),
    Case(Little, &[Set(BITS, 8), Set(FLAG, 1)]),
    Case(Little, &[Set(FLAG, 1), Set(COLUMNS, 0)]),
    Case(Big, &[Set(FLAG, 2), Set(LINES, 22001)]),
    Case(Little, &[Set(OUTSIDE_COUNT, 0), Set(BAND, 0)]),
    // NUMBER before the second SHORT, LENGTH before it too, and that before the next block
    Case(BigFull, &[Set(Number(8), 7), Bytes(1120)]),
    Case(LittleFull, &[Set(Length(8), 61), Bytes(1112)]),
    Case(BigFull, &[Set(Length(9), 45), Bytes(1197)]),
    Case(LittleFull, &[Set(Length(10), 47), Bytes(1264)]),
    Case(BigFull, &[Set(Number(9), 0), Bytes(1151)]),
    // all of a block before the next block
    Case(Little, &[Set(TIMELINE, 60), Set(Number(2), 9)]),
    Case(Big, &[Set(TIMELINE, 60), Bytes(300)]),
    Case(Big, &[Set(COLUMNS, 0), Bytes(340)]),
    Case(Little, &[Set(BAND, 17), Set(Number(6), 0)]),
    Case(Big, &[Set(SEGMENT, 3), Set(Number(8), 0)]),
    Case(Little, &[Set(FIRST, 0), Bytes(1100)]),
    // the blocks before the sums, and the sums before the name, the counts and the end
    Case(Little, &[Set(Number(11), 12), Set(HEADER_SUM, 0)]),
    Case(Little, &[Set(HEADER_SUM, 0), Bytes(1400)]),
    Case(Big, &[Set(HEADER_SUM, 0), Set(DATA_SUM, 0)]),
    Case(Little, &[Set(HEADER_SUM, 1464), Set(NAME_BAND, 14)]),
    Case(Big, &[Set(DATA_SUM, 17), Set(NAME_DATE, 20230229)]),
    Case(Little, &[Set(DATA_SUM, 14), Bytes(1477)]),
    Case(Big, &[Set(HEADER_SUM, 1464), Bytes(1480)]),
    // the name before the counts and the end
    Case(Little, &[Set(NAME_TIME, 210), Bytes(1463)]),
    Case(Big, &[Set(NAME_TIME, 210), Bytes(1480)]),
    // sizes and sum that agree, against the counts that are there
    Case(Little, &[Set(COLUMNS, 5), Set(DATA_SUM, 20)]),
    Case(Big, &[Set(COLUMNS, 3), Set(DATA_SUM, 12)]),
    // header and name set to the same are good again
    Case(Little, &[Set(SATELLITE, 9), Set(NAME_SATELLITE, 9)]),
    Case(Big, &[Set(TIMELINE, 2350), Set(NAME_TIME, 2350)]),
    Case(Little, &[Set(BAND, 14), Set(NAME_BAND, 14)]),
    Case(Big, &[Letters(AREA, "R420"), Letters(NAME_AREA, "R420")]),
    Case(Little, &[Set(TOTAL, 99), Set(NAME_TOTAL, 99)]),
    Case(Big, &[Set(SEGMENT, 2), Set(NAME_SEGMENT, 2)]),
    // but for a total that two digits of a name do not hold
    Case(Little, &[Set(TOTAL, 100), Set(NAME_TOTAL, 0)]),
    // the last byte of each block missing, and the next block missing; CUT from 1,463 on
    Case(Little, &[Bytes(0)]),
    Case(Big, &[Bytes(1)]),
    Case(Little, &[Bytes(281)]),
    Case(Little, &[Bytes(282)]),
    Case(Little, &[Bytes(331)]),
    Case(Little, &[Bytes(332)]),
    Case(Little, &[Bytes(458)]),
    Case(Little, &[Bytes(459)]),
    Case(Little, &[Bytes(597)]),
    Case(Little, &[Bytes(598)]),
    Case(Little, &[Bytes(744)]),
    Case(Little, &[Bytes(745)]),
    Case(Little, &[Bytes(1003)]),
    Case(Little, &[Bytes(1004)]),
    Case(Little, &[Bytes(1050)]),
    Case(Little, &[Bytes(1051)]),
    Case(Little, &[Bytes(1111)]),
    Case(Little, &[Bytes(1112)]),
    Case(Little, &[Bytes(1156)]),
    Case(Little, &[Bytes(1157)]),
    Case(Little, &[Bytes(1203)]),
    Case(Little, &[Bytes(1204)]),
    Case(Little, &[Bytes(1462)]),
    Case(Little, &[Bytes(1463)]),
    Case(Little, &[Bytes(1478)]),
    // with entries: too few bytes for a block without them, too few for them, and the next block missing
    Case(BigFull, &[Bytes(1051)]),
    Case(LittleFull, &[Bytes(1111)]),
    Case(BigFull, &[Bytes(1112)]),
    Case(LittleFull, &[Bytes(1151)]),
    Case(BigFull, &[Bytes(1152)]),
    Case(LittleFull, &[Bytes(1196)]),
    Case(BigFull, &[Bytes(1197)]),
    Case(LittleFull, &[Bytes(1216)]),
    Case(BigFull, &[Bytes(1217)]),
    Case(LittleFull, &[Bytes(1263)]),
    Case(BigFull, &[Bytes(1264)]),
    Case(LittleFull, &[Bytes(1275)]),
    Case(BigFull, &[Bytes(1276)]),
    Case(LittleFull, &[Bytes(1534)]),
    Case(BigFull, &[Bytes(1535)]),
    Case(LittleFull, &[Bytes(1550)]),
];
