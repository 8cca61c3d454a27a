// NAME: files whose name breaks its rule, in turn in the two byte orders.
use crate::cases::Case;
use crate::cases::Start::*;
use crate::changes::Change::*;
use crate::fields::Field::*;
use crate::fields::*;

pub static NAMED: &[Case] = &[
    // parts that do not agree with the header
    Case(Little, &[Set(NAME_SATELLITE, 9)]),
    Case(Big, &[Set(NAME_SATELLITE, 7)]),
    Case(Little, &[Set(NAME_TIME, 210)]),
    Case(Big, &[Set(NAME_BAND, 14)]),
    Case(Little, &[Letters(NAME_AREA, "JP01")]),
    Case(Big, &[Set(NAME_RESOLUTION, 5)]),
    Case(Little, &[Set(NAME_SEGMENT, 2)]),
    Case(Big, &[Set(NAME_TOTAL, 3)]),
    // dates
    Case(Little, &[Set(NAME_DATE, 19991231)]),
    Case(Big, &[Set(NAME_DATE, 21000101)]),
    Case(Little, &[Set(NAME_DATE, 20150007)]),
    Case(Big, &[Set(NAME_DATE, 20151307)]),
    Case(Little, &[Set(NAME_DATE, 20150700)]),
    Case(Big, &[Set(NAME_DATE, 20150732)]),
    Case(Little, &[Set(NAME_DATE, 20150631)]),
    Case(Big, &[Set(NAME_DATE, 20230229)]),
    // letters and marks, from the first to the last
    Case(Little, &[Set(Byte(114), 0x68)]),
    Case(Big, &[Set(Byte(116), 0x2d)]),
    Case(Little, &[Set(Byte(117), 0x68)]),
    Case(Big, &[Set(Byte(135), 0x62)]),
    Case(Little, &[Set(Byte(148), 0x73)]),
    Case(Big, &[Set(Byte(153), 0x2c)]),
    Case(Little, &[Set(Byte(156), 0x74)]),
    // the characters below 0 and above 9 are no digits
    Case(Big, &[Set(Byte(124), 0x2f)]),
    Case(Little, &[Set(Byte(128), 0x3a)]),
    // the zeros after it, the first and the last
    Case(Big, &[Set(Byte(157), 0x30)]),
    Case(Little, &[Set(Byte(241), 0x01)]),
];
