// Numbers of entries and sizes that pass what two bytes hold, and more than the file has.
use crate::cases::Case;
use crate::cases::Start::*;
use crate::changes::Change::*;
use crate::fields::Field::*;
use crate::fields::*;

pub static COUNTED: &[Case] = &[
    // one entry less or more than the length says
    Case(LittleFull, &[Set(ENTRIES8, 3)]),
    Case(BigFull, &[Set(ENTRIES8, 5)]),
    Case(LittleFull, &[Set(ENTRIES9, 1)]),
    Case(BigFull, &[Set(ENTRIES9, 3)]),
    Case(LittleFull, &[Set(ENTRIES10, 2)]),
    Case(BigFull, &[Set(ENTRIES10, 4)]),
    // a length that agrees moves the next block away
    Case(Little, &[Set(ENTRIES8, 1), Set(Length(8), 71)]),
    Case(BigFull, &[Set(ENTRIES9, 1), Set(Length(9), 55)]),
    Case(LittleFull, &[Set(ENTRIES10, 4), Set(Length(10), 63)]),
    // block 8: 65,531 is the longest; of one entry more only a part of the length can stand there
    Case(Little, &[Entries8(6547)]),
    Case(Little, &[Entries8(6548)]),
    Case(Big, &[Set(ENTRIES8, 6548), Set(Length(8), 5)]),
    Case(Little, &[Set(ENTRIES8, 65535), Set(Length(8), 51)]),
    // block 9: 65,535 is the longest
    Case(Big, &[Entries9(6549)]),
    Case(Little, &[Entries9(6550)]),
    Case(Little, &[Set(ENTRIES9, 6550), Set(Length(9), 9)]),
    Case(Big, &[Set(ENTRIES9, 65535), Set(Length(9), 35)]),
    // block 10: a length of four bytes holds every one, and two of them do not suffice
    Case(Little, &[Entries10(16372)]),
    Case(Big, &[Entries10(16373)]),
    Case(Little, &[Set(ENTRIES10, 16373), Set(Length(10), 65539)]),
    Case(Big, &[Set(ENTRIES10, 16373), Set(Length(10), 3)]),
    Case(Little, &[Set(ENTRIES10, 16373), Set(HALF_LENGTH, 3)]),
    Case(Big, &[Set(HALF_LENGTH, 47)]),
    Case(Little, &[Entries10(65535)]),
    Case(Big, &[Entries10(65535), Set(Length(10), 43)]),
    // sizes whose counts pass what two bytes hold, cut where two bytes of the product would end, or where the room ends
    // CUT, and not good
    Case(
        Little,
        &[Columns(256), Lines(128), Set(DATA_SUM, 65536), Bytes(1463)],
    ),
    Case(
        Little,
        &[Columns(256), Lines(129), Set(DATA_SUM, 66048), Bytes(1975)],
    ),
    Case(
        Big,
        &[
            Columns(22000),
            Lines(22000),
            Set(DATA_SUM, 968000000),
            Bytes(65536),
        ],
    ),
    // DATA SUM, and not good
    Case(
        Little,
        &[Columns(256), Lines(128), Set(DATA_SUM, 0), Bytes(1463)],
    ),
    Case(
        Big,
        &[Columns(256), Lines(129), Set(DATA_SUM, 512), Bytes(1975)],
    ),
    Case(
        Little,
        &[
            Columns(22000),
            Lines(22000),
            Set(DATA_SUM, 33280),
            Bytes(34743),
        ],
    ),
    // the widest line with its last byte missing
    Case(
        Little,
        &[Columns(22000), Lines(1), Set(DATA_SUM, 44000), Bytes(45462)],
    ),
];
