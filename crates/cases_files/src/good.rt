// Files that break no rule.
use crate::cases::Case;
use crate::cases::Start::*;
use crate::changes::Change::*;
use crate::fields::*;

pub static GOOD: &[Case] = &[
    // the four files that the others start from
    Case(Little, &[]),
    Case(Big, &[]),
    Case(LittleFull, &[]),
    Case(BigFull, &[]),
    // satellite
    Case(Little, &[Satellite(9)]),
    Case(Big, &[Satellite(9)]),
    // dates
    Case(Little, &[Date(20000101)]),
    Case(Big, &[Date(20000229)]),
    Case(Little, &[Date(20240229)]),
    Case(Big, &[Date(20991231)]),
    // timelines
    Case(Little, &[Timeline(0)]),
    Case(Big, &[Timeline(2350)]),
    // bands, which the plan gives their valid bits and resolutions
    Case(Little, &[Band(1)]),
    Case(Big, &[Band(2)]),
    Case(Little, &[Band(3)]),
    Case(Big, &[Band(4)]),
    Case(Little, &[Band(5)]),
    Case(Big, &[Band(6)]),
    Case(Little, &[Band(7)]),
    Case(Big, &[Band(8)]),
    Case(Little, &[Band(9)]),
    Case(Big, &[Band(10)]),
    Case(Little, &[Band(11)]),
    Case(Big, &[Band(12)]),
    Case(Little, &[Band(13)]),
    Case(Big, &[Band(14)]),
    Case(Little, &[Band(15)]),
    Case(Big, &[Band(16)]),
    // areas at the ends of each series
    Case(Little, &[Area("JP01")]),
    Case(Big, &[Area("JP04")]),
    Case(Little, &[Area("R301")]),
    Case(Big, &[Area("R304")]),
    Case(Little, &[Area("R401")]),
    Case(Big, &[Area("R420")]),
    Case(Little, &[Area("R501")]),
    Case(Big, &[Area("R520")]),
    // columns and lines, the last with the most counts that there is room for
    Case(Little, &[Columns(1), Lines(1)]),
    Case(Little, &[Columns(22000), Lines(1)]),
    Case(Big, &[Columns(22000), Lines(1)]),
    Case(Little, &[Columns(1), Lines(22000)]),
    Case(Big, &[Columns(8009), Lines(4)]),
    // segments
    Case(Little, &[Segment(1), Total(1)]),
    Case(Little, &[Segment(99), Total(99), First(22000), Lines(1)]),
    Case(Big, &[Segment(99), Total(99), First(22000), Lines(1)]),
    // the paper's entries, and the most that there is room for
    Case(Little, &[Entries8(4), Entries9(2), Entries10(0)]),
    Case(Big, &[Entries8(4), Entries9(2), Entries10(0)]),
    Case(Little, &[Entries8(6407), Columns(1), Lines(1)]),
    Case(Big, &[Entries9(6407), Columns(1), Lines(1)]),
    Case(Little, &[Entries10(16017), Columns(1), Lines(1)]),
    Case(Big, &[Entries10(16017), Columns(1), Lines(1)]),
    Case(Little, &[Entries8(3000), Entries9(3000), Entries10(1000)]),
    // any bytes where no rule speaks: times, gain and constant are NaN patterns here
    Case(Little, &[Fill(255)]),
    Case(Big, &[Fill(255)]),
    Case(Big, &[Fill(127), Entries8(1), Entries9(1), Entries10(1)]),
    // fields that may hold anything: patterns of NaN, infinite, a negative gain
    Case(Little, &[Set(GAIN, 0x7ff0_0001)]),
    Case(Big, &[Set(GAIN, 0x7ff8_0000)]),
    Case(Little, &[Set(GAIN, 0xbfe0_0000)]),
    Case(Big, &[Set(CONSTANT, 0xfff0_0000)]),
    Case(Little, &[Set(START, 0x7ff4_0000)]),
    Case(Big, &[Set(QUALITY, 129)]),
];
