// What the writer is given: the values of the paper's file, lists of zeros, and room for it all, with a case's changes.
ghost use Rattle.std.specs.Prelude.{◌≡◌, take};

use crate::change::Change;
use header::Header;
use rules::Refusal;
use samples::Plan;

static SHORTS: [u16; 65536] = [0; 65536];

static SHIFTS: [u32; 8192] = [0; 8192];

static TIMES: [u64; 8192] = [0; 8192];

#[derive(Clone, Copy)]
pub struct Given {
    // the file whose values they are
    plan: Plan,
    flag: u8,
    // 12 whatever the band is
    bits: u16,
    // a place of the name, and the byte there
    letter: Option<(usize, u8)>,
    // the lengths of the lists
    lines8: usize,
    column_shifts: usize,
    line_shifts: usize,
    lines9: usize,
    times: usize,
    lines10: usize,
    pixels: usize,
    // the length of the output
    room: usize,
}

// The first n numbers of a list. A line that cases_headers has, too: no crate below both would be its place.
fn first<T>(list: &[T], n: usize) -> &[T]
    ensures { result.now ≡ take n list.now }
{
    &list[..list.len().min(n)]
}

impl Given {
    pub(crate) fn new(changes: &[Change]) -> Given {
        let mut given = Given {
            plan: samples::paper(),
            flag: 0,
            bits: 12,
            letter: None,
            lines8: 4,
            column_shifts: 4,
            line_shifts: 4,
            lines9: 2,
            times: 2,
            lines10: 3,
            pixels: 3,
            room: 2048,
        };
        for change in changes {
            given.change(*change);
        }
        given
    }

    fn change(&mut self, change: Change) {
        match change {
            Change::Order(order) => self.plan.order = order,
            Change::Satellite(digit) => self.plan.satellite = digit,
            Change::Area(letters) => self.plan.area = wire::number_at(letters.as_bytes(), 0, 1),
            Change::Timeline(timeline) => self.plan.timeline = timeline,
            Change::Columns(columns) => self.plan.columns = columns,
            Change::Lines(lines) => self.plan.lines = lines,
            Change::Flag(flag) => self.flag = flag,
            Change::Band(band) => self.plan.band = band,
            Change::Bits(bits) => self.bits = bits,
            Change::Total(total) => self.plan.total = total,
            Change::Number(number) => self.plan.number = number,
            Change::First(first) => self.plan.first = first,
            Change::Date(date) => self.plan.date = date,
            Change::Name(at, byte) => self.letter = Some((at, byte)),
            Change::Lines8(n) => self.lines8 = n,
            Change::ColumnShifts(n) => self.column_shifts = n,
            Change::LineShifts(n) => self.line_shifts = n,
            Change::Lines9(n) => self.lines9 = n,
            Change::Times(n) => self.times = n,
            Change::Lines10(n) => self.lines10 = n,
            Change::Pixels(n) => self.pixels = n,
            Change::A(n) => {
                self.lines8 = n;
                self.column_shifts = n;
                self.line_shifts = n;
            }
            Change::B(n) => {
                self.lines9 = n;
                self.times = n;
            }
            Change::C(n) => {
                self.lines10 = n;
                self.pixels = n;
            }
            Change::Room(n) => self.room = n,
        }
    }

    fn header(self) -> Header {
        let mut file = [0; 1463];
        samples::make(&mut file, self.plan);
        let mut header = header::read_header(&file);
        header.block2.compression = self.flag;
        header.block5.bits = self.bits;
        if let Some((at, byte)) = self.letter {
            wire::put_byte(&mut header.block1.name, at, byte);
        }
        header
    }

    // Writes to as much of an output as there is room for.
    pub(crate) fn write(self, out: &mut [u8]) -> Result<(), Refusal> {
        let room = self.room.min(out.len());
        writer::write(
            &mut out[..room],
            self.header(),
            first(&SHORTS, self.lines8),
            first(&SHIFTS, self.column_shifts),
            first(&SHIFTS, self.line_shifts),
            first(&SHORTS, self.lines9),
            first(&TIMES, self.times),
            first(&SHORTS, self.lines10),
            first(&SHORTS, self.pixels),
        )
    }
}
