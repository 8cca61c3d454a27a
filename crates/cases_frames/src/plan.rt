// A plan: what a slate and a file are made of, and how much of the file, the strip and the leader is lent.
use crate::step::Change;
use slate::{Slate, Slated};

#[derive(Clone, Copy)]
pub struct Plan {
    // the file's values; the slate has the same, and the day for the date
    sample: samples::Plan,
    day: u32,
    // which counts the file has
    take: u8,
    // a byte of the file, and what it is instead
    damage: Option<(usize, u8)>,
    // how many bytes of the file are lent, and how many counts of the strip and of the leader
    pub bytes: usize,
    pub strip: usize,
    pub leader: usize,
}

impl Plan {
    // Segment 1 of the night at 0200, cut into so many columns, segments and lines, all of it lent.
    pub(crate) fn cut(columns: u16, total: u8, lines: u16) -> Plan {
        let counts = usize::from(columns) * usize::from(lines);
        Plan {
            sample: samples::Plan {
                columns,
                total,
                lines,
                ..samples::paper()
            },
            day: 57210,
            take: 1,
            damage: None,
            bytes: 1463 + 2 * counts,
            strip: counts * usize::from(total),
            leader: 4,
        }
    }

    pub(crate) fn changed(self, changes: &[Change]) -> Plan {
        let mut plan = self;
        for change in changes {
            plan.change(*change);
        }
        plan
    }

    fn change(&mut self, change: Change) {
        match change {
            Change::Satellite(digit) => self.sample.satellite = digit,
            Change::Day(day) => self.day = day,
            Change::Timeline(timeline) => self.sample.timeline = timeline,
            Change::Band(band) => self.sample.band = band,
            Change::Area(letters) => self.sample.area = wire::number_at(letters.as_bytes(), 0, 1),
            Change::Columns(columns) => self.sample.columns = columns,
            Change::Total(total) => self.sample.total = total,
            Change::Lines(lines) => self.sample.lines = lines,
            Change::Segment(number, first) => {
                self.sample.number = number;
                self.sample.first = first;
            }
            Change::Order(order) => self.sample.order = order,
            Change::Take(take) => self.take = take,
            Change::Entries(entries) => self.sample.c = entries,
            Change::Byte(at, byte) => self.damage = Some((at, byte)),
            Change::Bytes(bytes) => self.bytes = bytes,
            Change::Strip(counts) => self.strip = counts,
            Change::Leader(counts) => self.leader = counts,
        }
    }

    pub(crate) fn slate(self) -> Slated {
        let shot = self.sample;
        Slate::new(
            shot.satellite,
            self.day,
            shot.timeline,
            shot.band,
            shot.area,
            shot.columns,
            shot.total,
            [shot.lines; 99],
        )
    }

    // The first count, and what the next one is more. Take 1 of line 19 is 11901, 11902 and so on; take 0 is 65,534 throughout.
    fn counts(self) -> (u16, u16) {
        if self.take == 0 {
            return (65534, 0);
        }
        let count = u32::from(self.take) * 10000 + u32::from(self.sample.first) * 100 + 1;
        ((count % 65536) as u16, 1)
    }

    // The file, and then its damage: as many bytes as the longest file has.
    pub(crate) fn file(self) -> [u8; 1495] {
        let (count, step) = self.counts();
        // files are of July 2015, before which 57,203 is the last day
        let date = 20150700 + self.day % 57203;
        let mut file = [0; 1495];
        samples::make(
            &mut file,
            samples::Plan {
                date,
                count,
                step,
                ..self.sample
            },
        );
        if let Some((at, byte)) = self.damage {
            wire::put_byte(&mut file, at, byte);
        }
        file
    }
}
