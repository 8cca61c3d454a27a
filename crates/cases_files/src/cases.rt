// A case: a file is made and changed, judged, and told of in a line.
use crate::changes::Change;
use accept::Facts;
use samples::Plan;
use std::{fmt, io};

// The file to start from: the paper's, or one with entries and with no zeros where any byte may stand, each in both byte orders.
#[derive(Clone, Copy)]
pub enum Start {
    Little,
    Big,
    LittleFull,
    BigFull,
}

impl Start {
    fn name(self) -> &'static str {
        match self {
            Start::Little => "little",
            Start::Big => "big",
            Start::LittleFull => "little full",
            Start::BigFull => "big full",
        }
    }

    fn plan(self) -> Plan {
        let paper = samples::paper();
        let full = Plan {
            a: 4,
            b: 2,
            c: 3,
            fill: 0xa5,
            count: 0xa5a5,
            ..paper
        };
        match self {
            Start::Little => paper,
            Start::Big => Plan { order: 1, ..paper },
            Start::LittleFull => full,
            Start::BigFull => Plan { order: 1, ..full },
        }
    }
}

// The file that it starts from, and what is changed of it.
#[derive(Clone, Copy)]
pub struct Case(pub Start, pub &'static [Change]);

impl fmt::Display for Case {
    fn fmt<W: fmt::Write>(&self, f: &mut fmt::Formatter<W>) -> fmt::Result {
        let Case(start, changes) = *self;
        f.write_str(start.name())?;
        for change in changes {
            write!(f, ", {change}")?;
        }
        Ok(())
    }
}

impl Case {
    // Makes the file at the front of a buffer, and answers how long it is.
    fn make(self, out: &mut [u8]) -> usize {
        let Case(start, changes) = self;
        let mut plan = start.plan();
        for change in changes {
            change.plan(&mut plan);
        }
        let mut length = samples::make(out, plan);
        for change in changes {
            change.file(out, &plan);
            if let Change::Bytes(n) = *change {
                length = n;
            }
        }
        length
    }

    // Makes the file in a buffer, has it judged, and writes the line.
    pub(crate) fn show(self, rt: &impl Print, buffer: &mut [u8]) -> io::Result<()> {
        let length = self.make(buffer);
        print!(rt; "{self}: ")?;
        match accept::accept(wire::piece(buffer, 0, length)) {
            Ok(facts) => tell_facts(rt, facts)?,
            Err(refusal) => {
                let mut words = [0; 64];
                let n = listing::refusal(&mut words, refusal);
                rt.write_all(wire::piece(&words, 0, n))?;
            }
        }
        println!(rt;)
    }
}

// What the listing prints of a file, and then the facts that it leaves out.
fn tell_facts(rt: &impl Print, f: Facts) -> io::Result<()> {
    print!(rt; "OK {} {} {} {} ", f.satellite, f.day, f.timeline, f.band)?;
    rt.write_all(&f.area.to_be_bytes())?;
    print!(rt;
        " {} {} {} {} {}",
        f.columns, f.lines, f.number, f.total, f.first
    )?;
    print!(rt; ", order and bits {} {}", f.order, f.bits)?;
    print!(rt; ", entries and header {} {} {} {}", f.a, f.b, f.c, f.header)?;
    print!(rt;
        ", quality and calibration {} {:016x} {:016x}",
        f.quality, f.gain, f.constant
    )
}
