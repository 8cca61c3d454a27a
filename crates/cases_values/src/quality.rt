// The marks of quality flag 1.
use reading::{Mark, Marks};
use std::{fmt, io};

const FLAGS: [u8; 14] = [
    0x00, 0x80, 0x40, 0x20, 0x10, 0x08, 0x04, 0x02, 0x01, 0x55, 0x7f, 0xaa, 0xc1, 0xff,
];

// The marks that are lit, and with a question mark those that are not known.
#[derive(Drop)]
struct Lit(Marks);

impl fmt::Display for Lit {
    fn fmt<W: fmt::Write>(&self, f: &mut fmt::Formatter<W>) -> fmt::Result {
        let marks = [
            (self.0.invalid, "invalid"),
            (self.0.sun, "sun"),
            (self.0.moon, "moon"),
            (self.0.test, "test"),
            (self.0.manoeuvre, "manoeuvre"),
            (self.0.unloading, "unloading"),
            (self.0.solar_calibration, "solar_calibration"),
            (self.0.eclipse, "eclipse"),
        ];
        let mut any = false;
        for (mark, name) in marks {
            match mark {
                Mark::No => continue,
                Mark::Yes => write!(f, " {name}")?,
                Mark::NotKnown => write!(f, " {name}?")?,
            }
            any = true;
        }
        if any { Ok(()) } else { f.write_str(" none") }
    }
}

fn show(rt: &impl Print, flag: u8) -> io::Result<()> {
    let lit = Lit(reading::marks_of(flag));
    println!(rt; "marks {flag:02x}:{lit}")
}

pub(crate) fn run(rt: &impl Print) -> io::Result<()> {
    for flag in FLAGS {
        show(rt, flag)?;
    }
    // in eclipse is lit, and so is the bit that disowns it
    print!(rt; "the artist's hour, ")?;
    show(rt, 0x81)
}
