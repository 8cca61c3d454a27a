// What counts read as.
use reading::Reading;
use std::num::f64_to_bits_with_nan;
use std::{fmt, io};

// The bits of floats that several cases have.
const HALF: u64 = 0x3fe0_0000_0000_0000;

const MINUS_ONE: u64 = 0xbff0_0000_0000_0000;

const INFINITE: u64 = 0x7ff0_0000_0000_0000;

const MINUS_INFINITE: u64 = 0xfff0_0000_0000_0000;

const QUIET_NAN: u64 = 0x7ff8_0000_0000_0000;

const SIGNALLING_NAN: u64 = 0x7ff0_0000_0000_0001;

// 2 to the 1023.
const HUGE: u64 = 0x7fe0_0000_0000_0000;

// The largest finite number.
const LARGEST: u64 = 0x7fef_ffff_ffff_ffff;

// The bits of gain and constant, the valid bits, and the count.
const COUNTS: [(u64, u64, u16, u16); 44] = [
    // the paper's
    (HALF, MINUS_ONE, 11, 10),
    (HALF, MINUS_ONE, 11, 2047),
    (HALF, MINUS_ONE, 11, 2048),
    (HALF, MINUS_ONE, 11, 65534),
    (HUGE, MINUS_ONE, 11, 2),
    // every kind of count, by the valid bits; from 16 bits on none is over range
    (HALF, MINUS_ONE, 11, 0),
    (HALF, MINUS_ONE, 11, 65533),
    (HALF, MINUS_ONE, 11, 65535),
    (HALF, MINUS_ONE, 0, 0),
    (HALF, MINUS_ONE, 0, 1),
    (HALF, MINUS_ONE, 15, 32767),
    (HALF, MINUS_ONE, 15, 32768),
    (HALF, MINUS_ONE, 16, 65533),
    (HALF, MINUS_ONE, 16, 65534),
    (HALF, MINUS_ONE, 16, 65535),
    (HALF, MINUS_ONE, 65535, 65533),
    (HALF, MINUS_ONE, 65535, 65534),
    (HALF, MINUS_ONE, 65535, 65535),
    // a negative gain is no damage
    (0xbfb0_0000_0000_0000, 0x4035_8000_0000_0000, 12, 100),
    // a NaN in either place, the last of each with its sign set
    (QUIET_NAN, MINUS_ONE, 11, 10),
    (SIGNALLING_NAN, MINUS_ONE, 11, 10),
    (0xfff8_0000_0000_0000, MINUS_ONE, 11, 0),
    (HALF, QUIET_NAN, 11, 10),
    (HALF, SIGNALLING_NAN, 11, 10),
    (HALF, 0xffff_ffff_ffff_ffff, 11, 10),
    // over range is answered before the number is looked at
    (QUIET_NAN, QUIET_NAN, 11, 2048),
    // infinities, and what has no value: infinite times 0, and infinite minus infinite
    (INFINITE, MINUS_ONE, 11, 1),
    (MINUS_INFINITE, MINUS_ONE, 11, 1),
    (INFINITE, MINUS_ONE, 11, 0),
    (HALF, INFINITE, 11, 10),
    (HALF, MINUS_INFINITE, 11, 10),
    (INFINITE, MINUS_INFINITE, 11, 1),
    (0, INFINITE, 11, 10),
    // the largest numbers: a product that is infinite stays so, though the constant would bring the sum back
    (HUGE, MINUS_ONE, 11, 1),
    (HUGE, MINUS_INFINITE, 11, 2),
    (HUGE, 0xffe0_0000_0000_0000, 11, 2),
    // half of the largest number's last place rounds up, and the number below that half does not
    (LARGEST, 0x7c90_0000_0000_0000, 11, 1),
    (LARGEST, 0x7c8f_ffff_ffff_ffff, 11, 1),
    // subnormal numbers are not taken for 0
    (1, 2, 11, 3),
    (0x000f_ffff_ffff_ffff, 1, 11, 1),
    (0x0010_0000_0000_0000, 0x8018_0000_0000_0000, 11, 2),
    // rounded once and not twice, each would be another number
    (0x3f50_624d_d2f1_a9fc, 0xbfb9_9999_9999_999a, 11, 9),
    (0x3fb9_9999_9999_999a, 0xbfd3_3333_3333_3333, 11, 3),
    // a zero keeps its sign
    (0x8000_0000_0000_0000, 0x8000_0000_0000_0000, 11, 5),
];

#[derive(Drop)]
struct Kind(Reading);

// A radiance reads by its bits. A NaN has none of its own to ask for, and is never expected.
impl fmt::Display for Kind {
    fn fmt<W: fmt::Write>(&self, f: &mut fmt::Formatter<W>) -> fmt::Result {
        match self.0 {
            Reading::Radiance(v) => write!(f, "radiance {:016x}", f64_to_bits_with_nan(v)),
            Reading::ErrorPixel => f.write_str("error pixel"),
            Reading::Outside => f.write_str("outside"),
            Reading::OverRange => f.write_str("over range"),
            Reading::Uncalibrated => f.write_str("uncalibrated"),
        }
    }
}

pub(crate) fn run(rt: &impl Print) -> io::Result<()> {
    for (gain, constant, bits, count) in COUNTS {
        let kind = Kind(reading::read(reading::calibration_of(gain, constant, bits), count));
        println!(rt; "count {gain:016x} {constant:016x} {bits} {count}: {kind}")?;
    }
    Ok(())
}
