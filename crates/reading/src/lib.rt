#![tactic(auto)]
// What a count reads as by its segment's gain, constant and valid bits, and what quality flag 1 says.
ghost use Rattle.std.specs.Prelude.{◌≡◌, ◌^◌, leb};
ghost use Rattle.std.specs.Float.Ieee.{of_bits};
ghost use Rattle.std.specs.Float.{binary64};
ghost use Rattle.reading.specs.Counts.{if_finite, reading_of, calibration_of};
ghost use Rattle.reading.specs.Quality.{mark_of, lit_marks, marks_of};

use std::num::{f64_from_bits_with_nan, f64_to_bits_with_nan};

// Gain and constant travel together from block 5, with the band's valid bits.
#[derive(Clone, Copy)]
pub struct Calibration {
    pub gain: f64,
    pub constant: f64,
    pub bits: u16,
}

// The five kinds of reading; only radiance carries a number.
#[derive(Clone, Copy)]
pub enum Reading {
    Radiance(f64),
    ErrorPixel,
    Outside,
    OverRange,
    Uncalibrated,
}

// The number itself where it is finite. All ones in the exponent's bits is an infinity or a NaN; decided from the bits and not by `is_finite`, as
// the requirements name it.
#[tactic(auto, using(crate::proofs::Exponent::reads))]
fn if_finite(v: f64) -> Reading
    ensures { result ≡ if_finite v }
{
    let exponent = f64_to_bits_with_nan(v) / 0x0010_0000_0000_0000 % 2048;
    if exponent == 2047 {
        Reading::Uncalibrated
    } else {
        Reading::Radiance(v)
    }
}

// Whether a count is 2 to the valid bits or more: from 16 bits on, none is.
#[tactic(auto, using(crate::proofs::Limits::beyond))]
fn over_range(bits: u16, count: u16) -> bool
    ensures { result ≡ leb (2 ^ bits) count }
{
    bits < 16 && 1 << bits <= u32::from(count)
}

// The reading of a count.
pub fn read(cal: Calibration, count: u16) -> Reading
    ensures { result ≡ reading_of cal count }
{
    match count {
        65535 => Reading::ErrorPixel,
        65534 => Reading::Outside,
        _ if over_range(cal.bits, count) => Reading::OverRange,
        _ => if_finite(cal.gain * f64::from(count) + cal.constant),
    }
}

// The float of a header's eight bytes, at a NaN's pattern too.
pub fn float_of(pattern: u64) -> f64
    ensures { result ≡ of_bits binary64 pattern }
{
    f64_from_bits_with_nan(pattern)
}

// The calibration of a header's gain, constant and valid bits.
pub fn calibration_of(gain: u64, constant: u64, bits: u16) -> Calibration
    ensures { result ≡ calibration_of gain constant bits }
{
    Calibration {
        gain: float_of(gain),
        constant: float_of(constant),
        bits,
    }
}

// What the flag says of one matter. It has words of its own, and is no Option<bool>: that a mark is not known is one of its three answers,
// and None would read as if the flag lacked the mark.
#[derive(Clone, Copy)]
pub enum Mark {
    No,
    Yes,
    NotKnown,
}

// The marks of quality flag 1, the highest bit first.
#[derive(Clone, Copy)]
pub struct Marks {
    // the flag is not valid
    pub invalid: Mark,
    // the sun may have lessened the quality
    pub sun: Mark,
    // the moon may have lessened the quality
    pub moon: Mark,
    // the satellite is under test
    pub test: Mark,
    // the orbit is being corrected
    pub manoeuvre: Mark,
    // momentum is being unloaded
    pub unloading: Mark,
    // the sun is looked at for calibration
    pub solar_calibration: Mark,
    // the satellite is in eclipse
    pub eclipse: Mark,
}

fn mark_of(bit: u8) -> Mark
    ensures { result ≡ mark_of bit }
{
    if bit == 0 { Mark::No } else { Mark::Yes }
}

// Each mark as it stands in the byte.
#[tactic(auto, unfolding(crate::specs::Quality::lit_marks))]
fn lit_marks(flag: u8) -> Marks
    ensures { result ≡ lit_marks flag }
{
    Marks {
        invalid: mark_of(flag / 128 % 2),
        sun: mark_of(flag / 64 % 2),
        moon: mark_of(flag / 32 % 2),
        test: mark_of(flag / 16 % 2),
        manoeuvre: mark_of(flag / 8 % 2),
        unloading: mark_of(flag / 4 % 2),
        solar_calibration: mark_of(flag / 2 % 2),
        eclipse: mark_of(flag % 2),
    }
}

// Quality flag 1: with its top bit set it is not valid, and the other marks are not known.
#[tactic(auto, unfolding(crate::specs::Quality::marks_of))]
pub fn marks_of(flag: u8) -> Marks
    ensures { result ≡ marks_of flag }
{
    if flag / 128 % 2 == 1 {
        return Marks {
            invalid: Mark::Yes,
            sun: Mark::NotKnown,
            moon: Mark::NotKnown,
            test: Mark::NotKnown,
            manoeuvre: Mark::NotKnown,
            unloading: Mark::NotKnown,
            solar_calibration: Mark::NotKnown,
            eclipse: Mark::NotKnown,
        };
    }
    lit_marks(flag)
}
