// Numbers with a fraction, stored as the paper's R8 and R4.
ghost use Rattle.std.specs.Prelude.{◌<◌, ◌≤◌, length};

use std::num::{f32_to_bits_with_nan, f64_to_bits_with_nan};

// Stores numbers one after the other.
pub(crate) fn put(out: &mut [u8; 1463], at: usize, xs: &[f64], order: u8)
    requires { (at < 2048) × (length xs.now ≤ 16) }
{
    for (i, x) in xs.iter().enumerate() {
        wire::put_number(out, at + 8 * i, f64_to_bits_with_nan(*x), order);
    }
}

pub(crate) fn put_short(out: &mut [u8; 1463], at: usize, x: f32, order: u8) {
    wire::put_number(out, at, f32_to_bits_with_nan(x), order);
}
