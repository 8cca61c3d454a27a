// What the paper's blocks 3 to 6 say of a segment: projection, navigation, calibration, and no inter-calibration.
use crate::reals;

// Distances in km and the ellipsoid's ratios, from the satellite's distance on.
const SPHERE: [f64; 7] = [
    42164.0,
    6378.137,
    6356.7523,
    0.00669438444,
    0.993305616,
    1.006739501,
    1737122264.0,
];

// Longitude, latitude and distance of the satellite, and where it looks straight down; then the sun and the moon in km, as they stood at
// 0200 on 7 July 2015.
const PLACES: [f64; 11] = [
    140.7,
    0.0,
    42164.0,
    140.7,
    0.0,
    -38300000.0,
    135000000.0,
    58500000.0,
    366300.0,
    -43100.0,
    -12000.0,
];

// No correction of Planck's function both ways, and then c, h and k.
const PLANCK: [f64; 9] = [
    0.0,
    1.0,
    0.0,
    0.0,
    1.0,
    0.0,
    299792458.0,
    6.62606957e-34,
    1.3806488e-23,
];

// The paper's mark of no value.
const NONE: f64 = -1e10;

// Of each band: its wavelength in micrometres, and what a count is worth. Sunlight grows with the count, and warmth falls.
const BANDS: [(f64, f64); 16] = [
    (0.46, 0.375),
    (0.51, 0.375),
    (0.64, 0.3125),
    (0.86, 0.1875),
    (1.6, 0.046875),
    (2.3, 0.015625),
    (3.9, -0.000244140625),
    (6.2, -0.0078125),
    (7.0, -0.0078125),
    (7.3, -0.00390625),
    (8.6, -0.00390625),
    (9.6, -0.00390625),
    (10.4, -0.00390625),
    (11.2, -0.00390625),
    (12.3, -0.00390625),
    (13.3, -0.0078125),
];

// Of bands 1 to 6: what makes an albedo of a radiance.
const ALBEDOS: [f64; 6] = [0.00156, 0.00165, 0.00194, 0.00324, 0.013, 0.0413];

// How finely columns and lines are cut, by resolution.
fn factor(resolution: u8) -> u32 {
    match resolution {
        5 => 81865099,
        10 => 40932549,
        _ => 20466275,
    }
}

// The middle of n columns or lines.
fn middle(n: u16) -> f32 {
    f32::from(n) / 2.0 + 0.5
}

// The disk's middle is the frame's.
pub(crate) fn put_projection(
    out: &mut [u8; 1463],
    resolution: u8,
    columns: u16,
    lines: u16,
    order: u8,
) {
    reals::put(out, 335, &[140.7], order);
    wire::put_number(out, 343, factor(resolution), order);
    wire::put_number(out, 347, factor(resolution), order);
    reals::put_short(out, 351, middle(columns), order);
    reals::put_short(out, 355, middle(lines), order);
    reals::put(out, 359, &SPHERE, order);
}

pub(crate) fn put_navigation(out: &mut [u8; 1463], time: f64, order: u8) {
    reals::put(out, 462, &[time], order);
    reals::put(out, 470, &PLACES, order);
}

// The count that no light has. Of warmth it is the first that valid bits do not hold: the greatest count is the coldest.
fn dark(band: u16) -> f64 {
    match band {
        1..=6 => 20.0,
        7 => 16384.0,
        8 | 9 | 16 => 2048.0,
        _ => 4096.0,
    }
}

pub(crate) fn put_calibration(out: &mut [u8; 1463], band: u16, order: u8) {
    let at = (usize::from(band) + 15) % 16;
    let (wavelength, gain) = BANDS[at];
    reals::put(out, 603, &[wavelength], order);
    reals::put(out, 617, &[gain, -dark(band) * gain], order);
    if band < 7 {
        reals::put(out, 633, &[ALBEDOS[at % 6]], order);
    } else {
        reals::put(out, 633, &PLANCK, order);
    }
}

// There is no inter-calibration.
pub(crate) fn put_no_more(out: &mut [u8; 1463], order: u8) {
    reals::put(out, 748, &[NONE; 8], order);
    reals::put_short(out, 812, -1e10, order);
    reals::put_short(out, 816, -1e10, order);
}
