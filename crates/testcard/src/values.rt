// The header's values of a segment that was asked for: a sample's, with texts, times and what the paper says of blocks 3 to 6.
use crate::cut::Cut;
use crate::words::Asked;
use crate::{carried, reals, words};
use header::Header;
use samples::Plan;

// A satellite that is none becomes one that the writer refuses.
fn satellite(number: u16) -> u8 {
    match number {
        8 => 8,
        9 => 9,
        _ => 0,
    }
}

// All but the date, which may be no number.
fn plan_of(a: Asked, cut: Cut) -> Plan {
    Plan {
        order: a.order,
        satellite: satellite(a.satellite),
        timeline: a.timeline,
        band: a.band,
        area: u32::from_be_bytes(a.area),
        columns: a.columns,
        lines: cut.lines,
        number: a.number,
        total: a.total,
        first: cut.first,
        ..samples::paper()
    }
}

// The centre, the version, and the day of the name.
fn put_texts(out: &mut [u8; 1463], date: [u8; 8]) {
    wire::put(out, 22, b"MSC");
    wire::put(out, 82, b"1.1");
    wire::put(out, 121, &date);
}

// The day of a header's name, and the timeline's minutes, as Modified Julian Days.
fn shot_time(out: &[u8; 1463], timeline: u16) -> f64 {
    let day = format::day_or_0(format::date_of(wire::bytes_at(out, 114)));
    let minutes = timeline / 100 * 60 + timeline % 100;
    f64::from(day) + f64::from(minutes) / 1440.0
}

// Segments are taken one after the other, all within ten minutes, and a file is made a quarter of an hour later.
fn put_times(out: &mut [u8; 1463], shot: f64, number: u8, total: u8, order: u8) {
    let each = 1.0 / 150.0 / f64::from(total);
    let ended = shot + f64::from(number) * each;
    reals::put(out, 46, &[ended - each, ended, ended + 0.01], order);
}

pub(crate) fn header_of(a: Asked, cut: Cut) -> Header {
    let resolution = format::band_of(a.band).resolution;
    let mut out = [0u8; 1463];
    samples::make(&mut out, plan_of(a, cut));
    put_texts(&mut out, a.date);
    let shot = shot_time(&out, a.timeline);
    put_times(&mut out, shot, a.number, a.total, a.order);
    carried::put_projection(
        &mut out,
        resolution,
        a.columns,
        words::short(cut.all),
        a.order,
    );
    carried::put_navigation(&mut out, shot, a.order);
    carried::put_calibration(&mut out, a.band, a.order);
    carried::put_no_more(&mut out, a.order);
    header::read_header(&out)
}
