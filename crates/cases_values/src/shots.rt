// Shots: their slots, and their numbers on the film.
use crate::told::Told;
use std::io;

// Day and timeline.
const SHOTS: [(u32, u16); 17] = [
    // the paper's
    (57210, 200),
    // timelines, good and not
    (57210, 0),
    (57210, 10),
    (57210, 50),
    (57210, 55),
    (57210, 60),
    (57210, 100),
    (57210, 2350),
    (57210, 2360),
    (57210, 2400),
    (57210, 9950),
    (57210, 65535),
    // days, good and not
    (51543, 0),
    (51544, 0),
    (88068, 2350),
    (88069, 0),
    (4294967295, 0),
];

// Day and timeline of the first shot, and of the shot.
const PAIRS: [(u32, u16, u32, u16); 12] = [
    // the paper's
    (57209, 2350, 57210, 0),
    (57210, 0, 57209, 2350),
    // the timeline comes round daily
    (57210, 200, 57211, 200),
    // the longest way, and back
    (51544, 0, 88068, 2350),
    (88068, 2350, 51544, 0),
    // a day or a timeline out of range, on either side
    (51543, 0, 57210, 0),
    (57210, 0, 88069, 0),
    (57210, 60, 57210, 0),
    (57210, 0, 57210, 2400),
    // either day before either timeline
    (57210, 60, 88069, 0),
    (51543, 0, 57210, 60),
    (51543, 60, 88069, 60),
];

pub(crate) fn run_slots(rt: &impl Print) -> io::Result<()> {
    for (day, timeline) in SHOTS {
        let slot = Told(calendar::slot(day, timeline));
        println!(rt; "slot {day} {timeline}: {slot}")?;
    }
    Ok(())
}

pub(crate) fn run_films(rt: &impl Print) -> io::Result<()> {
    for (first_day, first, day, timeline) in PAIRS {
        let number = Told(calendar::frame_number(first_day, first, day, timeline));
        println!(rt; "film {first_day} {first} {day} {timeline}: {number}")?;
    }
    Ok(())
}
