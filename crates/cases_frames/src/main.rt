#![tactic(auto)]
// Tries slates, opens frames, offers them files good, strange, repeated and damaged in several orders, and asks for lines.
// It writes a line for each step: what is given, then the answer. The answers in the file stdout were worked out apart from this code.
mod lines;
mod night;
mod offers;
mod orders;
mod plan;
mod scene;
mod slates;
mod step;

use plan::Plan;
use std::io;

fn main(rt: HostRuntime) -> io::Result<()> {
    let one = Plan::cut(4, 1, 2);
    let three = Plan::cut(4, 3, 2);
    let ten = Plan::cut(4, 10, 2);
    let ninety_nine = Plan::cut(1, 99, 1);
    scene::play(&rt, "the night of 0200", ten, night::NIGHT)?;
    scene::play(&rt, "slates", ten, slates::SLATES)?;
    scene::play(&rt, "opening", one, offers::OPENING)?;
    scene::play(&rt, "offers", three, offers::OFFERS)?;
    scene::play(&rt, "byte orders and entries", three, offers::COUNTS)?;
    scene::play(&rt, "lines", three, lines::LINES)?;
    scene::play(&rt, "records", three, lines::RECORDS)?;
    scene::play(&rt, "99 segments", ninety_nine, lines::NINETY_NINE)?;
    orders::run(&rt)
}
