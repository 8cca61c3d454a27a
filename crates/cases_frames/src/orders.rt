// The same files in ten orders: forward, backward and mixed. Each file's answer, the record and the strip are the same in every order.
use crate::plan::Plan;
use crate::scene::Scene;
use crate::step::Change::{Bytes, Day, Segment, Timeline, Total};
use crate::step::Deed::{Ask, Offer, Open, Show};
use crate::step::Step;
use std::io;

// Six segments, and files that are strange or cut. In the place of file 0 the strip is shown.
static FILES: [Step; 11] = [
    Step(&[], Show),
    Step(&[Segment(1, 1)], Offer),
    Step(&[Segment(2, 3)], Offer),
    Step(&[Segment(3, 5)], Offer),
    Step(&[Segment(4, 7)], Offer),
    Step(&[Segment(5, 9)], Offer),
    Step(&[Segment(6, 11)], Offer),
    Step(&[Timeline(210)], Offer),
    Step(&[Day(57211)], Offer),
    Step(&[Total(7)], Offer),
    Step(&[Bytes(1478)], Offer),
];

// Each file is so many files after the last; 11 is a prime, and so file 0 comes after all others.
// Then a line of each segment tells which are in, and that no other number is.
fn play(rt: &impl Print, stride: u8) -> io::Result<()> {
    println!(rt; "-- the same files in one of ten orders")?;
    let mut scene = Scene::new(Plan::cut(4, 6, 2));
    scene.act(rt, Step(&[], Open))?;
    for i in 1..12 {
        scene.act(rt, FILES[usize::from(stride) * i % 11])?;
    }
    for line in [1, 3, 5, 7, 9, 11] {
        scene.act(rt, Step(&[], Ask(line)))?;
    }
    Ok(())
}

pub(crate) fn run(rt: &impl Print) -> io::Result<()> {
    for stride in 1..11 {
        play(rt, stride)?;
    }
    Ok(())
}
