// A scene: steps on one slate, with a record, a strip and a leader.
ghost use Rattle.std.specs.Prelude.{◌≡◌, take};

use crate::plan::Plan;
use crate::step::{Deed, Step};
use frame::{Held, Record};
use rules::Refusal;
use slate::{Line, Slate};
use std::io;

static LEADER: [u16; 5] = [901, 902, 903, 904, 905];

// What a strip holds before a frame is opened on it.
const BARE: u16 = 7;

#[derive(Drop)]
pub struct Scene {
    base: Plan,
    slate: Slate,
    record: Record,
    strip: [u16; 128],
}

// The first n counts of a strip.
fn part(strip: &[u16], n: usize) -> &[u16]
    ensures { result.now ≡ take n strip.now }
{
    &strip[..strip.len().min(n)]
}

fn part_mut(strip: &mut [u16], n: usize) -> &mut [u16] {
    let n = strip.len().min(n);
    &mut strip[..n]
}

fn tell(rt: &impl Print, verdict: Result<(), Refusal>) -> io::Result<()> {
    let mut room = [0u8; 64];
    let n = say::verdict(&mut room, verdict, b"OK");
    rt.write_all(b" ")?;
    rt.write_all(wire::piece(&room, 0, n))
}

fn tell_counts(rt: &impl Print, counts: &[u16]) -> io::Result<()> {
    if counts.is_empty() {
        print!(rt; " empty")?;
    }
    for count in counts {
        print!(rt; " {count}")?;
    }
    println!(rt)
}

fn try_slate(rt: &impl Print, plan: Plan) -> io::Result<()> {
    let slated = plan.slate();
    match slated.verdict {
        Ok(()) => println!(rt; " {} counts", slated.slate.frame_size()),
        refused => {
            tell(rt, refused)?;
            println!(rt)
        }
    }
}

impl Scene {
    pub(crate) fn new(base: Plan) -> Scene {
        Scene {
            base,
            slate: base.slate().slate,
            record: frame::empty(),
            strip: [BARE; 128],
        }
    }

    // Does what a step says, and tells it with the answer.
    pub(crate) fn act(&mut self, rt: &impl Print, step: Step) -> io::Result<()> {
        let Step(changes, deed) = step;
        let plan = self.base.changed(changes);
        print!(rt; "{step}")?;
        match deed {
            Deed::Try => try_slate(rt, plan),
            Deed::Open => self.open(rt, plan),
            Deed::Offer => self.offer(rt, plan),
            Deed::Ask(line) => self.ask(rt, plan, Line(line)),
            Deed::Show => tell_counts(rt, part(&self.strip, plan.strip)),
            Deed::Mark(number) => self.mark(rt, number),
            Deed::MarkAll => {
                self.record.marks = [true; 99];
                self.tell_tally(rt)
            }
        }
    }

    fn open(&mut self, rt: &impl Print, plan: Plan) -> io::Result<()> {
        let before = self.strip;
        let held = frame::open(self.slate, part_mut(&mut self.strip, plan.strip));
        self.keep(rt, held, before)
    }

    fn offer(&mut self, rt: &impl Print, plan: Plan) -> io::Result<()> {
        let before = self.strip;
        let file = plan.file();
        let held = frame::offer(
            self.slate,
            self.record,
            part_mut(&mut self.strip, plan.strip),
            wire::piece(&file, 0, plan.bytes),
        );
        self.keep(rt, held, before)
    }

    // Takes the record on, and tells the verdict, how many numbers are in, and whether record and strip are as they were.
    fn keep(&mut self, rt: &impl Print, held: Held, before: [u16; 128]) -> io::Result<()> {
        let kept = self.record.marks == held.rec.marks && self.strip == before;
        let kept = if kept { ", kept" } else { "" };
        self.record = held.rec;
        tell(rt, held.verdict)?;
        println!(rt; ", {} in{kept}", frame::tally(self.record))
    }

    fn ask(&self, rt: &impl Print, plan: Plan, line: Line) -> io::Result<()> {
        let strip = part(&self.strip, plan.strip);
        let leader = part(&LEADER, plan.leader);
        tell_counts(
            rt,
            frame::line_of(self.slate, self.record, strip, leader, line),
        )
    }

    fn mark(&mut self, rt: &impl Print, number: u8) -> io::Result<()> {
        if (1..=99).contains(&number) {
            self.record.marks[usize::from(number) - 1] = true;
        }
        self.tell_tally(rt)
    }

    fn tell_tally(&self, rt: &impl Print) -> io::Result<()> {
        println!(rt; " {} in", frame::tally(self.record))
    }
}

// Plays the steps of a scene, under its title.
pub(crate) fn play(rt: &impl Print, title: &str, base: Plan, steps: &[Step]) -> io::Result<()> {
    println!(rt; "-- {title}")?;
    let mut scene = Scene::new(base);
    for step in steps {
        scene.act(rt, *step)?;
    }
    Ok(())
}
