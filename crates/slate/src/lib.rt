#![tactic(auto)]
// The slate of a frame: which shot is on it, how its lines are cut into segments, and which files it is for.
ghost use Rattle.std.specs.Prelude.{◌≡◌, ◌+◌, ◌*◌, ◌-◌, ◌≤◌, None};
ghost use Rattle.std.specs.Result.{result_err};
ghost use Rattle.rules.specs.Rules.{paper, paper_reply, fine, judge};
ghost use Rattle.slate.specs.Cut.{height_in, height_of, lines_to, all_tall, good_cut};
ghost use Rattle.slate.specs.Parts.{shot_parts, cut_parts, further, compare_all, comparing};
ghost use Rattle.slate.specs.Slates.{good_shot, good_slate, slated, kept_of, parts_of, blank, SlatedAs, size_of, start_of, frame_size, place_of, has_line, cover_or_0, matching, reason_of};

use accept::Facts;
use rules::{Refusal, Why, require};
use wire::Word;

// A line and a column of the frame, both counted from 1: two types, as the requirements have them, so that neither stands for the other.
#[derive(Clone, Copy)]
pub struct Line(pub u16);

#[derive(Clone, Copy)]
pub struct Column(pub u16);

// Made by `Slate::new` alone. The area is its four letters, the first one highest. Narrow parts come first, so that the heights lie where a copy is quick.
#[derive(Clone, Copy)]
pub struct Slate {
    satellite: u8,
    // the segments, N
    total: u8,
    timeline: u16,
    band: u16,
    columns: u16,
    day: u32,
    area: u32,
    // the lines of each segment; the room beyond the Nth is 0: of a fixed length beside N, since there is no heap
    heights: [u16; 99],
}

// The verdict on a slate's parts, and the slate; refused parts make none, and it is blank. Two fields and not one Result, since
// `is` of SlatedAs says which slate a refusal hands back.
#[derive(Clone, Copy)]
pub struct Slated {
    pub verdict: Result<(), Refusal>,
    pub slate: Slate,
}

// The parts of a slate that a file has, too, in the paper's order, which counts them from 1.
#[derive(Clone, Copy, Debug, PartialEq, Eq)]
pub enum Part {
    Satellite = 1,
    Day = 2,
    Timeline = 3,
    Band = 4,
    Area = 5,
    Columns = 6,
    Total = 7,
    Lines = 8,
    FirstLine = 9,
}

// A part in which a slate and a file differ, and what each of them says of it.
#[derive(Clone, Copy, Debug, PartialEq, Eq)]
pub struct Difference {
    pub part: Part,
    pub slate: u64,
    pub file: u64,
}

impl Slate {
    pub const FIRST_DAY: u32 = 51544;

    pub const LAST_DAY: u32 = 88068;

    pub const LAST_BAND: u16 = 16;

    pub const MOST_COLUMNS: u16 = 22000;

    pub const MOST_SEGMENTS: u8 = 99;

    pub const MOST_LINES: u32 = 22000;

    // The slate of these parts, or refusal 13. What stands beyond the Nth height is ignored. The parts are arguments one by one, as
    // `parts_of` in the clause takes them.
    #[tactic(auto, unfolding(rules::specs::Rules::after))]
    pub fn new(
        satellite: u8,
        day: u32,
        timeline: u16,
        band: u16,
        area: u32,
        columns: u16,
        total: u8,
        heights: [u16; 99],
    ) -> Slated
        ensures { SlatedAs (parts_of satellite day timeline band area columns total heights) result }
    {
        let heights = kept(total, heights);
        let slate = Slate {
            satellite,
            day,
            timeline,
            band,
            area,
            columns,
            total,
            heights,
        };
        match slate.check() {
            Ok(()) => Slated {
                verdict: Ok(()),
                slate,
            },
            Err(t) => Slated {
                verdict: Err(t),
                slate: Self::blank(),
            },
        }
    }

    // No slate: every part is 0.
    #[tactic(auto, unfolding(crate::specs::Slates::blank))]
    fn blank() -> Slate
        ensures { result ≡ blank }
    {
        Slate {
            satellite: 0,
            day: 0,
            timeline: 0,
            band: 0,
            area: 0,
            columns: 0,
            total: 0,
            heights: [0; 99],
        }
    }

    // Every function that takes a slate makes this check again: each is promised of every slate, a blank one too.
    #[tactic(auto, unfolding(crate::specs::Slates::slated))]
    pub fn check(self) -> Result<(), Refusal>
        ensures { paper result ≡ judge fine (slated self) }
    {
        require(self.is_good(), Why::Slate, 0, 0)
    }

    #[tactic(auto, unfolding(crate::specs::Slates::good_slate))]
    pub fn is_good(self) -> bool
        ensures { result ≡ good_slate self }
    {
        self.good_shot()
            && (1..=Self::MOST_COLUMNS).contains(&self.columns)
            && (1..=Self::MOST_SEGMENTS).contains(&self.total)
            && self.good_cut()
    }

    fn good_shot(self) -> bool
        ensures { result ≡ good_shot self }
    {
        (self.satellite == 8 || self.satellite == 9)
            && (Self::FIRST_DAY..=Self::LAST_DAY).contains(&self.day)
            && calendar::good_timeline(self.timeline)
            && (1..=Self::LAST_BAND).contains(&self.band)
            && format::good_area(self.area.to_bytes(1))
    }

    #[tactic(auto, unfolding(crate::specs::Cut::good_cut))]
    fn good_cut(self) -> bool
        ensures { result ≡ good_cut self }
    {
        self.all_tall() && self.lines_to(self.total) <= Self::MOST_LINES
    }

    // Each segment has a line.
    #[tactic(auto, using(crate::proofs::Cuts::turns), unfolding(crate::specs::Cut::height_of))]
    fn all_tall(self) -> bool
        ensures { result ≡ all_tall self self.total }
    {
        for k in 0..self.total {
            if height_in(&self.heights, k + 1) < 1 {
                return false;
            }
        }
        true
    }

    // The lines of segment k.
    #[tactic(auto, unfolding(crate::specs::Cut::height_of))]
    pub fn height_of(self, k: u8) -> u16
        ensures { result ≡ height_of self k }
    {
        height_in(&self.heights, k)
    }

    // The lines of segments 1 to n.
    #[tactic(auto, using(crate::proofs::Cuts::turns), unfolding(crate::specs::Cut::height_of))]
    pub fn lines_to(self, n: u8) -> u32
        ensures { result ≡ lines_to self n }
    {
        let mut sum = 0;
        for k in 0..n {
            sum += u32::from(height_in(&self.heights, k + 1));
        }
        sum
    }

    // A field each: no form of both is shorter.
    pub fn columns(self) -> u16
        ensures { result ≡ self.columns }
    {
        self.columns
    }

    pub fn total(self) -> u8
        ensures { result ≡ self.total }
    {
        self.total
    }

    // The counts of segment k.
    pub fn size_of(self, k: u8) -> usize
        ensures { result ≡ size_of self k }
    {
        product(u32::from(self.height_of(k)), self.columns)
    }

    // Where segment k begins in the frame.
    pub fn start_of(self, k: u8) -> usize
        ensures { result ≡ start_of self k }
    {
        product(self.lines_to(k.saturating_sub(1)), self.columns)
    }

    // The counts of the frame.
    pub fn frame_size(self) -> usize
        ensures { result ≡ frame_size self }
    {
        product(self.lines_to(self.total), self.columns)
    }

    // Where a count stands in the frame: the one place where a line and a column meet.
    pub fn place_of(self, line: Line, column: Column) -> usize
        ensures { result ≡ place_of self line.0 column.0 }
    {
        product(u32::from(line.0.saturating_sub(1)), self.columns)
            + usize::from(column.0.saturating_sub(1))
    }

    // Whether the slate is good and the line one of its frame's.
    pub fn has_line(self, line: Line) -> bool
        ensures { result ≡ has_line self line.0 }
    {
        self.is_good() && (1..=self.lines_to(self.total)).contains(&u32::from(line.0))
    }

    // The number of the segment that covers a line; 0 where there is none, as `cover_or_0` of specs/ has it.
    #[tactic(auto, using(crate::proofs::Cuts::covering), unfolding(crate::specs::Cut::height_of))]
    pub fn cover_of(self, line: Line) -> u8
        ensures { result ≡ cover_or_0 self line.0 }
    {
        if !self.has_line(line) {
            return 0;
        }
        let n = u32::from(line.0);
        let mut sum = 0;
        for k in 1..self.total {
            sum += u32::from(height_in(&self.heights, k));
            if n <= sum {
                return k;
            }
        }
        self.total
    }

    // What is wrong with the slate, or else with the file, or else the first part in which the two differ, if any does.
    #[tactic(auto, using(rules::proofs::Judge::judging), unfolding(crate::specs::Slates::asking, crate::specs::Slates::reason_of))]
    pub fn why(self, file: &[u8]) -> Result<Option<Difference>, Refusal>
        ensures { paper_reply result ≡ reason_of self file.now }
    {
        self.check()?;
        accept::check_file(file)?;
        Ok(self.compare(accept::facts_of(file)).err())
    }

    // Whether an accepted file is a segment of this slate's frame.
    pub fn matches(self, f: Facts) -> bool
        ensures { result ≡ matching self f }
    {
        self.compare(f).is_ok()
    }

    // The first part in which they differ, of the one list that `why` and `matches` go by.
    #[tactic(auto, using(crate::proofs::Parts::comparisons))]
    fn compare(self, f: Facts) -> Result<(), Difference>
        ensures { result_err result ≡ comparing self f }
    {
        self.compare_shot(f)?;
        self.compare_cut(f)
    }

    #[tactic(auto, unfolding(crate::specs::Parts::shot_parts))]
    fn compare_shot(self, f: Facts) -> Result<(), Difference>
        ensures { result_err result ≡ compare_all None (shot_parts self f) }
    {
        same(
            Part::Satellite,
            u64::from(self.satellite),
            u64::from(f.satellite),
        )?;
        same(Part::Day, u64::from(self.day), u64::from(f.day))?;
        same(
            Part::Timeline,
            u64::from(self.timeline),
            u64::from(f.timeline),
        )?;
        same(Part::Band, u64::from(self.band), u64::from(f.band))?;
        same(Part::Area, u64::from(self.area), u64::from(f.area))
    }

    #[tactic(auto, unfolding(crate::specs::Parts::cut_parts))]
    fn compare_cut(self, f: Facts) -> Result<(), Difference>
        ensures { result_err result ≡ compare_all None (cut_parts self f) }
    {
        let height = u64::from(self.height_of(f.number));
        let first = u64::from(self.lines_to(f.number.saturating_sub(1))) + 1;
        same(Part::Columns, u64::from(self.columns), u64::from(f.columns))?;
        same(Part::Total, u64::from(self.total), u64::from(f.total))?;
        same(Part::Lines, height, u64::from(f.lines))?;
        same(Part::FirstLine, first, u64::from(f.first))
    }
}

// One part: the same on both sides, or how it differs. Parts one after the other take `?`, and the first that differs answers.
fn same(part: Part, slate: u64, file: u64) -> Result<(), Difference>
    ensures { result_err result ≡ further None part slate file }
{
    if slate == file {
        Ok(())
    } else {
        Err(Difference { part, slate, file })
    }
}

fn product(a: u32, b: u16) -> usize
    ensures { (result ≡ a * b) × (result ≤ 281470681677825) }
{
    a as usize * usize::from(b)
}

// The lines of segment k. Lent, so that a loop over heights does not copy them at each turn.
#[tactic(auto, unfolding(crate::specs::Cut::height_in))]
fn height_in(heights: &[u16; 99], k: u8) -> u16
    ensures { result ≡ height_in heights.now k }
{
    if (1..=99).contains(&k) {
        heights[usize::from(k) - 1]
    } else {
        0
    }
}

// The first `total` heights, and 0 in the room beyond them.
#[tactic(auto, using(crate::proofs::Heights::kept_is))]
fn kept(total: u8, heights: [u16; 99]) -> [u16; 99]
    ensures { result ≡ kept_of total heights }
{
    let mut room = [0; 99];
    let n = usize::from(total.min(99));
    room[..n].copy_from_slice(&heights[..n]);
    room
}
