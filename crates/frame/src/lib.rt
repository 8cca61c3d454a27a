#![tactic(auto)]
// A frame put together from segments: opening, offering files, and asking for lines. The record alone says what has come.
ghost use Rattle.std.specs.Prelude.{◌≡◌, ◌+◌, ◌*◌, ◌≤◌, [], ◌∷◌, length, drop};
ghost use Rattle.wire.specs.Wire.{num};
ghost use Rattle.header.specs.Places.{length_of};
ghost use Rattle.rules.specs.Rules.{paper, fine, judge};
ghost use Rattle.frame.specs.Counts.{counts, filled};
ghost use Rattle.frame.specs.Records.{no_marks, marked, mark, none_above, tally_of};
ghost use Rattle.frame.specs.Frames.{opened, open_frame, ready, placing, offered, put_at, record_after, frame_after};
ghost use Rattle.frame.specs.Lines.{line_good, line_of};

use rules::{Refusal, Why, require};
use slate::{Column, Line, Slate};
use wire::Word;

// The numbers 1 to 99 that are in; number k stands at k - 1. An array, since a record goes by value and there is no heap. There is no heap, and so there is room for all.
#[derive(Clone, Copy)]
pub struct Record {
    pub marks: [bool; 99],
}

// A verdict, and the record that is now the newest. Two fields and not one Result, since `marks_value` of `open` and `offer` says
// which record a refusal hands back.
#[derive(Clone, Copy)]
pub struct Held {
    pub verdict: Result<(), Refusal>,
    pub rec: Record,
}

// ---- the record

// With no segment in.
pub fn empty() -> Record
    ensures { result.marks ≡ no_marks }
{
    Record { marks: [false; 99] }
}

#[tactic(auto, unfolding(crate::specs::Records::marked))]
pub fn is_marked(rec: Record, number: u8) -> bool
    ensures { result ≡ marked rec.marks number }
{
    (1..=99).contains(&number) && rec.marks[usize::from(number) - 1]
}

// No number above the total is marked.
#[tactic(auto, using(crate::proofs::Marking::none_turns))]
fn none_above(rec: Record, total: u8) -> bool
    ensures { result ≡ none_above total rec.marks }
{
    for k in total..99 {
        if rec.marks[usize::from(k)] {
            return false;
        }
    }
    true
}

// How many numbers are marked.
#[tactic(auto, using(crate::proofs::Marking::tallies))]
pub fn tally(rec: Record) -> u8
    ensures { result ≡ tally_of rec.marks }
{
    rec.marks.iter().filter(|marked| **marked).count() as u8
}

fn mark_in(rec: Record, number: u8) -> Record
    requires { (1 ≤ number) × (number ≤ 99) }
    ensures { result.marks ≡ mark rec.marks number }
{
    let at = usize::from(number) - 1;
    let mut next = rec;
    next.marks[at] = true;
    next
}

// ---- counts

// The number that two bytes hold.
pub fn count_of(order: u8, a: u8, b: u8) -> u16
    ensures { result ≡ num order (a ∷ b ∷ []) }
{
    u16::from_bytes([a, b], order)
}

// What follows a file's header.
pub fn counts_in(file: &[u8]) -> &[u8]
    ensures { result.now ≡ drop (length_of file.now) file.now }
{
    let a = header::a_of(file);
    let b = header::b_of(file);
    let c = header::c_of(file);
    wire::rest(file, header::header_length(a, b, c) as usize)
}

// Writes the counts that `src` holds into all of `dst`.
#[tactic(auto, using(crate::proofs::Copying::counts_from_each))]
fn place(dst: &mut [u16], src: &[u8], order: u8)
    requires { length src.now ≡ length dst.old * 2 }
    ensures { dst.new ≡ counts order src.now }
{
    for (i, count) in dst.iter_mut().enumerate() {
        *count = count_of(order, src[i * 2], src[i * 2 + 1]);
    }
}

// The same for what lies above: where the counts don't fill `dst`, it stays as it was.
#[tactic(auto, unfolding(crate::specs::Counts::filled))]
pub fn counts_into(dst: &mut [u16], src: &[u8], order: u8)
    ensures { dst.new ≡ filled order src.now dst.old }
{
    if src.len() == dst.len() * 2 {
        place(dst, src, order);
    }
}

// Writes the n counts that `src` holds into the frame, from `at` on.
fn put(frame: &mut [u16], at: usize, n: usize, src: &[u8], order: u8)
    requires n_in_bounds { at + n ≤ length frame.old }
    requires src_len { length src.now ≡ n * 2 }
    ensures { frame.new ≡ put_at frame.old at (counts order src.now) }
{
    place(&mut frame[at..at + n], src, order);
}

// ---- opening

#[tactic(auto, unfolding(crate::specs::Frames::opening, slate::specs::Slates::slated))]
fn check_open(slate: Slate, size: usize) -> Result<(), Refusal>
    ensures { paper result ≡ opened slate size }
{
    slate.check()?;
    require(size == slate.frame_size(), Why::Strip, 0, 0)
}

// Checks slate and frame, fills the frame with 65,534, and gives a record with no segment in.
#[tactic(auto, unfolding(crate::specs::Frames::open_frame, rules::specs::Rules::after))]
pub fn open(slate: Slate, frame: &mut [u16]) -> Held
    ensures verdict_value { paper result.verdict ≡ opened slate (length frame.old) }
    ensures marks_value { result.rec.marks ≡ no_marks }
    ensures frame_after { frame.new ≡ open_frame slate frame.old }
{
    let verdict = check_open(slate, frame.len());
    if verdict.is_ok() {
        frame.fill(65534);
    }
    Held {
        verdict,
        rec: empty(),
    }
}

// ---- offering

#[tactic(auto, unfolding(crate::specs::Frames::ready, slate::specs::Slates::slated))]
fn check_ready(slate: Slate, rec: Record, size: usize) -> Result<(), Refusal>
    ensures { paper result ≡ judge fine (ready slate rec.marks size) }
{
    slate.check()?;
    require(none_above(rec, slate.total()), Why::Slate, 0, 0)?;
    require(size == slate.frame_size(), Why::Strip, 0, 0)
}

#[tactic(auto, unfolding(crate::specs::Frames::placing))]
fn check_placing(slate: Slate, rec: Record, file: &[u8]) -> Result<(), Refusal>
    ensures { paper result ≡ judge fine (placing slate rec.marks file.now) }
{
    let f = accept::facts_of(file);
    require(slate.matches(f), Why::OtherShot, 0, 0)?;
    require(!is_marked(rec, f.number), Why::Already, 0, 0)
}

#[tactic(auto, using(rules::proofs::Judge::judging), unfolding(crate::specs::Frames::offering))]
fn judge(slate: Slate, rec: Record, size: usize, file: &[u8]) -> Result<(), Refusal>
    ensures { paper result ≡ offered slate rec.marks size file.now }
{
    check_ready(slate, rec, size)?;
    accept::check_file(file)?;
    check_placing(slate, rec, file)
}

// Judges a file, and places its counts if nothing is wrong: only its own lines are written, and its number is marked.
#[tactic(auto, using(crate::proofs::Putting::placed), unfolding(crate::specs::Frames::record_after, crate::specs::Frames::frame_after, rules::specs::Rules::after))]
pub fn offer(slate: Slate, rec: Record, frame: &mut [u16], file: &[u8]) -> Held
    ensures verdict_value { paper result.verdict ≡ offered slate rec.marks (length frame.old) file.now }
    ensures marks_value { result.rec.marks ≡ record_after slate rec.marks (length frame.old) file.now }
    ensures frame_after { frame.new ≡ frame_after slate rec.marks frame.old file.now }
{
    let verdict = judge(slate, rec, frame.len(), file);
    if verdict.is_err() {
        return Held { verdict, rec };
    }
    let f = accept::facts_of(file);
    let at = slate.start_of(f.number);
    let n = slate.size_of(f.number);
    put(frame, at, n, counts_in(file), f.order);
    Held {
        verdict,
        rec: mark_in(rec, f.number),
    }
}

// ---- a line

#[tactic(auto, unfolding(crate::specs::Lines::line_good))]
fn line_good(slate: Slate, rec: Record, size: usize, line: Line) -> bool
    ensures { result ≡ line_good slate rec.marks size line.0 }
{
    slate.has_line(line) && none_above(rec, slate.total()) && size == slate.frame_size()
}

// That part of the frame if its segment is in, or else the first columns of the leader; empty if it is refused, as the requirements have it.
#[tactic(auto, using(crate::proofs::Asking::asking), unfolding(crate::specs::Lines::line_of))]
pub fn line_of<'a>(
    slate: Slate,
    rec: Record,
    frame: &'a [u16],
    leader: &'a [u16],
    line: Line,
) -> &'a [u16]
    ensures { result.now ≡ line_of slate rec.marks frame.now leader.now line.0 }
{
    if !line_good(slate, rec, frame.len(), line) {
        return &[];
    }
    let columns = usize::from(slate.columns());
    if is_marked(rec, slate.cover_of(line)) {
        let at = slate.place_of(line, Column(1));
        return &frame[at..at + columns];
    }
    leader.get(..columns).unwrap_or(&[])
}
