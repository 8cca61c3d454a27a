#![tactic(auto)]
// Frames for C, thin over the proved library: a slate of plain numbers, 99 lent marks, and a lent strip of counts; and why a file is none of a slate's.
ghost use Rattle.std.specs.Prelude.{◌≡◌, true, length, OnOk, IfOk};
ghost use Rattle.rules.specs.Rules.{paper, after};
ghost use Rattle.slate.specs.Slates.{reason_of};
ghost use Rattle.plugin.specs.Plugin.{shown_ruling};
ghost use Rattle.plugin_frames.specs.Reasons.{shown_reason};
ghost use Rattle.plugin_frames.specs.Strips.{slate_in, bits_from, good_marks, marks_in, marks_out, slate_c, opened_c, offered_c, open_marks, open_strip, offer_marks, offer_strip, line_c, copied_of, copy_of};

use frame::{Held, Record};
use plugin::HsdAnswer;
use rules::{Refusal, Why};
use slate::{Difference, Line, Slate};

// satellite is 8 or 9, total the segments and heights the lines of each, with any numbers beyond them; area is the four letters, the first one highest.
#[repr(C)]
#[derive(Clone, Copy)]
pub struct HsdSlate {
    pub satellite: u8,
    pub total: u8,
    pub timeline: u16,
    pub band: u16,
    pub columns: u16,
    pub heights: [u16; 99],
    pub day: u32,
    pub area: u32,
}

// All 99 are looked at, and not up to the first that is none: so many are looked at in one instruction.
#[tactic(auto, using(crate::proofs::Lending::bits_more, crate::proofs::Lending::bits_end), unfolding(crate::specs::Strips::good_marks))]
fn good_marks(marks: &[u8]) -> bool
    ensures { result ≡ good_marks marks.now }
{
    if marks.len() != 99 {
        return false;
    }
    let mut good = true;
    for mark in marks {
        good &= *mark <= 1;
    }
    good
}

#[tactic(auto, using(crate::proofs::Lending::flags_from_each))]
fn record_of(marks: &[u8]) -> Record
    requires { length marks.now ≡ 99 }
    ensures { result.marks ≡ marks_in marks.now }
{
    let mut held = [false; 99];
    for (k, mark) in held.iter_mut().enumerate() {
        *mark = marks[k] == 1;
    }
    Record { marks: held }
}

// The slate of a struct's numbers, or refusal 13 where the marks will not do or the slate is bad.
#[tactic(auto, using(rules::proofs::Judge::judging), unfolding(crate::specs::Strips::lent, slate::specs::Slates::slated, rules::specs::Rules::after))]
fn slate_of(s: HsdSlate, marked: bool) -> Result<Slate, Refusal>
    ensures ruling { paper result ≡ slate_c s marked }
    ensures marks_good { OnOk result (marked ≡ true) }
    ensures ok { IfOk result (λ slate. slate ≡ slate_in s) }
{
    let made = Slate::new(
        s.satellite,
        s.day,
        s.timeline,
        s.band,
        s.area,
        s.columns,
        s.total,
        s.heights,
    );
    rules::require(marked, Why::Slate, 0, 0)?;
    made.verdict?;
    Ok(made.slate)
}

#[tactic(auto, using(crate::proofs::Lending::marks_from_each))]
fn store_marks(marks: &mut [u8], rec: Record)
    requires { length marks.old ≡ 99 }
    ensures { marks.new ≡ marks_out rec.marks }
{
    for (k, mark) in marks.iter_mut().enumerate() {
        *mark = u8::from(rec.marks[k]);
    }
}

// The answer; the marks are the newest record's, unless something is wrong.
#[tactic(auto, unfolding(rules::specs::Rules::after))]
fn keep(marks: &mut [u8], held: Held) -> HsdAnswer
    requires { length marks.old ≡ 99 }
    ensures value { result ≡ shown_ruling (paper held.verdict) }
    ensures marks_after { marks.new ≡ after (paper held.verdict) marks.old (marks_out held.rec.marks) }
{
    if held.verdict.is_ok() {
        store_marks(marks, held.rec);
    }
    HsdAnswer::from(held.verdict)
}

// Opens a frame: fills it with 65,534 and clears the marks, whatever they were.
#[tactic(auto, using(crate::proofs::Lending::lent_good, crate::proofs::Lending::lent_opened, crate::proofs::Lending::open_strip_lem), unfolding(rules::specs::Rules::after, crate::specs::Strips::open_marks, crate::specs::Strips::open_strip))]
pub fn hsd_open(slate: HsdSlate, marks: &mut [u8], frame: &mut [u16]) -> HsdAnswer
    ensures value { result ≡ shown_ruling (opened_c slate marks.old (length frame.old)) }
    ensures marks_after { marks.new ≡ open_marks slate marks.old (length frame.old) }
    ensures frame_after { frame.new ≡ open_strip slate marks.old frame.old }
{
    match slate_of(slate, marks.len() == 99) {
        Ok(slate) => keep(marks, frame::open(slate, frame)),
        Err(t) => HsdAnswer::from(Err(t)),
    }
}

// Offers a file: places its counts and sets its mark, or says why not.
#[tactic(auto, using(crate::proofs::Lending::lent_good, crate::proofs::Lending::good_long, crate::proofs::Lending::lent_offered, crate::proofs::Lending::offer_strip_lem), unfolding(rules::specs::Rules::after, crate::specs::Strips::offer_marks, crate::specs::Strips::offer_strip))]
pub fn hsd_offer(slate: HsdSlate, marks: &mut [u8], frame: &mut [u16], file: &[u8]) -> HsdAnswer
    ensures value { result ≡ shown_ruling (offered_c slate marks.old (length frame.old) file.now) }
    ensures marks_after { marks.new ≡ offer_marks slate marks.old (length frame.old) file.now }
    ensures frame_after { frame.new ≡ offer_strip slate marks.old frame.old file.now }
{
    match slate_of(slate, good_marks(marks)) {
        Ok(slate) => keep(marks, frame::offer(slate, record_of(marks), frame, file)),
        Err(t) => HsdAnswer::from(Err(t)),
    }
}

// Copies a line to the front of the output if there is room.
fn copy(line: &[u16], out: &mut [u16]) -> usize
    ensures value { result ≡ copied_of line.now out.old }
    ensures out_after { out.new ≡ copy_of line.now out.old }
{
    if out.len() < line.len() {
        return 0;
    }
    out[..line.len()].copy_from_slice(line);
    line.len()
}

// Copies a line of the frame, or of the leader where its segment is missing, and answers how many counts these are.
#[tactic(auto, using(crate::proofs::Lending::good_long, crate::proofs::Lending::lent_line, crate::proofs::Lending::none_copied), unfolding(crate::specs::Strips::line_c))]
pub fn hsd_line<'a>(
    slate: HsdSlate,
    marks: &[u8],
    frame: &'a [u16],
    leader: &'a [u16],
    line: u16,
    out: &mut [u16],
) -> usize
    ensures value { result ≡ copied_of (line_c slate marks.now frame.now leader.now line) out.old }
    ensures out_after { out.new ≡ copy_of (line_c slate marks.now frame.now leader.now line) out.old }
{
    match slate_of(slate, good_marks(marks)) {
        Ok(slate) => copy(
            frame::line_of(slate, record_of(marks), frame, leader, Line(line)),
            out,
        ),
        Err(_) => 0,
    }
}

// refusal, block and offset are the slate's or the file's, and else 0. part is the first in which the two differ, and slate and file what each says of it; 0 where
// there is none.
#[repr(C)]
#[derive(Clone, Copy, Default)]
pub struct HsdWhy {
    pub refusal: u8,
    pub block: u8,
    // 1 satellite, 2 day, 3 timeline, 4 band, 5 area, 6 columns, 7 segment total, 8 lines, 9 first line
    pub part: u8,
    pub offset: u32,
    pub slate: u64,
    pub file: u64,
}

impl From<Result<Option<Difference>, Refusal>> for HsdWhy {
    ghost use Rattle.rules.specs.Rules.{paper_reply};
    ghost use Rattle.plugin_frames.specs.Reasons.{shown_reason};

    #[tactic(auto, unfolding(crate::specs::Reasons::shown_reason))]
    fn from(reason: Result<Option<Difference>, Refusal>) -> HsdWhy
        ensures { result ≡ shown_reason (paper_reply reason) }
    {
        match reason {
            Ok(None) => HsdWhy::default(),
            Ok(Some(d)) => HsdWhy {
                part: d.part as u8,
                slate: d.slate,
                file: d.file,
                ..HsdWhy::default()
            },
            Err(t) => HsdWhy {
                refusal: rules::number_of(t.why),
                block: t.block,
                offset: t.offset,
                ..HsdWhy::default()
            },
        }
    }
}

// Why a file is not a segment of the slate's frame: what is wrong with either, or the first part in which they differ.
#[tactic(auto, using(crate::proofs::Lending::lent_why))]
pub fn hsd_why(slate: HsdSlate, file: &[u8]) -> HsdWhy
    ensures { result ≡ shown_reason (reason_of (slate_in slate) file.now) }
{
    match slate_of(slate, true) {
        Ok(slate) => HsdWhy::from(slate.why(file)),
        Err(t) => HsdWhy::from(Err(t)),
    }
}
