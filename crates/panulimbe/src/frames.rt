// Frames, and why a file is none of a slate's.
ghost use Rattle.std.specs.Prelude.{◌≡◌, length};
ghost use Rattle.slate.specs.Slates.{reason_of};
ghost use Rattle.plugin.specs.Plugin.{shown_ruling};
ghost use Rattle.plugin_frames.specs.Reasons.{shown_reason};
ghost use Rattle.plugin_frames.specs.Strips.{slate_in, opened_c, offered_c, open_marks, open_strip, offer_marks, offer_strip, line_c, copied_of, copy_of};

use plugin::HsdAnswer;
use plugin_frames::{HsdSlate, HsdWhy};

// Opens a frame: fills it with 65,534 and clears the marks, whatever they were.
#[unsafe(no_mangle)]
pub extern "C" fn hsd_open(slate: HsdSlate, marks: &mut [u8], frame: &mut [u16]) -> HsdAnswer
    ensures value { result ≡ shown_ruling (opened_c slate marks.old (length frame.old)) }
    ensures marks_after { marks.new ≡ open_marks slate marks.old (length frame.old) }
    ensures frame_after { frame.new ≡ open_strip slate marks.old frame.old }
{
    plugin_frames::hsd_open(slate, marks, frame)
}

// Offers a file: places its counts and sets its mark, or says why not.
#[unsafe(no_mangle)]
pub extern "C" fn hsd_offer(
    slate: HsdSlate,
    marks: &mut [u8],
    frame: &mut [u16],
    file: &[u8],
) -> HsdAnswer
    ensures value { result ≡ shown_ruling (offered_c slate marks.old (length frame.old) file.now) }
    ensures marks_after { marks.new ≡ offer_marks slate marks.old (length frame.old) file.now }
    ensures frame_after { frame.new ≡ offer_strip slate marks.old frame.old file.now }
{
    plugin_frames::hsd_offer(slate, marks, frame, file)
}

// Copies a line of the frame, or of the leader where its segment is missing, and answers how many counts these are.
#[unsafe(no_mangle)]
pub extern "C" fn hsd_line<'a>(
    slate: HsdSlate,
    marks: &[u8],
    frame: &'a [u16],
    leader: &'a [u16],
    line: u16,
    out: &mut [u16],
) -> usize
    ensures value { result ≡ copied_of (line_c slate marks.now frame.now leader.now line) out.old }
    ensures out_after { out.new ≡ copy_of (line_c slate marks.now frame.now leader.now line) out.old }
{
    plugin_frames::hsd_line(slate, marks, frame, leader, line, out)
}

// Why a file is not a segment of the slate's frame: what is wrong with either, or the first part in which they differ.
#[unsafe(no_mangle)]
pub extern "C" fn hsd_why(slate: HsdSlate, file: &[u8]) -> HsdWhy
    ensures { result ≡ shown_reason (reason_of (slate_in slate) file.now) }
{
    plugin_frames::hsd_why(slate, file)
}
