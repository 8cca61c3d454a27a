#![tactic(auto)]
// Reels for C, thin over the proved library: files end to end and their lengths, and places in bytes.
ghost use Rattle.std.specs.Prelude.{◌≡◌};
ghost use Rattle.plugin.specs.Plugin.{shown_ruling};
ghost use Rattle.reel.specs.Reels.{trailer_of, trailer_length, reel_of, opened, place_of};
ghost use Rattle.reel.specs.Writing.{listed, wrote, written};
ghost use Rattle.plugin_reels.specs.Reels.{shown_reel, shown_place};

use plugin::HsdAnswer;
use reel::Place;
use rules::Refusal;

// files is 0 for a refused reel.
#[repr(C)]
#[derive(Clone, Copy, Default)]
pub struct HsdReel {
    pub refusal: u8,
    pub block: u8,
    pub files: u16,
    // of a file's refusal, from that file's first byte
    pub offset: u32,
}

impl From<Result<u16, Refusal>> for HsdReel {
    ghost use Rattle.rules.specs.Rules.{paper_reply};
    ghost use Rattle.plugin_reels.specs.Reels.{shown_reel};

    #[tactic(auto, unfolding(crate::specs::Reels::shown_reel))]
    fn from(answer: Result<u16, Refusal>) -> HsdReel
        ensures { result ≡ shown_reel (paper_reply answer) }
    {
        match answer {
            Ok(files) => HsdReel {
                files,
                ..HsdReel::default()
            },
            Err(t) => HsdReel {
                refusal: rules::number_of(t.why),
                block: t.block,
                files: 0,
                offset: t.offset,
            },
        }
    }
}

// Where a file stands in a reel, as `reel` says it; a type of its own, since C's layout is fixed here.
#[repr(C)]
#[derive(Clone, Copy)]
pub struct HsdPart {
    pub offset: u32,
    pub length: u32,
}

impl From<Place> for HsdPart {
    ghost use Rattle.plugin_reels.specs.Reels.{shown_place};

    fn from(p: Place) -> HsdPart
        ensures { result ≡ shown_place p }
    {
        HsdPart {
            offset: p.offset,
            length: p.length,
        }
    }
}

// Opens a reel.
pub fn hsd_reel_open(reel: &[u8]) -> HsdReel
    ensures { result ≡ shown_reel (opened reel.now) }
{
    HsdReel::from(reel::open(reel))
}

// Where the file of a number stands.
pub fn hsd_reel_part(reel: &[u8], number: u16) -> HsdPart
    ensures { result ≡ shown_place (place_of reel.now number) }
{
    HsdPart::from(reel::place_of(reel, number))
}

// How long a trailer is.
pub fn hsd_reel_trailer(files: usize) -> usize
    ensures { result ≡ trailer_length files }
{
    reel::trailer_length(files)
}

// Writes the reel of files that stand end to end.
pub fn hsd_reel_write(files: &[u8], lengths: &[u32], out: &mut [u8]) -> HsdAnswer
    ensures value { result ≡ shown_ruling (wrote files.now lengths.now (reel_of (listed files.now lengths.now)) out.old) }
    ensures out_after { out.new ≡ written files.now lengths.now (reel_of (listed files.now lengths.now)) out.old }
{
    HsdAnswer::from(reel::write(files, lengths, out))
}

// Writes its trailer alone.
pub fn hsd_reel_seal(files: &[u8], lengths: &[u32], out: &mut [u8]) -> HsdAnswer
    ensures value { result ≡ shown_ruling (wrote files.now lengths.now (trailer_of (listed files.now lengths.now)) out.old) }
    ensures out_after { out.new ≡ written files.now lengths.now (trailer_of (listed files.now lengths.now)) out.old }
{
    HsdAnswer::from(reel::seal(files, lengths, out))
}
