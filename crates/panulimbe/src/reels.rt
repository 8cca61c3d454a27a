// Reels.
ghost use Rattle.std.specs.Prelude.{◌≡◌};
ghost use Rattle.plugin.specs.Plugin.{shown_ruling};
ghost use Rattle.reel.specs.Reels.{trailer_of, trailer_length, reel_of, opened, place_of};
ghost use Rattle.reel.specs.Writing.{listed, wrote, written};
ghost use Rattle.plugin_reels.specs.Reels.{shown_reel, shown_place};

use plugin::HsdAnswer;
use plugin_reels::{HsdPart, HsdReel};

// Opens a reel.
#[unsafe(no_mangle)]
pub extern "C" fn hsd_reel_open(reel: &[u8]) -> HsdReel
    ensures { result ≡ shown_reel (opened reel.now) }
{
    plugin_reels::hsd_reel_open(reel)
}

// Where the file of a number stands.
#[unsafe(no_mangle)]
pub extern "C" fn hsd_reel_part(reel: &[u8], number: u16) -> HsdPart
    ensures { result ≡ shown_place (place_of reel.now number) }
{
    plugin_reels::hsd_reel_part(reel, number)
}

// How long a trailer is.
#[unsafe(no_mangle)]
pub extern "C" fn hsd_reel_trailer(files: usize) -> usize
    ensures { result ≡ trailer_length files }
{
    plugin_reels::hsd_reel_trailer(files)
}

// Writes the reel of files that stand end to end.
#[unsafe(no_mangle)]
pub extern "C" fn hsd_reel_write(files: &[u8], lengths: &[u32], out: &mut [u8]) -> HsdAnswer
    ensures value { result ≡ shown_ruling (wrote files.now lengths.now (reel_of (listed files.now lengths.now)) out.old) }
    ensures out_after { out.new ≡ written files.now lengths.now (reel_of (listed files.now lengths.now)) out.old }
{
    plugin_reels::hsd_reel_write(files, lengths, out)
}

// Writes its trailer alone.
#[unsafe(no_mangle)]
pub extern "C" fn hsd_reel_seal(files: &[u8], lengths: &[u32], out: &mut [u8]) -> HsdAnswer
    ensures value { result ≡ shown_ruling (wrote files.now lengths.now (trailer_of (listed files.now lengths.now)) out.old) }
    ensures out_after { out.new ≡ written files.now lengths.now (trailer_of (listed files.now lengths.now)) out.old }
{
    plugin_reels::hsd_reel_seal(files, lengths, out)
}
