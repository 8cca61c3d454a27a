// Files, counts, quality flags, days and frame numbers.
ghost use Rattle.std.specs.Prelude.{◌≡◌};
ghost use Rattle.accept.specs.Answers.{answer_of};
ghost use Rattle.calendar.specs.Dates.{day_of};
ghost use Rattle.calendar.specs.Shots.{film_frame_of};
ghost use Rattle.reading.specs.Counts.{reading_of};
ghost use Rattle.reading.specs.Quality.{marks_of};
ghost use Rattle.format.specs.Bands.{band_of};
ghost use Rattle.format.specs.Names.{day_or_0};
ghost use Rattle.plugin.specs.Plugin.{shown_file, calibrated, calibration_c, shown_reading, shown_marks, shown_frame};

use plugin::{HsdFile, HsdFrameNumber, HsdQuality, HsdReading};

#[unsafe(no_mangle)]
pub extern "C" fn hsd_accept(file: &[u8]) -> HsdFile
    ensures { result ≡ shown_file (answer_of file.now) }
{
    plugin::hsd_accept(file)
}

#[unsafe(no_mangle)]
pub extern "C" fn hsd_read_count(gain: f64, constant: f64, bits: u16, count: u16) -> HsdReading
    ensures { result ≡ shown_reading (reading_of (calibrated gain constant bits) count) }
{
    plugin::hsd_read_count(gain, constant, bits, count)
}

// The reading of a count by the file that it stands in: gain, constant and valid bits travel together.
#[unsafe(no_mangle)]
pub extern "C" fn hsd_reading(file: HsdFile, count: u16) -> HsdReading
    ensures { result ≡ shown_reading (reading_of (calibration_c file) count) }
{
    plugin::hsd_reading(file, count)
}

#[unsafe(no_mangle)]
pub extern "C" fn hsd_quality(quality: u8) -> HsdQuality
    ensures { result ≡ shown_marks (marks_of quality) }
{
    plugin::hsd_quality(quality)
}

#[unsafe(no_mangle)]
pub extern "C" fn hsd_frame_number(
    first_day: u32,
    first_timeline: u16,
    day: u32,
    timeline: u16,
) -> HsdFrameNumber
    ensures { result ≡ shown_frame (film_frame_of first_day first_timeline day timeline) }
{
    plugin::hsd_frame_number(first_day, first_timeline, day, timeline)
}

// The Modified Julian Day of a date, or 0 where it is not a real one of 2000 to 2099.
#[unsafe(no_mangle)]
pub extern "C" fn hsd_day(year: u16, month: u8, day: u8) -> u32
    ensures { result ≡ day_or_0 (day_of year month day) }
{
    plugin::hsd_day(year, month, day)
}

// The valid bits of a band, or 0 for what is no band.
#[unsafe(no_mangle)]
pub extern "C" fn hsd_valid_bits(band: u16) -> u16
    ensures { result ≡ (band_of band).bits }
{
    plugin::hsd_valid_bits(band)
}
