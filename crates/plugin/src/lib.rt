#![tactic(auto)]
// What the compositors' plug-in calls from C, by way of `panulimbe`, thin over the proved library.
ghost use Rattle.std.specs.Prelude.{◌≡◌};
ghost use Rattle.accept.specs.Answers.{answer_of};
ghost use Rattle.calendar.specs.Dates.{day_of};
ghost use Rattle.calendar.specs.Shots.{film_frame_of};
ghost use Rattle.reading.specs.Counts.{reading_of};
ghost use Rattle.reading.specs.Quality.{marks_of};
ghost use Rattle.format.specs.Bands.{band_of};
ghost use Rattle.format.specs.Names.{day_or_0};
ghost use Rattle.plugin.specs.Plugin.{shown_file, calibrated, calibration_c, shown_reading, shown_mark, shown_marks, shown_frame};

use accept::Facts;
use reading::{Calibration, Mark, Marks, Reading};
use rules::Refusal;

// refusal is 0 where nothing is wrong.
#[repr(C)]
#[derive(Clone, Copy, Default)]
pub struct HsdAnswer {
    pub refusal: u8,
    pub block: u8,
    // of a file's refusal: where the field at fault stands, from the file's first byte
    pub offset: u32,
}

// A verdict in numbers.
impl From<Result<(), Refusal>> for HsdAnswer {
    ghost use Rattle.rules.specs.Rules.{paper};
    ghost use Rattle.plugin.specs.Plugin.{shown_ruling};

    #[tactic(auto, unfolding(crate::specs::Plugin::shown_ruling))]
    fn from(verdict: Result<(), Refusal>) -> HsdAnswer
        ensures { result ≡ shown_ruling (paper verdict) }
    {
        match verdict {
            Ok(()) => HsdAnswer::default(),
            Err(t) => HsdAnswer {
                refusal: rules::number_of(t.why),
                block: t.block,
                offset: t.offset,
            },
        }
    }
}

// refusal, block and offset are 0 for an accepted file, and everything else is 0 for a refused one.
#[repr(C)]
#[derive(Clone, Copy, Default)]
pub struct HsdFile {
    pub refusal: u8,
    pub block: u8,
    // 8 or 9
    pub satellite: u8,
    // quality flag 1
    pub quality: u8,
    // of a refusal
    pub offset: u32,
    pub day: u32,
    pub timeline: u16,
    pub band: u16,
    // the four letters, the first one highest
    pub area: u32,
    pub columns: u16,
    pub lines: u16,
    pub number: u8,
    pub total: u8,
    pub first_line: u16,
    pub valid_bits: u16,
    // 0 little-endian, 1 big-endian
    pub order: u8,
    pub header_length: u32,
    pub gain: f64,
    pub constant: f64,
}

impl From<Result<Facts, Refusal>> for HsdFile {
    ghost use Rattle.rules.specs.Rules.{paper_reply};
    ghost use Rattle.plugin.specs.Plugin.{shown_file};

    #[tactic(auto, unfolding(crate::specs::Plugin::shown_file))]
    fn from(answer: Result<Facts, Refusal>) -> HsdFile
        ensures { result ≡ shown_file (paper_reply answer) }
    {
        match answer {
            Ok(f) => {
                let cal = accept::calibration(f);
                HsdFile {
                    refusal: 0,
                    block: 0,
                    satellite: f.satellite,
                    quality: f.quality,
                    offset: 0,
                    day: f.day,
                    timeline: f.timeline,
                    band: f.band,
                    area: f.area,
                    columns: f.columns,
                    lines: f.lines,
                    number: f.number,
                    total: f.total,
                    first_line: f.first,
                    valid_bits: cal.bits,
                    order: f.order,
                    header_length: f.header,
                    gain: cal.gain,
                    constant: cal.constant,
                }
            }
            Err(refusal) => HsdFile {
                refusal: rules::number_of(refusal.why),
                block: refusal.block,
                offset: refusal.offset,
                ..HsdFile::default()
            },
        }
    }
}

pub fn hsd_accept(file: &[u8]) -> HsdFile
    ensures { result ≡ shown_file (answer_of file.now) }
{
    HsdFile::from(accept::accept(file))
}

// kind: 0 radiance, 1 error pixel, 2 outside, 3 over range, 4 uncalibrated. radiance is 0 for every kind but 0.
#[repr(C)]
#[derive(Clone, Copy)]
pub struct HsdReading {
    pub radiance: f64,
    pub kind: u8,
}

// The kinds by the numbers that hsd.h has for them.
impl From<Reading> for HsdReading {
    ghost use Rattle.plugin.specs.Plugin.{shown_reading};

    fn from(reading: Reading) -> HsdReading
        ensures { result ≡ shown_reading reading }
    {
        let kind = match reading {
            Reading::Radiance(radiance) => return HsdReading { radiance, kind: 0 },
            Reading::ErrorPixel => 1,
            Reading::Outside => 2,
            Reading::OverRange => 3,
            Reading::Uncalibrated => 4,
        };
        HsdReading {
            radiance: 0.0,
            kind,
        }
    }
}

pub fn hsd_read_count(gain: f64, constant: f64, bits: u16, count: u16) -> HsdReading
    ensures { result ≡ shown_reading (reading_of (calibrated gain constant bits) count) }
{
    HsdReading::from(reading::read(
        Calibration {
            gain,
            constant,
            bits,
        },
        count,
    ))
}

// The reading of a count by the file that it stands in: gain, constant and valid bits travel together.
pub fn hsd_reading(file: HsdFile, count: u16) -> HsdReading
    ensures { result ≡ shown_reading (reading_of (calibration_c file) count) }
{
    hsd_read_count(file.gain, file.constant, file.valid_bits, count)
}

// The marks of quality flag 1, each 0 no, 1 yes or 2 not known.
#[repr(C)]
#[derive(Clone, Copy)]
pub struct HsdQuality {
    pub invalid: u8,
    pub sun: u8,
    pub moon: u8,
    pub test: u8,
    pub manoeuvre: u8,
    pub unloading: u8,
    pub solar_calibration: u8,
    pub eclipse: u8,
}

impl From<Marks> for HsdQuality {
    ghost use Rattle.plugin.specs.Plugin.{shown_marks};

    #[tactic(auto, unfolding(crate::specs::Plugin::shown_marks))]
    fn from(marks: Marks) -> HsdQuality
        ensures { result ≡ shown_marks marks }
    {
        HsdQuality {
            invalid: shown_mark(marks.invalid),
            sun: shown_mark(marks.sun),
            moon: shown_mark(marks.moon),
            test: shown_mark(marks.test),
            manoeuvre: shown_mark(marks.manoeuvre),
            unloading: shown_mark(marks.unloading),
            solar_calibration: shown_mark(marks.solar_calibration),
            eclipse: shown_mark(marks.eclipse),
        }
    }
}

// A function of its own: with eight casts in one goal the search gave up.
fn shown_mark(mark: Mark) -> u8
    ensures { result ≡ shown_mark mark }
{
    mark as u8
}

pub fn hsd_quality(quality: u8) -> HsdQuality
    ensures { result ≡ shown_marks (marks_of quality) }
{
    HsdQuality::from(reading::marks_of(quality))
}

// refusal is 0 for a number, and number is 0 for a refusal.
#[repr(C)]
#[derive(Clone, Copy, Default)]
pub struct HsdFrameNumber {
    pub refusal: u8,
    pub block: u8,
    pub offset: u32,
    pub number: i64,
}

impl From<Result<i64, Refusal>> for HsdFrameNumber {
    ghost use Rattle.rules.specs.Rules.{paper_reply};
    ghost use Rattle.plugin.specs.Plugin.{shown_frame};

    #[tactic(auto, unfolding(crate::specs::Plugin::shown_frame))]
    fn from(frame: Result<i64, Refusal>) -> HsdFrameNumber
        ensures { result ≡ shown_frame (paper_reply frame) }
    {
        match frame {
            Ok(number) => HsdFrameNumber {
                number,
                ..HsdFrameNumber::default()
            },
            Err(t) => HsdFrameNumber {
                refusal: rules::number_of(t.why),
                block: t.block,
                offset: t.offset,
                number: 0,
            },
        }
    }
}

pub fn hsd_frame_number(
    first_day: u32,
    first_timeline: u16,
    day: u32,
    timeline: u16,
) -> HsdFrameNumber
    ensures { result ≡ shown_frame (film_frame_of first_day first_timeline day timeline) }
{
    HsdFrameNumber::from(calendar::frame_number(first_day, first_timeline, day, timeline))
}

// The Modified Julian Day of a date, or 0 where it is not a real one of 2000 to 2099.
pub fn hsd_day(year: u16, month: u8, day: u8) -> u32
    ensures { result ≡ day_or_0 (day_of year month day) }
{
    format::day_or_0(calendar::day_of(year.into(), month.into(), day.into()))
}

// The valid bits of a band, or 0 for what is no band.
pub fn hsd_valid_bits(band: u16) -> u16
    ensures { result ≡ (band_of band).bits }
{
    format::band_of(band).bits
}
