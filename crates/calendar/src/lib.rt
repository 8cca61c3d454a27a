#![tactic(auto)]
// Dates as Modified Julian Days, timelines, a shot's slot, and the film frame number.
mod sheet;

ghost use Rattle.std.specs.Prelude.{◌≡◌, ◌<◌, ◌≤◌};
ghost use Rattle.rules.specs.Rules.{paper, paper_reply, judge, fine};
ghost use Rattle.calendar.specs.Dates.{leap, month_length, month_start, real, paper_day, day_of};
ghost use Rattle.calendar.specs.Shots.{good_day, good_timeline, slot_at, shot, slot_of, shots, film_frame_of};

use rules::{Refusal, Why, require};

fn is_leap(year: u32) -> bool
    ensures { result ≡ leap year }
{
    year % 4 == 0 && (year % 100 != 0 || year % 400 == 0)
}

#[tactic(auto, unfolding(crate::specs::Dates::month_length))]
fn month_length(year: u32, month: u32) -> u32
    ensures { result ≡ month_length year month }
{
    match month {
        2 if is_leap(year) => 29,
        2 => 28,
        4 | 6 | 9 | 11 => 30,
        _ => 31,
    }
}

// The day on which a month begins, months counted from January 2000 as 0.
fn month_start(i: u32) -> u32
    requires { i < 1200 }
    ensures { (result ≡ month_start i) × (result ≤ 90000) }
{
    sheet::MONTH_STARTS[(i / 120) as usize][(i % 120) as usize]
}

#[tactic(auto, unfolding(crate::specs::Dates::real))]
fn is_real(year: u32, month: u32, day: u32) -> bool
    ensures { result ≡ real year month day }
{
    (2000..=2099).contains(&year)
        && (1..=12).contains(&month)
        && (1..=month_length(year, month)).contains(&day)
}

// The Modified Julian Day of a real Gregorian date of 2000 to 2099.
#[tactic(auto, using(crate::proofs::Counted::real_is), unfolding(crate::specs::Dates::day_of, crate::specs::Dates::paper_day))]
pub fn day_of(year: u32, month: u32, day: u32) -> Option<u32>
    ensures { paper_day result ≡ day_of year month day }
{
    if is_real(year, month, day) {
        Some(month_start(12 * (year - 2000) + (month - 1)) + (day - 1))
    } else {
        None
    }
}

// Whether a day is one of 2000-01-01 to 2099-12-31.
pub fn good_day(day: u32) -> bool
    ensures { result ≡ good_day day }
{
    (51544..=88068).contains(&day)
}

// Whether a timeline is a time of day, hhmm, by tens of minutes.
pub fn good_timeline(timeline: u16) -> bool
    ensures { result ≡ good_timeline timeline }
{
    timeline / 100 <= 23 && matches!(timeline % 100, 0 | 10 | 20 | 30 | 40 | 50)
}

#[tactic(auto, unfolding(crate::specs::Shots::slot_at))]
fn slot_at(day: u32, timeline: u16) -> u64
    ensures { result ≡ slot_at day timeline }
{
    let hour = u64::from(timeline / 100);
    let minute = u64::from(timeline % 100);
    u64::from(day) * 144 + hour * 6 + minute / 10
}

#[tactic(auto, unfolding(crate::specs::Shots::shot))]
fn check_shot(day: u32, timeline: u16) -> Result<(), Refusal>
    ensures { paper result ≡ judge fine (shot day timeline) }
{
    require(good_day(day), Why::Day, 0, 0)?;
    require(good_timeline(timeline), Why::Timeline, 0, 0)
}

// A shot's slot: how many times ten minutes it lies after the day numbered 0.
#[tactic(auto, unfolding(crate::specs::Shots::slot_of))]
pub fn slot(day: u32, timeline: u16) -> Result<u64, Refusal>
    ensures { paper_reply result ≡ slot_of day timeline }
{
    check_shot(day, timeline)?;
    Ok(slot_at(day, timeline))
}

#[tactic(auto, unfolding(crate::specs::Shots::shots))]
fn check_shots(first_day: u32, first_timeline: u16, day: u32, timeline: u16) -> Result<(), Refusal>
    ensures { paper result ≡ judge fine (shots first_day first_timeline day timeline) }
{
    require(good_day(first_day), Why::Day, 0, 0)?;
    require(good_day(day), Why::Day, 0, 0)?;
    require(good_timeline(first_timeline), Why::Timeline, 0, 0)?;
    require(good_timeline(timeline), Why::Timeline, 0, 0)
}

// A shot's number on the film, counted from the first shot: its slot minus the first shot's, negative if it is earlier.
#[tactic(auto, unfolding(crate::specs::Shots::film_frame_of, crate::specs::Shots::slot_at))]
pub fn frame_number(
    first_day: u32,
    first_timeline: u16,
    day: u32,
    timeline: u16,
) -> Result<i64, Refusal>
    ensures { paper_reply result ≡ film_frame_of first_day first_timeline day timeline }
{
    check_shots(first_day, first_timeline, day, timeline)?;
    let first = slot_at(first_day, first_timeline);
    let this = slot_at(day, timeline);
    Ok(this as i64 - first as i64)
}
