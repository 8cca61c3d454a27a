// Dates as Modified Julian Days.
use crate::told::Told;
use rules::{Refusal, Why};
use std::io;

// Year, month and day.
const DATES: [(u32, u32, u32); 24] = [
    // the paper's
    (2000, 1, 1),
    (2015, 7, 7),
    (2099, 12, 31),
    (2023, 2, 29),
    // the end of February
    (2000, 2, 29),
    (2000, 3, 1),
    (2004, 2, 29),
    (2023, 2, 28),
    (2024, 2, 29),
    (2096, 2, 29),
    (2099, 2, 29),
    // each number below and above its range
    (1999, 12, 31),
    (2100, 1, 1),
    (2015, 0, 7),
    (2015, 13, 7),
    (2015, 7, 0),
    (2015, 7, 32),
    (2015, 4, 31),
    (2015, 6, 31),
    (2015, 9, 31),
    (2015, 11, 31),
    (4294967295, 7, 7),
    (2015, 4294967295, 7),
    (2015, 7, 4294967295),
];

// A date that does not exist breaks the rule of the name, in block 1.
const NO_SUCH_DATE: Refusal = Refusal {
    why: Why::Name,
    block: 1,
    offset: 0,
};

pub(crate) fn run(rt: &impl Print) -> io::Result<()> {
    for (year, month, day) in DATES {
        let found = Told(calendar::day_of(year, month, day).ok_or(NO_SUCH_DATE));
        println!(rt; "date {year} {month} {day}: {found}")?;
    }
    Ok(())
}
