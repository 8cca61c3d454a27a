// What is wrong, in one line on standard error.
use rules::{Refusal, Why};
use std::io;

fn line(rt: &impl Eprint, what: &str) -> io::Result<()> {
    eprintln!(rt; "testcard: {what}")
}

pub(crate) fn usage(rt: &impl Eprint) -> io::Result<()> {
    line(
        rt,
        "arguments: satellite date timeline band area columns lines number total byte-order; lines are one number for all segments, or their heights joined by +",
    )
}

// The writer's refusals in the words of the arguments: there is room, and there are no entries to refuse.
pub(crate) fn refusal(rt: &impl Eprint, t: Refusal) -> io::Result<()> {
    match t.why {
        Why::Order => line(rt, "the byte order must be 0 or 1"),
        Why::Name => line(rt, "the date must be a real one of 2000 to 2099, yyyymmdd"),
        Why::Satellite => line(rt, "the satellite must be 8 or 9"),
        Why::Area => line(
            rt,
            "the area must be FLDK, JP01 to JP04, R301 to R304, R401 to R420 or R501 to R520",
        ),
        Why::Timeline => line(rt, "the timeline must be hhmm, by tens of minutes"),
        Why::Size => line(
            rt,
            "columns and lines must be 1 to 22000, and heights joined by + as many as the total, 22000 together at most",
        ),
        Why::Band => line(rt, "the band must be 1 to 16"),
        _ => line(
            rt,
            "the total must be 1 to 99, the number 1 to the total, and the last line 22000 at most",
        ),
    }
}

// Says why the segment did not go out.
pub(crate) fn unsent(rt: &impl Eprint, e: io::Error) -> io::Result<()> {
    eprintln!(rt; "testcard: standard output: {e}")
}
