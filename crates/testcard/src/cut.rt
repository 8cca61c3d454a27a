// How the frame is cut into segments, by the word for the lines: one number for all of them, or a number for each, joined by pluses. A word
// that is none becomes lines that the writer refuses.
ghost use Rattle.std.specs.Prelude.{◌≡◌, ◌*◌, ◌≤◌};
ghost use Rattle.testcard.specs.Cut.{part_of, height_of, lines_to, good_cut, prior_to, lines_of, first_line_of};

use crate::words::{NONE, ahead, arg, behind, number_of, pluses, short};
use std::rt::Env;

// The lines of a segment, the first of them, and the lines of all segments.
#[derive(Clone, Copy)]
pub struct Cut {
    pub lines: u16,
    pub first: u16,
    pub all: u32,
}

// The word of the segment that has k before it; one number is every segment's.
#[tactic(auto, unfolding(crate::specs::Cut::part_of))]
fn part_of(word: &[u8], k: u8) -> &[u8]
    ensures { result.now ≡ part_of word.now k }
{
    if pluses(word) == 0 {
        return word;
    }
    ahead(behind(word, k))
}

// Its lines. A segment has one at least, so that 0 is as bad as no number.
#[tactic(auto, unfolding(crate::specs::Cut::height_of))]
fn height_of(word: &[u8], k: u8) -> u16
    ensures { result ≡ height_of word.now k }
{
    let n = number_of(part_of(word, k));
    if n == 0 { NONE } else { n }
}

// The lines of the first n segments.
#[tactic(auto, using(crate::proofs::Heights::heights))]
fn lines_to(word: &[u8], n: u8) -> u32
    ensures { (result ≡ lines_to word.now n) × (result ≤ 65535 * n) }
{
    let mut lines = 0;
    for k in 0..n {
        lines += u32::from(height_of(word, k));
    }
    lines
}

// The segments before one; a number that no segment has is the writer's to refuse.
fn prior(number: u8, total: u8) -> u8
    ensures { result ≡ prior_to number total }
{
    if number <= total {
        number.saturating_sub(1)
    } else {
        0
    }
}

// One number, which the writer judges; or a number for each segment, and 22,000 lines at most.
#[tactic(auto, unfolding(crate::specs::Cut::good_cut))]
fn is_good(word: &[u8], total: u8) -> bool
    ensures { result ≡ good_cut word.now total }
{
    let n = pluses(word);
    let as_many = n == usize::from(prior(total, total));
    (n == 0) | (as_many & (lines_to(word, total) <= 22000))
}

// The lines of a segment, and the first of them.
#[tactic(auto, unfolding(crate::specs::Cut::lines_of))]
fn lines_of(word: &[u8], number: u8, total: u8) -> u16
    ensures { result ≡ lines_of word.now number total }
{
    if is_good(word, total) {
        height_of(word, prior(number, total))
    } else {
        NONE
    }
}

#[tactic(auto, unfolding(crate::specs::Cut::first_line_of))]
fn first_of(word: &[u8], number: u8, total: u8) -> u16
    ensures { result ≡ first_line_of word.now number total }
{
    short(lines_to(word, prior(number, total)) + 1)
}

// There is room for 99 numbers of five digits; a longer word is none.
pub(crate) fn read(rt: &impl Env, number: u8, total: u8) -> Cut {
    let mut room = [0u8; 600];
    let n = arg(rt, 7, &mut room);
    let word = &room[..n];
    Cut {
        lines: lines_of(word, number, total),
        first: first_of(word, number, total),
        all: lines_to(word, total),
    }
}
