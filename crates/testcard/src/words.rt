// The program's arguments, each as the value that it must be. A word that is none becomes a value that the writer refuses.
ghost use Rattle.std.specs.Prelude.{◌≡◌, ◌≤◌, min, length};
ghost use Rattle.testcard.specs.Words.{longer_by, number_of, pluses_in, ahead_of, behind_of};

use std::env::FillError;
use std::rt::Env;

// What was asked for, but for the lines.
#[derive(Clone, Copy)]
pub struct Asked {
    pub satellite: u16,
    pub date: [u8; 8],
    pub timeline: u16,
    pub band: u16,
    pub area: [u8; 4],
    pub columns: u16,
    pub number: u8,
    pub total: u8,
    pub order: u8,
}

// No range of the format reaches this number, and no digit behind it makes another of it. A number and no Option: `specs/Words` and `Cut` answer so.
pub(crate) const NONE: u16 = 65535;

const PLUS: u8 = 43;

// A number in two bytes.
pub(crate) fn short(n: u32) -> u16
    ensures { result ≡ min n 65535 }
{
    n.min(65535) as u16
}

// A number with one digit more.
fn longer(n: u16, b: u8) -> u16
    ensures { result ≡ longer_by n b }
{
    match b {
        b'0'..=b'9' => short(u32::from(n) * 10 + u32::from(b - b'0')),
        _ => NONE,
    }
}

// The number that a word spells in decimal digits.
#[tactic(auto, using(crate::proofs::Digits::digits), unfolding(crate::specs::Words::number_of))]
pub(crate) fn number_of(word: &[u8]) -> u16
    ensures { result ≡ number_of word.now }
{
    if word.is_empty() {
        return NONE;
    }
    let mut n = 0;
    for b in word {
        n = longer(n, *b);
    }
    n
}

// How many pluses a word has.
pub(crate) fn pluses(word: &[u8]) -> usize
    ensures { result ≡ pluses_in word.now }
{
    word.iter().filter(|b| **b == PLUS).count()
}

// What stands ahead of a word's first plus.
pub(crate) fn ahead(word: &[u8]) -> &[u8]
    ensures { result.now ≡ ahead_of word.now }
{
    match word.iter().position(|b| *b == PLUS) {
        Some(i) => &word[..i],
        None => word,
    }
}

// What stands behind k pluses; nothing, where there are fewer.
#[tactic(auto, using(crate::proofs::Parts::behinds))]
pub(crate) fn behind(word: &[u8], k: u8) -> &[u8]
    ensures { result.now ≡ behind_of word.now k }
{
    let mut left = k;
    for (i, b) in word.iter().enumerate() {
        if left == 0 {
            return &word[i..];
        }
        if *b == PLUS {
            left -= 1;
        }
    }
    &[]
}

// Puts an argument at the start of a buffer, and answers how many bytes it has: none where it is missing, or longer than the buffer.
pub(crate) fn arg(rt: &impl Env, i: usize, buf: &mut [u8]) -> usize
    ensures { result ≤ length buf.new }
{
    rt.arg(i, buf).unwrap_or(0)
}

fn is_there(rt: &impl Env, i: usize) -> bool {
    let mut none = [0u8; 0];
    !matches!(rt.arg(i, &mut none), Err(FillError::NotPresent))
}

// Whether there are ten arguments; the program's name is argument 0.
pub(crate) fn are_ten(rt: &impl Env) -> bool {
    is_there(rt, 10) & !is_there(rt, 11)
}

fn number(rt: &impl Env, i: usize) -> u16 {
    let mut word = [0u8; 8];
    let n = arg(rt, i, &mut word);
    number_of(&word[..n])
}

// The same in a byte; 255 is out of range where 65,535 is.
fn small_number(rt: &impl Env, i: usize) -> u8 {
    number(rt, i).min(255) as u8
}

// The letters of an argument that has so many of them.
fn letters<const N: usize>(rt: &impl Env, i: usize) -> [u8; N] {
    let mut word = [0; N];
    if arg(rt, i, &mut word) == N {
        word
    } else {
        [0; N]
    }
}

pub(crate) fn read(rt: &impl Env) -> Asked {
    Asked {
        satellite: number(rt, 1),
        date: letters(rt, 2),
        timeline: number(rt, 3),
        band: number(rt, 4),
        area: letters(rt, 5),
        columns: number(rt, 6),
        number: small_number(rt, 8),
        total: small_number(rt, 9),
        order: small_number(rt, 10),
    }
}
