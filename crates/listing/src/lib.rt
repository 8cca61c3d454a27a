#![tactic(auto)]
// The line that the listing prints of a file: every byte of it, stored at the front of a lent buffer.
ghost use Rattle.std.specs.Prelude.{◌≡◌, ◌∷◌, ◌+◌, ◌≤◌};
ghost use Rattle.wire.specs.Wire.{Stored};
ghost use Rattle.rules.specs.Rules.{paper_of, paper_reply, says, refuses};
ghost use Rattle.listing.specs.Lines.{width, plain, shot_words, segment_words, refusal_words, line_words, Listed};

use accept::Facts;
use rules::Refusal;
use wire::Word;

// How many digits a number has.
#[tactic(auto, using(crate::proofs::Digits::widths))]
fn width_of(n: u32) -> usize
    ensures { (result ≡ width n n) × (result ≤ 10) }
{
    match n.checked_ilog10() {
        Some(power) => power as usize + 1,
        None => 1,
    }
}

// A space and a number without leading zeros; answers how many bytes these are. Here and below what would stand past the end is left out, so that
// room is shown once, for the whole line; the bounds on places are there because their sums must not wrap.
fn put_plain(out: &mut [u8], at: usize, n: u32) -> usize
    requires { at ≤ 128 }
    ensures { Stored result out.old at (plain n) out.new × (result ≤ 11) }
{
    let w = width_of(n);
    let digits = format::decimal::<10>(n);
    wire::put_byte(out, at, b' ');
    wire::put(out, at + 1, &digits[10 - w..]);
    1 + w
}

// A space and a word of N bytes.
fn put_word<const N: usize>(out: &mut [u8], at: usize, word: [u8; N])
    requires { at ≤ 128 }
    ensures { Stored (1 + N) out.old at (32 ∷ word.entry) out.new }
{
    wire::put_byte(out, at, b' ');
    wire::put_bytes(out, at + 1, word);
}

// The words of an accepted file, in two parts: which shot it is of, and which part of the shot.
fn put_shot(out: &mut [u8], at: usize, f: Facts) -> usize
    requires { at ≤ 64 }
    ensures { Stored result out.old at (shot_words f.satellite f.day f.timeline f.band f.area) out.new × (result ≤ 31) }
{
    let p = at + put_plain(out, at, u32::from(f.satellite));
    let p = p + put_plain(out, p, f.day);
    put_word(out, p, format::decimal::<4>(u32::from(f.timeline)));
    let p = p + 5;
    let p = p + put_plain(out, p, u32::from(f.band));
    put_word(out, p, f.area.to_bytes(1));
    p + 5 - at
}

fn put_segment(out: &mut [u8], at: usize, f: Facts) -> usize
    requires { at ≤ 64 }
    ensures { Stored result out.old at (segment_words f.columns f.lines f.number f.total f.first) out.new × (result ≤ 26) }
{
    let p = at + put_plain(out, at, u32::from(f.columns));
    let p = p + put_plain(out, p, u32::from(f.lines));
    let p = p + put_plain(out, p, u32::from(f.number));
    let p = p + put_plain(out, p, u32::from(f.total));
    let p = p + put_plain(out, p, u32::from(f.first));
    p - at
}

// What a refusal says, stored at the front of a lent slice; answers how many bytes that is.
pub fn refusal(out: &mut [u8], t: Refusal) -> usize
    ensures { Stored result out.old 0 (refusal_words (paper_of t)) out.new × (result ≤ 35) }
{
    wire::put_bytes(out, 0, *b"NO");
    let at = 2 + put_plain(out, 2, u32::from(rules::number_of(t.why)));
    let at = at + put_plain(out, at, u32::from(t.block));
    at + put_plain(out, at, t.offset)
}

// The line of each answer; no facts and no refusal make it longer than 64 bytes.
fn put_accepted(out: &mut [u8], f: Facts) -> usize
    ensures { Stored result out.old 0 (line_words (says f)) out.new × (result ≤ 64) }
{
    wire::put_bytes(out, 0, *b"OK");
    let at = 2 + put_shot(out, 2, f);
    let at = at + put_segment(out, at, f);
    wire::put_byte(out, at, b'\n');
    at + 1
}

fn put_refused(out: &mut [u8], t: Refusal) -> usize
    ensures { Stored result out.old 0 (line_words (refuses (paper_of t))) out.new × (result ≤ 64) }
{
    let at = refusal(out, t);
    wire::put_byte(out, at, b'\n');
    at + 1
}

fn put_answer(out: &mut [u8], answer: Result<Facts, Refusal>) -> usize
    ensures { Stored result out.old 0 (line_words (paper_reply answer)) out.new × (result ≤ 64) }
{
    match answer {
        Ok(f) => put_accepted(out, f),
        Err(t) => put_refused(out, t),
    }
}

// Stores the line of a file, and answers its length. A file of more than 65,536 bytes is not looked at.
pub fn line(file: &[u8], out: &mut [u8; 64]) -> usize
    ensures { Listed file.now out.old out.new result }
{
    let big = 65536 < file.len();
    if big {
        wire::put(out, 0, b"BIG\n");
        return 4;
    }
    put_answer(out, accept::accept(file))
}
