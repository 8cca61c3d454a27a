#![tactic(auto)]
// Reels: whole files end to end, and then a trailer that points back.
ghost use Rattle.std.specs.Prelude.{◌≡◌, ◌+◌, ◌*◌, ◌≤◌, ◌<◌, true, length};
ghost use Rattle.wire.specs.Wire.{store};
ghost use Rattle.rules.specs.Rules.{paper, paper_reply, fine, judge};
ghost use Rattle.reel.specs.Ends.{big, most, ending, count_of, trailer_at, good_end};
ghost use Rattle.reel.specs.Reels.{entries, trailer_of, trailer_length, reel_of, tiled, sound, part, parts_from, filed, opening, opened, entry_in, entry_at, place_of, file_of};
ghost use Rattle.reel.specs.Writing.{sum_of, listed, good_list, writing, wrote, written};

use rules::{Refusal, Why};

// Where a file stands in a reel.
#[derive(Clone, Copy)]
pub struct Place {
    pub offset: u32,
    pub length: u32,
}

#[tactic(auto, using(wire::proofs::Numbers::num_byte), unfolding(crate::specs::Ends::count_of))]
fn files_in(s: &[u8]) -> u16
    ensures { result ≡ count_of s.now }
{
    u16::from(wire::byte_at(s, s.len().saturating_sub(9)))
}

#[tactic(auto, unfolding(crate::specs::Ends::trailer_at))]
fn trailer_at(s: &[u8]) -> u32
    ensures { result ≡ trailer_at s.now }
{
    wire::number_at(s, s.len().saturating_sub(8), 0)
}

#[tactic(auto, unfolding(crate::specs::Ends::good_end))]
fn good_end(s: &[u8]) -> bool
    ensures { result ≡ good_end s.now }
{
    wire::same(wire::rest(s, s.len().saturating_sub(4)), b"REEL") & (1 <= files_in(s))
}

// What stands in the entry at a place.
fn entry_in(s: &[u8], e: usize) -> Place
    requires { e ≤ 281474976710656 }
    ensures { result ≡ entry_in s.now e }
{
    Place {
        offset: wire::number_at(s, e, 0),
        length: wire::number_at(s, e + 4, 0),
    }
}

// Each entry begins where the one before ended, and the last ends where the trailer begins.
#[tactic(auto, using(crate::proofs::Steps::tiling))]
fn is_tiled(s: &[u8], to: u32, n: u16) -> bool
    ensures { result ≡ tiled s.now to to 0 n }
{
    let mut from = 0;
    for k in 0..n {
        let p = entry_in(s, to as usize + 8 * usize::from(k));
        if p.offset as usize != from {
            return false;
        }
        from += p.length as usize;
    }
    from == to as usize
}

#[tactic(auto, using(crate::proofs::Ends::length_ending), unfolding(crate::specs::Reels::sound))]
fn is_sound(s: &[u8]) -> bool
    ensures { result ≡ sound s.now }
{
    let n = files_in(s);
    let to = trailer_at(s);
    let size = to as usize + 8 * usize::from(n) + 9;
    (s.len() < 4294967296) & good_end(s) & (size == s.len()) & is_tiled(s, to, n)
}

// What the entry at a place points to.
fn part_at(s: &[u8], e: usize) -> &[u8]
    requires { e ≤ 281474976710656 }
    ensures { result.now ≡ part s.now e }
{
    let p = entry_in(s, e);
    wire::piece(s, p.offset as usize, p.length as usize)
}

#[tactic(auto, using(crate::proofs::Steps::filing))]
fn check_parts(s: &[u8], to: u32, n: u16) -> Result<(), Refusal>
    ensures { paper result ≡ judge fine (filed (parts_from s.now to n)) }
{
    for k in 0..n {
        accept::check_file(part_at(s, to as usize + 8 * usize::from(k)))?;
    }
    Ok(())
}

// Every check of a reel.
#[tactic(auto, using(rules::proofs::Judge::judging), unfolding(crate::specs::Reels::opening))]
pub fn check_reel(s: &[u8]) -> Result<(), Refusal>
    ensures { paper result ≡ judge fine (opening s.now) }
{
    rules::require(is_sound(s), Why::Reel, 0, 0)?;
    check_parts(s, trailer_at(s), files_in(s))
}

// Opens a reel: how many files it has, or why it is turned away.
#[tactic(auto, unfolding(crate::specs::Reels::opened))]
pub fn open(s: &[u8]) -> Result<u16, Refusal>
    ensures { paper_reply result ≡ opened s.now }
{
    check_reel(s)?;
    Ok(files_in(s))
}

// Where entry k stands.
fn entry_at(s: &[u8], k: u16) -> usize
    ensures { (result ≡ entry_at s.now k) × (result ≤ 4295491584) }
{
    trailer_at(s) as usize + 8 * usize::from(k).saturating_sub(1)
}

// Where the file of a number stands, from 1 on: what its entry says, if both lie in the reel, and else zeros, as `place_of` of specs/ and C have it.
#[tactic(auto, using(crate::proofs::Ends::length_ending), unfolding(crate::specs::Reels::place_of, crate::specs::Reels::lies))]
pub fn place_of(s: &[u8], k: u16) -> Place
    ensures { result ≡ place_of s.now k }
{
    let e = entry_at(s, k);
    let p = entry_in(s, e);
    let to = p.offset as usize + p.length as usize;
    if (1 <= k) & (k <= files_in(s)) & (e + 8 + 9 <= s.len()) & (to <= s.len()) {
        p
    } else {
        Place {
            offset: 0,
            length: 0,
        }
    }
}

// Its bytes, or none.
#[tactic(auto, unfolding(crate::specs::Reels::file_of))]
pub fn file_of(s: &[u8], k: u16) -> &[u8]
    ensures { result.now ≡ file_of s.now k }
{
    let p = place_of(s, k);
    wire::piece(s, p.offset as usize, p.length as usize)
}

// ---- writing

// How long the trailer of so many files is, or 0 where no reel has so many, as `trailer_length` of specs/ and C have it.
#[tactic(auto, using(crate::proofs::Ends::length_ending), unfolding(crate::specs::Reels::trailer_length))]
pub fn trailer_length(n: usize) -> usize
    ensures { result ≡ trailer_length n }
{
    if (1..=255).contains(&n) { 8 * n + 9 } else { 0 }
}

#[tactic(auto, using(crate::proofs::Writing::summing))]
fn sum_of(lengths: &[u32]) -> usize
    requires { length lengths.now ≤ 65535 }
    ensures { (result ≡ sum_of lengths.now) × (result ≤ 281474976710656) }
{
    let mut sum = 0;
    for n in lengths {
        sum += *n as usize;
    }
    sum
}

// Whether files of these lengths have a reel. Nothing is added up before their number is known to be small.
#[tactic(auto, using(crate::proofs::Writing::listing))]
fn good_list(files: &[u8], lengths: &[u32]) -> bool
    ensures { result ≡ good_list files.now lengths.now }
{
    let t = trailer_length(lengths.len());
    if t == 0 {
        return false;
    }
    if sum_of(lengths) != files.len() {
        return false;
    }
    files.len() + t < 4294967296
}

// The checks of the files, one after the other.
#[tactic(auto, using(crate::proofs::Writing::cutting))]
fn check_cut(files: &[u8], lengths: &[u32]) -> Result<(), Refusal>
    requires { sum_of lengths.now ≡ length files.now }
    ensures { paper result ≡ judge fine (filed (listed files.now lengths.now)) }
{
    let mut at = 0;
    for n in lengths {
        accept::check_file(wire::piece(files, at, *n as usize))?;
        at += *n as usize;
    }
    Ok(())
}

// Every check of what is to be written, where the trailer follows `at` bytes.
#[tactic(auto, using(crate::proofs::Writing::checking), unfolding(crate::specs::Writing::writing))]
fn check_list(files: &[u8], lengths: &[u32], at: usize, room: usize) -> Result<(), Refusal>
    requires { at ≤ length files.now }
    ensures { paper result ≡ judge fine (writing files.now lengths.now (at + trailer_length (length lengths.now)) room) }
{
    rules::require(good_list(files, lengths), Why::Reel, 0, 0)?;
    check_cut(files, lengths)?;
    let need = at + trailer_length(lengths.len());
    rules::require(need <= room, Why::Room, 0, 0)
}

// Stores the entries of files of these lengths.
#[tactic(auto, using(crate::proofs::Writing::storing))]
fn put_entries(out: &mut [u8], at: usize, lengths: &[u32])
    requires { (length lengths.now ≤ 65535) × (at ≤ big) × (sum_of lengths.now < big) }
    ensures { out.new ≡ store out.old at (entries 0 lengths.now) }
{
    let mut from: u32 = 0;
    for (i, n) in lengths.iter().enumerate() {
        let e = at + 8 * i;
        wire::put_number(out, e, from, 0);
        wire::put_number(out, e + 4, *n, 0);
        from += *n;
    }
}

// Stores a reel's end.
fn put_ending(out: &mut [u8], at: usize, n: u16, to: u32)
    requires { (n ≤ most) × (at ≤ 281474976710656) }
    ensures { out.new ≡ store out.old at (ending n to) }
{
    wire::put_byte(out, at, n as u8);
    wire::put_number(out, at + 1, to, 0);
    wire::put_bytes(out, at + 1 + 4, *b"REEL");
}

// Stores the trailer of a good list from a place on.
#[tactic(auto, using(crate::proofs::Writing::trailing))]
fn put_trailer(out: &mut [u8], at: usize, files: &[u8], lengths: &[u32])
    requires { (at ≤ big) × (good_list files.now lengths.now ≡ true) }
    ensures { out.new ≡ store out.old at (trailer_of (listed files.now lengths.now)) }
{
    let n = lengths.len();
    put_entries(out, at, lengths);
    put_ending(out, at + 8 * n, n as u16, files.len() as u32);
}

// Writes the reel of files that stand end to end, with a slice of their lengths as C lends them, or says why not and leaves every byte as it was.
#[tactic(auto, using(crate::proofs::Writing::outcomes))]
pub fn write(files: &[u8], lengths: &[u32], out: &mut [u8]) -> Result<(), Refusal>
    ensures result_value { paper result ≡ wrote files.now lengths.now (reel_of (listed files.now lengths.now)) out.old }
    ensures out_after { out.new ≡ written files.now lengths.now (reel_of (listed files.now lengths.now)) out.old }
{
    check_list(files, lengths, files.len(), out.len())?;
    wire::put(out, 0, files);
    put_trailer(out, files.len(), files, lengths);
    Ok(())
}

// The same with the trailer alone, for a caller that has the files where the reel is to be.
#[tactic(auto, using(crate::proofs::Writing::outcomes))]
pub fn seal(files: &[u8], lengths: &[u32], out: &mut [u8]) -> Result<(), Refusal>
    ensures result_value { paper result ≡ wrote files.now lengths.now (trailer_of (listed files.now lengths.now)) out.old }
    ensures out_after { out.new ≡ written files.now lengths.now (trailer_of (listed files.now lengths.now)) out.old }
{
    check_list(files, lengths, 0, out.len())?;
    put_trailer(out, 0, files, lengths);
    Ok(())
}
