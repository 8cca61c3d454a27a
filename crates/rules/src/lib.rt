#![tactic(auto)]
// Refusals: why a file, a slate or a lent slice is turned away, and the check that answers with one.
ghost use Rattle.std.specs.Prelude.{◌≡◌};
ghost use Rattle.rules.specs.Rules.{number_of, turned, paper, fine, checked, placeless};

// Why something is turned away, by the paper's number of each.
#[derive(Clone, Copy, Debug, PartialEq, Eq)]
pub enum Why {
    Short = 1,
    Number = 2,
    Order = 3,
    Length = 4,
    Fixed = 5,
    Packed = 6,
    HeaderSum = 8,
    DataSum = 9,
    Name = 10,
    Cut = 11,
    Tail = 12,
    Slate = 13,
    Strip = 14,
    OtherShot = 15,
    Already = 16,
    Room = 17,
    Reel = 18,
    Run = 19,
    Satellite = 31,
    Area = 32,
    Timeline = 33,
    // columns or lines
    Size = 34,
    Compression = 35,
    Band = 36,
    Bits = 37,
    // segment numbers or first line
    Segment = 38,
    Day = 39,
}

// A refusal; the block that it concerns, 0 where it concerns none and 12 for the counts; and where the field at fault stands, from the
// file's first byte: 0 in block 0, and for values that come from no file.
#[derive(Clone, Copy, Debug, PartialEq, Eq)]
pub struct Refusal {
    pub why: Why,
    pub block: u8,
    pub offset: u32,
}

// One check: nothing is wrong, or the refusal. Checks one after the other take `?`, and the first that fails answers.
pub fn require(ok: bool, why: Why, block: u8, offset: u32) -> Result<(), Refusal>
    ensures { paper result ≡ checked fine ok (turned (number_of why) block offset) }
{
    if ok {
        Ok(())
    } else {
        Err(Refusal { why, block, offset })
    }
}

// The answer about values that come from no file: a refusal without its place.
pub fn placeless(verdict: Result<(), Refusal>) -> Result<(), Refusal>
    ensures { paper result ≡ placeless (paper verdict) }
{
    verdict.map_err(|t| Refusal { offset: 0, ..t })
}

// The paper's number of a refusal.
pub fn number_of(why: Why) -> u8
    ensures { result ≡ number_of why }
{
    why as u8
}
