#![tactic(auto)]
// Words that the programs print, as bytes: what a verdict says, a name without its blanks. Nothing here writes: the programs do.
ghost use Rattle.std.specs.Prelude.{◌≡◌};
ghost use Rattle.wire.specs.Wire.{Stored};
ghost use Rattle.rules.specs.Rules.{paper};
ghost use Rattle.say.specs.Words.{spoken, trimmed};

use rules::Refusal;

// What a verdict says, the word for what was done or the refusal, stored at the front of a lent slice; answers how many bytes that is.
#[tactic(auto, unfolding(crate::specs::Words::spoken))]
pub fn verdict(out: &mut [u8], v: Result<(), Refusal>, done: &[u8]) -> usize
    ensures { Stored result out.old 0 (spoken (paper v) done.now) out.new }
{
    match v {
        Ok(()) => {
            wire::put(out, 0, done);
            done.len()
        }
        Err(t) => listing::refusal(out, t),
    }
}

// A name without the blanks at its end.
pub fn trimmed(s: &[u8]) -> &[u8]
    ensures { result.now ≡ trimmed s.now }
{
    match s.iter().rposition(|b| *b != b' ') {
        Some(last) => &s[..=last],
        None => &[],
    }
}
