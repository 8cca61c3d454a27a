#![tactic(auto)]
// A night's run of files: how many counts of the accepted ones read as each kind, and how many files were refused, by refusal.
ghost use Rattle.std.specs.Prelude.{◌≡◌, ◌≤◌, ◌<◌, get_or, leb};
ghost use Rattle.std.specs.List.{list_all};
ghost use Rattle.rules.specs.Rules.{paper};
ghost use Rattle.night.specs.Runs.{empty_run, held_by, open_run, added, Room, with_totals, with_refusal, run_after, extra_after};

use rules::{Refusal, Why};
use totals::Totals;

// What a run holds; the place in `refused` is the refusal's number.
#[derive(Clone, Copy)]
pub struct Run {
    pub totals: Totals,
    pub accepted: u32,
    // an array: a run goes by value, and there is no heap
    pub refused: [u32; 64],
}

// A verdict, the error pixels found less those listed, and the run that is now the newest. A struct, and no Result: `run_value` says of a
// refused file, too, what the run holds now.
#[derive(Clone, Copy)]
pub struct Added {
    pub verdict: Result<(), Refusal>,
    pub extra: i64,
    pub run: Run,
}

// With no file.
#[tactic(auto, unfolding(crate::specs::Runs::empty_run))]
pub fn empty() -> Run
    ensures { result ≡ empty_run }
{
    Run {
        totals: Totals::default(),
        accepted: 0,
        refused: [0; 64],
    }
}

// How many files a run holds.
#[tactic(auto, using(crate::proofs::Running::holding))]
fn held_by(run: Run) -> u64
    ensures { result ≡ held_by run }
{
    let mut held = u64::from(run.accepted);
    for n in &run.refused {
        held += u64::from(*n);
    }
    held
}

// No refusal's number is above 4,096.
fn small_refused(run: Run) -> bool
    ensures { result ≡ list_all (λ n. leb n 4096) run.refused }
{
    run.refused.iter().all(|n| *n <= 4096)
}

// Within its limits; else RUN.
#[tactic(auto, using(crate::proofs::Running::small_all), unfolding(crate::specs::Runs::open_run))]
fn open_run(run: Run) -> bool
    ensures { result ≡ open_run run }
{
    let t = run.totals;
    !(4096 <= held_by(run))
        & !(1982464000000 < t.radiance)
        & !(1982464000000 < t.error)
        & !(1982464000000 < t.outside)
        & !(1982464000000 < t.over)
        & !(1982464000000 < t.uncalibrated)
        & small_refused(run)
}

// RUN first of all, and then the file's own checks.
#[tactic(auto, using(rules::proofs::Judge::judging), unfolding(crate::specs::Runs::opening, crate::specs::Runs::adding))]
fn judge(run: Run, file: &[u8]) -> Result<(), Refusal>
    ensures { paper result ≡ added run file.now }
{
    rules::require(open_run(run), Why::Run, 0, 0)?;
    accept::check_file(file)
}

// Only that refusal's number grows, and RUN keeps all.
#[tactic(auto, unfolding(crate::specs::Runs::with_refusal))]
fn turned_away(run: Run, number: u8) -> Run
    requires { (number < 64) × ((number ≡ 19 → ⊥) → get_or run.refused number 0 ≤ 4096) }
    ensures { result ≡ with_refusal run number }
{
    if number == 19 {
        return run;
    }
    let mut next = run;
    next.refused[usize::from(number)] += 1;
    next
}

#[tactic(auto, unfolding(crate::specs::Runs::with_totals))]
fn counted(run: Run, t: Totals) -> Run
    requires { Room run t }
    ensures { result ≡ with_totals run t }
{
    let had = run.totals;
    Run {
        totals: Totals {
            radiance: had.radiance + t.radiance,
            error: had.error + t.error,
            outside: had.outside + t.outside,
            over: had.over + t.over,
            uncalibrated: had.uncalibrated + t.uncalibrated,
        },
        accepted: run.accepted + 1,
        ..run
    }
}

// Judges a file, and counts it: an accepted one by its readings, a refused one by its refusal.
#[tactic(auto, using(crate::proofs::Running::ruling), unfolding(rules::specs::Rules::after, crate::specs::Runs::extra_after, crate::specs::Runs::extra_of, crate::specs::Runs::run_after, crate::specs::Runs::ruled_run))]
pub fn add(run: Run, file: &[u8]) -> Added
    ensures verdict_value { paper result.verdict ≡ added run file.now }
    ensures extra_value { result.extra ≡ extra_after run file.now }
    ensures run_value { result.run ≡ run_after run file.now }
{
    match judge(run, file) {
        Err(t) => Added {
            verdict: Err(t),
            extra: 0,
            run: turned_away(run, rules::number_of(t.why)),
        },
        Ok(()) => {
            let t = totals::totals_of(file);
            Added {
                verdict: Ok(()),
                extra: t.error as i64 - i64::from(totals::pixels_of(file)),
                run: counted(run, t),
            }
        }
    }
}
