#![tactic(auto)]
// Night totals for C, thin over the proved library: a run by value.
ghost use Rattle.std.specs.Prelude.{◌≡◌};
ghost use Rattle.night.specs.Runs.{added, run_after, extra_after};
ghost use Rattle.plugin_night.specs.Night.{run_in, shown_night};

use night::{Added, Run};
use plugin::HsdAnswer;
use totals::Totals;

// The place in `refused` is the refusal's number.
#[repr(C)]
#[derive(Clone, Copy)]
pub struct HsdRun {
    pub radiance: u64,
    pub error: u64,
    pub outside: u64,
    pub over: u64,
    pub uncalibrated: u64,
    pub accepted: u32,
    // as hsd.h has it
    pub refused: [u32; 64],
}

// extra is 0 for a refused file; run is the newest.
#[repr(C)]
#[derive(Clone, Copy)]
pub struct HsdNight {
    pub refusal: u8,
    pub block: u8,
    pub offset: u32,
    pub extra: i64,
    pub run: HsdRun,
}

impl From<HsdRun> for Run {
    ghost use Rattle.plugin_night.specs.Night.{run_in};

    fn from(run: HsdRun) -> Run
        ensures { result ≡ run_in run }
    {
        // The borrow checker takes an array from field to field only by way of a name.
        let refused = run.refused;
        Run {
            totals: Totals {
                radiance: run.radiance,
                error: run.error,
                outside: run.outside,
                over: run.over,
                uncalibrated: run.uncalibrated,
            },
            accepted: run.accepted,
            refused,
        }
    }
}

impl From<Run> for HsdRun {
    ghost use Rattle.plugin_night.specs.Night.{run_out};

    fn from(run: Run) -> HsdRun
        ensures { result ≡ run_out run }
    {
        let t = run.totals;
        // The borrow checker takes an array from field to field only by way of a name.
        let refused = run.refused;
        HsdRun {
            radiance: t.radiance,
            error: t.error,
            outside: t.outside,
            over: t.over,
            uncalibrated: t.uncalibrated,
            accepted: run.accepted,
            refused,
        }
    }
}

impl From<Added> for HsdNight {
    ghost use Rattle.rules.specs.Rules.{paper};
    ghost use Rattle.plugin_night.specs.Night.{shown_night};

    fn from(added: Added) -> HsdNight
        ensures { result ≡ shown_night (paper added.verdict) added.extra added.run }
    {
        let answer = HsdAnswer::from(added.verdict);
        HsdNight {
            refusal: answer.refusal,
            block: answer.block,
            offset: answer.offset,
            extra: added.extra,
            run: HsdRun::from(added.run),
        }
    }
}

// Adds a file to a run.
pub fn hsd_night_add(run: HsdRun, file: &[u8]) -> HsdNight
    ensures { result ≡ shown_night (added (run_in run) file.now) (extra_after (run_in run) file.now) (run_after (run_in run) file.now) }
{
    HsdNight::from(night::add(Run::from(run), file))
}
