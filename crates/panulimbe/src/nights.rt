// Night totals.
ghost use Rattle.std.specs.Prelude.{◌≡◌};
ghost use Rattle.night.specs.Runs.{added, run_after, extra_after};
ghost use Rattle.plugin_night.specs.Night.{run_in, shown_night};

use plugin_night::{HsdNight, HsdRun};

// Adds a file to a run.
#[unsafe(no_mangle)]
pub extern "C" fn hsd_night_add(run: HsdRun, file: &[u8]) -> HsdNight
    ensures { result ≡ shown_night (added (run_in run) file.now) (extra_after (run_in run) file.now) (run_after (run_in run) file.now) }
{
    plugin_night::hsd_night_add(run, file)
}
