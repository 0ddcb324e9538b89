ghost use Rattle.std.specs.Prelude.{◌<◌, length};
ghost use Rattle.sd_batch.specs.Runs.{TakesRun};

use crate::counts::Counts;
use crate::run::Run;
use sd_shard::Shard;

/// Has a shard take or drop the samples of a run, one after another.
pub fn take_run(shard: &mut Shard, run: Run<'_>) -> Counts
    requires { length run < 65536 }
    ensures { TakesRun shard.old shard.new run.entry result }
{
    let mut left = run;
    let mut counts = Counts::none();
    while let Some(sample) = left.next() {
        counts.note(shard.sample(sample));
    }
    counts
}
