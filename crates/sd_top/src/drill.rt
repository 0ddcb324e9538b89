ghost use Rattle.std.specs.Prelude.{◌≡◌, ◌<◌, ◌≤◌};
ghost use Rattle.sd_model_outside.specs.Outside.{Number, fresh};
ghost use Rattle.sd_outside.specs.CountSink.{seen_of};
ghost use Rattle.sd_script.specs.declared.drill.TheConstants.{MOST_PACKETS};
ghost use Rattle.sd_opening.specs.Answers.{answer_of};
ghost use Rattle.sd_top.specs.Replaying.{IsDrill};

use crate::ends::status_of;
use sd_admin::write_total;
use sd_config::Settings;
use sd_opening::{Status, use_named};
use sd_outside::{Back, BackendKind, CountSink, PerBackend, Sink, WriteFault};
use sd_replay::{ReplayEnd, ReplayRoom, replay};
use sd_script::Drill;
use std::alloc::Global;

/// A backend that counts its bytes, and isn't used.
fn unused_count() -> Back<CountSink>
    ensures { seen_of result.object ≡ fresh (Number 0) }
{
    Back {
        object: CountSink::new(),
        is_used: false,
    }
}

/// Executes the made script of so many packets by the settings of an empty file, and writes the totals and the number of
/// Graphite's bytes to the output.
pub(crate) fn drill<O: Sink>(alloc: Global, packets: u32, output: &mut O) -> Status
    requires some { 0 < packets }
    requires most { packets ≤ MOST_PACKETS }
    ensures { IsDrill packets (answer_of result) (O.seen output.old) (O.seen output.new) }
{
    let Ok(settings) = Settings::read(alloc, b"") else {
        return Status::OutOfMemory;
    };
    let Ok(room) = ReplayRoom::open(alloc, &settings) else {
        return Status::OutOfMemory;
    };
    let mut script = Drill::new(packets);
    let mut backs = PerBackend::from_fn(
        |_kind|
            ensures { seen_of result.object ≡ fresh (Number 0) }
        { unused_count() },
    );
    use_named(&mut backs, &settings);
    let mut wires: [CountSink; 0] = [];
    match replay(&settings, room, &mut script, output, &mut backs, &mut wires) {
        ReplayEnd::Ok(_) => {
            match write_total(
                b"bytes",
                u128::from(backs.at(BackendKind::Graphite).object.count()),
                output,
            ) {
                Ok(()) => Status::Ok,
                Err(WriteFault) => Status::WriteFault,
            }
        }
        end => status_of(end),
    }
}
