use sd_case::{Answer, Refusal, bytes_of};
use sd_config::Settings;
use sd_epoch::Limits;
use sd_replay::ReplayRoom;
use sd_run::{limits_of, policy_of};
use sd_shard::Policy;
use std::alloc::Global;

/// `room FILE`: opens all that a replay by a settings file works on, and answers its limits, and what goes when idle.
pub(crate) fn open_room(alloc: Global, file: &str, out: &mut Answer) -> Result<(), Refusal> {
    let Ok(settings) = Settings::read(alloc, &bytes_of(alloc, file)?) else {
        return Err(Refusal::Malformed);
    };
    let _room = ReplayRoom::open(alloc, &settings)?;
    show_limits(limits_of(&settings), out);
    show_policy(policy_of(&settings), out);
    Ok(())
}

fn show_limits(limits: Limits, out: &mut Answer) {
    out.count(" = ", u64::from(limits.rows));
    out.count("/", u64::from(limits.entries));
    if limits.sums_on_arrival {
        out.text("/sums");
    }
}

fn show_policy(policy: Policy, out: &mut Answer) {
    for (kind, is_deleted) in [
        (" counters ", policy.counters),
        (", timers ", policy.timers),
        (", gauges ", policy.gauges),
        (", sets ", policy.sets),
    ] {
        out.text(kind);
        out.yes_or_no(is_deleted);
    }
    out.count(", gauges at swap ", u64::from(policy.max_ttl));
}
