ghost use Rattle.std.specs.Prelude.{◌≡◌, ℕ, ◌<◌, List, [], length, get_or, Result};
ghost use Rattle.sd_model_text.specs.Lines.{Sample};
ghost use Rattle.sd_model_shard.specs.Shard.{Limits, Policy};
ghost use Rattle.sd_model_shard.specs.History.{History};
ghost use Rattle.sd_model_record.specs.Admin.{AdminFault, Command};
ghost use Rattle.sd_model_record.specs.Replies.{admin_events};
ghost use Rattle.sd_model_serve.specs.Rounds.{Round, swaps_at, Ran};
ghost use Rattle.sd_session.specs.Commands.{AreCommands};
ghost use Rattle.sd_pool.specs.Adding.{JoinsAs};
ghost use Rattle.sd_model_serve.specs.Receiving.{asks, events_of, Broadcast, events_in, acts_in};

/// Where the callers' own acts ask for what they brought, the history that they join as is that of the run. It is enough that
/// the administrator asks for deletions and dumps alone, as admin lines do.
pub fn callers_tell_the_run()
    ensures joined { (limits : Limits) (policy : Policy) (shards i : ℕ) (brought : List (List Sample)) (rounds : List Round) (asked : List Broadcast) (receivers : List History) (acts : History)
        → length receivers ≡ length brought
        → ((r : ℕ) → r < length receivers → events_of (get_or receivers r []) ≡ asks shards i (get_or brought r []))
        → AreCommands (events_in asked)
        → JoinsAs limits policy receivers (swaps_at rounds i) (acts_in asked i) acts
        → Ran limits policy shards brought rounds asked i acts }
    ensures lines { (answer : Result Command AdminFault) → AreCommands (admin_events answer) }
{}
