//! What a server's totals say to who audits them.
ghost use Rattle.std.specs.Prelude.{◌≡◌, ℕ, ◌+◌, ◌<◌, length, sum_by, codes};
ghost use Rattle.sd_model_shard.specs.History.{state_after, dropped_in};
ghost use Rattle.sd_law_shard.specs.Sums.{taken_in};
ghost use Rattle.sd_model_serve.specs.Sessions.{asked_by};
ghost use Rattle.sd_model_serve.specs.Receiving.{summed_in, events_in};
ghost use Rattle.sd_model_serve.specs.Rounds.{AreAccounted, Ran};
ghost use Rattle.sd_session.specs.Commands.{AreCommands};
ghost use Rattle.sd_model_run.specs.Run.{ServerTrace, RunSettings, brought_in, rounds_in, Objects, ServerTheorem};
ghost use Rattle.sd_model_settings.specs.Settings as file;
ghost use Rattle.sd_model_shard.specs.Shard.{last_number};
ghost use Rattle.sd_model_record.specs.Totals.{number_in};
ghost use Rattle.sd_model_call.specs.Server.{run_totals, run_settings_of};

use sd_outside::Clock;

/// What adds up in each run of a server, of which each shard has its one history. The samples that its shards took and dropped are
/// the good samples that its receivers and its reader of lines read; and those that were taken were flushed, deleted, or are held.
pub fn runs_add_up()
    ensures samples { (run_settings : RunSettings) (c : ServerTrace) → 0 < run_settings.form.shards
        → ((i : ℕ) → i < run_settings.form.shards → Ran run_settings.limits run_settings.policy run_settings.form.shards (brought_in c) (rounds_in c) (asked_by c.dialogues) i (c.histories i))
        → AreCommands (events_in (asked_by c.dialogues))
        → summed_in taken_in run_settings.form.shards c.histories + summed_in dropped_in run_settings.form.shards c.histories ≡ sum_by length (brought_in c) }
    ensures taken { (run_settings : RunSettings) (c : ServerTrace) (i : ℕ) → i < run_settings.form.shards
        → AreAccounted run_settings.limits run_settings.policy run_settings.form c.histories (rounds_in c)
        → (state_after run_settings.limits run_settings.policy (c.histories i)).taken
        ≡ (state_after run_settings.limits run_settings.policy (c.histories i)).flushed + (state_after run_settings.limits run_settings.policy (c.histories i)).deleted
        + (state_after run_settings.limits run_settings.policy (c.histories i)).held }
{}

/// The totals of a run for which the accounting theorem holds add up. The samples that were taken are those that were flushed, deleted
/// and are held; and where fewer than 2^63 good samples were read, those that were taken and dropped are just these.
pub fn served_totals_add_up<T: Clock>(clock: &T)
    ensures kept { (s : file.Settings) (c : ServerTrace) (old new : Objects) → ServerTheorem (run_settings_of s) (T.may_say clock.now) c old new
        → number_in (run_totals s c) (codes "taken")
        ≡ number_in (run_totals s c) (codes "flushed") + number_in (run_totals s c) (codes "deleted") + number_in (run_totals s c) (codes "held") }
    ensures read { (s : file.Settings) (c : ServerTrace) (old new : Objects) → ServerTheorem (run_settings_of s) (T.may_say clock.now) c old new
        → 0 < s.sizes.shards → sum_by length (brought_in c) < last_number
        → number_in (run_totals s c) (codes "taken") + number_in (run_totals s c) (codes "dropped") ≡ sum_by length (brought_in c) }
{}
