ghost use Rattle.std.specs.Prelude.{◌≡◌, ℕ, ◌<◌, List, map};
ghost use Rattle.sd_model_shard.specs.Shard.{Limits, Policy};
ghost use Rattle.sd_model_shard.specs.History.{History, Legal, tables};
ghost use Rattle.sd_model_serve.specs.Rounds.{AreAccounted, RecordForm, Round};

/// Histories that are legal, and hand out the tables of rounds, account for all samples, and the records of the rounds are
/// documented.
pub fn histories_account()
    ensures { (limits : Limits) (policy : Policy) (form : RecordForm) (histories : ℕ → History) (rounds : List Round)
        → ((i : ℕ) → i < form.shards → Legal limits policy (histories i))
        → ((i : ℕ) → i < form.shards → tables (histories i) ≡ map (λ r. r.tables i) rounds)
        → AreAccounted limits policy form histories rounds }
{}
