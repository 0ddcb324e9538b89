ghost use Rattle.std.specs.Prelude.{◌≡◌, ℕ, List, [], ◌++◌};
ghost use Rattle.sd_model_text.specs.Lines.{Sample};
ghost use Rattle.sd_model_shard.specs.History.{History};
ghost use Rattle.sd_model_serve.specs.Receiving.{asks};
ghost use Rattle.sd_pool.specs.Adding.{Adds};
ghost use Rattle.sd_law_run.specs.Submits.{submits};

/// Acts behind acts are acts together; and what lists of samples, and of datagrams, ask one after the other is what they ask
/// together.
pub fn acts_add_up()
    ensures none { (shards : ℕ) (own : ℕ → History) → Adds shards (λ i. []) own own }
    ensures next { (shards : ℕ) (xs ys old mid new : ℕ → History) → Adds shards xs old mid → Adds shards ys mid new
        → Adds shards (λ i. xs i ++ ys i) old new }
    ensures samples { (shards i : ℕ) (xs ys : List Sample) → asks shards i (xs ++ ys) ≡ asks shards i xs ++ asks shards i ys }
    ensures datagrams { (shards i : ℕ) (xs ys : List (List ℕ)) → submits shards i (xs ++ ys) ≡ submits shards i xs ++ submits shards i ys }
{}
