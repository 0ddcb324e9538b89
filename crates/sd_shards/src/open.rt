ghost use Rattle.std.specs.Prelude.{◌≡◌, map, replicate, vec_len, IfOk};
ghost use Rattle.sd_model_shard.specs.Shard.{empty_state};
ghost use Rattle.sd_epoch.specs.Limits.{limits_of, AreLimits};
ghost use Rattle.sd_shard.specs.Policy.{policy_of};
ghost use Rattle.sd_shard.specs.Shard.{state_of};
ghost use Rattle.sd_shards.specs.Standings.{GoBy};

use sd_epoch::Limits;
use sd_shard::{Policy, Shard};
use std::alloc::{AllocError, Global};

/// So many empty shards, whose rows are found by hashes under a seed.
pub(crate) fn open_shards(
    alloc: Global,
    n: u16,
    limits: Limits,
    policy: Policy,
    seed: u64,
) -> Result<Vec<Shard>, AllocError>
    requires { AreLimits (limits_of limits) }
    ensures len { IfOk result (λ shards. vec_len shards ≡ n) }
    ensures bounds { IfOk result (λ shards. GoBy (limits_of limits) (policy_of policy) shards.items) }
    ensures states { IfOk result (λ shards. map state_of shards.items ≡ replicate n empty_state) }
{
    let mut shards = Vec::with_capacity(alloc, usize::from(n))?;
    for _i in 0..n {
        shards.push_reserved(Shard::open(alloc, limits, policy, seed)?);
    }
    Ok(shards)
}
