ghost use Rattle.std.specs.Prelude.{◌≡◌, ℕ, ◌<◌, ◌≤◌, ◌+◌, ◌*◌, [], length, map, replicate, sum_by, All, IfOk, flat_map};
ghost use Rattle.std.specs.List.Sorted.{IsSorted, IsSortedByKey};
ghost use Rattle.std.specs.Ordering.{nat_cmp};
ghost use Rattle.std.specs.Cmp.Lexicographic.{slice_cmp};
ghost use Rattle.sd_model_text.specs.Lines.{pieces, bad_of};
ghost use Rattle.sd_model_shard.specs.Shard.{Dumped, empty_state, after_swap, after_delete, deletion_of, numbers_of, table_of};
ghost use Rattle.sd_model_shard.specs.Rows.{dump_of, in_key_order};
ghost use Rattle.sd_model_shard.specs.History.{dropped_in};
ghost use Rattle.sd_model_record.specs.Replies.{keys_in, rows_in};
ghost use Rattle.sd_model_replay.specs.Script.{Packet};
ghost use Rattle.sd_model_replay.specs.Replay.{replies_to, states_after};
ghost use Rattle.sd_key.specs.Kind.{kind_of};
ghost use Rattle.sd_epoch.specs.Limits.{limits_of, AreLimits};
ghost use Rattle.sd_epoch.specs.Table.{table_of as table_seen};
ghost use Rattle.sd_shard.specs.Dump.{rows_of};
ghost use Rattle.sd_shard.specs.Policy.{policy_of};
ghost use Rattle.sd_shard.specs.Shard.{numbers_in};
ghost use Rattle.sd_record.specs.Rows.{AreDisjoint};
ghost use Rattle.sd_shards.specs.Shards.{AreAlike, group_bounds, numbers, state_at};

use crate::books::books_of;
use crate::commands::{delete_all, dump_all};
use crate::in_hand::InHand;
use crate::open::open_shards;
use crate::swap::swap_all;
use sd_batch::{Batch, Filed, file_datagram};
use sd_epoch::{Limits, Table, Who};
use sd_key::{Kind, Pattern};
use sd_shard::{Books, Dump, Keys, Policy, Shard, Spares};
use std::alloc::{AllocError, Global};
use std::marker::Model;

// How many samples of a datagram are spread over the shards at once.
const BATCH: u16 = 64;

/// The shards of a server: each has the rows of its own keys, with what came to them.
#[derive(Debug, Drop)]
pub struct Shards {
    shards: Vec<Shard>,
    spares: Spares,
    batch: Batch,
}

impl Model for Shards {
    ghost use Rattle.sd_shards.specs.Shards.{Group};
    ghost use Rattle.sd_shards.specs.GroupCode.{group_code};

    ghost Value = { Group };

    ghost coded = { group_code };

    ghost use Rattle.sd_shards.specs.Inside.{group_of, AreShards};

    ghost view = { group_of };

    ghost invariant = { AreShards };
}

impl Shards {
    /// So many empty shards, whose rows are found by hashes under a seed. All of their room is taken here, that of the tables to swap
    /// them for too.
    ///
    /// # Errors
    ///
    /// Where no memory is left for it.
    pub fn open(
        alloc: Global,
        n: u16,
        limits: Limits,
        policy: Policy,
        seed: u64,
    ) -> Result<Shards, AllocError>
        requires some { 1 ≤ n }
        requires few { n ≤ 16 }
        requires limits { AreLimits (limits_of limits) }
        ensures limits { IfOk result (λ s. s.limits ≡ limits_of limits) }
        ensures policy { IfOk result (λ s. s.policy ≡ policy_of policy) }
        ensures states { IfOk result (λ s. s.states ≡ replicate n empty_state) }
        ensures swapped { IfOk result (λ s. s.swapped ≡ []) }
    {
        let shards = open_shards(alloc, n, limits, policy, seed)?;
        let spares = Spares::open(alloc, n, limits, seed)?;
        let batch = Batch::open(alloc, n, BATCH)?;
        Ok(Shards {
            shards,
            spares,
            batch,
        })
    }

    /// How many there are.
    pub fn len(&self) -> u16
        ensures len { result ≡ length self.now.states }
        ensures some { 1 ≤ result }
        ensures few { result ≤ 16 }
    {
        self.shards.len() as u16
    }

    /// Files the good samples of a datagram of a caller, each in the shard of its key, where they are in order.
    pub fn file(&mut self, who: Who, datagram: &[u8]) -> Filed
        requires { length datagram.now ≤ 65527 }
        ensures states { (moment i : ℕ) → i < length self.old.states
            → state_at self.new i ≡ states_after (group_bounds self.old) (state_at self.old) (Packet who.0 moment datagram.now) i }
        ensures dropped { (moment : ℕ) → result.dropped
            ≡ sum_by dropped_in (replies_to (group_bounds self.old) (state_at self.old) (Packet who.0 moment datagram.now)) }
        ensures lines { result.lines ≡ length (pieces datagram.now) }
        ensures bad { result.bad ≡ bad_of datagram.now }
        ensures few { result.dropped + result.bad ≤ result.lines }
        ensures small { result.lines ≤ 65528 }
        ensures alike { AreAlike self.old self.new }
        ensures swapped { self.new.swapped ≡ self.old.swapped }
    {
        file_datagram(&InHand { who }, &mut self.shards, &mut self.batch, datagram)
    }

    /// Swaps each shard, in order, and keeps the tables that they give up to the next swap.
    pub fn swap(&mut self)
        ensures states { (i : ℕ) → i < length self.old.states → state_at self.new i ≡ after_swap self.old.policy (state_at self.old i) }
        ensures swapped { self.new.swapped ≡ map (λ i. table_of (state_at self.old i)) (numbers self.old) }
        ensures alike { AreAlike self.old self.new }
    {
        self.spares.reclaim();
        swap_all(&mut self.shards, &mut self.spares);
    }

    /// The tables that the last swap took out, in the order of the shards. No row stands in two of them.
    pub fn swapped(&self) -> &[Table]
        ensures tables { map table_seen result.now ≡ self.now.swapped }
        ensures rows { sum_by (λ t. length t.listed) result.now ≤ self.now.limits.rows * length self.now.states }
        ensures entries { All (λ t. t.entries ≤ self.now.limits.entries) result.now }
        ensures disjoint { AreDisjoint result.now }
    {
        self.spares.swapped()
    }

    /// Takes the rows of a kind that a pattern matches out of each shard, with all their samples, and leaves their keys, in
    /// the order of their bytes.
    pub fn delete(&mut self, kind: Kind, name: &Pattern, keys: &mut Keys)
        requires { length self.old.states * self.old.limits.rows ≤ keys.old.room }
        ensures states { (i : ℕ) → i < length self.old.states
            → state_at self.new i ≡ after_delete (kind_of kind) name.now (state_at self.old i) }
        ensures keys { keys.new.items
            ≡ in_key_order (λ key. key) (flat_map keys_in (map (λ i. deletion_of (kind_of kind) name.now (state_at self.old i)) (numbers self.old))) }
        ensures sorted { IsSorted (slice_cmp nat_cmp) keys.new.items }
        ensures room { keys.new.room ≡ keys.old.room }
        ensures alike { AreAlike self.old self.new }
        ensures swapped { self.new.swapped ≡ self.old.swapped }
    {
        keys.clear();
        delete_all(&mut self.shards, kind, name, keys);
        keys.sort();
    }

    /// Leaves each row of a kind of all shards with what its samples come to, in the order of the bytes of their keys.
    pub fn dump(&self, kind: Kind, dump: &mut Dump)
        requires { length self.now.states * self.now.limits.rows ≤ dump.old.room }
        ensures rows { rows_of dump.new
            ≡ in_key_order (λ row. row.key) (flat_map rows_in (map (λ i. Dumped (dump_of (kind_of kind) (state_at self.now i).live)) (numbers self.now))) }
        ensures sorted { IsSortedByKey (λ row. row.key) (slice_cmp nat_cmp) (rows_of dump.new) }
        ensures room { dump.new.room ≡ dump.old.room }
    {
        dump.clear();
        dump_all(&self.shards, kind, dump);
        dump.sort();
    }

    /// The numbers of each shard, in order, as they stand.
    pub fn books(&self) -> Books
        ensures { map numbers_in result.items ≡ map (λ i. numbers_of (state_at self.now i)) (numbers self.now) }
    {
        books_of(&self.shards)
    }
}
