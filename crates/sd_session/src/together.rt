//! All shards together, as the administrator asks each of them for the same.
ghost use Rattle.std.specs.Prelude.{◌≡◌, ◌*◌, ◌≤◌, map};
ghost use Rattle.std.specs.Cmp.Lexicographic.{slice_cmp};
ghost use Rattle.std.specs.List.Sorted.{IsSorted, IsSortedByKey};
ghost use Rattle.std.specs.Ordering.{nat_cmp};
ghost use Rattle.sd_model_serve.specs.Receiving.{administrator};
ghost use Rattle.sd_key.specs.Kind.{kind_of};
ghost use Rattle.sd_shard.specs.Dump.{rows_of};
ghost use Rattle.sd_shard.specs.Shard.{numbers_in};
ghost use Rattle.sd_pool.specs.Pool.{IsSeatOf, limits_of, own_at, shards_of, who_is};
ghost use Rattle.sd_session.specs.Asking.{Deletes, Dumps, Looks};

use arrayvec::ArrayVec;
use sd_key::{Kind, Pattern};
use sd_pool::{Pool, Seat};
use sd_shard::{Books, Dump, Keys};
use std::sync::Wait;

/// Deletes in each shard, in order, and leaves the keys that went, in the order of their bytes.
pub(crate) fn delete_all<R: Wait>(
    rt: &R,
    pool: &Pool,
    seat: &mut Seat,
    kind: Kind,
    name: &Pattern,
    keys: &mut Keys,
)
    requires seat { IsSeatOf pool.now seat.old × (who_is seat.old ≡ administrator) }
    requires room { shards_of pool.now * (limits_of pool.now).rows ≤ keys.old.room }
    ensures seat { IsSeatOf pool.now seat.new × (who_is seat.new ≡ administrator) }
    ensures deletes { Deletes (shards_of pool.now) (kind_of kind) name.now (own_at seat.old) (own_at seat.new) keys.new.items }
    ensures sorted { IsSorted (slice_cmp nat_cmp) keys.new.items }
    ensures room { keys.new.room ≡ keys.old.room }
{
    keys.clear();
    for i in 0..pool.shards() {
        pool.delete(rt, i, seat, kind, name, keys);
    }
    keys.sort();
}

/// Leaves what each shard tells of the rows of a kind, in the order of the bytes of their keys.
pub(crate) fn dump_all<R: Wait>(rt: &R, pool: &Pool, seat: &mut Seat, kind: Kind, dump: &mut Dump)
    requires seat { IsSeatOf pool.now seat.old × (who_is seat.old ≡ administrator) }
    requires room { shards_of pool.now * (limits_of pool.now).rows ≤ dump.old.room }
    ensures seat { IsSeatOf pool.now seat.new × (who_is seat.new ≡ administrator) }
    ensures dumps { Dumps (shards_of pool.now) (kind_of kind) (own_at seat.old) (own_at seat.new) (rows_of dump.new) }
    ensures sorted { IsSortedByKey (λ row. row.key) (slice_cmp nat_cmp) (rows_of dump.new) }
    ensures room { dump.new.room ≡ dump.old.room }
{
    dump.clear();
    for i in 0..pool.shards() {
        pool.dump(rt, i, seat, kind, dump);
    }
    dump.sort();
}

/// The numbers of each shard, in order, as each tells them in its turn.
pub(crate) fn look_all<R: Wait>(rt: &R, pool: &Pool, seat: &mut Seat) -> Books
    requires seat { IsSeatOf pool.now seat.old × (who_is seat.old ≡ administrator) }
    ensures seat { IsSeatOf pool.now seat.new × (who_is seat.new ≡ administrator) }
    ensures looks { Looks (shards_of pool.now) (own_at seat.old) (own_at seat.new) (map numbers_in result.items) }
{
    let mut books = ArrayVec::new();
    for i in 0..pool.shards() {
        books.push(pool.look(rt, i, seat));
    }
    books
}
