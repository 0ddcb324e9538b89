ghost use Rattle.std.specs.Prelude.{◌≡◌, ◌≤◌, length, map};
ghost use Rattle.sd_model_shard.specs.Shard.{numbers_of};
ghost use Rattle.sd_shard.specs.Shard.{numbers_in, state_of};

use arrayvec::ArrayVec;
use sd_shard::{Books, Shard};

/// The numbers of shards, in order.
pub(crate) fn books_of(shards: &[Shard]) -> Books
    requires { length shards.now ≤ 16 }
    ensures { map numbers_in result.items ≡ map (λ s. numbers_of (state_of s)) shards.now }
{
    let mut books = ArrayVec::new();
    for shard in shards {
        books.push(shard.book());
    }
    books
}
