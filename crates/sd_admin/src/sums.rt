ghost use Rattle.std.specs.Prelude.{◌≡◌, ◌≤◌, length, sum_by};

use sd_shard::ShardBook;

/// The numbers of shards, added up.
#[derive(Clone, Copy, Debug, PartialEq, Eq)]
pub(crate) struct Sums {
    pub taken: u128,
    pub flushed: u128,
    pub deleted: u128,
    pub dropped: u128,
    pub held: u128,
}

/// Adds the numbers of shards up.
pub(crate) fn add_up(books: &[ShardBook]) -> Sums
    requires { length books.now ≤ 16 }
    ensures taken { result.taken ≡ sum_by (λ b. b.taken) books.now }
    ensures flushed { result.flushed ≡ sum_by (λ b. b.flushed) books.now }
    ensures deleted { result.deleted ≡ sum_by (λ b. b.deleted) books.now }
    ensures dropped { result.dropped ≡ sum_by (λ b. b.dropped) books.now }
    ensures held { result.held ≡ sum_by (λ b. b.held) books.now }
{
    let mut sums = Sums {
        taken: 0,
        flushed: 0,
        deleted: 0,
        dropped: 0,
        held: 0,
    };
    for book in books {
        let ShardBook {
            rows: _,
            taken,
            flushed,
            deleted,
            dropped,
            held,
        } = *book;
        sums.taken += u128::from(taken);
        sums.flushed += u128::from(flushed);
        sums.deleted += u128::from(deleted);
        sums.dropped += u128::from(dropped);
        sums.held += u128::from(held);
    }
    sums
}
