ghost use Rattle.std.specs.Prelude.{◌≡◌, ℕ, ◌+◌, ◌<◌, ◌≤◌, ◌^◌, [], ◌∷◌, ◌++◌, length, IfOk, vec_len, vec_capacity};
ghost use Rattle.sd_rows.specs.Ranking.{IsRanking, IsExchanged};

use std::alloc::{AllocError, Global};

/// The places that were ever in use, in an order in which those in use stand first, and the rank of each place in it.
#[derive(Debug, Drop)]
pub(crate) struct Ranking {
    pub(crate) order: Vec<u32>,
    pub(crate) rank: Vec<u32>,
}

impl Ranking {
    /// No places yet, and room for so many.
    pub(crate) fn open(alloc: Global, n: u32) -> Result<Ranking, AllocError>
        ensures order { IfOk result (λ s. s.order.items ≡ []) }
        ensures rank { IfOk result (λ s. s.rank.items ≡ []) }
        ensures order_room { IfOk result (λ s. n ≤ vec_capacity s.order) }
        ensures rank_room { IfOk result (λ s. n ≤ vec_capacity s.rank) }
    {
        Ok(Ranking {
            order: Vec::with_capacity(alloc, n as usize)?,
            rank: Vec::with_capacity(alloc, n as usize)?,
        })
    }

    /// Notes one place more, behind the others.
    pub(crate) fn push(&mut self)
        requires ranking { IsRanking self.old.order.items self.old.rank.items }
        requires few { length self.old.order.items < 2 ^ 32 }
        requires order_room { vec_len self.old.order < vec_capacity self.old.order }
        requires rank_room { vec_len self.old.rank < vec_capacity self.old.rank }
        ensures ranking { IsRanking self.new.order.items self.new.rank.items }
        ensures rank { self.new.rank.items ≡ self.old.rank.items ++ length self.old.rank.items ∷ [] }
        ensures order_capacity { vec_capacity self.new.order ≡ vec_capacity self.old.order }
        ensures rank_capacity { vec_capacity self.new.rank ≡ vec_capacity self.old.rank }
    {
        let place = self.order.len() as u32;
        self.order.push_reserved(place);
        self.rank.push_reserved(place);
    }

    /// Brings a place to this rank, and the place that has it to the rank of the first.
    pub(crate) fn exchange(&mut self, place: u32, to: u32)
        requires ranking { IsRanking self.old.order.items self.old.rank.items }
        requires within { place < length self.old.order.items }
        requires to { to < length self.old.order.items }
        ensures ranking { IsRanking self.new.order.items self.new.rank.items }
        ensures exchanged { IsExchanged self.old.rank.items self.new.rank.items place to }
        ensures order_capacity { vec_capacity self.new.order ≡ vec_capacity self.old.order }
        ensures rank_capacity { vec_capacity self.new.rank ≡ vec_capacity self.old.rank }
    {
        let from = self.rank[place as usize];
        let other = self.order[to as usize];
        self.order[from as usize] = other;
        self.order[to as usize] = place;
        self.rank[other as usize] = from;
        self.rank[place as usize] = to;
    }
}
