//! A seat by itself.
ghost use Rattle.std.specs.Prelude.{◌≡◌, ℕ, []};
ghost use Rattle.atomic_table.specs.declared.shared.Seat.{Seat as SeatOf};
ghost use Rattle.sd_turn.specs.declared.view.View.{View as ViewOf};
ghost use Rattle.sd_turn.specs.Views.{IsPlain};

use crate::view::View;
use atomic_table::Seat;

/// A seat that stands by itself, outside a turn.
pub trait PlainSeat<S, E, F>: Drop {
    ghost inner: { Self → SeatOf S (ViewOf E F) };

    /// The seat within.
    fn into_inner(self) -> Seat<S, View<E, F>>
        ensures inner { result ≡ inner self }
        ensures alone { result.me.1 ≡ [] }
        ensures plain { (number : ℕ) × IsPlain number result.me.0 };
}
