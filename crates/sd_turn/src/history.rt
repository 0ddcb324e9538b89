//! What is behind a turn with a history, and what its own step tells.
ghost use Rattle.sd_turn.specs.History.{history_protocol, history_laws, gave};

use crate::behind::Behind;
use crate::stepped::Stepped;
use crate::view::View;
use atomic_table::Play;
use std::marker::{Brand, PhantomData};

/// The rule of a turn with a history.
pub struct History;

impl<V: Stepped> Behind<V, V::Noted, V::Fixed> for History {
    ghost protocol = { history_protocol V.fixed V.stands V.legal V.who };

    ghost laws = { history_laws V.fixed V.stands V.legal V.who };
}

/// Picks the entries that a turn notes. Each call picks them for itself.
pub trait Chosen<N> {
    ghost use Rattle.std.specs.Prelude.{List};

    ghost chosen: { List N };
}

impl<N> Chosen<N> for Brand {
    ghost use Rattle.std.specs.Prelude.{[]};

    ghost chosen = { [] };
}

// The entries that were picked are noted, and the turn and the value are given back.
pub(crate) struct Give<E> {
    of: PhantomData<E>,
}

impl<S, N, F, E: Chosen<N>> Play<S, View<N, F>> for Give<E> {
    ghost then = { gave E.chosen };
}
