//! What is behind a turn, the rule of its table, and what its steps tell.
ghost use Rattle.sd_turn.specs.Rule.{Protocol, Laws, Kept, took};
ghost use Rattle.sd_turn.specs.Views.{first_view, kept_back, given_away, both, spent};

use crate::view::{About, View};
use atomic_table::{Join, Play, Split, TableRule};
use std::marker::PhantomData;

/// What is behind a turn: a value `S` with a fixed part `F`, and a whole, a list of `E`s, that it
/// stands for.
pub trait Behind<S, E, F> {
    ghost protocol: { Protocol S E F };

    ghost laws: { Laws protocol };
}

/// The rule of a table with a value behind a turn.
pub struct Rule<B> {
    of: PhantomData<B>,
}

impl<S, E, F, B: Behind<S, E, F>> TableRule<S, View<E, F>, About<S>> for Rule<B> {
    ghost holds = { λ key. Kept B.protocol (B.protocol.fixed key.value.value) key.seats };

    ghost first = { λ key. first_view (B.protocol.fixed key.value.value) key.seats };
}

// The turn is taken with the value, or it wasn't free.
pub(crate) struct Take<B> {
    of: PhantomData<B>,
}

impl<S, E, F, B: Behind<S, E, F>> Play<S, View<E, F>> for Take<B> {
    ghost then = { took B.protocol };
}

// A seat gives one of its numbers away.
pub(crate) struct Cut;

impl<E, F> Split<View<E, F>> for Cut {
    ghost left = { kept_back };

    ghost right = { given_away };
}

// A seat takes in another.
pub(crate) struct Glue;

impl<E, F> Join<View<E, F>> for Glue {
    ghost both = { both };

    ghost spent = { spent };
}
