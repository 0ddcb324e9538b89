use log::Log;
use sd_outside::{Backend, Beat, Clock, Datagrams, Door, Gate, Probe, Sink, Source, Wire};
use std::marker::PhantomData;

/// Of which types the objects are that the program uses.
pub trait ObjectTypes {
    /// Sources of settings and scripts.
    type R: Source;

    /// The output.
    type O: Sink;

    /// Backends.
    type B: Backend + Send;

    /// Sources of datagrams.
    type D: Datagrams + Send + Drop;

    /// Wires.
    type L: Wire + Send + Drop;

    /// The admin door.
    type E: Door<Asking: Send, Telling: Send> + Send;

    /// The beat.
    type P: Beat + Send;

    /// The gate.
    type G: Gate + Sync;

    /// The clock.
    type T: Clock + Sync;

    /// The probe.
    type Q: Probe + Send;

    /// The door of streams.
    type S: Door<Asking: Send, Telling: Send> + Send;

    /// The log.
    type W: Log + Sync;
}

/// The kinds that these types are.
pub struct ObjectTypesOf<R, O, B, D, L, E, P, G, T, Q, S, W> {
    of: PhantomData<(R, O, B, D, L, E, P, G, T, Q, S, W)>,
}

impl<
    R: Source,
    O: Sink,
    B: Backend + Send,
    D: Datagrams + Send + Drop,
    L: Wire + Send + Drop,
    E: Door<Asking: Send, Telling: Send> + Send,
    P: Beat + Send,
    G: Gate + Sync,
    T: Clock + Sync,
    Q: Probe + Send,
    S: Door<Asking: Send, Telling: Send> + Send,
    W: Log + Sync,
> ObjectTypes for ObjectTypesOf<R, O, B, D, L, E, P, G, T, Q, S, W> {
    type R = R;

    type O = O;

    type B = B;

    type D = D;

    type L = L;

    type E = E;

    type P = P;

    type G = G;

    type T = T;

    type Q = Q;

    type S = S;

    type W = W;
}
