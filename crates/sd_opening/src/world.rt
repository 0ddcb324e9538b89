use sd_outside::Backs;
use sd_run::ObjectTypes;

/// The objects that the program uses. None is opened yet.
#[derive(Drop)]
pub struct World<R, O, B, D, L, E, P, G, T, Q, S, W> {
    pub settings: R,
    pub script: R,
    pub output: O,
    pub backs: Backs<B>,
    pub packets: Vec<D>,
    pub wires: Vec<L>,
    pub door: E,
    pub beat: P,
    pub gate: G,
    pub clock: T,
    pub probe: Q,
    pub streams: S,
    pub log: W,
}

/// A world of objects of these kinds.
pub type WorldOf<K> = World<
    <K as ObjectTypes>::R,
    <K as ObjectTypes>::O,
    <K as ObjectTypes>::B,
    <K as ObjectTypes>::D,
    <K as ObjectTypes>::L,
    <K as ObjectTypes>::E,
    <K as ObjectTypes>::P,
    <K as ObjectTypes>::G,
    <K as ObjectTypes>::T,
    <K as ObjectTypes>::Q,
    <K as ObjectTypes>::S,
    <K as ObjectTypes>::W,
>;
