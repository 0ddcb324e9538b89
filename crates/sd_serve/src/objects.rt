use sd_outside::Backs;
use sd_run::ObjectTypes;

/// The objects of a server beside its receivers' own, lent to its run: the beat, the backends, the admin door, and the door of streams.
#[derive(Drop)]
pub struct ServerObjects<'p, 'b, 'e, 's, P, B, E, S> {
    pub beat: &'p mut P,
    pub backs: &'b mut Backs<B>,
    pub door: &'e mut E,
    pub streams: &'s mut S,
}

/// The objects of these kinds that a server is lent.
pub type ObjectsOf<'p, 'b, 'e, 's, K> = ServerObjects<
    'p,
    'b,
    'e,
    's,
    <K as ObjectTypes>::P,
    <K as ObjectTypes>::B,
    <K as ObjectTypes>::E,
    <K as ObjectTypes>::S,
>;
