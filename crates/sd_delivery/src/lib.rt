//! Deliveries: the record of a flush is given to the backends that are used, or its texts to their outlets.
//!
//! `sd_replay` calls `deliver` at a flush; `sd_flush` has a `Delivery`, which a round without outlets gives to the backends itself. A
//! backend of which a call failed gets no more of that record, and the others get their own all the same; one that isn't used is
//! left as it is. Nothing is tried again, and no memory is taken. Over outlets no backend is waited for.
#![tactic(auto)]

mod backs;
mod delivery;
mod outlets;

pub use backs::deliver;
pub use delivery::Delivery;
pub use outlets::{Lead, Leads, Skip};
