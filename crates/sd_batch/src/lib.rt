//! Samples that wait to be submitted, in room taken at the opening, and how those of a datagram are filed, each at the shard of
//! its key.
//!
//! The samples of one shard are a run, in their order. `read_datagram` is the one loop over a datagram's pieces, and reads each
//! good sample straight into its place in the batch, until there is no room for another. `submit_waiting` submits those that
//! wait, and `file_datagram` does both, for `sd_shards`, whose shards are in hand, and `sd_receive`, whose shards are shared; each
//! says by `Submit` how the samples of a shard are submitted. Only `Batch::open` takes memory. Nothing is sent on or counted at
//! the desk, and no call waits but where `submit_run` does.
#![tactic(auto)]

mod batch;
mod counts;
mod filing;
mod lists;
mod run;
mod submit;
mod taking;

pub use batch::Batch;
pub use counts::{Counts, FirstDrop};
pub use filing::{Filed, file_datagram, read_datagram, submit_waiting};
pub use run::Run;
pub use submit::Submit;
pub use taking::take_run;
