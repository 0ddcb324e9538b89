//! Outlets: the texts of flushes go through a bounded queue to a worker that writes them to a backend, so that a slow backend
//! doesn't hold up the flusher. A feed sends, a drain takes; two ruled queues and a stop flag tie what the one sent to what
//! the other took.
//!
//! `sd_flush` has the feeds, and `sd_serve` runs the workers. Only `open` takes memory. The sender doesn't wait for a backend:
//! where no buffer is free `start` answers none, and the text is the caller's to skip. No text is given to a backend twice.
#![tactic(auto)]

mod buf;
mod buffers;
mod drain;
mod feed;
mod out_buf;
mod outlet;
mod pass_view;
mod queue;
mod rounds;
mod stop_flag;
mod stop_view;
mod worked;

pub use buffers::buffers_keep_what_fits;
pub use drain::Drain;
pub use feed::Feed;
pub use out_buf::OutBuf;
pub use outlet::{Outlet, QueueFull};
pub use rounds::worked_texts_are_lists;
pub use worked::Worked;
