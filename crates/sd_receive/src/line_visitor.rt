ghost use Rattle.std.specs.Prelude.{◌≡◌};
ghost use Rattle.sd_model_stream.specs.Streams.{ends_by_failure, stream_is_reached_limit};
ghost use Rattle.sd_receive.specs.Streaming.{end_of};

use crate::account::Account;
use crate::streamed::StreamEnd;
use crate::streaming::stream;
use log::Log;
use sd_batch::Batch;
use sd_outside::{Clock, Gate, Sink, Source};
use sd_pool::Seat;
use sd_shared::{Shared, Visitor};
use sd_shared_desk::DeskSeat;
use sd_tcp::Cutter;
use std::sync::Wait;

/// Reads the sessions of a door as streams. What is told is left as it is.
#[derive(Drop)]
pub(crate) struct LineVisitor<'s, 'k, 'b> {
    pub seat: &'s mut Seat,
    pub cutter: &'k mut Cutter,
    pub buf: &'b mut [u8],
    pub batch: &'b mut Batch,
    /// What the streams so far came to.
    pub account: Account,
    /// Whether one of them reached the limit.
    pub reached_limit: bool,
}

/// Whether a stream ended since its source failed.
fn is_failure(ended: StreamEnd) -> bool
    ensures { result ≡ ends_by_failure (end_of ended) }
{
    match ended {
        StreamEnd::Failed => true,
        StreamEnd::End | StreamEnd::Worn { .. } => false,
    }
}

/// Whether a stream reached the limit.
fn has_reached_limit(ended: StreamEnd) -> bool
    ensures { result ≡ stream_is_reached_limit (end_of ended) }
{
    match ended {
        StreamEnd::Worn { .. } => true,
        StreamEnd::End | StreamEnd::Failed => false,
    }
}

impl Visitor for LineVisitor<'_, '_, '_> {
    ghost use Rattle.sd_receive.specs.LineReading.{CanVisit, HasVisited};

    ghost can_visit = { CanVisit };

    ghost has_visited = { HasVisited };

    fn visit<A: Source, T: Sink, G: Gate, C: Clock, R: Wait + Log>(
        &mut self,
        rt: &R,
        shared: &Shared<'_, G, C>,
        own: &mut DeskSeat,
        asking: &mut A,
        telling: &mut T,
    ) -> bool {
        let _ = telling;
        let streamed = stream(
            rt,
            shared,
            own,
            self.seat,
            self.cutter,
            asking,
            self.buf,
            self.batch,
        );
        self.account = self.account.and(Account {
            tally: streamed.tally,
            taken: streamed.taken,
        });
        let reached_limit = has_reached_limit(streamed.ended);
        self.reached_limit = self.reached_limit || reached_limit;
        is_failure(streamed.ended)
    }
}
