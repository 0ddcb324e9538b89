ghost use Rattle.std.specs.Prelude.{◌≡◌};
ghost use Rattle.sd_model_serve.specs.Sessions.{ReadFault, WriteFault, ends_by_fault};
ghost use Rattle.sd_talk.specs.Sessions.{end_of};

use crate::sessions::session;
use crate::space::AdminSpace;
use log::Log;
use sd_config::Settings;
use sd_outside::{Clock, Gate, Sink, Source};
use sd_pool::Seat;
use sd_shared::{Shared, Visitor};
use sd_shared_desk::DeskSeat;
use sd_talk::SessionEnd;
use std::sync::Wait;

/// Holds the admin sessions of a door.
#[derive(Drop)]
pub(crate) struct AdminVisitor<'s, 'f, 'r> {
    pub seat: &'s mut Seat,
    pub settings: &'f Settings,
    pub space: &'r mut AdminSpace,
}

/// Whether a session ended since one of its ends failed.
fn is_fault(ended: SessionEnd) -> bool
    ensures { result ≡ ends_by_fault (end_of ended) }
{
    match ended {
        SessionEnd::ReadFault | SessionEnd::WriteFault => true,
        SessionEnd::Quit | SessionEnd::End | SessionEnd::LineTooLong => false,
    }
}

impl Visitor for AdminVisitor<'_, '_, '_> {
    ghost use Rattle.sd_session.specs.Visiting.{CanVisit, HasVisited};

    ghost can_visit = { CanVisit };

    ghost has_visited = { HasVisited };

    fn visit<A: Source, T: Sink, G: Gate, C: Clock, R: Wait + Log>(
        &mut self,
        rt: &R,
        shared: &Shared<'_, G, C>,
        own: &mut DeskSeat,
        asking: &mut A,
        telling: &mut T,
    ) -> bool {
        let ended = session(
            rt,
            shared,
            own,
            self.seat,
            self.settings,
            self.space,
            asking,
            telling,
        );
        is_fault(ended)
    }
}
