use crate::line_post::LinePost;
use crate::live::Live;
use log::Log;
use sd_outside::{Door, Wire};
use sd_workers::Worker;
use std::sync::Wait;

/// The work of the reader of lines, if there is one, over what is lent to it.
#[derive(Drop)]
pub(crate) struct LineWork<'p, 's, L, S> {
    pub post: &'p mut Option<LinePost<L>>,
    pub door: &'s mut S,
}

/// It reads the streams of its door, and does nothing where there is no post.
impl<'a, L: Wire, S: Door, G> Worker<Live<'a, G>> for LineWork<'_, '_, L, S> {
    ghost use Rattle.sd_relay.specs.LineWork.{CanLine, HasReadLines};

    ghost can_run = { λ live line_work. CanLine S.seen live.hub.cell.now live.hub.desk.now line_work };

    ghost has_run = { λ live old new. HasReadLines L.seen S.seen live.hub.cell.now live.hub.desk.now old new };

    fn run<R: Wait + Log>(&mut self, rt: &R, live: &Live<'a, G>) {
        if let Some(post) = &mut *self.post {
            post.run(rt, &live.hub, self.door);
        }
    }
}
