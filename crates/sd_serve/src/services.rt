//! What the workers beside the receivers hold while they run.

use crate::line_post::LinePost;
use sd_flush::FlusherPost;
use sd_pool::Seat;
use sd_session::AdminSpace;
use sd_shared_desk::DeskSeat;

/// The seats of the keeper of the admin door at the shards and at the desk, and its room for replies.
#[derive(Drop)]
pub(crate) struct AdminPost {
    pub seat: Seat,
    pub own: DeskSeat,
    pub space: AdminSpace,
}

/// The posts of all workers but the receivers: of the flusher, of the keeper of the admin door, and of the reader of lines, if there
/// is one.
#[derive(Drop)]
pub(crate) struct ServicePosts {
    pub flusher: FlusherPost,
    pub admin: AdminPost,
    pub lines: Option<LinePost>,
}
