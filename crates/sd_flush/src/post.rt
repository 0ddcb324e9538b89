use crate::tables::Tables;
use sd_pool::Seat;
use sd_shared_desk::DeskSeat;

/// The flusher's seats at the shards and at the desk, and its tables.
#[derive(Drop)]
pub struct FlusherPost {
    pub seat: Seat,
    pub own: DeskSeat,
    pub tables: Tables,
}
