ghost use Rattle.std.specs.Prelude.{◌≡◌, ◌+◌, ◌<◌, ◌≤◌, ◌^◌, [], length};
ghost use Rattle.sd_batch.specs.Filing.{FilesDatagram, HasRoomFor, IsOpenFor, ReadsDatagram, SubmitsRun, SubmitsWaiting, bad_in, waiting_at};

use crate::submit::Submit;
use crate::{Batch, Counts};
use sd_line::{Bad, Lines};

/// What became of a datagram: how many pieces it had, how many of them were bad, and how many of their samples were dropped,
/// and taken.
#[derive(Clone, Copy, Debug, PartialEq, Eq)]
pub struct Filed {
    pub lines: u64,
    pub bad: u64,
    pub dropped: u64,
    pub taken: u64,
}

impl Filed {
    ghost use Rattle.std.specs.Prelude.{◌≡◌};

    // Of no datagram.
    fn none() -> Filed
        ensures { result ≡ record { lines = 0; bad = 0; dropped = 0; taken = 0 } }
    {
        Filed {
            lines: 0,
            bad: 0,
            dropped: 0,
            taken: 0,
        }
    }
}

// Counts a piece, which is bad or not.
fn note(piece: Result<(), Bad>, filed: &mut Filed)
    requires few { (filed.old.lines ≤ 65528) × (filed.old.bad ≤ 65528) }
    ensures { filed.new ≡ record filed.old { lines = filed.old.lines + 1; bad = filed.old.bad + bad_in piece } }
{
    filed.lines += 1;
    match piece {
        Ok(()) => {}
        Err(_) => filed.bad += 1,
    }
}

// Submits the samples that wait for a shard, which isn't asked where none does.
fn submit_home<S, G: Submit<S>>(group: &G, seat: &mut S, batch: &Batch, home: u16) -> Counts
    requires ready { G.is_ready group.now seat.old }
    requires batch { batch.now.shards ≡ G.shards group.now seat.old }
    requires home { home < G.shards group.now seat.old }
    ensures ready { G.is_ready group.now seat.new }
    ensures shards { G.shards group.now seat.new ≡ G.shards group.now seat.old }
    ensures caller { G.caller group.now seat.new ≡ G.caller group.now seat.old }
    ensures submits { SubmitsRun (G.adds group.now seat.old seat.new) (G.caller group.now seat.old) home (waiting_at (G.shards group.now seat.old) home batch.now.items) result }
    ensures few { result.taken + result.dropped < 65536 }
{
    if batch.run(home).is_empty() {
        return Counts::none();
    }
    group.submit_run(seat, batch, home)
}

// Submits the samples that wait, each to the shard of its key, and counts how many were dropped and taken. Then none waits.
fn submit_all<S, G: Submit<S>>(group: &G, seat: &mut S, batch: &mut Batch, filed: &mut Filed)
    requires ready { G.is_ready group.now seat.old }
    requires batch { batch.old.shards ≡ G.shards group.now seat.old }
    requires few { filed.old.taken + filed.old.dropped < 2 ^ 48 }
    ensures ready { G.is_ready group.now seat.new }
    ensures shards { G.shards group.now seat.new ≡ G.shards group.now seat.old }
    ensures caller { G.caller group.now seat.new ≡ G.caller group.now seat.old }
    ensures submits { SubmitsWaiting (G.adds group.now seat.old seat.new) (G.shards group.now seat.old) (G.caller group.now seat.old) batch.old.items [] filed.old filed.new }
    ensures more { filed.new.taken + filed.new.dropped ≤ filed.old.taken + filed.old.dropped + 2 ^ 32 }
    ensures none { batch.new ≡ record batch.old { items = [] } }
{
    for home in 0..batch.shards() {
        let counts = submit_home(group, seat, batch, home);
        filed.taken += counts.taken;
        filed.dropped += counts.dropped;
    }
    batch.clear();
}

// The same, where there is no room for another sample.
fn submit_full<S, G: Submit<S>>(group: &G, seat: &mut S, batch: &mut Batch, filed: &mut Filed)
    requires ready { G.is_ready group.now seat.old }
    requires batch { batch.old.shards ≡ G.shards group.now seat.old }
    requires room { 0 < batch.old.room }
    requires few { filed.old.taken + filed.old.dropped < 2 ^ 48 }
    ensures ready { G.is_ready group.now seat.new }
    ensures shards { G.shards group.now seat.new ≡ G.shards group.now seat.old }
    ensures caller { G.caller group.now seat.new ≡ G.caller group.now seat.old }
    ensures submits { SubmitsWaiting (G.adds group.now seat.old seat.new) (G.shards group.now seat.old) (G.caller group.now seat.old) batch.old.items batch.new.items filed.old filed.new }
    ensures more { filed.new.taken + filed.new.dropped ≤ filed.old.taken + filed.old.dropped + 2 ^ 32 }
    ensures batch { batch.new ≡ record batch.old { items = batch.new.items } }
    ensures room { length batch.new.items < batch.old.room }
{
    if batch.is_full() {
        submit_all(group, seat, batch, filed);
    }
}

/// Reads the good samples of a datagram into a batch, where they wait behind those that waited before. Whenever there is no room for
/// another, all that wait are submitted, each to the shard of its key, where they are in order.
pub fn read_datagram<S, G: Submit<S>>(
    group: &G,
    seat: &mut S,
    batch: &mut Batch,
    datagram: &[u8],
) -> Filed
    requires ready { G.is_ready group.now seat.old }
    requires batch { HasRoomFor (G.shards group.now seat.old) batch.old }
    requires datagram { length datagram.now ≤ 65527 }
    ensures ready { G.is_ready group.now seat.new }
    ensures shards { G.shards group.now seat.new ≡ G.shards group.now seat.old }
    ensures caller { G.caller group.now seat.new ≡ G.caller group.now seat.old }
    ensures batch { batch.new ≡ record batch.old { items = batch.new.items } }
    ensures room { length batch.new.items < batch.new.room }
    ensures reads { ReadsDatagram (G.adds group.now seat.old seat.new) (G.shards group.now seat.old) (G.caller group.now seat.old) datagram.now batch.old.items batch.new.items result }
{
    let mut lines = Lines::new(datagram);
    let mut filed = Filed::none();
    while let Some(piece) = batch.read(&mut lines) {
        note(piece, &mut filed);
        submit_full(group, seat, batch, &mut filed);
    }
    filed
}

/// Submits the samples that wait in a batch, each to the shard of its key, where they are in order, and counts those that were
/// dropped and taken. Then none waits.
pub fn submit_waiting<S, G: Submit<S>>(group: &G, seat: &mut S, batch: &mut Batch) -> Filed
    requires ready { G.is_ready group.now seat.old }
    requires batch { HasRoomFor (G.shards group.now seat.old) batch.old }
    ensures ready { G.is_ready group.now seat.new }
    ensures shards { G.shards group.now seat.new ≡ G.shards group.now seat.old }
    ensures caller { G.caller group.now seat.new ≡ G.caller group.now seat.old }
    ensures none { batch.new ≡ record batch.old { items = [] } }
    ensures submits { SubmitsWaiting (G.adds group.now seat.old seat.new) (G.shards group.now seat.old) (G.caller group.now seat.old) batch.old.items [] (record { lines = 0; bad = 0; dropped = 0; taken = 0 }) result }
    ensures few { result.taken + result.dropped ≤ 2 ^ 32 }
{
    let mut submitted = Filed::none();
    submit_all(group, seat, batch, &mut submitted);
    submitted
}

/// Submits the good samples of a datagram, each to the shard of its key, where they are in order. The batch is room for samples that
/// wait; a datagram of more than it has room for takes several turns of a shard.
pub fn file_datagram<S, G: Submit<S>>(
    group: &G,
    seat: &mut S,
    batch: &mut Batch,
    datagram: &[u8],
) -> Filed
    requires ready { G.is_ready group.now seat.old }
    requires batch { IsOpenFor (G.shards group.now seat.old) batch.old }
    requires datagram { length datagram.now ≤ 65527 }
    ensures ready { G.is_ready group.now seat.new }
    ensures shards { G.shards group.now seat.new ≡ G.shards group.now seat.old }
    ensures caller { G.caller group.now seat.new ≡ G.caller group.now seat.old }
    ensures batch { batch.new ≡ batch.old }
    ensures files { FilesDatagram (G.adds group.now seat.old seat.new) (G.shards group.now seat.old) (G.caller group.now seat.old) datagram.now result }
{
    let mut filed = read_datagram(group, seat, batch, datagram);
    submit_all(group, seat, batch, &mut filed);
    filed
}
