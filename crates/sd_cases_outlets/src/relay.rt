//! A feeder sends texts and a worker writes them, in two threads.
ghost use Rattle.std.specs.Prelude.{◌≡◌, ◌<◌, ◌≤◌, ◌^◌, ◌++◌, ◌∷◌, [], Some, map, length, All, IfOk, false};
ghost use Rattle.sd_outlet.specs.Drain.{got, HasFinished, IsDrainOf};
ghost use Rattle.sd_outlet.specs.Feed.{sent, sends_of, is_out, stopped_at, bytes_of, IsFeedOf, IsNew};
ghost use Rattle.sd_outlet.specs.OutBuf.{size_in, text_in, IsNewBuf};
ghost use Rattle.sd_outlet.specs.Worked.{HasWorked};

use crate::count_gate::CountGate;
use sd_outlet::{Drain, Feed, OutBuf, Outlet, Worked, buffers_keep_what_fits};
use sd_outside::{Backend, write_all};
use std::alloc::{AllocError, Global};
use std::sync::Wait;
use std::thread::{self, Threads};

/// What was written, the backend, and whether each text was taken before the next was sent.
#[derive(Drop)]
pub struct Done<B> {
    pub worked: Worked,
    pub back: B,
    pub followed: bool,
}

/// A feed that has sent all, and whether each text was taken before the next was sent.
#[derive(Drop)]
struct Fed {
    feed: Feed,
    followed: bool,
}

/// What a worker gives back.
#[derive(Drop)]
struct Taken<B> {
    drain: Drain,
    back: B,
    worked: Worked,
}

/// Writes a text that fits into a new buffer.
fn fill(buf: &mut OutBuf, text: &[u8])
    requires { IsNewBuf buf.old × (length text.now ≤ size_in buf.old) }
    ensures { (text_in buf.new ≡ text.now) × (size_in buf.new ≡ size_in buf.old) }
{
    let _ = write_all(buf, text);
    buffers_keep_what_fits();
}

/// Sends a text once there is a buffer for it.
fn send_one<R: Wait>(rt: &R, outlet: &Outlet, feed: &mut Feed, text: &[u8])
    requires feed { IsFeedOf outlet.now feed.old × (is_out feed.old ≡ false) × (sends_of feed.old < 2 ^ 61) }
    requires short { length text.now ≤ bytes_of outlet.now }
    ensures feed { IsFeedOf outlet.now feed.new × (is_out feed.new ≡ false) × (stopped_at feed.new ≡ stopped_at feed.old) }
    ensures sent { sent feed.new ≡ sent feed.old ++ text.now ∷ [] }
{
    for _ in rt.forever() {
        let Some(mut buf) = outlet.start(rt, feed) else {
            thread::yield_now();
            continue;
        };
        fill(&mut buf, text);
        if outlet.send(rt, feed, buf).is_ok() {
            return;
        }
        thread::yield_now();
    }
    unreachable!()
}

/// Sends all texts, and stops. Where it follows, it waits for each until the worker took it, if that comes at all.
fn send_all<R: Wait>(
    rt: &R,
    outlet: &Outlet,
    mut feed: Feed,
    texts: &[Vec<u8>],
    gate: &CountGate,
    follows: bool,
) -> Fed
    requires feed { IsFeedOf outlet.now feed × IsNew feed }
    requires short { All (λ t. length t.items ≤ bytes_of outlet.now) texts.now }
    requires few { length texts.now < 2 ^ 61 }
    ensures feed { IsFeedOf outlet.now result.feed × (stopped_at result.feed ≡ Some (sends_of result.feed)) }
    ensures sent { sent result.feed ≡ map (λ t. t.items) texts.now }
{
    let mut followed = follows;
    for text in texts {
        send_one(rt, outlet, &mut feed, text.as_slice());
        followed = followed && gate.wait_for(feed.sends());
    }
    outlet.stop(&mut feed);
    Fed { feed, followed }
}

fn work<B: Backend, R: Wait>(
    rt: &R,
    outlet: &Outlet,
    mut drain: Drain,
    mut back: B,
    gate: &CountGate,
) -> Taken<B>
    requires { IsDrainOf outlet.now drain × (got drain ≡ []) }
    ensures drain { IsDrainOf outlet.now result.drain × HasFinished result.drain }
    ensures worked { HasWorked (got result.drain) result.worked (B.seen back) (B.seen result.back) }
{
    let worked = outlet.work(rt, &mut drain, &mut back, gate);
    Taken {
        drain,
        back,
        worked,
    }
}

/// Gives a backend these texts through an outlet: one thread sends them, and another writes them. Each is one round of the
/// backend, in order, whole or missed.
pub fn relay<B: Backend + Drop + Send, R: Threads + Wait + Sync>(
    rt: &R,
    alloc: Global,
    n: u32,
    bytes: u32,
    texts: &[Vec<u8>],
    back: B,
    gate: &CountGate,
    follows: bool,
) -> Result<Done<B>, AllocError>
    requires some { (0 < n) × (0 < bytes) × (length texts.now < 2 ^ 61) }
    requires short { All (λ t. length t.items ≤ bytes) texts.now }
    ensures { IfOk result (λ d. HasWorked (map (λ t. t.items) texts.now) d.worked (B.seen back) (B.seen d.back)) }
{
    let (outlet, feed, drain) = Outlet::open(alloc, n, bytes)?;
    let shared = &outlet;
    let (fed, taken) = thread::join(
        rt,
        move || -> Fed
            requires { IsFeedOf shared.now feed × IsNew feed × All (λ t. length t.items ≤ bytes_of shared.now) texts.now × (length texts.now < 2 ^ 61) }
            ensures { IsFeedOf shared.entry.now result.feed × (stopped_at result.feed ≡ Some (sends_of result.feed)) × (sent result.feed ≡ map (λ t. t.items) texts.entry.now) }
        { send_all(rt, shared, feed, texts, gate, follows) },
        move || -> Taken<B>
            requires { IsDrainOf shared.now drain × (got drain ≡ []) }
            ensures { IsDrainOf shared.entry.now result.drain × HasFinished result.drain × HasWorked (got result.drain) result.worked (B.seen back) (B.seen result.back) }
        { work(rt, shared, drain, back, gate) },
    );
    let Fed { feed, followed } = fed;
    let Taken {
        drain,
        mut back,
        worked,
    } = taken;
    let left = outlet.close(rt, feed, drain, &mut back);
    Ok(Done {
        worked: worked.and(left),
        back,
        followed,
    })
}
