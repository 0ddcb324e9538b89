//! The calls of an outlet.
ghost use Rattle.std.specs.Prelude.{◌≡◌, ◌<◌, ◌≤◌, ◌^◌, ◌+◌, ℕ, List, true, false, [], ◌∷◌, ◌++◌, length, None, Some, IfOk, IfSome, IfNone, IsSome, OnOk, OnErr};
ghost use Rattle.crossbeam_queue.specs.Passes.{view, IsPassOf};
ghost use Rattle.sd_model_outside.specs.Outside.{RoseBy};
ghost use Rattle.sd_outside.specs.Turns.{raised};
ghost use Rattle.sd_outlet.specs.Buf.{size_of};
ghost use Rattle.sd_outlet.specs.OutBuf.{text_in};
ghost use Rattle.sd_outlet.specs.Queue.{pass_view};
ghost use Rattle.sd_outlet.specs.Worked.{HasWorked};

use crate::buf::Buf;
use crate::drain::Drain;
use crate::feed::Feed;
use crate::out_buf::OutBuf;
use crate::pass_view::PassView;
use crate::queue::{BufQueue, Put, Roles, Taken, open_queue};
use crate::stop_flag::StopFlag;
use crate::worked::Worked;
use crossbeam_queue::Pass;
use sd_outside::{Backend, Gate};
use std::alloc::{AllocError, Global};
use std::sync::Wait;
use std::sync::atomic::AtomicU64;
use std::sync::atomic::Ordering::SeqCst;

// The gate's place before a worker begins a round.
const BEFORE_ROUND: u8 = 6;

/// A text wasn't sent, since the queue of full buffers was full.
#[derive(Clone, Copy, Debug, PartialEq, Eq)]
pub struct QueueFull;

/// Two queues, each with a place for every buffer: full buffers go to a worker, and empty ones come back.
#[derive(Drop)]
pub struct Outlet {
    full: BufQueue,
    empty: BufQueue,
    stop: StopFlag,
    // How many bytes each buffer can hold.
    bytes: u32,
    // Counts what a worker that sleeps is woken for. No fact rests on it.
    signals: AtomicU64,
}

impl Outlet {
    ghost use Rattle.sd_outlet.specs.Feed.{sent, sends_of, refusals_of, is_out, stopped_at, buffers, bytes_of, Keeps, IsFeedOf, IsBufOf, IsNewBufOf, IsNew, HasSentSame};
    ghost use Rattle.sd_outlet.specs.Drain.{got, stop_found, HasFinished, IsDrainOf};

    /// An outlet of `n` buffers of so many bytes, with its two ends. Only this call takes memory.
    ///
    /// # Errors
    ///
    /// Where no memory is left.
    pub fn open(alloc: Global, n: u32, bytes: u32) -> Result<(Outlet, Feed, Drain), AllocError>
        requires some { (0 < n) × (0 < bytes) }
        ensures outlet { IfOk result (λ r. (buffers r.0 ≡ n) × (bytes_of r.0 ≡ bytes)) }
        ensures feed { IfOk result (λ r. IsFeedOf r.0 r.1 × IsNew r.1) }
        ensures drain { IfOk result (λ r. IsDrainOf r.0 r.2 × (got r.2 ≡ []) × (stop_found r.2 ≡ None)) }
    {
        let (full, mut puts_full) = open_queue(alloc, n as usize, bytes)?;
        let takes_full = full.another::<Roles>(&mut puts_full);
        let (empty, mut puts_empty) = open_queue(alloc, n as usize, bytes)?;
        fill(alloc, &empty, &mut puts_empty, n, bytes)?;
        let takes_empty = empty.another::<Roles>(&mut puts_empty);
        let (stop, raises, reads) = StopFlag::open(alloc)?;
        let outlet = Outlet {
            full,
            empty,
            stop,
            bytes,
            signals: AtomicU64::new(0),
        };
        let feed = Feed {
            full: puts_full,
            empty: takes_empty,
            stop: raises,
            kept: None,
            out: false,
            sends: 0,
            refusals: 0,
            stopped: None,
        };
        let drain = Drain {
            full: takes_full,
            empty: puts_empty,
            stop: reads,
            taken: 0,
        };
        Ok((outlet, feed, drain))
    }

    /// How many bytes each buffer can hold.
    pub fn bytes(&self) -> u32
        ensures { result ≡ bytes_of self.now }
    {
        self.bytes
    }

    /// An empty buffer, which is out until it is sent.
    ///
    /// `None` comes only where the feed keeps no buffer and the queue of empty ones was empty at some moment of this call. So
    /// at least as many texts were sent as there are buffers.
    pub fn start<R: Wait>(&self, rt: &R, feed: &mut Feed) -> Option<OutBuf>
        requires feed { IsFeedOf self.now feed.old }
        requires none_out { is_out feed.old ≡ false }
        ensures feed { IsFeedOf self.now feed.new × HasSentSame feed.old feed.new }
        ensures kept { Keeps feed.old → IsSome result }
        ensures some { IfSome result (λ b. IsNewBufOf self.now b × (is_out feed.new ≡ true) × (refusals_of feed.new ≡ refusals_of feed.old)) }
        ensures none { IfNone result ((buffers self.now ≤ sends_of feed.old) × (is_out feed.new ≡ false)
            × (refusals_of feed.new ≡ raised (refusals_of feed.old))) }
    {
        let Some(mut buf) = self.next_empty(rt, feed) else {
            feed.refusals = feed.refusals.saturating_add(1);
            return None;
        };
        buf.clear();
        feed.out = true;
        Some(OutBuf { buf, faults: 0 })
    }

    // The buffer that the feed keeps, or else one of the empty ones.
    fn next_empty<R: Wait>(&self, rt: &R, feed: &mut Feed) -> Option<Buf>
        requires feed { IsFeedOf self.now feed.old × (is_out feed.old ≡ false) }
        ensures kept { Keeps feed.old → IsSome result }
        ensures some { IfSome result (λ b. (size_of b ≡ bytes_of self.now) × (length (view feed.new.empty).taken ≡ length (sent feed.old) + 1)) }
        ensures none { IfNone result ((buffers self.now ≤ sends_of feed.old) × (length (view feed.new.empty).taken ≡ length (sent feed.old))) }
        ensures pass { IsPassOf self.now.empty feed.new.empty × ((view feed.new.empty).takes ≡ true) × ((view feed.new.empty).size ≡ bytes_of self.now) × (buffers self.now ≤ (view feed.new.empty).least) }
        ensures others { feed.new ≡ record feed.old { kept = None; empty = feed.new.empty } }
    {
        if let Some(kept) = feed.kept.take() {
            return Some(kept);
        }
        self.empty.pop_as::<Taken, R>(rt, &mut feed.empty)
    }

    /// Sends the text of a buffer.
    ///
    /// # Errors
    ///
    /// Where the queue of full buffers was full at some moment of this call. So at least as many texts were sent as there are
    /// buffers. Then the feed keeps the buffer, which is the next to go out.
    pub fn send<R: Wait>(&self, rt: &R, feed: &mut Feed, buf: OutBuf) -> Result<(), QueueFull>
        requires feed { IsFeedOf self.now feed.old }
        requires buf { IsBufOf self.now buf × (is_out feed.old ≡ true) }
        requires few { sends_of feed.old < 2 ^ 61 }
        ensures feed { IsFeedOf self.now feed.new × (is_out feed.new ≡ false) × (stopped_at feed.new ≡ stopped_at feed.old) }
        ensures sent { OnOk result ((sent feed.new ≡ sent feed.old ++ text_in buf ∷ []) × (refusals_of feed.new ≡ refusals_of feed.old)) }
        ensures full { OnErr result ((buffers self.now ≤ sends_of feed.old) × Keeps feed.new × (sent feed.new ≡ sent feed.old)
            × (refusals_of feed.new ≡ raised (refusals_of feed.old))) }
    {
        let OutBuf { buf, faults: _ } = buf;
        feed.out = false;
        if let Err(back) = self.full.push_as::<Put, R>(rt, &mut feed.full, buf) {
            feed.refusals = feed.refusals.saturating_add(1);
            feed.kept = Some(back);
            return Err(QueueFull);
        }
        feed.sends += 1;
        self.signal();
        Ok(())
    }

    /// Raises the stop flag, unless the feed was stopped before. The worker ends once it has taken what was sent by then, and
    /// finds nothing.
    pub fn stop(&self, feed: &mut Feed)
        requires feed { IsFeedOf self.now feed.old }
        ensures feed { IsFeedOf self.now feed.new }
        ensures stopped { IsSome (stopped_at feed.new) }
        ensures first { stopped_at feed.old ≡ None → stopped_at feed.new ≡ Some (sends_of feed.old) }
        ensures again { IsSome (stopped_at feed.old) → stopped_at feed.new ≡ stopped_at feed.old }
        ensures same { (sent feed.new ≡ sent feed.old) × (is_out feed.new ≡ is_out feed.old) × (refusals_of feed.new ≡ refusals_of feed.old) }
    {
        if feed.stopped.is_none() {
            self.stop.raise(&mut feed.stop, feed.sends);
            feed.stopped = Some(feed.sends);
        }
        self.signal();
    }

    // Wakes a worker that sleeps.
    fn signal(&self) {
        self.signals.fetch_add(1, SeqCst);
        self.signals.wake_one();
    }

    /// Writes each text as a round of the backend, in order, and gives its buffer back. It passes the gate's place 6 before
    /// each round. It ends once it found the feed stopped, has taken all that was sent by then, and found nothing more.
    pub fn work<B: Backend, G: Gate, R: Wait>(
        &self,
        rt: &R,
        drain: &mut Drain,
        back: &mut B,
        gate: &G,
    ) -> Worked
        requires drain { IsDrainOf self.now drain.old }
        ensures drain { IsDrainOf self.now drain.new }
        ensures finished { HasFinished drain.new }
        ensures faults { RoseBy result.faults (B.seen back.old).faults (B.seen back.new).faults }
        ensures worked { (texts : List (List ℕ)) × (got drain.new ≡ got drain.old ++ texts)
            × HasWorked texts result (B.seen back.old) (B.seen back.new) }
    {
        let mut worked = Worked::none();
        for _ in rt.forever() {
            let signals = self.signals.load(SeqCst);
            let stop = self.stop.read(&mut drain.stop);
            match self.full.pop_as::<Taken, R>(rt, &mut drain.full) {
                Some(buf) => {
                    drain.taken = drain.taken.saturating_add(1);
                    gate.pass(BEFORE_ROUND);
                    worked.write(back, buf.text());
                    self.give_back(rt, drain, buf);
                }
                None => match stop {
                    Some(sends) if sends <= drain.taken => return worked,
                    _ => self.signals.park(rt, (signals % (1 << 32)) as u32),
                },
            }
        }
        unreachable!()
    }

    // Puts a buffer among the empty ones, which have a place for it.
    fn give_back<R: Wait>(&self, rt: &R, drain: &mut Drain, buf: Buf)
        requires drain { IsPassOf self.now.empty drain.old.empty × ((view drain.old.empty).puts ≡ true) × ((view drain.old.empty).size ≡ size_of buf) }
        ensures drain { IsPassOf self.now.empty drain.new.empty × ((view drain.new.empty).puts ≡ true) × ((view drain.new.empty).size ≡ size_of buf) }
        ensures given { length (view drain.new.empty).put ≡ length (view drain.old.empty).put + 1 }
        ensures others { (drain.new.full ≡ drain.old.full) × (drain.new.stop ≡ drain.old.stop) × (drain.new.taken ≡ drain.old.taken) }
    {
        let mut buf = buf;
        for _ in rt.forever() {
            match self.empty.push_as::<Put, R>(rt, &mut drain.empty, buf) {
                Ok(()) => return,
                Err(back) => buf = back,
            }
        }
        unreachable!()
    }

    /// Writes the texts that are left, each as a round of the backend, in order. Where the drain found the feed stopped, it
    /// is. Where a worker finished, and nothing was sent after the stop, nothing is left.
    pub fn close<B: Backend, R: Wait>(
        self,
        rt: &R,
        feed: Feed,
        drain: Drain,
        back: &mut B,
    ) -> Worked
        requires feed { IsFeedOf self feed }
        requires drain { IsDrainOf self drain }
        ensures stopped { IsSome (stop_found drain) → stopped_at feed ≡ stop_found drain }
        ensures faults { RoseBy result.faults (B.seen back.old).faults (B.seen back.new).faults }
        ensures finished { HasFinished drain → stopped_at feed ≡ Some (sends_of feed) → sent feed ≡ got drain }
        ensures worked { (left : List (List ℕ)) × (sent feed ≡ got drain ++ left)
            × HasWorked left result (B.seen back.old) (B.seen back.new) }
    {
        let Feed {
            full: mut pass,
            empty: _,
            mut stop,
            kept: _,
            out: _,
            sends: _,
            refusals: _,
            stopped: _,
        } = feed;
        let Drain {
            full,
            empty: _,
            stop: reads,
            taken: _,
        } = drain;
        self.stop.compare(&mut stop, reads);
        self.full.absorb::<Roles>(&mut pass, full);
        self.write_left(rt, &mut pass, back)
    }

    // Writes all that the queue of full buffers has.
    fn write_left<B: Backend, R: Wait>(
        &self,
        rt: &R,
        pass: &mut Pass<Buf, PassView>,
        back: &mut B,
    ) -> Worked
        requires pass { IsPassOf self.now.full pass.old }
        requires both { ((view pass.old).puts ≡ true) × ((view pass.old).takes ≡ true) }
        ensures faults { RoseBy result.faults (B.seen back.old).faults (B.seen back.new).faults }
        ensures worked { (left : List (List ℕ)) × ((view pass.old).put ≡ (view pass.old).taken ++ left)
            × HasWorked left result (B.seen back.old) (B.seen back.new) }
    {
        let mut worked = Worked::none();
        for _ in rt.forever() {
            let Some(buf) = self.full.pop_as::<Taken, R>(rt, pass) else {
                return worked;
            };
            worked.write(back, buf.text());
        }
        unreachable!()
    }
}

/// Puts so many empty buffers of so many bytes into an empty queue.
///
/// # Errors
///
/// Where no memory is left for them.
fn fill(
    alloc: Global,
    empty: &BufQueue,
    pass: &mut Pass<Buf, PassView>,
    n: u32,
    bytes: u32,
) -> Result<(), AllocError>
    requires pass { IsPassOf empty.now pass.old × (view pass.old ≡ pass_view true true bytes 0 [] []) }
    ensures pass { OnOk result (IsPassOf empty.now pass.new × ((view pass.new).puts ≡ true) × ((view pass.new).takes ≡ true) × ((view pass.new).size ≡ bytes) × ((view pass.new).taken ≡ [])) }
    ensures all { OnOk result (length (view pass.new).put ≡ n) }
{
    for _ in 0..n {
        let buf = Buf::open(alloc, bytes)?;
        if empty.try_push_as::<Put>(pass, buf).is_err() {
            return Err(AllocError);
        }
    }
    Ok(())
}
