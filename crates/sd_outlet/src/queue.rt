//! A queue of buffers under a rule, and its passes.
ghost use Rattle.std.specs.Prelude.{◌≡◌, ◌<◌, ℕ, true, false, [], IfOk};
ghost use Rattle.crossbeam_queue.specs.Passes.{view, IsPassOf, ruled_capacity};
ghost use Rattle.sd_outlet.specs.Queue.{pass_view, InOrder as Rule, spent, puts_in, takes_out, put_behind, taken_before};

use crate::buf::Buf;
use crate::pass_view::PassView;
use crossbeam_queue::protocol::{Join, Lesson, Outcome, Protocol, Split};
use crossbeam_queue::{Pass, RuledArrayQueue};
use std::alloc::{AllocError, Global};
use std::marker::{Brand, PhantomData};

/// The rule of a queue of buffers.
pub struct InOrder;

impl Protocol<Buf, PassView> for InOrder {
    ghost holds = { Rule };

    ghost first = { pass_view true true 0 0 [] [] };
}

// A buffer was put in, or the queue was full.
pub(crate) struct Put;

impl Outcome<Buf, PassView> for Put {
    ghost then = { puts_in };
}

impl Lesson<Buf, PassView> for Put {
    ghost fact = { put_behind };
}

// A buffer was taken out, or the queue was empty.
pub(crate) struct Taken;

impl Outcome<Buf, PassView> for Taken {
    ghost then = { takes_out };
}

impl Lesson<Buf, PassView> for Taken {
    ghost fact = { taken_before };
}

/// Picks the size of the buffers of a queue. Each call picks it for itself.
pub trait Size {
    ghost bytes: { ℕ };
}

impl Size for Brand {
    ghost bytes = { 0 };
}

// The first pass of an empty queue learns the size of its buffers.
struct OfSize<E> {
    of: PhantomData<E>,
}

impl<E: Size> Split<PassView> for OfSize<E> {
    ghost left = { λ v. pass_view true true E.bytes 0 v.put v.taken };

    ghost right = { λ v. spent };
}

// One pass puts and another takes, and one does both again once they are joined.
pub(crate) struct Roles;

impl Split<PassView> for Roles {
    ghost use Rattle.std.specs.Prelude.{length};

    ghost left = { λ v. pass_view true false v.size 0 v.put [] };

    ghost right = { λ v. pass_view false true v.size (length v.put) [] v.taken };
}

impl Join<PassView> for Roles {
    ghost both = { λ v w. pass_view true true v.size 0 v.put w.taken };

    ghost spent = { spent };
}

/// A queue of buffers that keeps their order.
pub(crate) type BufQueue = RuledArrayQueue<Buf, PassView, InOrder>;

/// An empty queue with so many places for buffers of this size, and its one pass.
///
/// # Errors
///
/// Where no memory is left for it.
pub(crate) fn open_queue(
    alloc: Global,
    places: usize,
    size: u32,
) -> Result<(BufQueue, Pass<Buf, PassView>), AllocError>
    requires { 0 < places }
    ensures queue { IfOk result (λ r. (ruled_capacity r.0 ≡ places) × IsPassOf r.0 r.1) }
    ensures new { IfOk result (λ r. view r.1 ≡ pass_view true true size 0 [] []) }
{
    let (queue, mut pass) = BufQueue::ruled(alloc, places)?;
    set_size::<Brand>(&queue, &mut pass, size);
    Ok((queue, pass))
}

// The pass learns the size. The pass that is split off knows nothing, and is let go.
fn set_size<E: Size>(queue: &BufQueue, pass: &mut Pass<Buf, PassView>, size: u32)
    requires pass { IsPassOf queue.now pass.old × (view pass.old ≡ pass_view true true 0 0 [] []) }
    requires size { E.bytes ≡ size }
    ensures pass { IsPassOf queue.now pass.new × (view pass.new ≡ pass_view true true size 0 [] []) }
{
    queue.another::<OfSize<E>>(pass);
}
