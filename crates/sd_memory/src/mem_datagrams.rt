ghost use Rattle.std.specs.Prelude.{◌≤◌, All, vec_len};

use crate::calls::next_call_fails;
use crate::mem_object::{Content, MemObject};
use sd_outside::{Datagrams, Faulty, Next, fault};

/// The datagrams that a source in memory has left.
#[derive(Drop)]
pub struct DatagramsLeft {
    packets: Vec<Vec<u8>>,
    taken: usize,
    turns: u64,
    ghost taken_within: { taken ≤ vec_len packets },
    ghost fit: { All (λ packet. vec_len packet ≤ 65527) packets.items },
}

impl Content for DatagramsLeft {
    ghost use Rattle.sd_memory.specs.MemDatagrams.{bare};

    ghost bare = { bare };
}

/// A source of datagrams in memory, which are given when it is made. Each has at most 65,527 bytes.
pub type MemDatagrams = MemObject<DatagramsLeft>;

impl MemDatagrams {
    ghost use Rattle.std.specs.Prelude.{◌≡◌, ◌≤◌, All, vec_len, [], map};
    ghost use Rattle.sd_model_outside.specs.Outside.{Datagrams, fresh};
    ghost use Rattle.sd_outside.specs.Turns.{most_datagram};
    ghost use Rattle.sd_memory.specs.MemObject.{Calls, calls_of};

    /// A source that has the datagrams left, and of which no call is to fail.
    pub fn of(packets: Vec<Vec<u8>>) -> MemDatagrams
        requires { All (λ packet. vec_len packet ≤ most_datagram) packets.items }
        ensures seen { ⟦<MemDatagrams as Faulty>⟧.seen result ≡ fresh (Datagrams (map (λ packet. packet.items) packets.items)) }
        ensures no_calls { calls_of result ≡ record { openings = 0; calls = 0 } }
        ensures fails_no_opening { result.fail_open.items ≡ [] }
        ensures fails_no_call { result.fail_call.items ≡ [] }
    {
        let alloc = *packets.allocator();
        MemObject::around(
            alloc,
            DatagramsLeft {
                packets,
                taken: 0,
                turns: 0,
            },
        )
    }

    /// The datagrams that it has left.
    pub fn remaining(&self) -> &[Vec<u8>]
        ensures { (⟦<MemDatagrams as Faulty>⟧.seen self.now).content ≡ Datagrams (map (λ packet. packet.items) result.now) }
    {
        &self.content.packets[self.content.taken..]
    }

    /// How many turns it took.
    pub fn turns(&self) -> u64
        ensures { result ≡ (⟦<MemDatagrams as Faulty>⟧.seen self.now).turns }
    {
        self.content.turns
    }
}

impl Datagrams for MemDatagrams {
    ghost use Rattle.std.specs.Prelude.{◌≡◌, ◌≤◌, length};
    ghost use Rattle.std.proofs.Common.{arith};
    ghost use Rattle.sd_outside.specs.Turns.{raised};
    ghost use Rattle.sd_outside.specs.Turns.{most_datagram};
    ghost use Rattle.sd_outside.specs.Answers.{Fails, HasEnded, MatchNext};
    ghost use Rattle.sd_memory.specs.MemDatagrams.{Gives, left_of, seen_of};
    ghost use Rattle.sd_memory.specs.MemObject.{Calls, IsToFail, SameFailures, calls_of};

    fn next(&mut self, buf: &mut [u8]) -> Next
        requires { most_datagram ≤ length buf.old }
        ensures answer { MatchNext result
            (λ n. Gives self.old self.new buf.old buf.new n)
            (HasEnded (left_of self.old) (seen_of self.old) (seen_of self.new))
            ⊥
            (Fails (seen_of self.old) (seen_of self.new)) }
        ensures cause { MatchNext result
            (λ n. ¬ IsToFail self.old self.new)
            (¬ IsToFail self.old self.new)
            ⊥
            ((IsToFail self.old self.new) × (buf.new ≡ buf.old)) }
        ensures counted { calls_of self.new
            ≡ record (calls_of self.old) { calls = raised (calls_of self.old).calls } }
        ensures failures_stay { SameFailures self.old self.new }
    {
        if next_call_fails(&mut self.calls, &self.fail_call) {
            fault(&mut self.faults);
            return Next::Failed;
        }
        if self.content.taken == self.content.packets.len() {
            return Next::End;
        }
        let packet = &self.content.packets[self.content.taken];
        let len = packet.len();
        buf[..len].copy_from_slice(packet);
        self.content.taken += 1;
        self.content.turns = self.content.turns.saturating_add(1);
        Next::Packet { len }
    }

    ghost turns_fit = { λ s. Prim.omega arith };
}
