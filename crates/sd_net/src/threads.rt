//! That workers may take the objects into threads of their own, and share the gate and the clock.

use crate::tick_beat::TickBeat;
use crate::udp_receiver::UdpReceiver;
use sd_doors::TcpDoor;
use sd_outside::{Backend, Beat, Clock, Datagrams, Door, Gate, NoGate, Probe};
use sd_peers::{GraphiteLink, TcpProbe};
use sd_timing::SystemClock;
use std::thread::Threads;

fn is_receiver<D: Datagrams + Send>(_receiver: &D) {}

fn is_beat<P: Beat + Send>(_beat: &P) {}

fn is_backend<B: Backend + Send>(_backend: &B) {}

fn is_door<E: Door<Asking: Send, Telling: Send> + Send>(_door: &E) {}

fn is_probe<Q: Probe + Send>(_probe: &Q) {}

fn is_gate<G: Gate + Sync>(_gate: &G) {}

fn is_clock<C: Clock + Sync>(_clock: &C) {}

/// What a server is given.
pub(crate) fn are_for_workers<X: Threads + Sync>(
    receiver: &UdpReceiver<'_, HostRuntime>,
    beat: &TickBeat<'_, HostRuntime>,
    link: &GraphiteLink<'_, X>,
    door: &TcpDoor<'_, HostRuntime>,
    probe: &TcpProbe<'_, X>,
    gate: &NoGate,
    clock: &SystemClock<'_, HostRuntime>,
) {
    is_receiver(receiver);
    is_beat(beat);
    is_backend(link);
    is_door(door);
    is_probe(probe);
    is_gate(gate);
    is_clock(clock);
}
