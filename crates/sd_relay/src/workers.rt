ghost use Rattle.std.specs.Prelude.{◌≡◌, All, IfSome, length};
ghost use Rattle.sd_live.specs.Live.{IsCheckerOf, IsPassOf};
ghost use Rattle.sd_proxy_desk.specs.Shared.{IsSeatOf, number_of_seat};
ghost use Rattle.sd_proxy_desk.specs.Checking.{Checks, check_seen};
ghost use Rattle.sd_relay.specs.Checking.{IsReadyToCheck};
ghost use Rattle.sd_relay.specs.LinePost.{HasReadIfThere, IsLineReady};
ghost use Rattle.sd_relay.specs.Objects.{IsDoorBefore, SameLists, StayParts};
ghost use Rattle.sd_relay.specs.Port.{IsReadyToKeep, PortDone};
ghost use Rattle.sd_relay.specs.Posts.{IsReady, WereRun};

use crate::checking::Checking;
use crate::line_work::LineWork;
use crate::live::Live;
use crate::objects::RelayParts;
use crate::port::{PortPost, PortRoom};
use crate::postings::Posts;
use log::Log;
use sd_outside::{Beat, Datagrams, Door, Gate, Probe, Wire};
use sd_proxy::{Checked, ProxyPass};
use sd_workers::run_workers;
use std::sync::Wait;
use std::thread::Threads;

/// Runs the checker, the keeper of the port, where the settings have one, the reader of lines, if there is one, and the receivers side
/// by side, each in a thread of its own where the machine gives one, until all have ended. What is lent to them is left as each says of
/// its own work.
pub(crate) fn run_relays<
    D: Datagrams + Send,
    L: Wire + Send,
    S: Door<Asking: Send, Telling: Send> + Send,
    P: Beat + Send,
    Q: Probe + Send,
    E: Door<Asking: Send, Telling: Send> + Send,
    G: Gate + Sync,
    R: Threads + Wait + Log + Sync,
>(
    rt: &R,
    live: &Live<'_, G>,
    checker: &mut ProxyPass,
    port: &mut PortRoom,
    parts: &mut RelayParts<'_, '_, '_, '_, '_, '_, D, L, S, P, Q, E>,
    posts: &mut Posts<D, L>,
) -> Checked
    requires checker { IsReadyToCheck live.now.hub.cell.now live.now.hub.desk.now (length live.now.settings.now.lists.nodes) checker.old }
    requires port { IsReadyToKeep live.now.hub.cell.now live.now.hub.desk.now port.old }
    requires door { IsDoorBefore (E.seen parts.old.door.now) }
    requires line_reader { IfSome posts.old.lines (IsLineReady live.now.hub.cell.now live.now.hub.desk.now) }
    requires lines { IsDoorBefore (S.seen parts.old.lines.now) }
    requires receivers { All (IsReady live.now.hub.cell.now live.now.hub.desk.now) posts.old.receivers.items }
    ensures checker { IsCheckerOf live.now.hub.cell.now checker.new.pass }
    ensures checker_seat { IsSeatOf live.now.hub.desk.now checker.new.seat × (number_of_seat checker.new.seat ≡ number_of_seat checker.old.seat) }
    ensures checks { Checks live.now.settings.now.lists.nodes (check_seen checker.old (P.seen parts.old.beat.now) (Q.seen parts.old.probe.now)) (check_seen checker.new (P.seen parts.new.beat.now) (Q.seen parts.new.probe.now)) result }
    ensures port { IsPassOf live.now.hub.cell.now port.new.own.pass × IsSeatOf live.now.hub.desk.now port.new.own.seat × (number_of_seat port.new.own.seat ≡ number_of_seat port.old.own.seat) }
    ensures done { PortDone live.now.settings.now port.old.own port.new.own (E.seen parts.old.door.now) (E.seen parts.new.door.now) }
    ensures lines { HasReadIfThere L.seen live.now.hub.cell.now live.now.hub.desk.now posts.old.lines posts.new.lines (S.seen parts.old.lines.now) (S.seen parts.new.lines.now) }
    ensures receivers { WereRun D.seen L.seen live.now.hub.cell.now live.now.hub.desk.now posts.old.receivers.items posts.new.receivers.items }
    ensures parts { StayParts parts.old parts.new }
    ensures lists { SameLists parts.old parts.new }
{
    let nodes = live.settings.nodes();
    let mut checking = Checking::new(checker, nodes, &mut *parts.beat, &mut *parts.probe);
    let mut keeping = PortPost {
        room: port,
        door: &mut *parts.door,
    };
    let mut line_work = LineWork {
        post: &mut posts.lines,
        door: &mut *parts.lines,
    };
    let receivers = posts.receivers.as_mut_slice();
    run_workers(
        rt,
        live,
        &mut checking,
        &mut keeping,
        &mut line_work,
        receivers,
    );
    checking.got
}
