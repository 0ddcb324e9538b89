ghost use Rattle.std.specs.Prelude.{◌≡◌, ◌+◌, ◌*◌, ◌<◌, ◌≤◌, ◌^◌, length, map, OnOk, IfErr};
ghost use Rattle.sd_model_outside.specs.Outside.{Place, opened, Host};
ghost use Rattle.sd_model_replay.specs.Replay.{is_used, targets_of};
ghost use Rattle.sd_model_call.specs.Call.{StopsAmong};
ghost use Rattle.sd_model_call.specs.Opening.{OfWire, numbered, opened_all, repeated, replay_openings, wire_openings};
ghost use Rattle.sd_plan.specs.Entries.{node_view, target_view};
ghost use Rattle.sd_outside.specs.Backends.{back_of, kind_of, uses};
ghost use Rattle.sd_outside.specs.Places.{place_of};
ghost use Rattle.sd_opening.specs.Answers.{answer_of, part_of};
ghost use Rattle.sd_opening.specs.Causes.{AreOpened, BackStops, back_places, EachStops, IsNotOpened, WhereStops, opened_each, opened_where};
ghost use Rattle.sd_opening.specs.World.{SameRest, world_of};

use crate::status::{Part, Status};
use crate::world::WorldOf;
use sd_config::Settings;
use sd_outside::{
    Address, Back, Backend, BackendKind, Backs, Name, OpenRefusal, Opens, TryBackend, Wire,
};
use sd_plan::{Node, Target};
use sd_run::{ObjectTypes, targets_of};

/// Opens an object.
///
/// # Errors
///
/// `OpenFault` where it failed, and `OutOfMemory`.
pub(crate) fn open<T: Opens>(object: &mut T, at: &Address, part: Part) -> Result<(), Status>
    ensures ok { OnOk result (T.seen object.new ≡ opened (place_of at.now) (T.seen object.old)) }
    ensures refused { IfErr result (λ status. IsNotOpened (part_of part) (answer_of status) (T.seen object.old) (T.seen object.new)) }
{
    match object.open_at(at) {
        Ok(()) => Ok(()),
        Err(OpenRefusal::Failed) => Err(Status::OpenFault { part }),
        Err(OpenRefusal::OutOfMemory) => Err(Status::OutOfMemory),
    }
}

/// What a wire is opened to.
pub(crate) trait Peer {
    // Where it is.
    ghost place: { Self → Place };

    /// The address at which a wire to it is opened.
    fn address(&self) -> Address
        ensures { place_of result ≡ place self.now };
}

impl Peer for Target {
    ghost place = { λ target. Host (target_view target).host (target_view target).port };

    fn address(&self) -> Address {
        Address::Host {
            host: self.host.clone().unwrap(),
            port: self.port,
        }
    }
}

impl Peer for Node {
    ghost place = { λ node. Host (node_view node).host (node_view node).port };

    fn address(&self) -> Address {
        Address::Host {
            host: self.host.clone().unwrap(),
            port: self.port,
        }
    }
}

/// Opens a wire to each peer, in order; the first has this number.
///
/// # Errors
///
/// `OpenFault` where one failed, and `OutOfMemory`.
fn open_wires<N: Peer, L: Wire>(first: u16, peers: &[N], wires: &mut [L]) -> Result<(), Status>
    requires { first + length peers.now < 2 ^ 16 }
    ensures ok { OnOk result (map L.seen wires.new ≡ opened_each (map N.place peers.now) (map L.seen wires.old)) }
    ensures refused { IfErr result (λ status. EachStops OfWire first (map N.place peers.now) (answer_of status) (map L.seen wires.old) (map L.seen wires.new)) }
    ensures count { length wires.new ≡ length wires.old }
{
    let Some((peer, peers)) = peers.split_first() else {
        return Ok(());
    };
    let Some((wire, wires)) = wires.split_first_mut() else {
        return Ok(());
    };
    open(wire, &peer.address(), Part::Wire(first))?;
    open_wires(first + 1, peers, wires)
}

/// Opens so many runs of wires, each with a wire to each peer, in order; the first wire has this number.
///
/// # Errors
///
/// `OpenFault` where one failed, and `OutOfMemory`.
fn open_runs<N: Peer, L: Wire>(
    first: u16,
    runs: u16,
    peers: &[N],
    wires: &mut [L],
) -> Result<(), Status>
    requires fits { first + runs * length peers.now < 2 ^ 16 }
    requires some { runs * length peers.now ≤ length wires.old }
    ensures ok { OnOk result (map L.seen wires.new ≡ opened_each (repeated runs (map N.place peers.now)) (map L.seen wires.old)) }
    ensures refused { IfErr result (λ status. EachStops OfWire first (repeated runs (map N.place peers.now)) (answer_of status) (map L.seen wires.old) (map L.seen wires.new)) }
    ensures count { length wires.new ≡ length wires.old }
{
    if runs == 0 {
        return Ok(());
    }
    let (run, wires) = wires.split_at_mut(peers.len());
    open_wires(first, peers, run)?;
    let used = u16::try_from(peers.len()).unwrap();
    open_runs(first + used, runs - 1, peers, wires)
}

/// Opens so many runs of a world's wires, each with a wire to each peer, in order.
///
/// # Errors
///
/// `OpenFault` where one failed, and `OutOfMemory`.
pub(crate) fn open_peers<N: Peer, K: ObjectTypes>(
    runs: u16,
    peers: &[N],
    world: &mut WorldOf<K>,
) -> Result<(), Status>
    requires few { runs * length peers.now ≤ 256 }
    requires wires { 256 ≤ length (world.old).wires.items }
    ensures opened { OnOk result (world_of K.R.seen K.O.seen K.B.seen K.D.seen K.L.seen K.E.seen K.P.seen K.Q.seen K.S.seen world.new
        ≡ opened_all (world_of K.R.seen K.O.seen K.B.seen K.D.seen K.L.seen K.E.seen K.P.seen K.Q.seen K.S.seen world.old) (numbered OfWire 0 (repeated runs (map N.place peers.now)))) }
    ensures refused { IfErr result (λ status. StopsAmong (numbered OfWire 0 (repeated runs (map N.place peers.now))) (answer_of status)
        (world_of K.R.seen K.O.seen K.B.seen K.D.seen K.L.seen K.E.seen K.P.seen K.Q.seen K.S.seen world.old)
        (world_of K.R.seen K.O.seen K.B.seen K.D.seen K.L.seen K.E.seen K.P.seen K.Q.seen K.S.seen world.new)) }
    ensures count { length (world.new).wires.items ≡ length (world.old).wires.items }
    ensures packets { (world.new).packets ≡ (world.old).packets }
    ensures door { (world.new).door ≡ (world.old).door }
    ensures streams { (world.new).streams ≡ (world.old).streams }
    ensures rest { SameRest world.old world.new }
    ensures backs { (world.new).backs ≡ (world.old).backs }
    ensures same_use { (world_of K.R.seen K.O.seen K.B.seen K.D.seen K.L.seen K.E.seen K.P.seen K.Q.seen K.S.seen world.new).uses ≡ (world_of K.R.seen K.O.seen K.B.seen K.D.seen K.L.seen K.E.seen K.P.seen K.Q.seen K.S.seen world.old).uses }
{
    open_runs(0, runs, peers, &mut world.wires)
}

/// Opens so many runs of wires, each with a wire to each target of the repeater.
///
/// # Errors
///
/// `OpenFault` where one failed, and `OutOfMemory`.
pub(crate) fn open_repeater<K: ObjectTypes>(
    runs: u16,
    settings: &Settings,
    world: &mut WorldOf<K>,
) -> Result<(), Status>
    requires runs { runs ≤ 16 }
    requires wires { 256 ≤ length (world.old).wires.items }
    ensures opened { OnOk result (world_of K.R.seen K.O.seen K.B.seen K.D.seen K.L.seen K.E.seen K.P.seen K.Q.seen K.S.seen world.new
        ≡ opened_all (world_of K.R.seen K.O.seen K.B.seen K.D.seen K.L.seen K.E.seen K.P.seen K.Q.seen K.S.seen world.old) (wire_openings runs settings.now)) }
    ensures refused { IfErr result (λ status. StopsAmong (wire_openings runs settings.now) (answer_of status)
        (world_of K.R.seen K.O.seen K.B.seen K.D.seen K.L.seen K.E.seen K.P.seen K.Q.seen K.S.seen world.old)
        (world_of K.R.seen K.O.seen K.B.seen K.D.seen K.L.seen K.E.seen K.P.seen K.Q.seen K.S.seen world.new)) }
    ensures count { length (world.new).wires.items ≡ length (world.old).wires.items }
    ensures packets { (world.new).packets ≡ (world.old).packets }
    ensures door { (world.new).door ≡ (world.old).door }
    ensures streams { (world.new).streams ≡ (world.old).streams }
    ensures rest { SameRest world.old world.new }
    ensures same_use { (world_of K.R.seen K.O.seen K.B.seen K.D.seen K.L.seen K.E.seen K.P.seen K.Q.seen K.S.seen world.new).uses ≡ (world_of K.R.seen K.O.seen K.B.seen K.D.seen K.L.seen K.E.seen K.P.seen K.Q.seen K.S.seen world.old).uses }
    ensures few { length (targets_of settings.now) ≤ 16 }
{
    open_peers::<Target, K>(runs, targets_of(settings), world)
}

/// Opens an object, where it is used.
///
/// # Errors
///
/// `OpenFault` where it failed, and `OutOfMemory`.
pub(crate) fn open_where<T: Opens>(
    used: bool,
    object: &mut T,
    at: &Address,
    part: Part,
) -> Result<(), Status>
    ensures ok { OnOk result (T.seen object.new ≡ opened_where used (place_of at.now) (T.seen object.old)) }
    ensures refused { IfErr result (λ status. WhereStops used (part_of part) (answer_of status) (T.seen object.old) (T.seen object.new)) }
{
    if used { open(object, at, part) } else { Ok(()) }
}

/// Where backends are opened: Graphite at this address, and each other one at the file with the empty name.
#[derive(Drop)]
struct BackPlaces<'a> {
    graphite: &'a Address,
}

impl BackPlaces<'_> {
    fn of(&self, kind: BackendKind) -> Address
        ensures { place_of result ≡ back_places (place_of (self.now).graphite.now) (kind_of kind) }
    {
        match kind {
            BackendKind::Graphite => self.graphite.copied(),
            _ => Address::File(Name::new()),
        }
    }
}

impl<B: Backend> TryBackend<Back<B>> for BackPlaces<'_> {
    type Refusal = Status;

    ghost use Rattle.sd_opening.specs.Answers.{answer_of};
    ghost use Rattle.sd_opening.specs.Causes.{FailsBack, OpensBack, back_places};
    ghost use Rattle.sd_outside.specs.Places.{place_of};

    ghost does = { λ places. OpensBack B.seen (back_places (place_of places.graphite.now)) };

    ghost fails = { λ places status. FailsBack B.seen (back_places (place_of places.graphite.now)) (answer_of status) };

    fn try_one(&self, kind: BackendKind, back: &mut Back<B>) -> Result<(), Status> {
        open_where(
            back.is_used,
            &mut back.object,
            &self.of(kind),
            Part::Backend(kind),
        )
    }
}

/// Opens each backend that is used: Graphite at this address, and each other one at the file with the empty name.
///
/// # Errors
///
/// `OpenFault` where one failed, and `OutOfMemory`.
pub(crate) fn open_backs<B: Backend>(backs: &mut Backs<B>, graphite: &Address) -> Result<(), Status>
    ensures opened { OnOk result (AreOpened (uses backs.old) (back_places (place_of graphite.now)) (back_of B.seen backs.old) (back_of B.seen backs.new)) }
    ensures refused { IfErr result (λ status. BackStops (uses backs.old) (back_places (place_of graphite.now)) (answer_of status) (back_of B.seen backs.old) (back_of B.seen backs.new)) }
    ensures same_use { uses backs.new ≡ uses backs.old }
{
    backs.try_each(&BackPlaces { graphite })
}

/// Opens what a replay by these settings uses: the script, a wire for each target of the repeater, and each backend that is used.
///
/// # Errors
///
/// `OpenFault` where an object failed, and `OutOfMemory`.
pub fn open_replay<K: ObjectTypes>(
    settings: &Settings,
    script: Name,
    world: &mut WorldOf<K>,
) -> Result<(), Status>
    requires uses { (world_of K.R.seen K.O.seen K.B.seen K.D.seen K.L.seen K.E.seen K.P.seen K.Q.seen K.S.seen world.old).uses ≡ is_used settings.now }
    requires wires { 256 ≤ length (world.old).wires.items }
    ensures opened { OnOk result (world_of K.R.seen K.O.seen K.B.seen K.D.seen K.L.seen K.E.seen K.P.seen K.Q.seen K.S.seen world.new
        ≡ opened_all (world_of K.R.seen K.O.seen K.B.seen K.D.seen K.L.seen K.E.seen K.P.seen K.Q.seen K.S.seen world.old) (replay_openings script.items settings.now)) }
    ensures refused { IfErr result (λ status. StopsAmong (replay_openings script.items settings.now) (answer_of status)
        (world_of K.R.seen K.O.seen K.B.seen K.D.seen K.L.seen K.E.seen K.P.seen K.Q.seen K.S.seen world.old)
        (world_of K.R.seen K.O.seen K.B.seen K.D.seen K.L.seen K.E.seen K.P.seen K.Q.seen K.S.seen world.new)) }
    ensures settings { (world.new).settings ≡ (world.old).settings }
    ensures packets { (world.new).packets ≡ (world.old).packets }
    ensures door { (world.new).door ≡ (world.old).door }
    ensures streams { (world.new).streams ≡ (world.old).streams }
    ensures beat { (world.new).beat ≡ (world.old).beat }
    ensures probe { (world.new).probe ≡ (world.old).probe }
    ensures same_use { (world_of K.R.seen K.O.seen K.B.seen K.D.seen K.L.seen K.E.seen K.P.seen K.Q.seen K.S.seen world.new).uses ≡ (world_of K.R.seen K.O.seen K.B.seen K.D.seen K.L.seen K.E.seen K.P.seen K.Q.seen K.S.seen world.old).uses }
    ensures count { length (world.new).wires.items ≡ length (world.old).wires.items }
    ensures few { OnOk result (length (targets_of settings.now) ≤ 16) }
{
    open(&mut world.script, &Address::File(script), Part::Script)?;
    open_repeater::<K>(1, settings, world)?;
    open_backs(&mut world.backs, &Address::File(Name::new()))
}
