use sd_config::Settings;
use sd_proxy::ProxyHub;

/// What the workers of a proxy share: the nodes that are up and the desk, the settings in force, and a gate that the checker passes.
#[derive(Drop)]
pub struct Live<'a, G> {
    pub hub: ProxyHub<'a>,
    pub settings: &'a Settings,
    pub gate: &'a G,
}

impl<'a, G> Live<'a, G> {
    ghost use Rattle.std.specs.Prelude.{◌≡◌};

    /// What the workers of a proxy share, with this cell and desk, these settings and this gate.
    pub(crate) fn new(hub: ProxyHub<'a>, settings: &'a Settings, gate: &'a G) -> Live<'a, G>
        ensures hub { (result.hub.cell.now ≡ hub.entry.cell.now) × (result.hub.desk.now ≡ hub.entry.desk.now) }
        ensures settings { result.settings.now ≡ settings.now }
        ensures gate { result.gate.now ≡ gate.now }
    {
        Live {
            hub,
            settings,
            gate,
        }
    }
}
