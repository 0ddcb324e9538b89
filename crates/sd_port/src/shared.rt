use sd_config::Settings;
use sd_proxy_desk::ProxyHub;

/// What the answers of a port come from: what the proxy's threads share, and the settings in force.
#[derive(Drop)]
pub struct PortShared<'a> {
    pub hub: &'a ProxyHub<'a>,
    pub settings: &'a Settings,
}
