use sd_config::Settings;
use sd_shared::Shared;

/// What the answers of admin sessions come from: what the workers of a server share, and the settings in force.
#[derive(Drop)]
pub(crate) struct AdminShared<'s, 'a, G, C> {
    pub workers: &'s Shared<'a, G, C>,
    pub settings: &'s Settings,
}
