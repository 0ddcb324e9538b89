use sd_config::Settings;
use sd_flush::RecordForm;

/// What a server goes by: its settings, how its records are made, after how many flushes it ends, where 0 is never, the gate that
/// its workers pass, and their clock.
#[derive(Drop)]
pub struct RunSettings<'a, G, C> {
    pub settings: &'a Settings,
    pub form: RecordForm<'a>,
    pub run_flushes: u64,
    pub gate: &'a G,
    pub clock: &'a C,
}
