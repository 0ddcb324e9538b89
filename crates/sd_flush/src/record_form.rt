use sd_plan::{Names, Reckoning};

/// How records are made, and which names they have in Graphite.
#[derive(Clone, Copy)]
pub struct RecordForm<'a> {
    pub plan: &'a Reckoning,
    pub names: &'a Names,
}
