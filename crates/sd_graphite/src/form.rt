use crate::record::write_record;
use sd_outside::{Sink, WriteFault};
use sd_plan::Names;
use sd_record::{Record, RecordText};

/// Graphite's text, under these names.
#[derive(Clone, Copy)]
pub struct GraphiteText<'a> {
    pub names: &'a Names,
}

impl<'a> RecordText for GraphiteText<'a> {
    ghost use Rattle.sd_model_record.specs.Backends.{graphite_text};

    ghost text_of = { λ s. graphite_text s.names.now };

    fn write<K: Sink>(&self, rec: &mut Record<'_>, sink: &mut K) -> Result<(), WriteFault> {
        write_record(rec, self.names, sink)
    }
}
