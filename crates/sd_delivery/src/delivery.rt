use crate::backs::deliver;
use log::Log;
use sd_desk::RoundMarks;
use sd_outside::{Backend, Backs};
use sd_plan::Names;
use sd_record::Record;
use std::sync::Wait;

/// Where the texts of rounds go: to the backends themselves, or to their outlets.
pub trait Delivery {
    ghost use Rattle.std.specs.Prelude.{◌≡◌, ℕ, List};
    ghost use Rattle.sd_model_outside.specs.Backend.{Backend};
    ghost use Rattle.sd_model_record.specs.Backends.{text_of};
    ghost use Rattle.sd_model_record.specs.Desk.{Marks};
    ghost use Rattle.sd_desk.specs.Marks.{marks_of};
    ghost use Rattle.sd_record.specs.Record.{record_view, room_of, SameScratch};

    // It may be given a record.
    ghost is_ready: { Self → Type 0 };

    // It was given a record with these texts, one for each backend, and answered these marks.
    ghost gives: { (Backend → List ℕ) → Marks → Self → Self → Type 0 };

    // It was told that no record comes.
    ghost ends: { Self → Self → Type 0 };

    /// Gives each backend that is used its text of a record, Graphite first, and answers how those took part that were written
    /// to. It takes no memory.
    fn give<R: Wait + Log>(&mut self, rt: &R, rec: &mut Record<'_>, names: &Names) -> RoundMarks
        requires ready { is_ready self.old }
        ensures ready { is_ready self.new }
        ensures gives { gives (λ b. text_of names.now b (record_view rec.old)) (marks_of result) self.old self.new }
        ensures room { room_of rec.new ≡ room_of rec.old }
        ensures same_scratch { SameScratch rec.new rec.old };

    /// Ends the delivery: no record comes.
    fn end(&mut self)
        requires ready { is_ready self.old }
        ensures ready { is_ready self.new }
        ensures ends { ends self.old self.new };
}

/// Texts that go to the backends themselves.
impl<B: Backend> Delivery for Backs<B> {
    ghost use Rattle.std.specs.Prelude.{◌≡◌, ⊤};
    ghost use Rattle.sd_delivery.specs.Delivery.{GivesBackends};

    ghost is_ready = { λ backs. ⊤ };

    ghost gives = { GivesBackends B.seen };

    ghost ends = { λ old new. new ≡ old };

    fn give<R: Wait + Log>(&mut self, _rt: &R, rec: &mut Record<'_>, names: &Names) -> RoundMarks {
        deliver(rec, names, self)
    }

    fn end(&mut self) {}
}
