ghost use Rattle.std.specs.Prelude.{◌≡◌, ◌≢◌, IsTrue};
ghost use Rattle.sd_model_outside.specs.Outside.{Rose};
ghost use Rattle.sd_model_outside.specs.Uses.{NotUsed, AfterMark, FitsUse};
ghost use Rattle.sd_model_record.specs.Backends.{text_of};
ghost use Rattle.sd_record.specs.Record.{record_view, room_of, SameScratch};
ghost use Rattle.sd_desk.specs.Marks.{mark_of, marks_of};
ghost use Rattle.sd_delivery.specs.Delivery.{GivesBackends};

use sd_console::ConsoleText;
use sd_desk::{Mark, RoundMarks};
use sd_graphite::GraphiteText;
use sd_outside::{Back, Backend, Backs, Failed, PerBackend};
use sd_plan::Names;
use sd_record::{Record, RecordText};

/// Gives a backend the text of a record, in a list that is begun and ended. After the first call that fails it isn't
/// called again. Where its count of faults doesn't rise, the text was written.
fn give<T: RecordText, B: Backend>(form: &T, rec: &mut Record<'_>, back: &mut B) -> Mark
    ensures used { mark_of result ≢ NotUsed }
    ensures delivery { AfterMark (mark_of result) (T.text_of form.now (record_view rec.old)) (B.seen back.old) (B.seen back.new) }
    ensures written { ¬ Rose (B.seen back.old).faults (B.seen back.new).faults → result ≡ Mark.Written }
    ensures record { record_view rec.new ≡ record_view rec.old }
    ensures room { room_of rec.new ≡ room_of rec.old }
    ensures same_scratch { SameScratch rec.new rec.old }
{
    let Ok(()) = back.begin() else {
        return Mark::Fault;
    };
    let Ok(()) = form.write(rec, back) else {
        return Mark::Fault;
    };
    match back.finish() {
        Ok(()) => Mark::Written,
        Err(Failed) => Mark::Fault,
    }
}

/// Gives a backend the text of a record where it is used, and leaves it untouched where it isn't.
fn give_if_used<T: RecordText, B: Backend>(
    form: &T,
    rec: &mut Record<'_>,
    back: &mut Back<B>,
) -> Mark
    ensures used { FitsUse (back.old).is_used (mark_of result) }
    ensures delivery { AfterMark (mark_of result) (T.text_of form.now (record_view rec.old)) (B.seen (back.old).object) (B.seen (back.new).object) }
    ensures written { IsTrue (back.old).is_used → ¬ Rose (B.seen (back.old).object).faults (B.seen (back.new).object).faults → result ≡ Mark.Written }
    ensures same_use { (back.new).is_used ≡ (back.old).is_used }
    ensures record { record_view rec.new ≡ record_view rec.old }
    ensures room { room_of rec.new ≡ room_of rec.old }
    ensures same_scratch { SameScratch rec.new rec.old }
{
    if back.is_used {
        give(form, rec, &mut back.object)
    } else {
        Mark::NotUsed
    }
}

/// Gives the backends that are used a record: Graphite its text, then the console its own. One that fails isn't called
/// again, and the other goes on. One that isn't used is untouched. A backend that is used and whose count of faults
/// doesn't rise was given the whole text. No memory is taken.
pub fn deliver<B: Backend>(rec: &mut Record<'_>, names: &Names, backs: &mut Backs<B>) -> RoundMarks
    ensures gives { GivesBackends B.seen (λ b. text_of names.now b (record_view rec.old)) (marks_of result) backs.old backs.new }
    ensures record { record_view rec.new ≡ record_view rec.old }
    ensures room { room_of rec.new ≡ room_of rec.old }
    ensures same_scratch { SameScratch rec.new rec.old }
{
    let graphite = give_if_used(&GraphiteText { names }, rec, &mut backs.graphite);
    let console = give_if_used(&ConsoleText, rec, &mut backs.console);
    PerBackend { graphite, console }
}
