ghost use Rattle.std.specs.Prelude.{◌≡◌, ◌≢◌, ℕ, List};
ghost use Rattle.sd_model_outside.specs.Outside.{Object, Rose};
ghost use Rattle.sd_model_outside.specs.Uses.{AfterDeliveries, AfterMark, Delivery, Mark, NotUsed, Written, missed};

/// No fault, no failure. Of a flush: where a backend is used and its count of faults doesn't rise in that flush, the
/// flush is marked as written. Of several: where the count doesn't rise, none is missed.
pub fn no_fault_no_failure()
    ensures flush { (mark : Mark) (text : List ℕ) (old new : Object)
        → mark ≢ NotUsed → ¬ Rose old.faults new.faults → AfterMark mark text old new → mark ≡ Written }
    ensures flushes { (deliveries : List Delivery) (old new : Object)
        → ¬ Rose old.faults new.faults → AfterDeliveries deliveries old new → missed deliveries ≡ 0 }
{}
