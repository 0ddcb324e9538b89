ghost use Rattle.std.specs.Prelude.{◌≡◌, ℕ, min, Bool, true};
ghost use Rattle.sd_model_record.specs.Record.{Tally};
ghost use Rattle.sd_model_record.specs.DeskHistory.{DeskHistory, desk_after, AnswersFrom};
ghost use Rattle.sd_law_run.specs.Reported.{TellsFrom};
ghost use Rattle.sd_model_record.specs.Desk.{Desk, Marks, new_desk, IsBalanced};
ghost use Rattle.sd_desk.specs.Sums.{AddsUp, IsInRange, Count, Amounts, number_of};
ghost use Rattle.sd_shared_desk.specs.Counts.{GrewBy, HasCounted, KeepsCounts, Part, nothing, of_history, plus, of_tally, of_taken, of_marks, of_sessions, of_sends};
ghost use Rattle.sd_model_shard.specs.Shard.{last_number};
ghost use Rattle.sd_desk.specs.Steps.{with_tally, taken, marked, with_health, with_admin_fault, with_repeater_faults};

/// The totals of a new desk are the tallies taken and the tally, and its counts are in range. Each change of a desk
/// keeps both, and lets no count fall.
pub fn desks_keep_counts()
    ensures start { (start : ℕ) → AddsUp (new_desk start) × IsInRange (new_desk start) }
    ensures tally { (d : Desk) (t : Tally) (now : ℕ) → KeepsCounts d (with_tally d t now) }
    ensures taken { (d : Desk) → KeepsCounts d (taken d) }
    ensures marks { (d : Desk) (m : Marks) → KeepsCounts d (marked d m) }
    ensures round { (d : Desk) (m : Marks) → KeepsCounts d (marked (taken d) m) }
    ensures health { (d : Desk) (up : Bool) → KeepsCounts d (with_health d up) }
    ensures admin { (d : Desk) → KeepsCounts d (with_admin_fault d) }
    ensures repeater { (d : Desk) (n : ℕ) → KeepsCounts d (with_repeater_faults d n) }
{}

/// While no count has reached its end, the totals are the tallies taken and the tally.
pub fn desks_are_balanced()
    ensures { (d : Desk) → AddsUp d → IsBalanced d }
{}

/// What each change of a desk adds to its thirteen numbers.
pub fn desks_count()
    ensures tally { (d : Desk) (t : Tally) (now : ℕ) → IsInRange d → GrewBy (of_tally t) d (with_tally d t now) }
    ensures taken { (d : Desk) → IsInRange d → GrewBy (of_taken d.tally) d (taken d) }
    ensures marks { (d : Desk) (m : Marks) → IsInRange d → GrewBy (of_marks m) d (marked d m) }
    ensures health { (d : Desk) (up : Bool) → IsInRange d → GrewBy nothing d (with_health d up) }
    ensures admin { (d : Desk) → IsInRange d → GrewBy (of_sessions 1) d (with_admin_fault d) }
    ensures repeater { (d : Desk) (n : ℕ) → IsInRange d → GrewBy (of_sends n) d (with_repeater_faults d n) }
{}

/// What a caller adds in two steps is what it adds in both together.
pub fn parts_add_up()
    ensures none { (p : Part) → HasCounted nothing p p }
    ensures next { (a b : Amounts) (old mid new : Part) → HasCounted a old mid → HasCounted b mid new → HasCounted (plus a b) old new }
{}

/// What a legal history leaves: each number of the desk is the sum of what its calls added, up to the last count. The facts that
/// it tells have the start, the health that was set last before, and the moment of the last message before.
pub fn desk_histories_add_up()
    ensures numbers { (start : ℕ) (acts : DeskHistory) → AnswersFrom (new_desk start) acts → (count : Count)
        → number_of (desk_after start acts) count ≡ min (of_history acts count) last_number }
    ensures reported { (start : ℕ) (acts : DeskHistory) → AnswersFrom (new_desk start) acts → TellsFrom start true start acts }
{}
