ghost use Rattle.std.specs.Prelude.{◌≡◌, ℕ, ◌<◌, List, [], ◌∷◌, ◌++◌, filter_map};
ghost use Rattle.std.specs.FinMap.{empty};
ghost use Rattle.sd_model_shard.specs.Shard.{State, empty_state, Limits, Policy, Event, step};
ghost use Rattle.sd_model_shard.specs.History.{Act, Asked, History, Legal, after, after_all, answered, state_after, AreDocumented, RowsAreKept, arrival_in, arrivals, Places};
ghost use Rattle.sd_law_shard.specs.Sums.{StandsAt, AreSums, StandsOnce};
ghost use Rattle.sd_law_shard.specs.Reported.{AreReportedBy};

/// Each sample of a legal history is in one place: the journal of one swap, what one deletion took out, among the
/// entries held, or dropped. The rows that each swap answers are those kept before, without those deleted since, and
/// those of its own journal.
pub fn histories_are_accounted()
    ensures places { (limits : Limits) (policy : Policy) (acts : History) → Legal limits policy acts → Places acts (state_after limits policy acts) }
    ensures once { (limits : Limits) (policy : Policy) (acts : History) → Legal limits policy acts
        → (number : ℕ) → number < (state_after limits policy acts).taken → StandsOnce acts number }
    ensures rows { (limits : Limits) (policy : Policy) (acts : History) → Legal limits policy acts → RowsAreKept policy empty [] acts }
{}

/// Summaries are documented: after a legal history the summary of each row that a swap handed out is the documented
/// statistics of the swap's own journal, over the base of the row kept before, and those of the state are the statistics
/// of the entries held.
pub fn summaries_are_documented()
    ensures { (limits : Limits) (policy : Policy) (acts : History) → Legal limits policy acts → AreDocumented limits policy acts }
{}

/// What a shard answers after a legal history is what it would answer if it held the entries themselves: admission, where
/// sums aren't made on arrival, by how many they are; what a swap leaves of each row, how many samples a deletion takes
/// out, and the rows of a dump by their statistics.
pub fn answers_are_reported()
    ensures { (limits : Limits) (policy : Policy) (acts : History) → Legal limits policy acts → AreReportedBy limits policy acts }
{}

/// The numbers of the state after a legal history are what its replies add up to.
pub fn numbers_are_sums()
    ensures { (limits : Limits) (policy : Policy) (acts : History) → Legal limits policy acts → AreSums acts (state_after limits policy acts) }
{}

/// A history is legal where its prefix is and each act behind it is a step; and events with the replies of the step
/// are a legal history.
pub fn histories_grow()
    ensures prefix { (limits : Limits) (policy : Policy) (prefix back : History) → Legal limits policy (prefix ++ back) → Legal limits policy prefix }
    ensures one_more { (limits : Limits) (policy : Policy) (acts : History) (a : Act) → Legal limits policy acts
        → a.reply ≡ (step limits policy (state_after limits policy acts) a.event).reply → Legal limits policy (acts ++ a ∷ []) }
    ensures last { (limits : Limits) (policy : Policy) (acts : History) (a : Act) → Legal limits policy (acts ++ a ∷ [])
        → a.reply ≡ (step limits policy (state_after limits policy acts) a.event).reply }
    ensures stands { (limits : Limits) (policy : Policy) (acts : History) (state : State) (who : ℕ) (event : Event) → StandsAt limits policy acts state
        → StandsAt limits policy (acts ++ record { who = who; event = event; reply = (step limits policy state event).reply } ∷ []) (step limits policy state event).state }
    ensures state { (limits : Limits) (policy : Policy) (acts : History) (a : Act)
        → state_after limits policy (acts ++ a ∷ []) ≡ after limits policy (state_after limits policy acts) a }
    ensures joined { (limits : Limits) (policy : Policy) (state : State) (xs ys : List Asked) → answered limits policy state (xs ++ ys)
        ≡ answered limits policy state xs ++ answered limits policy (after_all limits policy state (answered limits policy state xs)) ys }
    ensures arrivals { (limits : Limits) (policy : Policy) (state : State) (asked : List Asked)
        → arrivals (answered limits policy state asked) ≡ filter_map (λ q. arrival_in q.who q.event) asked }
    ensures answered { (limits : Limits) (policy : Policy) (asked : List Asked) → Legal limits policy (answered limits policy empty_state asked) }
{}
