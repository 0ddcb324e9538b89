ghost use Rattle.std.specs.Prelude.{◌≡◌, ℕ, ◌+◌, ◌<◌, List, [], ◌∷◌, ◌++◌, codes, map};
ghost use Rattle.sd_model_settings.specs.Entries.{Node};
ghost use Rattle.sd_model_record.specs.Totals.{number_in};
ghost use Rattle.sd_model_proxy.specs.Routes.{AreBatched, Batched, sums_of_totals, relay_counts, Read};
ghost use Rattle.sd_model_proxy.specs.Relays.{Relay, relay_totals};
ghost use Rattle.sd_model_shard.specs.Shard.{last_number};

/// Each line was bad, was sent, had no owner, or its packet's send failed. So the number of lines is the sum of these, in a
/// receiver's totals too, where it hasn't reached the last count.
pub fn lines_have_one_fate()
    ensures lines { (most : ℕ) (nodes : List Node) (packets : ℕ) (reads : List Read) (batched : Batched) → AreBatched most nodes reads batched
        → (let n : List ℕ → ℕ = number_in (relay_counts nodes packets reads batched) in
        n (codes "lines") ≡ n (codes "bad") + n (codes "sent") + n (codes "unowned") + n (codes "send_faults")) }
    ensures totals { (most : ℕ) (nodes : List Node) (r : Relay) → AreBatched most nodes r.reads r.batched
        → (let n : List ℕ → ℕ = number_in (relay_totals nodes r) in
        n (codes "lines") < last_number → n (codes "lines") ≡ n (codes "bad") + n (codes "sent") + n (codes "unowned") + n (codes "send_faults")) }
{}

/// The sums of one receiver's totals are these totals, and those of receivers after others are the sums of both.
pub fn totals_add_up()
    ensures one { (nodes : List Node) (r : Relay) → sums_of_totals (map (relay_totals nodes) (r ∷ [])) ≡ relay_totals nodes r }
    ensures more { (nodes : List Node) (xs ys : List Relay)
        → sums_of_totals (map (relay_totals nodes) (xs ++ ys)) ≡ sums_of_totals (sums_of_totals (map (relay_totals nodes) xs) ∷ sums_of_totals (map (relay_totals nodes) ys) ∷ []) }
{}
