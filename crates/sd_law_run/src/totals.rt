ghost use Rattle.std.specs.Prelude.{◌≡◌, List, length, map, sum_by, if◌then◌else◌};
ghost use Rattle.sd_model_settings.specs.Entries.{Node};
ghost use Rattle.sd_law_record.specs.Sends.{failed_among, packets_of};
ghost use Rattle.sd_model_proxy.specs.Routes.{AreBatched, Batched, over_nodes, Read, joined};

/// Where each line goes alone, the totals are those of the wires: as many lines were sent as there are packets on all wires, and as
/// many weren't as sends failed on them.
pub fn wires_add_up()
    ensures sent { (nodes : List Node) (reads : List Read) (batched : Batched) → AreBatched 0 nodes reads batched
        → over_nodes nodes batched (λ bs. length (packets_of (map (λ b. record { packet = joined b.lines; is_failed = b.is_failed }) bs))) ≡ over_nodes nodes batched (λ batches. sum_by (λ b. if b.is_failed then 0 else length b.lines) batches) }
    ensures failed { (nodes : List Node) (reads : List Read) (batched : Batched) → AreBatched 0 nodes reads batched
        → over_nodes nodes batched (λ bs. failed_among (map (λ b. record { packet = joined b.lines; is_failed = b.is_failed }) bs)) ≡ over_nodes nodes batched (λ batches. sum_by (λ b. if b.is_failed then length b.lines else 0) batches) }
{}
