ghost use Rattle.std.specs.Prelude.{◌≡◌, ℕ, List, [], IfOk, false, Ok};
ghost use Rattle.std.specs.List.{AllByRecursion};
ghost use Rattle.sd_law_run.specs.Earlier.{earlier_settings, settings_before_outlets, settings_before_sums, settings_before_batches, earlier_rules, earlier_transport};
ghost use Rattle.sd_model_replay.specs.Replay.{policy_of, Played};
ghost use Rattle.sd_law_shards.specs.Records.{records};
ghost use Rattle.sd_model_settings.specs.Settings.{settings};

/// A file that was accepted before gauges could live longer and lines of timers were chosen has its scripts executed as
/// before: a gauge that goes when idle goes at the first swap, and no record has a class of lines chosen, so each backend gets
/// all lines of its timers.
pub fn earlier_files_play_as_before()
    ensures policy { (bytes : List ℕ) → IfOk (earlier_settings bytes) (λ v. (policy_of v).max_ttl ≡ 1) }
    ensures records { (bytes : List ℕ)
        → IfOk (earlier_settings bytes) (λ v. (played : List Played) → AllByRecursion (λ r. r.calculated ≡ []) (records v played)) }
{}

/// A file that was accepted before gauges could live longer, lines of timers were chosen, and a shard had more than 65,536
/// entries sets the same values: a gauge that goes when idle goes at the first swap, no class of lines is chosen, no text
/// waits for a backend, no port takes streams of lines, no sum is made on arrival, a proxy answers no admin line, flushes aren't aligned,
/// a datagram has one line, and no room is asked for. A file that was accepted later, but before backends had outlets and lines came in
/// streams, sets the same values too, and all from the texts on; one that was accepted before sums were made on arrival and receivers asked
/// for room, and that no sum is made and no room is asked for; and one that was accepted before a proxy answered admin lines, and the three
/// that came then.
pub fn earlier_files()
    ensures kept { (bytes : List ℕ) → IfOk (earlier_settings bytes) (λ v. settings bytes ≡ Ok v) }
    ensures rules { (bytes : List ℕ) → IfOk (earlier_settings bytes) (λ v. v.rules ≡ earlier_rules) }
    ensures transport { (bytes : List ℕ) → IfOk (earlier_settings bytes) (λ v. v.transport ≡ earlier_transport) }
    ensures kept_before_outlets { (bytes : List ℕ) → IfOk (settings_before_outlets bytes) (λ v. settings bytes ≡ Ok v) }
    ensures none_before_outlets { (bytes : List ℕ) → IfOk (settings_before_outlets bytes) (λ v. v.transport ≡ earlier_transport) }
    ensures kept_before_sums { (bytes : List ℕ) → IfOk (settings_before_sums bytes) (λ v. settings bytes ≡ Ok v) }
    ensures no_sums_before { (bytes : List ℕ) → IfOk (settings_before_sums bytes) (λ v. v.transport.sums_on_arrival ≡ false) }
    ensures no_room_before { (bytes : List ℕ) → IfOk (settings_before_sums bytes) (λ v. v.transport.receive_buffer ≡ 0) }
    ensures kept_before_batches { (bytes : List ℕ) → IfOk (settings_before_batches bytes) (λ v. settings bytes ≡ Ok v) }
    ensures none_before_batches { (bytes : List ℕ)
        → IfOk (settings_before_batches bytes)
        (λ v. (v.transport.proxy_mgmt_port ≡ 0) × (v.transport.align_flushes ≡ false) × (v.transport.batch_bytes ≡ 0)) }
{}
