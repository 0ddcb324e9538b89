ghost use Rattle.std.specs.Prelude.{◌≡◌, ◌≤◌, ℕ, List, length, min, Some, None, Ok, Err};
ghost use Rattle.sd_model_outside.specs.Backend.{Backend};
ghost use Rattle.sd_model_outside.specs.Outside.{Rose, Used, given, last_count, object_at};
ghost use Rattle.sd_model_settings.specs.Settings.{SettingsFlaw, settings, Settings};
ghost use Rattle.sd_model_replay.specs.Script.{ScriptCommand, script_text, ScriptFlaw};
ghost use Rattle.sd_model_record.specs.Totals.{Total};
ghost use Rattle.sd_model_replay.specs.AccountingTheorem.{Seen, Complete, End, Faulted, LimitReached};
ghost use Rattle.sd_replay.specs.Replayed.{Replayed};
ghost use Rattle.sd_model_call.specs.Opening.{World};
ghost use Rattle.sd_model_call.specs.Call.{Drill, Proxy, form, Accounts, Answer, BadScript, Done, Misset, Worn};
ghost use Rattle.sd_model_call.specs.Drill.{drill_text};
ghost use Rattle.sd_law_call.specs.Completeness.{IsScripted, Asks, AsksPlainly, WasExecuted, WasExecutedWell, EndsSo, IsBlocked, IsCutOff, IsFull, IsLongest, IsReported, IsUnhindered, IsWhole, NoneMissed, refusal, start_of};
ghost use Rattle.sd_model_call.specs.Proxy.{AnswersProxy, ProxyAccounts, proxy_flaw};
ghost use Rattle.sd_law_call.specs.ServerCompleteness.{AsksFor, IsProxyCauseOf, IsRelayed, IsUnhinderedProxy, NoOtherFailed};
ghost use Rattle.sd_model_serve.specs.Receiving.{most_turns};

/// A replay that nothing hinders comes to the word that ends the script. One whose script is cut off behind some records, by a
/// flaw, stops at that place and tells which, and one of as many records as there may be executes these, and then no more,
/// unless a write failed before.
pub fn unhindered_replays_complete()
    ensures complete { (settings : Settings) (old new : Seen) (commands : List ScriptCommand) (rest : List ℕ) (end : End)
        → IsUnhindered settings old new commands rest → Replayed settings end old new → (totals : List Total) × (end ≡ Complete totals) }
    ensures cut_off { (settings : Settings) (old new : Seen) (commands : List ScriptCommand) (flaw : ScriptFlaw) (bytes : List ℕ) (end : End)
        → IsCutOff settings old new commands flaw bytes → Replayed settings end old new
        → EndsSo (Faulted (min (length (script_text commands)) last_count) flaw) end }
    ensures longest { (settings : Settings) (old new : Seen) (commands : List ScriptCommand) (bytes : List ℕ) (end : End)
        → IsLongest settings old new commands bytes → Replayed settings end old new → EndsSo (LimitReached most_turns) end }
{}

/// A call that nothing hinders executes the whole script, unless memory, a wire or a backend is lacking; and where it
/// says that it did, it executed just the script's records. So a script that is cut off, or too long, is told.
pub fn unhindered_calls_complete()
    ensures answer { (words : List (List ℕ)) (values : Settings) (old new : World) (commands : List ScriptCommand) (rest : List ℕ) (answer : Answer)
        → AsksPlainly words values old new → IsUnhindered values old.seen new.seen commands rest
        → Accounts words old new answer → IsFull Done answer }
    ensures whole { (words : List (List ℕ)) (values : Settings) (old new : World) (commands : List ScriptCommand) (rest : List ℕ) (answer : Answer)
        → AsksPlainly words values old new → IsUnhindered values old.seen new.seen commands rest
        → NoneMissed values old.seen new.seen → Accounts words old new answer → IsWhole Done answer }
    ensures done { (words : List (List ℕ)) (values : Settings) (old new : World) (commands : List ScriptCommand) (rest : List ℕ) (plainly : AsksPlainly words values old new)
        → IsUnhindered values old.seen new.seen commands rest
        → Accounts words old new Done → WasExecuted values (start_of values plainly.asks.script old new) new.seen commands rest }
    ensures well { (words : List (List ℕ)) (values : Settings) (old new : World) (commands : List ScriptCommand) (rest : List ℕ) (plainly : AsksPlainly words values old new)
        → IsUnhindered values old.seen new.seen commands rest → NoneMissed values old.seen new.seen
        → Accounts words old new Done → WasExecutedWell values (start_of values plainly.asks.script old new) new.seen commands }
    ensures cut_off { (words : List (List ℕ)) (values : Settings) (old new : World) (commands : List ScriptCommand) (flaw : ScriptFlaw) (bytes : List ℕ) (answer : Answer)
        → AsksPlainly words values old new → IsCutOff values old.seen new.seen commands flaw bytes
        → Accounts words old new answer → IsReported (BadScript (min (length (script_text commands)) last_count) flaw) answer }
    ensures longest { (words : List (List ℕ)) (values : Settings) (old new : World) (commands : List ScriptCommand) (bytes : List ℕ) (answer : Answer)
        → AsksPlainly words values old new → IsLongest values old.seen new.seen commands bytes
        → Accounts words old new answer → IsReported (Worn most_turns) answer }
    ensures outward { (words : List (List ℕ)) (values : Settings) (old new : World) (ended answer : Answer)
        → AsksPlainly words values old new → NoneMissed values old.seen new.seen → Accounts words old new answer → IsFull ended answer → IsWhole ended answer }
{}

/// A call whose settings have a flaw opens nothing else: it says so, unless memory is lacking, or the settings can't be
/// opened or read, which their count of faults then tells.
pub fn blocked_calls_stop()
    ensures answer { (words : List (List ℕ)) (old new : World) (bytes : List ℕ) (refused answer : Answer)
        → Asks words old new bytes → refusal (settings bytes) ≡ Some refused → Accounts words old new answer → IsBlocked refused answer }
    ensures whole { (words : List (List ℕ)) (old new : World) (bytes : List ℕ) (refused answer : Answer)
        → Asks words old new bytes → refusal (settings bytes) ≡ Some refused → ¬ Rose old.settings.faults new.settings.faults
        → Accounts words old new answer → IsWhole refused answer }
{}

/// A drill whose output counts no fault writes its text, unless memory is lacking; and whatever it answers, nothing that is
/// seen of any object but the output changed.
pub fn drills_complete()
    ensures answer { (words : List (List ℕ)) (n : ℕ) (old new : World) (answer : Answer)
        → form words ≡ Some (Drill n) → ¬ Rose old.seen.output.faults new.seen.output.faults → Accounts words old new answer → IsWhole Done answer }
    ensures done { (words : List (List ℕ)) (n : ℕ) (old new : World)
        → form words ≡ Some (Drill n) → Accounts words old new Done → new.seen.output ≡ given (drill_text n) old.seen.output }
    ensures only { (words : List (List ℕ)) (n : ℕ) (old new : World) (answer : Answer)
        → form words ≡ Some (Drill n) → Accounts words old new answer → new ≡ record old { seen = record old.seen { output = new.seen.output } } }
{}

/// A proxy that nothing hinders sends on what its sources give, unless memory, the wire of a node or its port is lacking; one whose settings
/// have a flaw, or something that keeps it from them, says so. Each answer has its cause: where all was done, the sources and the
/// beat have nothing left.
pub fn unhindered_proxies_relay()
    ensures relays { (words : List (List ℕ)) (values : Settings) (old new : World) (bytes : List ℕ) (answer : Answer)
        → AsksFor Proxy words old bytes → settings bytes ≡ Ok values → proxy_flaw values ≡ None → IsUnhinderedProxy old new
        → AnswersProxy (form words) answer old new → IsRelayed answer }
    ensures whole { (words : List (List ℕ)) (values : Settings) (old new : World) (bytes : List ℕ) (answer : Answer)
        → AsksFor Proxy words old bytes → settings bytes ≡ Ok values → proxy_flaw values ≡ None → IsUnhinderedProxy old new
        → NoOtherFailed old new → AnswersProxy (form words) answer old new → IsWhole Done answer }
    ensures blocked { (words : List (List ℕ)) (flaw : SettingsFlaw) (old new : World) (bytes : List ℕ) (answer : Answer)
        → AsksFor Proxy words old bytes → settings bytes ≡ Err flaw → AnswersProxy (form words) answer old new → IsBlocked (Misset flaw) answer }
    ensures unfit { (words : List (List ℕ)) (values : Settings) (flaw : SettingsFlaw) (old new : World) (bytes : List ℕ) (answer : Answer)
        → AsksFor Proxy words old bytes → settings bytes ≡ Ok values → proxy_flaw values ≡ Some flaw
        → AnswersProxy (form words) answer old new → IsBlocked (Misset flaw) answer }
    ensures causes { (name : List ℕ) (old new : World) (answer : Answer) → ProxyAccounts name answer old new → IsProxyCauseOf name answer old new }
{}

/// A call that isn't asked to serve keeps the counts of faults: none falls. And the output stays where it was opened.
pub fn faults_are_kept()
    ensures settings { (words : List (List ℕ)) (old new : World) (answer : Answer)
        → IsScripted (form words) → Accounts words old new answer → old.settings.faults ≤ new.settings.faults }
    ensures script { (words : List (List ℕ)) (old new : World) (answer : Answer)
        → IsScripted (form words) → Accounts words old new answer → old.seen.script.faults ≤ new.seen.script.faults }
    ensures backs { (words : List (List ℕ)) (old new : World) (answer : Answer) (b : Backend)
        → IsScripted (form words) → Accounts words old new answer → (old.seen.backs b).faults ≤ (new.seen.backs b).faults }
    ensures output { (words : List (List ℕ)) (old new : World) (answer : Answer)
        → IsScripted (form words) → Accounts words old new answer → Used old.seen.output new.seen.output }
    ensures wires { (words : List (List ℕ)) (old new : World) (answer : Answer) (i : ℕ)
        → IsScripted (form words) → Accounts words old new answer → (object_at i old.seen.wires).faults ≤ (object_at i new.seen.wires).faults }
{}
