//! What the answers to a call that is asked to serve say.
ghost use Rattle.std.specs.Prelude.{◌≡◌, ◌⊎◌, ℕ, ◌+◌, ◌<◌, List, length, Ok, Err};
ghost use Rattle.sd_model_outside.specs.Uses.{IsSpent};
ghost use Rattle.sd_model_settings.specs.Settings as file;
ghost use Rattle.sd_model_settings.specs.Settings.{SettingsFlaw, settings};
ghost use Rattle.sd_model_serve.specs.Receiving.{IsShort};
ghost use Rattle.sd_model_run.specs.Run.{rounds_in};
ghost use Rattle.sd_model_call.specs.Call.{Serve, form, Answer, Done, Misset};
ghost use Rattle.sd_model_call.specs.Opening.{World};
ghost use Rattle.sd_law_call.specs.Completeness.{IsBlocked, IsWhole};
ghost use Rattle.sd_model_call.specs.Server.{AnswersServer, HasServed, ServerAccounts, has_streams};
ghost use Rattle.sd_law_call.specs.ServerCompleteness.{AStreamTookMost, AreAllSpent, AsksFor, IsCauseOf, IsServed, IsUnhinderedServer, NoneFailed};

use sd_outside::Clock;

/// A server that nothing hinders serves, by an account in which no stream took the most reads, unless memory, a wire, a backend or a
/// door is lacking; one whose settings have a flaw says so. Each answer has its cause. And where no flushes are asked for, or fewer
/// were made than are, one that says that all was done has read its sources, its beat and its doors to their ends; where some are, it
/// made one more than these, or read its beat to the end.
pub fn unhindered_servers_serve<T: Clock>(clock: &T)
    ensures serves { (words : List (List ℕ)) (values : file.Settings) (old new : World) (bytes : List ℕ) (answer : Answer)
        (asks : AsksFor Serve words old bytes) → settings bytes ≡ Ok values → IsUnhinderedServer old new
        → (account : ServerAccounts asks.name (T.may_say clock.now) answer old new) → ¬ AStreamTookMost account → IsServed answer }
    ensures whole { (words : List (List ℕ)) (values : file.Settings) (old new : World) (bytes : List ℕ) (answer : Answer)
        (asks : AsksFor Serve words old bytes) → settings bytes ≡ Ok values → IsUnhinderedServer old new → NoneFailed old new
        → (account : ServerAccounts asks.name (T.may_say clock.now) answer old new) → ¬ AStreamTookMost account → IsWhole Done answer }
    ensures blocked { (words : List (List ℕ)) (flaw : SettingsFlaw) (old new : World) (bytes : List ℕ) (answer : Answer)
        → AsksFor Serve words old bytes → settings bytes ≡ Err flaw
        → AnswersServer (form words) (T.may_say clock.now) answer old new → IsBlocked (Misset flaw) answer }
    ensures causes { (name : List ℕ) (old new : World) (answer : Answer)
        (account : ServerAccounts name (T.may_say clock.now) answer old new) → IsCauseOf name (AStreamTookMost account) answer old new }
    ensures spent { (name : List ℕ) (old new : World) (served : HasServed name (T.may_say clock.now) Done old new)
        → served.values.sizes.run_flushes ≡ 0 → AreAllSpent served.values.sizes.receivers (has_streams served.values) new }
    ensures short { (name : List ℕ) (old new : World) (served : HasServed name (T.may_say clock.now) Done old new)
        → IsShort served.values.sizes.run_flushes (length (rounds_in served.trace))
        → AreAllSpent served.values.sizes.receivers (has_streams served.values) new }
    ensures rounds { (name : List ℕ) (old new : World) (served : HasServed name (T.may_say clock.now) Done old new)
        → 0 < served.values.sizes.run_flushes
        → (length (rounds_in served.trace) ≡ served.values.sizes.run_flushes + 1) ⊎ IsSpent new.served.beat.content }
{}
