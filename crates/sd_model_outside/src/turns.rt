ghost use Rattle.std.specs.Prelude.{◌≡◌, ℕ, List, ◌++◌};
ghost use Rattle.sd_model_outside.specs.Outside.{Session, Content};
ghost use Rattle.sd_model_outside.specs.Uses.{with_back, with_datagrams, with_sessions, with_ticks};

/// What an object gave in two steps, it gave: datagrams, ticks and sessions, those of the first step before those of the
/// second. And sessions that were given back in two steps were given back in that order.
pub fn steps_join()
    ensures datagrams { (content : Content) (xs ys : List (List ℕ)) → with_datagrams xs (with_datagrams ys content) ≡ with_datagrams (xs ++ ys) content }
    ensures ticks { (content : Content) (xs ys : List ℕ) → with_ticks xs (with_ticks ys content) ≡ with_ticks (xs ++ ys) content }
    ensures sessions { (content : Content) (xs ys : List Session) → with_sessions xs (with_sessions ys content) ≡ with_sessions (xs ++ ys) content }
    ensures back { (content : Content) (xs ys : List Session) → with_back ys (with_back xs content) ≡ with_back (xs ++ ys) content }
{}
