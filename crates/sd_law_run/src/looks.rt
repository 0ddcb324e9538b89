ghost use Rattle.std.specs.Prelude.{ℕ, List, ◌++◌};
ghost use Rattle.sd_live.specs.Looks.{Begins, HaveAnswered};

/// What looks answered in a history they answered in each that goes on from it; and looks behind looks are looks, whose places
/// never fall either.
pub fn looks_go_on()
    ensures history { (before now later ups : List ℕ) → Begins now later → HaveAnswered before now ups → HaveAnswered before later ups }
    ensures looks { (before now later ups more : List ℕ) → HaveAnswered before now ups → HaveAnswered now later more → HaveAnswered before later (ups ++ more) }
{}
