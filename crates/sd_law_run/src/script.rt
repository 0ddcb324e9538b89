ghost use Rattle.std.specs.Prelude.{◌≡◌, ◌⊎◌, ℕ, List, [], ◌++◌};
ghost use Rattle.std.specs.List.{AllByRecursion};
ghost use Rattle.sd_model_outside.specs.Outside.{IsAtEnd, Left, Content};
ghost use Rattle.sd_model_replay.specs.Script.{ScriptCommand, IsLegal, end_word, script_text, spelled, Begins, CutShort, Faulty, IsUndecided, Next};
ghost use Rattle.sd_law_call.specs.Behind.{BeginsRecord};

/// A script has one reading: bytes begin with one legal record at most, and legal records that stand at the
/// prefix of a script that is legal as far as its end, or as far as bytes that begin with no legal record, are the first
/// of its records.
pub fn scripts_have_one_reading()
    ensures record { (receivers : ℕ) (c d : ScriptCommand) (r s : List ℕ)
        → IsLegal receivers c → IsLegal receivers d → spelled c ++ r ≡ spelled d ++ s → (c ≡ d) × (r ≡ s) }
    ensures prefix { (receivers : ℕ) (commands prefix : List ScriptCommand) (rest left : List ℕ)
        → AllByRecursion (IsLegal receivers) commands → AllByRecursion (IsLegal receivers) prefix
        → script_text commands ++ (end_word ++ rest) ≡ script_text prefix ++ left
        → (behind : List ScriptCommand) × (commands ≡ prefix ++ behind) × (left ≡ script_text behind ++ (end_word ++ rest)) }
    ensures cut { (receivers : ℕ) (commands prefix : List ScriptCommand) (bytes left : List ℕ) → ¬ BeginsRecord receivers bytes
        → AllByRecursion (IsLegal receivers) commands → AllByRecursion (IsLegal receivers) prefix
        → script_text commands ++ bytes ≡ script_text prefix ++ left
        → (behind : List ScriptCommand) × (commands ≡ prefix ++ behind) × (left ≡ script_text behind ++ bytes) }
    ensures whole { (receivers : ℕ) (commands others : List ScriptCommand) (rest left : List ℕ)
        → AllByRecursion (IsLegal receivers) commands → AllByRecursion (IsLegal receivers) others
        → script_text commands ++ (end_word ++ rest) ≡ script_text others ++ (end_word ++ left)
        → (commands ≡ others) × (rest ≡ left) }
{}

/// Just one thing stands next in all bytes up to their source's end, and so it is in the first of them, once these
/// decide it; the same one stands next in more of them. Those that don't decide it have none but at the end, where they are
/// cut short.
pub fn one_thing_stands_next()
    ensures one { (receivers : ℕ) (a b : Next) (bytes : List ℕ) (left other : Content)
        → Begins receivers a bytes left → Begins receivers b bytes other → a ≡ b }
    ensures some { (receivers : ℕ) (bytes : List ℕ) (left : Content) → IsAtEnd left → (next : Next) × Begins receivers next bytes left }
    ensures decided { (receivers : ℕ) (bytes : List ℕ) (left : Content)
        → IsUndecided receivers bytes ⊎ ((next : Next) × Begins receivers next bytes left) }
    ensures stays { (receivers : ℕ) (next : Next) (bytes more : List ℕ)
        → Begins receivers next bytes (Left more) → Begins receivers next (bytes ++ more) (Left []) }
    ensures undecided { (receivers : ℕ) (next : Next) (bytes : List ℕ) (left : Content) → IsUndecided receivers bytes
        → Begins receivers next bytes left → (next ≡ Faulty CutShort) × IsAtEnd left }
{}
