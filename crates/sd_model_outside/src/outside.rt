ghost use Rattle.std.specs.Prelude.{◌≡◌, ℕ, ◌+◌, List, [], ◌∷◌, ◌++◌, length, Option, min, true, take, ◌<◌};
ghost use Rattle.sd_model_outside.specs.Outside.{BackendText, Content, Unknown, Number, Bytes, Rounds, Reads, appended, begun, ended, lists_of, last_count};

/// Two writes one after the other are one write.
pub fn writes_join()
    ensures { (w : Content) (xs ys : List ℕ) → appended (appended w xs) ys ≡ appended w (xs ++ ys) }
{}

/// `begin`, the writes of a text and `finish` add one ended list, which is that text. A list that was open
/// stays before it, not ended.
pub fn whole_round()
    ensures rounds { (rounds : List BackendText) (open_list : Option (List ℕ)) (text : List ℕ)
        → ended (appended (begun (Rounds rounds open_list)) text)
        ≡ Rounds (lists_of rounds open_list ++ record { bytes = text; is_ended = true } ∷ []) None }
    ensures bytes { (ys text : List ℕ) → ended (appended (begun (Bytes ys)) text) ≡ Bytes (ys ++ text) }
    ensures number { (n : ℕ) (text : List ℕ)
        → ended (appended (begun (Number n)) text) ≡ Number (min (n + length text) last_count) }
    ensures unknown { (text : List ℕ) → ended (appended (begun Unknown) text) ≡ Unknown }
{}

/// Two reads one after the other are one read.
pub fn reads_join()
    ensures { (old mid new : Content) (xs ys : List ℕ) → Reads old xs mid → Reads mid ys new → Reads old (xs ++ ys) new }
{}

/// What a write of two texts one after the other leaves, where one of the two fails.
pub fn prefixes_join()
    ensures longer { (w v : Content) (xs ys : List ℕ) → ((n : ℕ) × (n < length xs) × (v ≡ appended w (take n xs))) → (n : ℕ) × (n < length (xs ++ ys)) × (v ≡ appended w (take n (xs ++ ys))) }
    ensures later { (w v : Content) (xs ys : List ℕ)
        → ((n : ℕ) × (n < length ys) × (v ≡ appended (appended w xs) (take n ys))) → (n : ℕ) × (n < length (xs ++ ys)) × (v ≡ appended w (take n (xs ++ ys))) }
{}
