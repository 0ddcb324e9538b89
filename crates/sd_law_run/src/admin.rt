ghost use Rattle.std.specs.Prelude.{◌≡◌, ◌≢◌, ℕ, Bool, ◌<◌, ◌≤◌, true, List, [], ◌∷◌, ◌++◌, length, flat_map, All, Result, Ok, codes};
ghost use Rattle.std.specs.List.{join_with_byte};
ghost use Rattle.sd_model_text.specs.Lists.{is_white_space, trim_end};
ghost use Rattle.sd_model_text.specs.Names.{Kind, Set};
ghost use Rattle.sd_model_settings.specs.Settings.{Settings};
ghost use Rattle.sd_model_shard.specs.Shard.{Reply};
ghost use Rattle.sd_model_record.specs.Admin.{AdminFault, Command, Delete, words, command, longest_line};
ghost use Rattle.sd_admin.specs.Words.{IsWord};
ghost use Rattle.sd_model_record.specs.Desk.{Facts};
ghost use Rattle.sd_model_record.specs.Replies.{replies_by, reply_lines};

/// The words of a line have no white space, and words with a space between them are the words of the line that they make.
/// White space at a line's ends doesn't change its words.
pub fn lines_have_words()
    ensures words { (line : List ℕ) → All IsWord (words line) }
    ensures joined { (parts : List (List ℕ)) → All IsWord parts → words (join_with_byte 32 parts) ≡ parts }
    ensures before { (b : ℕ) (line : List ℕ) → is_white_space b ≡ true → words (b ∷ line) ≡ words line }
    ensures behind { (line : List ℕ) → words (trim_end is_white_space line) ≡ words line }
{}

/// A deletion that was read has a name, none of its names is longer than a line may be, and it isn't of sets.
pub fn deletions_have_names()
    ensures some { (line : List ℕ) (kind : Kind) (names : List (List ℕ)) → command line ≡ Ok (Delete kind names) → 0 < length names }
    ensures short { (line : List ℕ) (kind : Kind) (names : List (List ℕ))
        → command line ≡ Ok (Delete kind names) → All (λ name. length name ≤ longest_line) names }
    ensures kind { (line : List ℕ) (kind : Kind) (names : List (List ℕ)) → command line ≡ Ok (Delete kind names) → kind ≢ Set }
{}

/// Among the lines of what is replied to an admin line, behind `END` stands the empty line alone. So who reads a reply knows
/// its end, and it has one end at most.
pub fn ends_stand_last()
    ensures { (outlets : Bool) (answers : ℕ → List Reply) (facts : Facts) (settings : Settings) (now : ℕ) (asked : Result Command AdminFault) (prefix back : List (List ℕ))
        → flat_map reply_lines (replies_by outlets answers facts settings now asked) ≡ prefix ++ codes "END\n" ∷ back
        → back ≡ codes "\n" ∷ [] }
{}
