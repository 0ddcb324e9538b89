ghost use Rattle.std.specs.Prelude.{◌≡◌, ℕ, List, [], flat_map, codes, ◌∷◌, ◌++◌};
ghost use Rattle.sd_model_settings.specs.Settings.{Names};
ghost use Rattle.sd_model_record.specs.Record.{TimerRow, TimerFigures, figures_of};
ghost use Rattle.sd_model_record.specs.Backends.{row_lines, console_row, graphite_line, path_prefix};
ghost use Rattle.sd_model_text.specs.Numbers.{number_text};

/// Where no class of lines is chosen, both backends get all figures of each timer.
#[tactic(auto, using(crate::proofs::SentLemmas::all_sent))]
pub fn empty_lists_send_all()
    ensures graphite { (names : Names) (ts : ℕ) (key : List ℕ) (timer : TimerFigures)
        → row_lines names [] ts (TimerRow key timer) ≡ flat_map (λ f. graphite_line names (path_prefix names (codes "stats.timers.") names.namespace.prefix_timer ++ key ++ 46 ∷ f.name) (number_text f.value) ts) (figures_of timer) }
    ensures console { (key : List ℕ) (timer : TimerFigures)
        → console_row [] (TimerRow key timer) ≡ flat_map (λ f. codes "timer " ++ key ++ 32 ∷ f.name ++ 32 ∷ number_text f.value ++ 10 ∷ []) (figures_of timer) }
{}
