ghost use Rattle.std.specs.Prelude.{◌≡◌, List, map};
ghost use Rattle.sd_model_settings.specs.Settings.{Plan};
ghost use Rattle.sd_model_shard.specs.History.{Flushed};
ghost use Rattle.sd_model_record.specs.Record.{record_rows, documented_rows};
ghost use Rattle.sd_law_record.specs.Tell.{AllTell};

/// A record of tables that tell their journals has the documented statistics of the journals.
pub fn rows_are_documented()
    ensures { (plan : Plan) (flushes : List Flushed) → AllTell flushes → record_rows plan (map (λ f. f.table) flushes) ≡ documented_rows plan flushes }
{}
