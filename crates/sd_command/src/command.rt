ghost use Rattle.std.specs.Prelude.{◌≡◌, ◌≢◌, ◌≤◌, ◌<◌, ◌^◌, ◌*◌, ℕ, List, [], ◌∷◌, ◌++◌, length, map, OnOk, OnErr, flat_map};
ghost use Rattle.sd_model_text.specs.Names.{Set};
ghost use Rattle.sd_model_outside.specs.Outside.{Object, HasFailedBehind, given};
ghost use Rattle.sd_model_shard.specs.Shard.{Delete, Dump as DumpOf};
ghost use Rattle.sd_model_record.specs.Admin.{command};
ghost use Rattle.sd_admin.specs.Words.{names_of};
ghost use Rattle.sd_model_record.specs.Replies.{Finish, Rows, reply_text, health_after, names_replied, replies_text, rows_in};
ghost use Rattle.sd_admin.specs.Order.{IsInOrder};
ghost use Rattle.sd_model_replay.specs.Script.{Admin};
ghost use Rattle.sd_model_replay.specs.Replay.{desk_after_line, states_after};
ghost use Rattle.sd_model_replay.specs.AccountingTheorem.{output_in};
ghost use Rattle.sd_key.specs.Kind.{kind_of};
ghost use Rattle.sd_shards.specs.Shards.{AreAlike, group_bounds, state_at};
ghost use Rattle.sd_admin.specs.Command.{command_view, health_word_view};
ghost use Rattle.sd_admin.specs.Reply.{reply_view};
ghost use Rattle.sd_command.specs.Commanded.{IsWritten, deleted, reported_of};
ghost use Rattle.sd_model_shard.specs.Rows.{in_key_order};
ghost use Rattle.sd_desk.specs.Steps.{with_health};

use sd_admin::{Command, HealthWord, Reply, write_reply};
use sd_config::Settings;
use sd_desk::Desk;
use sd_key::Kind;
use sd_outside::{Sink, WriteFault};
use sd_shard::{Dump, Keys};
use sd_shards::Shards;

/// Writes a reply, where what was written so far was written whole.
///
/// # Errors
///
/// `WriteFault` where the output failed, now or before. Then a prefix of the text was written.
fn tell<O: Sink>(
    so_far: Result<(), WriteFault>,
    reply: &Reply<'_>,
    output: &mut O,
) -> Result<(), WriteFault>
    requires { IsInOrder (reply_view reply.now) }
    ensures { (text : List ℕ) (old : Object) → IsWritten text so_far old (O.seen output.old)
        → IsWritten (text ++ reply_text (reply_view reply.now)) result old (O.seen output.new) }
{
    so_far?;
    write_reply(reply, output)
}

/// Replies with the rows of a kind.
fn show<O: Sink>(
    shards: &Shards,
    kind: Kind,
    dump: &mut Dump,
    output: &mut O,
) -> Result<(), WriteFault>
    requires kind { kind_of kind ≢ Set }
    requires room { length (shards.now).states * (shards.now).limits.rows ≤ dump.old.room }
    ensures written { IsWritten (reply_text (Rows (kind_of kind) (in_key_order (λ row. row.key) (flat_map rows_in (reported_of shards.now (DumpOf (kind_of kind) ∷ []) 0)))))
        result (O.seen output.old) (O.seen output.new) }
    ensures room { dump.new.room ≡ dump.old.room }
{
    shards.dump(kind, dump);
    write_reply(&Reply::Rows { kind, dump }, output)
}

/// Deletes the rows of a kind that the names of a command match, name by name, and replies with the keys. Where the output
/// fails nothing more is written, and the names behind are executed all the same.
fn delete<O: Sink>(
    shards: &mut Shards,
    kind: Kind,
    names: &Command<'_>,
    keys: &mut Keys,
    output: &mut O,
) -> Result<(), WriteFault>
    requires few { length (names_of (command_view names.now)) < 2 ^ 64 }
    requires room { length shards.old.states * shards.old.limits.rows ≤ keys.old.room }
    ensures states { (i : ℕ) → state_at shards.new i ≡ deleted (kind_of kind) (state_at shards.old i) (names_of (command_view names.now)) }
    ensures alike { AreAlike shards.old shards.new }
    ensures room { keys.new.room ≡ keys.old.room }
    ensures written { IsWritten
        (replies_text (names_replied (reported_of shards.old (map (Delete (kind_of kind)) (names_of (command_view names.now)))) (names_of (command_view names.now)) ++ Finish ∷ []))
        result (O.seen output.old) (O.seen output.new) }
{
    let mut written = Ok(());
    let mut i = 0;
    while let Some(name) = names.name(i) {
        shards.delete(kind, &name, keys);
        let reply = Reply::Gone {
            pattern: &name,
            keys,
        };
        written = tell(written, &reply, output);
        i += 1;
    }
    tell(written, &Reply::Finish, output)
}

/// Sets the health, where the word does. Answers how it is then.
fn health(desk: &mut Desk, word: HealthWord) -> bool
    ensures desk { desk.new ≡ with_health desk.old (health_after (health_word_view word) (desk.old).facts.up) }
    ensures up { result ≡ health_after (health_word_view word) (desk.old).facts.up }
{
    match word {
        HealthWord::Up => desk.set_health(true),
        HealthWord::Down => desk.set_health(false),
        HealthWord::Ask => {}
    }
    desk.facts().up
}

/// Executes an admin line that came now, and replies. Where the output fails, the command has its whole effect all the
/// same.
///
/// # Errors
///
/// `WriteFault` where the output failed. Then a prefix of the reply was written.
pub fn execute<O: Sink>(
    shards: &mut Shards,
    desk: &mut Desk,
    keys: &mut Keys,
    dump: &mut Dump,
    settings: &Settings,
    now: u64,
    line: &[u8],
    output: &mut O,
) -> Result<(), WriteFault>
    requires count { length shards.old.states ≡ (settings.now).sizes.shards }
    requires keys { length shards.old.states * shards.old.limits.rows ≤ keys.old.room }
    requires dump { length shards.old.states * shards.old.limits.rows ≤ dump.old.room }
    ensures states { (i : ℕ) → state_at shards.new i ≡ states_after (group_bounds shards.old) (state_at shards.old) (Admin now line.now) i }
    ensures alike { AreAlike shards.old shards.new }
    ensures desk { desk.new ≡ desk_after_line desk.old (command line.now) }
    ensures keys { keys.new.room ≡ keys.old.room }
    ensures dump { dump.new.room ≡ dump.old.room }
    ensures written { OnOk result (O.seen output.new
        ≡ given (output_in settings.now (record { shards = state_at shards.old; desk = desk.old }) (Admin now line.now)) (O.seen output.old)) }
    ensures failed { OnErr result (HasFailedBehind
        (output_in settings.now (record { shards = state_at shards.old; desk = desk.old }) (Admin now line.now)) (O.seen output.old) (O.seen output.new)) }
{
    let command = match Command::read(line) {
        Ok(command) => command,
        Err(fault) => return write_reply(&Reply::Fault { fault }, output),
    };
    match command {
        Command::Stats => {
            let facts = desk.facts();
            let reply = Reply::Stats { facts: &facts, now };
            write_reply(&reply, output)
        }
        Command::Totals => {
            let reply = Reply::Totals {
                outlets: false,
                facts: &desk.facts(),
                books: &shards.books(),
            };
            write_reply(&reply, output)
        }
        Command::Config => write_reply(&Reply::Config { settings }, output),
        Command::Quit => Ok(()),
        Command::Show(kind) => show(shards, kind, dump, output),
        Command::Delete { kind, names: _ } => delete(shards, kind, &command, keys, output),
        Command::Health(word) => {
            let up = health(desk, word);
            write_reply(&Reply::Health { up }, output)
        }
    }
}
