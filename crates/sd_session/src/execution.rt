ghost use Rattle.std.specs.Prelude.{◌≡◌, ◌*◌, ◌<◌, ◌≤◌, ◌^◌, length};
ghost use Rattle.sd_admin.specs.Words.{names_of};
ghost use Rattle.sd_model_serve.specs.Receiving.{administrator};
ghost use Rattle.sd_key.specs.Kind.{kind_of};
ghost use Rattle.sd_desk.specs.Facts.{facts_view};
ghost use Rattle.sd_admin.specs.Command.{command_view};
ghost use Rattle.sd_pool.specs.Pool.{IsSeatOf, limits_of, own_at, shards_of, who_is};
ghost use Rattle.sd_session.specs.Asking.{Executes, DeletesNames};

use crate::space::ReplyRoom;
use crate::telling::tell_deleted;
use crate::together::{delete_all, dump_all, look_all};
use log::Log;
use sd_admin::{Command, Reply, write_reply};
use sd_config::Settings;
use sd_desk::DeskFacts;
use sd_key::Kind;
use sd_outside::{Sink, WriteFault};
use sd_pool::{Pool, Seat};
use sd_shard::Keys;
use std::sync::Wait;

/// Deletes the rows of a kind that the names of a command match, name by name, and replies with the keys, up to the name whose
/// reply is cut.
fn delete<O: Sink, R: Wait + Log>(
    rt: &R,
    pool: &Pool,
    seat: &mut Seat,
    kind: Kind,
    names: &Command<'_>,
    keys: &mut Keys,
    output: &mut O,
) -> Result<(), WriteFault>
    requires seat { IsSeatOf pool.now seat.old × (who_is seat.old ≡ administrator) }
    requires few { length (names_of (command_view names.now)) < 2 ^ 64 }
    requires room { shards_of pool.now * (limits_of pool.now).rows ≤ keys.old.room }
    ensures seat { IsSeatOf pool.now seat.new × (who_is seat.new ≡ administrator) }
    ensures room { keys.new.room ≡ keys.old.room }
    ensures deletes { DeletesNames (shards_of pool.now) (kind_of kind) (names_of (command_view names.now)) result (own_at seat.old) (own_at seat.new) (O.seen output.old) (O.seen output.new) }
{
    let mut i = 0;
    while let Some(name) = names.name(i) {
        delete_all(rt, pool, seat, kind, &name, keys);
        tell_deleted(rt, kind, keys);
        let reply = Reply::Gone {
            pattern: &name,
            keys,
        };
        write_reply(&reply, output)?;
        i += 1;
    }
    write_reply(&Reply::Finish, output)
}

/// What a line is answered from beside the shards: the settings, what the desk told of itself before the line, and the moment.
#[derive(Drop)]
pub(crate) struct AnswerBasis<'a> {
    pub settings: &'a Settings,
    pub facts: &'a DeskFacts,
    pub moment: u64,
}

/// Executes by all shards what a line asks for, and replies.
///
/// # Errors
///
/// `WriteFault` where the output failed. Then a prefix of the reply was written, and the names of a deletion behind the one whose
/// reply was cut aren't executed.
pub(crate) fn execute<O: Sink, R: Wait + Log>(
    rt: &R,
    pool: &Pool,
    seat: &mut Seat,
    replies: &mut ReplyRoom,
    basis: &AnswerBasis<'_>,
    line: &[u8],
    output: &mut O,
) -> Result<(), WriteFault>
    requires seat { IsSeatOf pool.now seat.old × (who_is seat.old ≡ administrator) }
    requires keys { shards_of pool.now * (limits_of pool.now).rows ≤ replies.old.keys.room }
    requires dump { shards_of pool.now * (limits_of pool.now).rows ≤ replies.old.dump.room }
    ensures seat { IsSeatOf pool.now seat.new × (who_is seat.new ≡ administrator) }
    ensures keys { replies.new.keys.room ≡ replies.old.keys.room }
    ensures dump { replies.new.dump.room ≡ replies.old.dump.room }
    ensures executed { Executes (shards_of pool.now) basis.now.settings.now (facts_view basis.now.facts.now) basis.now.moment line.now result (own_at seat.old) (own_at seat.new) (O.seen output.old) (O.seen output.new) }
{
    let command = match Command::read(line) {
        Ok(command) => command,
        Err(fault) => return write_reply(&Reply::Fault { fault }, output),
    };
    match command {
        Command::Stats => {
            let (facts, now) = (basis.facts, basis.moment);
            write_reply(&Reply::Stats { facts, now }, output)
        }
        Command::Totals => {
            let reply = Reply::Totals {
                outlets: basis.settings.outlets() > 0,
                facts: basis.facts,
                books: &look_all(rt, pool, seat),
            };
            write_reply(&reply, output)
        }
        Command::Config => {
            let settings = basis.settings;
            write_reply(&Reply::Config { settings }, output)
        }
        Command::Quit => Ok(()),
        Command::Show(kind) => {
            let dump = &mut replies.dump;
            dump_all(rt, pool, seat, kind, dump);
            write_reply(&Reply::Rows { kind, dump }, output)
        }
        Command::Delete { kind, names: _ } => {
            delete(rt, pool, seat, kind, &command, &mut replies.keys, output)
        }
        Command::Health(word) => {
            let up = word.health_after(basis.facts.up);
            write_reply(&Reply::Health { up }, output)
        }
    }
}
