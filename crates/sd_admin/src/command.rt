ghost use Rattle.std.specs.Prelude.{◌≡◌, ◌≤◌, length};
ghost use Rattle.sd_model_record.specs.Admin.{words, deletion, health_word, command_named};
ghost use Rattle.sd_model_record.specs.Replies.{health_after};
ghost use Rattle.sd_key.specs.Kind.{kind_of};
ghost use Rattle.sd_admin.specs.Command.{health_word_view, answer_view};

use crate::names::NameList;
use crate::words::first_word;
use sd_key::{Kind, Pattern};

// The most bytes of a line.
const LONGEST_LINE: usize = 1023;

/// What a command does with the health.
#[derive(Clone, Copy, Debug, PartialEq, Eq)]
pub enum HealthWord {
    /// The server is well.
    Up,
    /// It isn't.
    Down,
    /// Whether it is.
    Ask,
}

impl HealthWord {
    /// How the health is after the word, where it was so before.
    pub fn health_after(self, up: bool) -> bool
        ensures { result ≡ health_after (health_word_view self) up }
    {
        match self {
            HealthWord::Up => true,
            HealthWord::Down => false,
            HealthWord::Ask => up,
        }
    }
}

/// What a line asks for.
#[derive(Clone, Copy, Debug, PartialEq, Eq)]
pub enum Command<'a> {
    /// What the server counts of itself.
    Stats,
    /// The totals so far, and the numbers of each shard.
    Totals,
    /// The settings in force.
    Config,
    /// The end of the session.
    Quit,
    /// The rows of a kind.
    Show(Kind),
    /// That the rows of a kind go which the names match. `name` tells the names.
    Delete { kind: Kind, names: NameList<'a> },
    /// The health.
    Health(HealthWord),
}

/// Why a line is no command.
#[derive(Clone, Copy, Debug, PartialEq, Eq)]
pub enum AdminFault {
    /// The first word is that of no command, or there is no word.
    UnknownWord,
    /// A deletion has no name.
    MissingName,
    /// The line has over 1,023 bytes.
    TooLong,
}

impl<'a> Command<'a> {
    ghost use Rattle.sd_model_record.specs.Admin.{command};
    ghost use Rattle.sd_admin.specs.Words.{name_at};
    ghost use Rattle.sd_admin.specs.Command.{command_view};

    /// The command of a line, which stands without the newline that ends it. Words are parted by runs of white space, the
    /// bytes 9 to 13 and 32. Words behind those that a command uses have no effect.
    ///
    /// # Errors
    ///
    /// `TooLong` where the line has over 1,023 bytes, with the white space at its end; or else `UnknownWord` where the first
    /// word is that of no command or there is no word; or else `MissingName` where a deletion has no name.
    pub fn read(line: &'a [u8]) -> Result<Command<'a>, AdminFault>
        ensures { answer_view result ≡ command line.now }
    {
        if line.len() > LONGEST_LINE {
            return Err(AdminFault::TooLong);
        }
        match first_word(line) {
            Some(word) => named(word.text, word.rest),
            None => Err(AdminFault::UnknownWord),
        }
    }

    /// The i-th name of a deletion, counted from 0. None past the last, and for another command.
    pub fn name(&self, i: usize) -> Option<Pattern>
        ensures { result ≡ name_at (command_view self.now) i }
    {
        match self {
            Command::Delete { kind: _, names } => names.name(i),
            _ => None,
        }
    }
}

/// The command that a first word names, with what stands behind the word.
fn named<'a>(word: &[u8], rest: &'a [u8]) -> Result<Command<'a>, AdminFault>
    requires { length rest.now ≤ 1023 }
    ensures { answer_view result ≡ command_named word.now (words rest.now) }
{
    if word == b"stats".as_slice() {
        Ok(Command::Stats)
    } else if word == b"counters".as_slice() {
        Ok(Command::Show(Kind::Counter))
    } else if word == b"timers".as_slice() {
        Ok(Command::Show(Kind::Timer))
    } else if word == b"gauges".as_slice() {
        Ok(Command::Show(Kind::Gauge))
    } else if word == b"delcounters".as_slice() {
        deletion(Kind::Counter, rest)
    } else if word == b"deltimers".as_slice() {
        deletion(Kind::Timer, rest)
    } else if word == b"delgauges".as_slice() {
        deletion(Kind::Gauge, rest)
    } else if word == b"health".as_slice() {
        Ok(Command::Health(health_word(rest)))
    } else if word == b"totals".as_slice() {
        Ok(Command::Totals)
    } else if word == b"config".as_slice() {
        Ok(Command::Config)
    } else if word == b"quit".as_slice() {
        Ok(Command::Quit)
    } else {
        Err(AdminFault::UnknownWord)
    }
}

/// The deletion of rows of a kind by the names, of which there is at least one.
fn deletion(kind: Kind, names: &[u8]) -> Result<Command<'_>, AdminFault>
    requires { length names.now ≤ 1023 }
    ensures { answer_view result ≡ deletion (kind_of kind) (words names.now) }
{
    match first_word(names) {
        Some(_) => Ok(Command::Delete {
            kind,
            names: NameList::of(names),
        }),
        None => Err(AdminFault::MissingName),
    }
}

/// What the words behind `health` say: neither `up` nor `down` asks.
pub fn health_word(rest: &[u8]) -> HealthWord
    ensures { health_word_view result ≡ health_word (words rest.now) }
{
    match first_word(rest) {
        Some(word) => match word.text {
            b"up" => HealthWord::Up,
            b"down" => HealthWord::Down,
            _ => HealthWord::Ask,
        },
        None => HealthWord::Ask,
    }
}
