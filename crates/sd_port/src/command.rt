ghost use Rattle.std.specs.Prelude.{◌≡◌};
ghost use Rattle.sd_model_record.specs.Admin.{words};
ghost use Rattle.sd_model_live.specs.Port.{port_command_named};
ghost use Rattle.sd_port.specs.Commands.{answer_view};

use sd_admin::{HealthWord, first_word, health_word};

/// What a line at a proxy's port asks for.
#[derive(Clone, Copy, Debug, PartialEq, Eq)]
pub enum PortCommand {
    /// The health.
    Health(HealthWord),
    /// The totals so far.
    Totals,
    /// Which nodes are up.
    Nodes,
    /// The settings in force.
    Config,
    /// The end of the session.
    Quit,
}

impl PortCommand {
    ghost use Rattle.sd_model_live.specs.Port.{port_command};

    /// The command of a line, which stands without the newline that ends it, or none where the first word is that of no command or
    /// there is no word. Words are parted by runs of white space, the bytes 9 to 13 and 32. Words behind those that a command uses
    /// have no effect.
    pub fn read(line: &[u8]) -> Option<PortCommand>
        ensures { answer_view result ≡ port_command line.now }
    {
        match first_word(line) {
            Some(word) => named(word.text, word.rest),
            None => None,
        }
    }
}

/// The command that a first word names, with what stands behind the word.
fn named(word: &[u8], rest: &[u8]) -> Option<PortCommand>
    ensures { answer_view result ≡ port_command_named word.now (words rest.now) }
{
    if word == b"health".as_slice() {
        Some(PortCommand::Health(health_word(rest)))
    } else if word == b"totals".as_slice() {
        Some(PortCommand::Totals)
    } else if word == b"nodes".as_slice() {
        Some(PortCommand::Nodes)
    } else if word == b"config".as_slice() {
        Some(PortCommand::Config)
    } else if word == b"quit".as_slice() {
        Some(PortCommand::Quit)
    } else {
        None
    }
}
