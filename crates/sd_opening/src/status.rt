ghost use Rattle.std.specs.Prelude.{◌≡◌, ◌+◌, ◌≤◌, ◌++◌, length, decimal};
ghost use Rattle.sd_opening.specs.Status.{config_reason, explanation, reason, part_name, exit_code, script_reason};

use sd_config::ConfigFault;
use sd_decimal::{Line, write_whole};
use sd_outside::{BackendKind, Name};
use sd_script::ScriptFault;

/// How the program is called.
const USAGE: &[u8] =
    b"statsd: usage: replay SETTINGS SCRIPT, serve SETTINGS, proxy SETTINGS, drill N";

/// What is said where no memory was left.
const NO_MEMORY: &[u8] = b"statsd: out of memory";

/// An object that is opened.
#[derive(Clone, Copy, Debug, PartialEq, Eq)]
pub enum Part {
    Settings,
    Script,
    /// The source of a receiver, counted from 0.
    Packets(u16),
    Beat,
    /// A wire, counted from 0.
    Wire(u16),
    Backend(BackendKind),
    Door,
    Streams,
}

/// How a run ended.
#[derive(Debug, PartialEq, Eq, Drop)]
pub enum Status {
    Ok,
    /// No memory was left, before the first record.
    OutOfMemory,
    /// The words are of no form.
    Usage,
    /// The settings file isn't accepted.
    Config(ConfigFault),
    /// The script isn't legal.
    Script(ScriptFault),
    /// A read failed.
    ReadFault { part: Part },
    /// A write of the output failed.
    WriteFault,
    /// An object couldn't be opened.
    OpenFault { part: Part },
    /// A loop has made as many turns as it may, 2^62.
    Worn { turns: u64 },
}

impl Status {
    /// The number that the program exits with.
    pub fn exit(&self) -> u8
        ensures { result ≡ exit_code self.now }
    {
        match self {
            Status::Ok => 0,
            Status::OutOfMemory | Status::Config(ConfigFault::OutOfMemory) => 1,
            Status::Usage => 2,
            Status::Config(_) => 3,
            Status::Script(_) => 4,
            Status::ReadFault { .. } => 5,
            Status::WriteFault => 6,
            Status::OpenFault { .. } => 7,
            Status::Worn { .. } => 8,
        }
    }
}

/// Appends a text that fits.
fn push_text(text: &[u8], out: &mut Line)
    requires { length out.old.items + length text.now ≤ 1024 }
    ensures { out.new.items ≡ out.old.items ++ text.now }
{
    out.try_extend_from_slice(text).unwrap();
}

/// Appends the name of an object.
fn push_part(part: Part, out: &mut Line)
    requires { length out.old.items + 47 ≤ 1024 }
    ensures text { out.new.items ≡ out.old.items ++ part_name part }
    ensures len { length out.new.items ≤ length out.old.items + 47 }
{
    match part {
        Part::Settings => push_text(b"settings", out),
        Part::Script => push_text(b"script", out),
        Part::Packets(i) => {
            push_text(b"packets ", out);
            write_whole(u128::from(i), out);
        }
        Part::Beat => push_text(b"beat", out),
        Part::Wire(i) => {
            push_text(b"wire ", out);
            write_whole(u128::from(i), out);
        }
        Part::Backend(kind) => push_text(kind.name().as_bytes(), out),
        Part::Door => push_text(b"door", out),
        Part::Streams => push_text(b"streams", out),
    }
}

/// Appends a text and a name.
fn push_named(text: &[u8], name: &Name, out: &mut Line)
    requires { length out.old.items + length text.now + 255 ≤ 1024 }
    ensures text { out.new.items ≡ out.old.items ++ text.now ++ name.now.items }
    ensures len { length out.new.items ≤ length out.old.items + length text.now + 255 }
{
    push_text(text, out);
    push_text(name.as_slice(), out);
}

/// Appends a text and a whole number.
fn push_counted(text: &[u8], n: u64, out: &mut Line)
    requires { length out.old.items + length text.now + 39 ≤ 1024 }
    ensures text { out.new.items ≡ out.old.items ++ text.now ++ decimal n }
    ensures len { length out.new.items ≤ length out.old.items + length text.now + 39 }
{
    push_text(text, out);
    write_whole(u128::from(n), out);
}

/// Appends why a settings file isn't accepted.
fn push_config(fault: &ConfigFault, out: &mut Line)
    requires { length out.old.items + 511 ≤ 1024 }
    ensures text { out.new.items ≡ out.old.items ++ config_reason fault.now }
    ensures len { length out.new.items ≤ length out.old.items + 511 }
{
    match fault {
        ConfigFault::OutOfMemory => push_text(NO_MEMORY, out),
        ConfigFault::NotToml => push_text(b"statsd: settings are not TOML", out),
        ConfigFault::Unknown { name } => push_named(b"statsd: unknown setting ", name, out),
        ConfigFault::WrongKind { name } => {
            push_named(b"statsd: wrong kind for setting ", name, out)
        }
        ConfigFault::OutOfRange { name } => {
            push_named(b"statsd: setting out of range ", name, out)
        }
    }
}

/// Appends why a script isn't legal.
fn push_script(fault: ScriptFault, out: &mut Line)
    requires { length out.old.items + 511 ≤ 1024 }
    ensures text { out.new.items ≡ out.old.items ++ script_reason fault }
    ensures len { length out.new.items ≤ length out.old.items + 511 }
{
    match fault {
        ScriptFault::Word { at } => push_counted(b"statsd: script word at ", at, out),
        ScriptFault::Length { at } => push_counted(b"statsd: script length at ", at, out),
        ScriptFault::Truncated { at } => push_counted(b"statsd: script truncated at ", at, out),
    }
}

/// Appends why a run ended.
fn push_reason(status: &Status, out: &mut Line)
    requires { length out.old.items + 511 ≤ 1024 }
    ensures text { out.new.items ≡ out.old.items ++ reason status.now }
    ensures len { length out.new.items ≤ length out.old.items + 511 }
{
    match status {
        Status::Ok => {}
        Status::OutOfMemory => push_text(NO_MEMORY, out),
        Status::Usage => push_text(USAGE, out),
        Status::Config(fault) => push_config(fault, out),
        Status::Script(fault) => push_script(*fault, out),
        Status::ReadFault { part } => {
            push_text(b"statsd: read fault ", out);
            push_part(*part, out);
        }
        Status::WriteFault => push_text(b"statsd: write fault", out),
        Status::OpenFault { part } => {
            push_text(b"statsd: open fault ", out);
            push_part(*part, out);
        }
        Status::Worn { turns } => {
            push_counted(b"statsd: worn after ", *turns, out);
            push_text(b" turns", out);
        }
    }
}

/// Appends what a status says to the user, with a newline; nothing for `Ok`.
pub fn explain(status: &Status, out: &mut Line)
    requires { length out.old.items + 512 ≤ 1024 }
    ensures { out.new.items ≡ out.old.items ++ explanation status.now }
{
    if *status == Status::Ok {
        return;
    }
    push_reason(status, out);
    out.push(b'\n');
}
