use sd_case::{Answer, Refusal, bytes_of, number};
use sd_config::ConfigFault;
use sd_decimal::Line;
use sd_outside::{BackendKind, Name};
use sd_script::ScriptFault;
use sd_top::{Part, Status, explain};
use std::alloc::Global;

/// The object of a number.
fn numbered_part_of(word: &str, place: u16) -> Result<Part, Refusal> {
    match word {
        "wire" => Ok(Part::Wire(place)),
        "packets" => Ok(Part::Packets(place)),
        _ => Err(Refusal::Malformed),
    }
}

/// The object that a word names; a wire is `wire/NUMBER`, and a source `packets/NUMBER`.
fn part_of(word: &str) -> Result<Part, Refusal> {
    if let Some((word, place)) = word.split_once('/') {
        return numbered_part_of(word, number(place)?);
    }
    match word {
        "settings" => Ok(Part::Settings),
        "script" => Ok(Part::Script),
        "graphite" => Ok(Part::Backend(BackendKind::Graphite)),
        "console" => Ok(Part::Backend(BackendKind::Console)),
        "beat" => Ok(Part::Beat),
        "door" => Ok(Part::Door),
        "streams" => Ok(Part::Streams),
        _ => Err(Refusal::Malformed),
    }
}

/// The name that a word stands for.
fn name_of(alloc: Global, word: &str) -> Result<Name, Refusal> {
    let mut name = Name::new();
    match name.try_extend_from_slice(&bytes_of(alloc, word)?) {
        Ok(()) => Ok(name),
        Err(_) => Err(Refusal::Malformed),
    }
}

/// The fault of a settings file that words write.
fn config_of(alloc: Global, fields: &[&str]) -> Result<ConfigFault, Refusal> {
    match fields {
        ["out_of_memory"] => Ok(ConfigFault::OutOfMemory),
        ["not_toml"] => Ok(ConfigFault::NotToml),
        ["unknown", name] => Ok(ConfigFault::Unknown {
            name: name_of(alloc, name)?,
        }),
        ["wrong_kind", name] => Ok(ConfigFault::WrongKind {
            name: name_of(alloc, name)?,
        }),
        ["out_of_range", name] => Ok(ConfigFault::OutOfRange {
            name: name_of(alloc, name)?,
        }),
        _ => Err(Refusal::Malformed),
    }
}

/// The fault of a script that words write.
fn script_of(fault: &str, at: &str) -> Result<ScriptFault, Refusal> {
    let at = number(at)?;
    match fault {
        "word" => Ok(ScriptFault::Word { at }),
        "length" => Ok(ScriptFault::Length { at }),
        "truncated" => Ok(ScriptFault::Truncated { at }),
        _ => Err(Refusal::Malformed),
    }
}

/// The status that words write.
fn status_of(alloc: Global, fields: &[&str]) -> Result<Status, Refusal> {
    match fields {
        ["config", fault @ ..] => Ok(Status::Config(config_of(alloc, fault)?)),
        ["script", fault, at] => Ok(Status::Script(script_of(fault, at)?)),
        ["ok"] => Ok(Status::Ok),
        ["out_of_memory"] => Ok(Status::OutOfMemory),
        ["usage"] => Ok(Status::Usage),
        ["write_fault"] => Ok(Status::WriteFault),
        ["read_fault", part] => Ok(Status::ReadFault {
            part: part_of(part)?,
        }),
        ["open_fault", part] => Ok(Status::OpenFault {
            part: part_of(part)?,
        }),
        ["worn", turns] => Ok(Status::Worn {
            turns: number(turns)?,
        }),
        _ => Err(Refusal::Malformed),
    }
}

/// `status WORDS`: the status, how the program exits, and what it explains.
pub(crate) fn texts_of(alloc: Global, fields: &[&str], out: &mut Answer) -> Result<(), Refusal> {
    let status = status_of(alloc, fields)?;
    out.text(" = ");
    show_status(&status, out);
    Ok(())
}

/// Appends what a settings file's fault is, and the name in it.
fn show_config(fault: &ConfigFault, out: &mut Answer) {
    match fault {
        ConfigFault::OutOfMemory => out.text("OutOfMemory"),
        ConfigFault::NotToml => out.text("NotToml"),
        ConfigFault::Unknown { name } => show_name("Unknown", name, out),
        ConfigFault::WrongKind { name } => show_name("WrongKind", name, out),
        ConfigFault::OutOfRange { name } => show_name("OutOfRange", name, out),
    }
}

fn show_name(fault: &str, name: &Name, out: &mut Answer) {
    out.text(fault);
    out.text(" { name: ");
    out.bytes(name.as_slice());
    out.text(" }");
}

/// Appends a status, the number that the program exits with, and what it explains.
pub(crate) fn show_status(status: &Status, out: &mut Answer) {
    let mut line = Line::new();
    explain(status, &mut line);
    match status {
        Status::Config(fault) => {
            out.text("Config(");
            show_config(fault, out);
            out.text(")");
        }
        status => out.debug(status),
    }
    out.count(", exit ", u64::from(status.exit()));
    out.text(", ");
    out.words(line.as_slice());
}
