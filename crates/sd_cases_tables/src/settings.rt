//! What is asked for of settings.
use crate::read_calls::{
    CALLS, show_histogram, show_names, show_texts, show_thresholds, show_value,
};
use sd_case::{Answer, Refusal, bytes_of, number};
use sd_config::{ConfigFault, NamesOf, Settings, config_line};
use sd_memory::MemSink;
use sd_outside::{Failed, Name};
use sd_plan::{Names, Reckoning};
use std::alloc::Global;

/// `CALL FILE ..`: what is asked for of the settings of a file, or its fault.
pub(crate) fn ask(
    alloc: Global,
    call: &str,
    file: &str,
    calls: &[&str],
    out: &mut Answer,
) -> Result<(), Refusal> {
    match Settings::read(alloc, &bytes_of(alloc, file)?) {
        Ok(settings) => show_settings(alloc, &settings, call, calls, out),
        Err(fault) => {
            show_fault(&fault, out)?;
            if call == "allowed" {
                show_allowed(&fault, out);
            }
            Ok(())
        }
    }
}

/// Appends what is asked for of settings.
fn show_settings(
    alloc: Global,
    settings: &Settings,
    call: &str,
    calls: &[&str],
    out: &mut Answer,
) -> Result<(), Refusal> {
    match call {
        "file" => show_some(settings, calls, out),
        "all" => show_all(settings, out),
        "config" => {
            show_config(settings, out);
            Ok(())
        }
        "config_text" => show_config_text(alloc, settings, calls, out),
        "plan" => {
            out.text(" = ");
            show_plan(settings.plan(), out);
            Ok(())
        }
        "names" => {
            out.text(" = ");
            show_names(&Names::of(settings), out);
            Ok(())
        }
        _ => Err(Refusal::UnknownCall),
    }
}

/// Appends what some read calls answer, or `ok` where none is asked for.
fn show_some(settings: &Settings, calls: &[&str], out: &mut Answer) -> Result<(), Refusal> {
    out.text(" =");
    if calls.is_empty() {
        out.text(" ok");
    }
    for call in calls {
        out.text(" ");
        show_value(settings, call, out)?;
    }
    Ok(())
}

/// Appends what all read calls answer, each on a line.
fn show_all(settings: &Settings, out: &mut Answer) -> Result<(), Refusal> {
    for call in CALLS {
        out.text("\n  ");
        out.text(call);
        out.text(": ");
        show_value(settings, call, out)?;
    }
    Ok(())
}

/// Appends the lines of the reply to `config`, each on a line.
fn show_config(settings: &Settings, out: &mut Answer) {
    for place in 0..usize::MAX {
        match config_line(settings, place) {
            Some(line) => {
                out.text("\n  ");
                out.bytes(line.as_slice());
            }
            None => break,
        }
    }
}

/// Appends whether the reply to `config` could be written whole to a sink in memory with so much room, and what it was
/// given.
fn show_config_text(
    alloc: Global,
    settings: &Settings,
    words: &[&str],
    out: &mut Answer,
) -> Result<(), Refusal> {
    let [room] = words else {
        return Err(Refusal::Malformed);
    };
    let mut sink = MemSink::open(alloc, number::<u32>(room)? as usize)?;
    match settings.config_text(&mut sink) {
        Ok(()) => out.text(" = ok"),
        Err(Failed) => out.text(" = fault"),
    }
    out.lines(sink.bytes());
    Ok(())
}

/// Appends what a record is made by.
fn show_plan(plan: &Reckoning, out: &mut Answer) {
    out.number(i128::from(plan.interval_ms));
    out.text(" ");
    show_thresholds(plan.thresholds.as_slice(), out);
    out.text(" ");
    show_histogram(plan.histograms.as_slice(), out);
    out.text(" ");
    show_texts(plan.calculated.as_slice(), out);
}

/// `plain`: what the defaults make.
pub(crate) fn show_plain(out: &mut Answer) -> Result<(), Refusal> {
    out.text(" = ");
    show_plan(&Reckoning::plain(), out);
    out.text("; ");
    show_names(&Names::plain(), out);
    Ok(())
}

/// Appends why a file sets nothing.
fn show_fault(fault: &ConfigFault, out: &mut Answer) -> Result<(), Refusal> {
    match fault {
        ConfigFault::OutOfMemory => return Err(Refusal::OutOfMemory),
        ConfigFault::NotToml => out.text(" = not TOML"),
        ConfigFault::Unknown { name } => show_name(" = unknown ", name, out),
        ConfigFault::WrongKind { name } => show_name(" = wrong kind ", name, out),
        ConfigFault::OutOfRange { name } => show_name(" = out of range ", name, out),
    }
    Ok(())
}

/// Appends what is allowed, in words.
fn show_allowed(fault: &ConfigFault, out: &mut Answer) {
    match fault.allowed() {
        Some(words) => {
            out.text("; allowed is ");
            out.text(words);
        }
        None => out.text("; no words"),
    }
}

/// Appends a fault with its name.
fn show_name(fault: &str, name: &Name, out: &mut Answer) {
    out.text(fault);
    out.bytes(name.as_slice());
}
