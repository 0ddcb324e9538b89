ghost use Rattle.std.specs.Prelude.{◌≡◌};

use log::LevelFilter;
use sd_net::{Hosts, Output, Pace, RunLog, Sockets, Stop};
use sd_socket::HandedOver;
use sd_top::Status;
use std::alloc::AllocError;
use std::env::{self, VarError};
use std::process;

/// The variable of the environment that names the file whose being there stops a server or a proxy.
const STOP_FILE: &str = "STATSD_STOP";

/// The variable that says which events a server or a proxy tells.
const LOG_LEVEL: &str = "STATSD_LOG";

/// What the objects of a server or a proxy share.
#[derive(Drop)]
pub(crate) struct Shared<'a> {
    pub sockets: Sockets,
    pub stop: Stop,
    pub pace: Pace,
    pub output: Output,
    pub hosts: Hosts,
    pub log: RunLog<'a>,
}

/// Which events are told: those of the level that the variable names, or else those of all levels.
fn log_level(rt: &HostRuntime) -> LevelFilter {
    match env::var(rt, LOG_LEVEL) {
        Ok(level) => match level.as_str() {
            "off" => LevelFilter::Off,
            "error" => LevelFilter::Error,
            "warn" => LevelFilter::Warn,
            _ => LevelFilter::Info,
        },
        Err(_) => LevelFilter::Info,
    }
}

impl<'a> Shared<'a> {
    /// # Errors
    ///
    /// `OutOfMemory`, and `Usage` where the name of the stop file isn't UTF-8.
    pub(crate) fn new(rt: &'a HostRuntime) -> Result<Shared<'a>, Status> {
        let stop_file = match env::var(rt, STOP_FILE) {
            Ok(name) => Some(name),
            Err(VarError::NotPresent) => None,
            Err(VarError::NotUnicode) => return Err(Status::Usage),
            Err(VarError::OutOfMemory) => return Err(Status::OutOfMemory),
        };
        let handed = HandedOver::of_process(rt, rt.alloc(), process::id(rt.process()));
        Ok(Shared {
            sockets: Sockets::new(handed.map_err(no_memory)?),
            stop: Stop::new(stop_file),
            pace: Pace::new(),
            output: Output::new(),
            hosts: Hosts::open(rt.alloc()).map_err(no_memory)?,
            log: RunLog::new(rt, log_level(rt)),
        })
    }
}

/// What the program answers where memory has run out.
pub(crate) fn no_memory(_: AllocError) -> Status
    ensures { result ≡ Status.OutOfMemory }
{
    Status::OutOfMemory
}
