use crate::fields::FieldValue::{self, Bytes, Number, Word};
use crate::fields::{PlainField, tell, tell_all};
use log::kv::{Error, Source, VisitSource};
use log::{Level, Log};
use std::str;

/// Something couldn't be opened: which object, and where it should have been.
pub fn refused<L: Log>(log: &L, object: &str, address: &[u8]) {
    let fields = [("object", Word(object)), ("address", Bytes(address))];
    tell(log, Level::Error, "refused", &fields);
}

/// Something couldn't be had, for this reason.
pub fn refused_with<L: Log>(log: &L, object: &str, reason: &str) {
    let fields = [("object", Word(object)), ("reason", Word(reason))];
    tell(log, Level::Error, "refused", &fields);
}

/// What is wrong with a setting of a file: in which line it stands, counted from 1, and what stands there, where that was found.
#[derive(Clone, Copy, Debug)]
pub struct SettingRefused<'a> {
    pub file: &'a [u8],
    pub setting: &'a [u8],
    pub reason: &'a str,
    pub line: Option<u64>,
    pub found: &'a [u8],
    pub allowed: &'a str,
}

/// A settings file isn't accepted, because of a setting.
pub fn refused_setting<L: Log>(log: &L, refused: &SettingRefused<'_>) {
    let fields = [
        ("object", Word("settings")),
        ("file", Bytes(refused.file)),
        ("reason", Word(refused.reason)),
        ("setting", Bytes(refused.setting)),
        ("line", FieldValue::number(refused.line)),
        ("found", Bytes(refused.found)),
        ("allowed", Word(refused.allowed)),
    ];
    tell(log, Level::Error, "refused", &fields);
}

/// A settings file isn't TOML from this line and column on, both counted from 1.
pub fn refused_toml<L: Log>(log: &L, file: &[u8], line: u64, column: u64) {
    let fields = [
        ("object", Word("settings")),
        ("file", Bytes(file)),
        ("reason", Word("not TOML")),
        ("line", Number(line)),
        ("column", Number(column)),
    ];
    tell(log, Level::Error, "refused", &fields);
}

/// Where a server or a proxy listens: for datagrams and lines over TCP at one address, and for admin sessions at another.
#[derive(Clone, Copy, Debug)]
pub struct Places<'a> {
    pub address: &'a [u8],
    pub port: u32,
    pub tcp_port: Option<u32>,
    pub mgmt_address: &'a [u8],
    pub mgmt_port: Option<u32>,
}

impl<'a> Places<'a> {
    fn fields(&self) -> [PlainField<'a>; 5] {
        let mgmt_address = match self.mgmt_port {
            Some(_) => Bytes(self.mgmt_address),
            None => FieldValue::Nothing,
        };
        [
            ("address", Bytes(self.address)),
            ("port", Number(u64::from(self.port))),
            ("tcp_port", FieldValue::number(self.tcp_port)),
            ("mgmt_address", mgmt_address),
            ("mgmt_port", FieldValue::number(self.mgmt_port)),
        ]
    }
}

/// What a server has open, and how large it is: shards, and rows and entries of each.
#[derive(Clone, Copy, Debug)]
pub struct ServerParts<'a> {
    pub version: &'a str,
    pub places: Places<'a>,
    pub backends: &'a [u8],
    pub shards: u32,
    pub rows: u32,
    pub entries: u32,
    pub receivers: u32,
}

/// All of a server is open.
pub fn server_started<L: Log>(log: &L, parts: &ServerParts<'_>) {
    let [address, port, tcp_port, mgmt_address, mgmt_port] = parts.places.fields();
    let fields = [
        ("form", Word("serve")),
        ("version", Word(parts.version)),
        address,
        port,
        tcp_port,
        mgmt_address,
        mgmt_port,
        ("backends", Bytes(parts.backends)),
        ("shards", Number(u64::from(parts.shards))),
        ("rows", Number(u64::from(parts.rows))),
        ("entries", Number(u64::from(parts.entries))),
        ("receivers", Number(u64::from(parts.receivers))),
    ];
    tell(log, Level::Info, "started", &fields);
}

/// What a proxy has open, and of how many nodes and receivers.
#[derive(Clone, Copy, Debug)]
pub struct ProxyParts<'a> {
    pub version: &'a str,
    pub places: Places<'a>,
    pub nodes: u32,
    pub receivers: u32,
}

/// All of a proxy is open.
pub fn proxy_started<L: Log>(log: &L, parts: &ProxyParts<'_>) {
    let [address, port, tcp_port, mgmt_address, mgmt_port] = parts.places.fields();
    let fields = [
        ("form", Word("proxy")),
        ("version", Word(parts.version)),
        address,
        port,
        tcp_port,
        mgmt_address,
        mgmt_port,
        ("nodes", Number(u64::from(parts.nodes))),
        ("receivers", Number(u64::from(parts.receivers))),
    ];
    tell(log, Level::Info, "started", &fields);
}

/// A status, and lines of totals with a name and a number each.
#[derive(Clone, Copy)]
struct End<'a> {
    status: u8,
    totals: &'a [u8],
}

impl Source for End<'_> {
    fn visit<V: VisitSource>(&self, visitor: &mut V) -> Result<(), Error> {
        ("status", u64::from(self.status)).visit(visitor)?;
        let Ok(totals) = str::from_utf8(self.totals) else {
            return Ok(());
        };
        for line in totals.lines() {
            if let Some((name, number)) = line.split_once(' ') {
                (name, number).visit(visitor)?;
            }
        }
        Ok(())
    }
}

/// A run has ended, with this status and these lines of totals.
pub fn stopped<L: Log>(log: &L, status: u8, totals: &[u8]) {
    tell_all(log, Level::Info, "stopped", &End { status, totals });
}
