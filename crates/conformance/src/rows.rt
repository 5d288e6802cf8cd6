// Files of rows. A key that no struct here has is refused.
use serde::Deserialize;
use std::alloc::{AllocError, Global};
use std::collections::BTreeMap;

/// A file of rows, with names for texts of settings and for packets in hexadecimal.
#[derive(Drop)]
pub struct RowFile {
    pub settings: BTreeMap<String, String>,
    pub packet: BTreeMap<String, String>,
    pub rows: Vec<Row>,
}

/// A run, and its wanted end; or as many runs as `words` and `each` have.
#[derive(Drop, Deserialize)]
#[serde(deny_unknown_fields)]
pub struct Row {
    pub name: String,
    pub shows: String,
    pub words: Option<Texts>,
    pub settings: Option<Texts>,
    pub link: Option<Link>,
    pub unit: Option<Unit>,
    pub frames: Option<Vec<(String, Octets)>>,
    pub each: Option<Vec<(String, Octets)>>,
    pub tail: Option<Octets>,
    pub capture: Option<Octets>,
    pub sent: Option<Sent>,
    pub desk: Option<DeskKind>,
    #[serde(default)]
    pub fails: Vec<u64>,
    #[serde(default)]
    pub status: u8,
    pub report: String,
    pub packets: Option<Vec<(String, Octets)>>,
    pub output: Option<Octets>,
}

/// The link of a capture's frames.
#[derive(Drop, Deserialize)]
#[serde(rename_all = "lowercase")]
pub enum Link {
    Raw,
    Ethernet,
}

/// The unit of a capture's fractions of a second.
#[derive(Drop, Deserialize)]
#[serde(rename_all = "lowercase")]
pub enum Unit {
    Us,
    Ns,
}

/// A desk in memory, of which a file may be missing and calls may fail, or a steady one, on which
/// no call fails.
#[derive(Drop, Deserialize)]
#[serde(rename_all = "lowercase")]
pub enum DeskKind {
    Memory,
    Steady,
}

/// A text, or several.
#[derive(Drop, Deserialize)]
#[serde(untagged)]
pub enum Texts {
    One(String),
    Several(Vec<String>),
}

/// The packets that a router sent: raw packets with their moments, or the whole file.
#[derive(Drop, Deserialize)]
#[serde(untagged)]
pub enum Sent {
    Packets(Vec<(String, Octets)>),
    File(Octets),
}

/// Octets: words, each hexadecimal or the name of a packet; or such words with changes.
#[derive(Drop, Deserialize)]
#[serde(untagged)]
pub enum Octets {
    Words(String),
    Changed(Changed),
}

/// Words with changes: cut or filled up with zeros to a size, and then with other octets at places.
#[derive(Drop, Deserialize)]
#[serde(deny_unknown_fields)]
pub struct Changed {
    pub like: String,
    pub size: Option<usize>,
    #[serde(default)]
    pub change: Vec<(usize, String)>,
}

/// A file of rows, and the one whose names it may use beside its own.
#[derive(Drop)]
pub struct Names<'a> {
    pub own: &'a RowFile,
    pub shared: &'a RowFile,
}

impl<'a> Names<'a> {
    /// The packet of that name, in hexadecimal. An own name goes before a shared one.
    pub fn packet(&self, name: &str) -> Option<&'a str> {
        match self.own.packet.get(name) {
            Some(text) => Some(text.as_str()),
            None => Some(self.shared.packet.get(name)?.as_str()),
        }
    }

    fn settings(&self, name: &str) -> Option<&'a str> {
        match self.own.settings.get(name) {
            Some(text) => Some(text.as_str()),
            None => Some(self.shared.settings.get(name)?.as_str()),
        }
    }

    /// The texts one behind another, each either the settings of that name or itself.
    pub fn joined(&self, alloc: Global, texts: &Texts) -> Result<String, AllocError> {
        let mut joined = String::new(alloc);
        match texts {
            Texts::One(text) => self.push(text.as_str(), &mut joined)?,
            Texts::Several(texts) => {
                for text in texts {
                    self.push(text.as_str(), &mut joined)?;
                }
            }
        }
        Ok(joined)
    }

    fn push(&self, text: &str, joined: &mut String) -> Result<(), AllocError> {
        joined.push_str(self.settings(text).unwrap_or(text))
    }
}
