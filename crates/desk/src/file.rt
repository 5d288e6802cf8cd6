// Files by name.
use octets::{Items, Octets};

/// A file: its name, in octets, and its content.
#[derive(Debug, Drop)]
pub struct NamedFile {
    pub name: Octets,
    pub octets: Octets,
}

/// Files by name; of several with one name the first counts.
pub type Files = Items<NamedFile>;
