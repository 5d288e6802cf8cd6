//! The settings of a router: its TOML file, read exactly or refused by the first fault, and written
//! back; the EID prefixes of its site, its nonces, and the limits of its instances.
#![tactic(auto)]

mod addresses;
mod changes;
mod fault;
mod fields;
mod hex;
mod homes;
mod instances;
mod items;
mod limiting;
mod limits;
mod lists;
mod mappings;
mod members;
mod nonces;
mod places;
mod reading;
mod resolver;
mod settings;
mod values;
mod writing;

pub use changes::is_own;
pub use fault::{Key, SettingsFault};
pub use homes::home;
pub use instances::{Limits, limits_of};
pub use ip_headers::{Addr, Prefix};
pub use limits::{
    GREATEST_SECOND, MOST_ATTACHMENTS, MOST_CHANGES, MOST_DATABASES, MOST_LIMITS, MOST_NONCES,
    MOST_OPEN, MOST_REQUESTS, MOST_TEXT_OCTETS, limits_are,
};
pub use mapping_records::{Eid, Locator, Locators, Record};
pub use nonces::nonce_at;
pub use octets::{Items, NoMemory, Octets};
pub use reading::read_settings;
pub use settings::{
    Attachment, Attachments, Change, Changes, Database, Databases, LimitItem, LimitItems, Nonces,
    OwnLocator, OwnLocators, Records, Settings,
};
pub use writing::write_settings;
