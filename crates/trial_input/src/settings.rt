// The settings of a trial.
ghost use Rattle.std.specs.Prelude.{◌≡◌, ◌≤◌, ◌<◌, ◌∷◌, [], map, IfOk};
ghost use Rattle.std.specs.List.{range_with_len};
ghost use Rattle.mapping_records.specs.Limits.{most_mappings};
ghost use Rattle.lisp_settings.specs.Lawful.{IsLawful};
ghost use Rattle.trial_input.specs.Trial.{prefix_addr, trial_mapping, trial_settings};

use ip_headers::{Addr, Prefix};
use lisp_settings::{Attachment, Database, OwnLocator, Settings};
use mapping_records::{DEFAULT_MINUTES, Eid, Locator, Record};
use octets::{Items, NoMemory};
use std::alloc::Global;

/// Settings of `n` mappings, 20.0.0.0/24 and the prefixes that follow it, and of the site
/// 192.168.0.0/16. `n` is at most the number of mappings that settings may have.
pub fn trial_settings(alloc: Global, n: u32) -> Result<Settings, NoMemory>
    requires { n ≤ most_mappings }
    ensures settings { IfOk result (λ settings. settings ≡ trial_settings n) }
    ensures lawful { IfOk result (λ settings. IsLawful settings) }
{
    let mut locators = Items::new(alloc);
    locators.push(OwnLocator {
        addr: Addr::V4(0xc633_6401),
        priority: 1,
        weight: 1,
        up: true,
    })?;
    let mut attachments = Items::new(alloc);
    attachments.push(Attachment { vlan: 0, iid: 0 })?;
    let mut databases = Items::new(alloc);
    databases.push(Database {
        eid: Eid {
            iid: 0,
            prefix: Prefix {
                addr: Addr::V4(0xc0a8_0000),
                len: 16,
            },
        },
        version: 0,
    })?;
    let mappings = mappings(alloc, n)?;
    Ok(Settings {
        seed: [0; 32],
        nonces: Items::new(alloc),
        resolver: None,
        ttl: DEFAULT_MINUTES,
        probe: false,
        echo: false,
        locators,
        attachments,
        databases,
        mappings,
        changes: Items::new(alloc),
        limits: Items::new(alloc),
    })
}

fn mappings(alloc: Global, n: u32) -> Result<Items<Record>, NoMemory>
    requires { n ≤ most_mappings }
    ensures { IfOk result (λ mappings. mappings ≡ map trial_mapping (range_with_len 0 n)) }
{
    let mut mappings = Items::new(alloc);
    for i in 0..n {
        mappings.push(mapping(alloc, i)?)?;
    }
    Ok(mappings)
}

fn mapping(alloc: Global, i: u32) -> Result<Record, NoMemory>
    requires { i < most_mappings }
    ensures { IfOk result (λ mapping. mapping ≡ trial_mapping i) }
{
    let locator = Locator {
        addr: Addr::V4(0xcb00_7101 + i % 254),
        priority: 1,
        weight: 1,
        m_priority: 255,
        m_weight: 0,
        local: false,
        probed: false,
        reachable: true,
    };
    Ok(Record {
        ttl: DEFAULT_MINUTES,
        action: 0,
        authoritative: true,
        version: 0,
        eid: Eid {
            iid: 0,
            prefix: Prefix {
                addr: Addr::V4(prefix_addr(i)),
                len: 24,
            },
        },
        locators: Items::from_vec(Vec::from_slice(alloc, &[locator])?),
    })
}

/// The first address of prefix `i`: 20.0.0.0 + 256 `i`.
pub(crate) fn prefix_addr(i: u32) -> u32
    requires { i < most_mappings }
    ensures addr { result ≡ prefix_addr i }
{
    (0x14_0000 + i) * 256
}
