// What a mapping of the settings has besides its keys, which no run shows.
use crate::texts::SITE;
use lisp_settings::{Addr, Locator, Record, read_settings};
use std::process::Abort;
use std::test::Fail;

#[test]
fn a_mapping_has_the_fields_of_a_record(rt: HostRuntime) -> Result<(), Fail> {
    let settings = read_settings(rt.alloc(), SITE.as_bytes())?;
    assert_eq!(rt; settings.mappings.len(), 1);
    for mapping in settings.mappings.as_slice() {
        assert_default(&rt, mapping);
    }
    Ok(())
}

// Asserts the defaults of a mapping that has only its EID and the address of its locator.
fn assert_default(rt: &impl Abort, mapping: &Record) {
    let prefix = mapping.eid.prefix;
    assert_eq!(rt; (prefix.addr, prefix.len), (Addr::V4(0x0a02_0000), 16));
    assert_eq!(rt; (mapping.eid.iid, mapping.version), (0, 0));
    assert_eq!(rt; (mapping.ttl, mapping.action), (1440, 0));
    assert!(rt; mapping.authoritative);
    let locator = Locator {
        addr: Addr::V4(0xc633_6407),
        priority: 1,
        weight: 1,
        m_priority: 255,
        m_weight: 0,
        local: false,
        probed: false,
        reachable: true,
    };
    assert_eq!(rt; mapping.locators.as_slice(), [locator].as_slice());
}
