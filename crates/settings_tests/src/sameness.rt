// Settings that are the same in every field.
use lisp_settings::{Record, Settings};

/// Whether every field of the settings is the same.
pub fn are_same(again: &Settings, first: &Settings) -> bool {
    have_same_values(again, first)
        && have_same_lists(again, first)
        && have_same_mappings(again, first)
}

fn have_same_values(again: &Settings, first: &Settings) -> bool {
    again.seed == first.seed
        && again.nonces.as_slice() == first.nonces.as_slice()
        && again.resolver == first.resolver
        && again.ttl == first.ttl
        && again.probe == first.probe
        && again.echo == first.echo
}

fn have_same_lists(again: &Settings, first: &Settings) -> bool {
    again.locators.as_slice() == first.locators.as_slice()
        && again.attachments.as_slice() == first.attachments.as_slice()
        && again.databases.as_slice() == first.databases.as_slice()
        && again.changes.as_slice() == first.changes.as_slice()
        && again.limits.as_slice() == first.limits.as_slice()
}

fn have_same_mappings(again: &Settings, first: &Settings) -> bool {
    if again.mappings.len() != first.mappings.len() {
        return false;
    }
    let mappings = first.mappings.as_slice().iter();
    for (again, first) in again.mappings.as_slice().iter().zip(mappings) {
        if !is_same_mapping(again, first) {
            return false;
        }
    }
    true
}

fn is_same_mapping(again: &Record, first: &Record) -> bool {
    again.eid == first.eid
        && again.ttl == first.ttl
        && again.version == first.version
        && again.action == first.action
        && again.authoritative == first.authoritative
        && again.locators.as_slice() == first.locators.as_slice()
}
