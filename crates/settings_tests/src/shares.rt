// The limits that each instance has: those that are stated, and equal shares of what is left.
ghost use Rattle.lisp_settings.specs.Lawful.{IsLawful};

use crate::texts::LOCATOR;
use lisp_settings::{LimitItem, NoMemory, Settings, SettingsFault, limits_of, read_settings};
use std::alloc::Global;
use std::process::Abort;
use std::test::Fail;

// Asserts the limits of the instances of a text, in order of instance.
fn assert_limits(
    rt: &impl Abort,
    alloc: Global,
    text: &str,
    limits: &[LimitItem],
) -> Result<(), SettingsFault> {
    let settings = read_settings(alloc, text.as_bytes())?;
    assert_limits_of(rt, alloc, &settings, limits)?;
    Ok(())
}

fn assert_limits_of(
    rt: &impl Abort,
    alloc: Global,
    settings: &Settings,
    limits: &[LimitItem],
) -> Result<(), NoMemory>
    requires { IsLawful settings.now }
{
    let found = limits_of(alloc, settings)?;
    assert_eq!(rt; found.as_slice(), limits);
    assert_eq!(rt; found.copy(alloc)?.as_slice(), limits);
    for (i, limit) in limits.iter().enumerate() {
        assert_eq!(rt; found.place(limit.iid), Some(i));
    }
    assert_eq!(rt; found.place(16_777_215), None);
    Ok(())
}

fn limit(iid: u32, mappings: u32, requests: u32) -> LimitItem {
    LimitItem {
        iid,
        mappings,
        requests,
    }
}

// One static mapping, in an instance to which no VLAN is attached.
const STATIC: &str = "[[mapping]]\niid = 9\nprefix = '10.2.0.0/16'\n";

#[test]
fn instances_share_what_is_left(rt: HostRuntime) -> Result<(), Fail> {
    let alloc = rt.alloc();
    let none = "";
    let one = "attachment = [{vlan = 0, iid = 7}, {vlan = 1, iid = 7}]\n";
    let three =
        "attachment = [{vlan = 0, iid = 300}, {vlan = 1, iid = 100}, {vlan = 5, iid = 200}]\n";
    let stated = "limit = [{iid = 200, mappings = 2, requests = 0}]\n";
    let both = "limit = [{iid = 200, mappings = 2, requests = 0}, \
        {iid = 100, mappings = 65530, requests = 1024}]\n";
    let rows: [(&str, &str, &[LimitItem]); 5] = [
        (none, none, &[]),
        (one, none, &[limit(7, 65_535, 1024)]),
        (
            three,
            none,
            &[
                limit(100, 21_845, 1024),
                limit(200, 21_845, 1024),
                limit(300, 21_845, 1024),
            ],
        ),
        (
            three,
            stated,
            &[
                limit(100, 32_766, 1024),
                limit(200, 2, 0),
                limit(300, 32_766, 1024),
            ],
        ),
        (
            three,
            both,
            &[
                limit(100, 65_530, 1024),
                limit(200, 2, 0),
                limit(300, 3, 1024),
            ],
        ),
    ];
    for (attachments, limits, found) in rows {
        let text = format!(in alloc; "{attachments}{limits}{LOCATOR}{STATIC}")?;
        assert_limits(&rt, alloc, text.as_str(), found)?;
    }
    Ok(())
}

// The attachments of the instances below 20.
fn twenty(alloc: Global) -> Result<String, NoMemory> {
    let mut text = String::from_str(alloc, LOCATOR)?;
    for i in 0..20u16 {
        text.push_str(format!(in alloc; "[[attachment]]\nvlan = {i}\niid = {i}\n")?.as_str())?;
    }
    Ok(text)
}

// Asserts that each of the instances below 20 has a twentieth of all mappings and requests.
fn assert_twentieths(rt: &impl Abort, alloc: Global, settings: &Settings) -> Result<(), NoMemory>
    requires { IsLawful settings.now }
{
    let found = limits_of(alloc, settings)?;
    assert_eq!(rt; found.as_slice().len(), 20);
    for (i, found) in (0..20u32).zip(found.as_slice()) {
        assert_eq!(rt; *found, limit(i, 3276, 819));
    }
    Ok(())
}

#[test]
fn many_instances_may_ask_less_each(rt: HostRuntime) -> Result<(), Fail> {
    let text = twenty(rt.alloc())?;
    let settings = read_settings(rt.alloc(), text.as_bytes())?;
    assert_twentieths(&rt, rt.alloc(), &settings)?;
    Ok(())
}
