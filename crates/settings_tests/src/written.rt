// Settings that are written, and read back.
ghost use Rattle.lisp_settings.specs.Lawful.{IsLawful};

use crate::sameness::are_same;
use crate::texts::{LOCATOR, SITE};
use lisp_settings::{NoMemory, Settings, SettingsFault, read_settings, write_settings};
use std::alloc::Global;
use std::process::Abort;
use std::test::Fail;

/// The most octets of a settings file.
const MOST: usize = 16_777_216;

// Asserts that the settings of a text, written in at most `most` octets and read back, are the same.
fn assert_written_back(
    rt: &impl Abort,
    alloc: Global,
    text: &str,
    most: usize,
) -> Result<(), SettingsFault> {
    let first = read_settings(alloc, text.as_bytes())?;
    assert_writes_back(rt, alloc, &first, most)
}

fn assert_writes_back(
    rt: &impl Abort,
    alloc: Global,
    first: &Settings,
    most: usize,
) -> Result<(), SettingsFault>
    requires { IsLawful first.now }
{
    let written = write_settings(alloc, first)?;
    assert!(rt; written.len() <= most);
    assert_reads_as(rt, alloc, written.as_slice(), first)
}

fn assert_reads_as(
    rt: &impl Abort,
    alloc: Global,
    text: &[u8],
    first: &Settings,
) -> Result<(), SettingsFault> {
    let again = read_settings(alloc, text)?;
    assert!(rt; are_same(&again, first));
    Ok(())
}

#[test]
fn what_is_written_reads_as_the_settings(rt: HostRuntime) -> Result<(), Fail> {
    let alloc = rt.alloc();
    for (most, text) in [
        // A small site in few octets.
        (999, SITE),
        (999, LOCATOR),
        // Every key at its default, where it has one.
        (
            MOST,
            r#"
nonces = []
seed = "0000000000000000000000000000000000000000000000000000000000000000"
ttl = 1440
probe = false
echo = false
locator = [{address = "192.0.2.1", priority = 1, weight = 1, up = true}]
attachment = []
database = [{iid = 0, prefix = "10.1.0.0/16", version = 0}]
[[mapping]]
iid = 0
prefix = "10.2.0.0/16"
version = 0
action = 0
locator = []
"#,
        ),
        // Every key at another value than its default.
        (
            MOST,
            r#"
seed = "000102030405060708090A0B0C0D0E0F101112131415161718191a1b1c1d1eff"
nonces = ["FEDCBA9876543210", "0000000000000000", "ffffffffffffffff", "0123456789abcdef"]
resolver = "203.0.113.9"
ttl = 4294967294
probe = true
echo = true
locator = [
    {address = "::1", priority = 255, weight = 0, up = false},
    {address = "192.0.2.1", priority = 0, weight = 255},
]
attachment = [{vlan = 4095, iid = 16777215}, {vlan = 0, iid = 1}]
database = [{iid = 16777215, prefix = "2001:db8::/32", version = 4095}]
change = [
    {at = 4294967295, address = "192.0.2.1", up = false},
    {at = 7, address = "::1", up = true},
    {at = 7, address = "192.0.2.1", up = true},
]
limit = [
    {iid = 16777215, mappings = 65535, requests = 1024},
    {iid = 1, mappings = 0, requests = 7},
]
[[mapping]]
iid = 16777215
prefix = "10.2.0.0/16"
version = 4095
action = 7
locator = [{address = "198.51.100.7", priority = 2, weight = 3, up = false}]
"#,
        ),
        // A resolver of each family.
        (
            MOST,
            "resolver = '203.0.113.9'\nlocator = [{address = '::1'}, {address = '192.0.2.1'}]",
        ),
        (
            MOST,
            "resolver = '2001:db8::9'\nlocator = [{address = '::1'}, {address = '192.0.2.1'}]",
        ),
        // All own locators down, or of priority 255.
        (
            MOST,
            "locator = [{address = '::1', up = false}, {address = '192.0.2.1', priority = 255}]",
        ),
        // Lists out of order.
        (
            MOST,
            r#"
locator = [{address = "::1"}, {address = "192.0.2.9"}, {address = "192.0.2.1"}]
attachment = [{vlan = 4095, iid = 0}, {vlan = 7, iid = 16777215}, {vlan = 0, iid = 1}]
database = [
    {iid = 1, prefix = "10.0.0.0/8"},
    {iid = 0, prefix = "2001:db8::/32"},
    {iid = 0, prefix = "10.1.0.0/24", version = 4095},
    {iid = 0, prefix = "10.1.0.0/16"},
]
mapping = [
    {iid = 9, prefix = "10.0.0.0/8", locator = [{address = "::9"}, {address = "203.0.113.9"}]},
    {iid = 3, prefix = "::/0", action = 7},
    {iid = 3, prefix = "10.0.0.0/9", locator = [{address = "::1"}, {address = "::"}]},
    {iid = 3, prefix = "10.0.0.0/8", version = 4095},
]
change = [
    {at = 9, address = "::1", up = true},
    {at = 9, address = "192.0.2.1", up = true},
    {at = 0, address = "::1", up = false},
    {at = 4294967295, address = "192.0.2.9", up = false},
]
limit = [
    {iid = 16777215, mappings = 0, requests = 0},
    {iid = 0, mappings = 65532, requests = 1024},
    {iid = 1, mappings = 0, requests = 1024},
]
"#,
        ),
        // Addresses and prefixes of each form.
        (
            MOST,
            r#"
locator = [
    {address = "0.0.0.0"},
    {address = "192.0.2.1"},
    {address = "255.255.255.255"},
    {address = "::"},
    {address = "::1"},
    {address = "2001:db8::1"},
    {address = "::ffff:c000:201"},
    {address = "::c000:201"},
    {address = "0:0:1::"},
    {address = "1:0:0:2::3:0"},
    {address = "ffff:ffff:ffff:ffff:ffff:ffff:ffff:ffff"},
]
database = [
    {iid = 0, prefix = "0.0.0.0/32"},
    {iid = 0, prefix = "192.0.2.1/32"},
    {iid = 0, prefix = "192.0.2.1/23"},
    {iid = 0, prefix = "255.255.255.255/32"},
    {iid = 0, prefix = "255.255.255.255/0"},
    {iid = 0, prefix = "::/0"},
    {iid = 0, prefix = "::1/128"},
    {iid = 0, prefix = "::1/32"},
    {iid = 0, prefix = "2001:db8::1/32"},
    {iid = 0, prefix = "::ffff:c000:201/128"},
    {iid = 0, prefix = "::c000:201/128"},
    {iid = 0, prefix = "0:0:1::/128"},
    {iid = 0, prefix = "1:0:0:2::3:0/128"},
    {iid = 0, prefix = "ffff:ffff:ffff:ffff:ffff:ffff:ffff:ffff/127"},
]
"#,
        ),
    ] {
        assert_written_back(&rt, alloc, text, most)?;
    }
    Ok(())
}

// 4,096 nonces, and a mapping with 32 locators, neither ascending nor descending.
fn long_lists(alloc: Global) -> Result<String, NoMemory> {
    let mut text = String::from_str(alloc, "nonces = [")?;
    for i in 0..4096u64 {
        let nonce = (i ^ 0x555) << 52 | i;
        text.push_str(format!(in alloc; "'{nonce:016x}',")?.as_str())?;
    }
    text.push_str("]\nmapping = [{iid = 0, prefix = '::/0', locator = [")?;
    for i in 0..32u8 {
        let host = i ^ 21;
        text.push_str(format!(in alloc;
            "{{address = '203.0.113.{host}', weight = {i}}},"
        )?.as_str())?;
    }
    text.push_str("]}]\n")?;
    text.push_str(LOCATOR)?;
    Ok(text)
}

// 65,536 mappings, each with a locator.
fn many_mappings(alloc: Global) -> Result<String, NoMemory> {
    let mut text = String::from_str(alloc, LOCATOR)?;
    for i in 0..65_536u32 {
        let (high, low) = (i >> 8, i & 255);
        let mapping = format!(in alloc;
            "[[mapping]]\niid = 0\nprefix = '10.{high}.{low}.0/24'\n\
            [[mapping.locator]]\naddress = '203.0.113.{low}'\n"
        )?;
        text.push_str(mapping.as_str())?;
    }
    Ok(text)
}

#[test]
fn the_longest_lists_are_written_back(rt: HostRuntime) -> Result<(), Fail> {
    let alloc = rt.alloc();
    let text = long_lists(alloc)?;
    assert_written_back(&rt, alloc, text.as_str(), MOST)?;
    let text = many_mappings(alloc)?;
    assert_written_back(&rt, alloc, text.as_str(), MOST)?;
    Ok(())
}
