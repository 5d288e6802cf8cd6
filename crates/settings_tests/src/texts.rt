// Texts of settings.

/// One own locator, which each settings file has.
pub const LOCATOR: &str = "[[locator]]\naddress = '192.0.2.1'\n";

/// A site with one EID prefix, one mapping and one locator on each side.
pub const SITE: &str = r#"
[[locator]]
address = "192.0.2.1"
[[attachment]]
vlan = 0
iid = 0
[[database]]
iid = 0
prefix = "10.1.0.0/16"
[[mapping]]
iid = 0
prefix = "10.2.0.0/16"
[[mapping.locator]]
address = "198.51.100.7"
"#;
