// Map-Versions that step on with each change of the own locators (RFC 9302, section 6.1).
ghost use Rattle.std.specs.Prelude.{◌≡◌, ◌≤◌};
ghost use Rattle.router_model.specs.Limits.{most_version};
ghost use Rattle.router_model.specs.Standing as standing;

use crate::limits::MOST_VERSION;
use lisp_settings::Database;
use router_model::Own;

/// The Map-Version of a prefix of the site after the changes of own locators: one step on for each,
/// round among 1 to 4,095. Version 0 is none, and stays 0.
pub fn stood_version(database: &Database, own: &Own) -> u16
    requires { database.now.version ≤ most_version }
    ensures { result ≡ standing.stood_version own.now.steps database.now.version }
{
    stepped(database.version, own.steps)
}

/// A prefix of the site, with its version `steps` steps on.
pub(crate) fn stood(database: &Database, steps: u32) -> Database
    requires { database.now.version ≤ most_version }
    ensures { result ≡ standing.stood steps database.now }
{
    Database {
        eid: database.eid,
        version: stepped(database.version, steps),
    }
}

// A version `steps` steps on, round among 1 to 4,095. Version 0 stays 0.
fn stepped(version: u16, steps: u32) -> u16
    requires { version ≤ most_version }
    ensures { result ≡ standing.stood_version steps version }
{
    if version == 0 {
        return 0;
    }
    (1 + (u64::from(version) - 1 + u64::from(steps)) % MOST_VERSION as u64) as u16
}
