// Locators of others that get SMRs for changes of own locators (RFC 9301, section 6.1).
ghost use Rattle.std.specs.Prelude.{◌≡◌, ◌<◌, ◌≤◌, [], All, IsTrue, vec_len, vec_capacity};
ghost use Rattle.router_model.specs.Limits.{most_told};
ghost use Rattle.router_model.specs.Parts.{view_in};
ghost use Rattle.router_model.specs.Tick.{first_told, is_told, named};

use crate::Table;
use crate::limits::MOST_TOLD;
use crate::site::Site;
use crate::turns::Covered;
use ip_headers::Addr;

impl Table {
    /// Finds the locators that get SMRs for changes: the first by address that live mappings name.
    pub(crate) fn find_told(&self, site: &Site<'_>, m: u64, told: &mut Vec<Addr>)
        requires now { self.now.parts.now ≤ m }
        requires none { told.old.items ≡ [] }
        requires room { most_told < vec_capacity told.old }
        ensures items { told.new.items ≡ first_told (named site.now (view_in self.now.parts m)) }
        ensures few { vec_len told.new ≤ most_told }
        ensures reached { All (λ address. IsTrue (is_told site.now address)) told.new.items }
    {
        let mut covered = Covered::Nothing;
        while told.len() < MOST_TOLD {
            let Some((rloc, _)) = self.next_name(m, covered) else {
                return;
            };
            if site.is_told(rloc) {
                told.push_reserved(rloc);
            }
            covered = Covered::UpTo(rloc);
        }
    }
}
