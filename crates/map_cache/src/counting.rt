// How many mappings an instance has learned that haven't ended.
ghost use Rattle.std.specs.Prelude.{◌≡◌, ◌≤◌, ◌+◌, length, nat_lt};
ghost use Rattle.lisp_settings.specs.Instances.{mappings_in};
ghost use Rattle.map_cache.specs.Cache.{lasting, learned_in};
ghost use Rattle.map_cache.specs.Limits.{most_mappings};

use crate::endings::ended_in;
use crate::indexed::Indexed;
use crate::searching::lasts_in;

impl Indexed {
    /// How many mappings of an instance that aren't fixed haven't ended at a moment. Looks at no
    /// mapping that hasn't ended, unless the instance has no limit.
    pub(crate) fn learned_in(&self, m: u64, iid: u32) -> u32
        requires { length self.now.mappings ≤ most_mappings }
        ensures { result ≡ learned_in iid (lasting m self.now.mappings) }
    {
        match self.counts.get(iid) {
            Some(count) => count.learned - self.ended_in(m, iid),
            None => self.counted_in(m, iid),
        }
    }

    /// Whether an instance's mappings that aren't fixed and haven't ended at a moment are fewer
    /// than its limit.
    pub(crate) fn has_place_in(&self, m: u64, iid: u32) -> bool
        requires { length self.now.mappings ≤ most_mappings }
        ensures { result ≡ nat_lt (learned_in iid (lasting m self.now.mappings))
            (mappings_in self.now.limits iid) }
    {
        let Some(count) = self.counts.get(iid) else {
            return false;
        };
        count.learned < count.most || count.learned - self.ended_in(m, iid) < count.most
    }

    // How many mappings of an instance that aren't fixed have ended at a moment.
    fn ended_in(&self, m: u64, iid: u32) -> u32
        requires { length self.now.mappings ≤ most_mappings }
        ensures { result + learned_in iid (lasting m self.now.mappings)
            ≡ learned_in iid self.now.mappings }
    {
        // The calls of `len` bring the facts that no key is there twice, and that mappings are in
        // order.
        let _ = (self.endings.len(), self.by_eid.len());
        ended_in(m, iid, &self.endings)
    }

    // How many mappings of an instance that aren't fixed haven't ended at a moment, counted one by
    // one.
    fn counted_in(&self, m: u64, iid: u32) -> u32
        requires { length self.now.mappings ≤ most_mappings }
        ensures { result ≡ learned_in iid (lasting m self.now.mappings) }
    {
        let mut count = 0;
        for mapping in self.iter() {
            if lasts_in(m, iid, mapping) {
                count += 1;
            }
        }
        count
    }
}
