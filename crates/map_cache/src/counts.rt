// How many mappings each instance has learned, beside its limits.
ghost use Rattle.std.specs.Prelude.{◌≡◌, ◌<◌, ◌-◌, ◌^◌, ℕ, All, IfOk, IfSome, None, length, option_and_then, slice_get, if◌then◌else◌};
ghost use Rattle.std.specs.Option.{option_map_or};
ghost use Rattle.lisp_settings.specs.Instances.{AreLimits, mappings_in, stated};
ghost use Rattle.map_cache.specs.Indexed.{for_each, with_one};

use crate::{Limits, Mapping, NoMemory};
use std::alloc::Global;
use std::marker::Model;

/// How many mappings an instance may learn, and how many it has learned.
#[derive(Clone, Copy, Drop)]
pub(crate) struct Count {
    pub most: u32,
    pub learned: u32,
}

/// How many mappings each instance that has a limit has learned.
#[derive(Drop)]
pub(crate) struct Counts {
    limits: Limits,
    // One number for each limit.
    learned: Vec<u32>,
}

impl Model for Counts {
    ghost use Rattle.std.specs.Prelude.{◌≡◌, length};
    ghost use Rattle.lisp_settings.specs.Instances.{AreLimits};
    ghost use Rattle.map_cache.specs.Indexed.{Counted};

    ghost Value = { Counted };

    ghost view = { λ counts. record {
      limits = counts.limits;
      learned = counts.learned.items;
    } };

    ghost invariant = { λ counts. AreLimits counts.limits
        × (length counts.learned.items ≡ length counts.limits) };
}

impl Counts {
    /// Counts of 0, one for each limit.
    pub(crate) fn new(alloc: Global, limits: &Limits) -> Result<Counts, NoMemory>
        ensures limits { IfOk result (λ counts. counts.limits ≡ limits.now) }
        ensures learned { IfOk result (λ counts. counts.learned ≡ for_each (λ iid. 0) limits.now) }
    {
        let learned = vec![in alloc; 0u32; limits.as_slice().len()]?;
        let limits = limits.copy(alloc)?;
        Ok(Counts { limits, learned })
    }

    /// A copy of the counts, which shares no memory with them.
    pub(crate) fn copy(&self, alloc: Global) -> Result<Counts, NoMemory>
        ensures { IfOk result (λ copy. copy ≡ self.now) }
    {
        let learned = Vec::from_slice(alloc, self.learned.as_slice())?;
        let limits = self.limits.copy(alloc)?;
        Ok(Counts { limits, learned })
    }

    /// The number of limits.
    pub(crate) fn len(&self) -> usize
        ensures limits { result ≡ length self.now.limits }
        ensures learned { result ≡ length self.now.learned }
        ensures are { AreLimits self.now.limits }
    {
        self.learned.len()
    }

    /// How many mappings an instance may learn, and how many it has learned, or None where it has
    /// no limit.
    pub(crate) fn get(&self, iid: u32) -> Option<Count>
        ensures most { option_map_or (λ count. count.most) result 0 ≡ mappings_in self.now.limits iid }
        ensures learned { (number : ℕ → ℕ) → self.now.learned ≡ for_each number self.now.limits
            → IfSome result (λ count. count.learned ≡ number iid) }
    {
        let place = self.limits.place(iid)?;
        Some(Count {
            most: self.limits.as_slice()[place].mappings,
            learned: self.learned[place],
        })
    }

    /// Counts a mapping that came.
    pub(crate) fn add(&mut self, mapping: &Mapping)
        requires { All (λ learned. learned < 2 ^ 32 - 1) self.old.learned }
        ensures limits { self.new.limits ≡ self.old.limits }
        ensures learned { (number : ℕ → ℕ) → self.old.learned ≡ for_each number self.old.limits
            → self.new.learned ≡ for_each (with_one mapping.now number) self.old.limits }
    {
        if let Some(place) = self.place(mapping) {
            self.learned[place] += 1;
        }
    }

    /// Takes a mapping that had come out of the counts.
    pub(crate) fn drop(&mut self, mapping: &Mapping)
        requires { (number : ℕ → ℕ)
            × (self.old.learned ≡ for_each (with_one mapping.now number) self.old.limits) }
        ensures limits { self.new.limits ≡ self.old.limits }
        ensures learned { (number : ℕ → ℕ)
            → self.old.learned ≡ for_each (with_one mapping.now number) self.old.limits
            → self.new.learned ≡ for_each number self.old.limits }
    {
        if let Some(place) = self.place(mapping) {
            self.learned[place] -= 1;
        }
    }

    // The place of the number in which a mapping counts, or None where it is fixed or its instance
    // has no limit.
    fn place(&self, mapping: &Mapping) -> Option<usize>
        ensures found { option_and_then (slice_get self.now.limits) result
            ≡ (if mapping.now.fixed then None else stated self.now.limits mapping.now.eid.iid) }
        ensures within { IfSome result (λ place. place < length self.now.learned) }
    {
        if mapping.fixed {
            return None;
        }
        self.limits.place(mapping.eid.iid)
    }
}
