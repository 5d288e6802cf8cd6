// Copies of a table.
ghost use Rattle.std.specs.Prelude.{◌≡◌, IfOk};

use crate::Table;
use crate::copies::copied_own;
use locator_state::LocatorState;
use map_cache::MapCache;
use octets::NoMemory;
use request_queue::RequestQueue;

impl Table {
    /// A copy of a table: contracts see it as equal, and it stands for the same journals. The two
    /// share no memory.
    pub fn copy(&self) -> Result<Table, NoMemory>
        ensures { IfOk result (λ copy. copy ≡ self.now) }
    {
        let own = copied_own(self.alloc, self.own.as_slice())?;
        let limits = self.limits.copy(self.alloc)?;
        let (cache, queue, locators) = all_copied(&self.cache, &self.queue, &self.locators)?;
        Ok(Table {
            alloc: self.alloc,
            own,
            steps: self.steps,
            limits,
            count: self.count,
            drawn: self.drawn,
            cache,
            queue,
            locators,
            turns: self.turns,
        })
    }
}

// The copies of cache, queue and state of locators, made in nested calls so that each failure has
// few copies to drop.
fn all_copied(
    cache: &MapCache,
    queue: &RequestQueue,
    locators: &LocatorState,
) -> Result<(MapCache, RequestQueue, LocatorState), NoMemory>
    ensures cache { IfOk result (λ copies. copies.0 ≡ cache.entry.now) }
    ensures queue { IfOk result (λ copies. copies.1 ≡ queue.now) }
    ensures locators { IfOk result (λ copies. copies.2 ≡ locators.now) }
{
    let cache = cache.copy()?;
    let (queue, locators) = both_copied(queue, locators)?;
    Ok((cache, queue, locators))
}

fn both_copied(
    queue: &RequestQueue,
    locators: &LocatorState,
) -> Result<(RequestQueue, LocatorState), NoMemory>
    ensures queue { IfOk result (λ copies. copies.0 ≡ queue.now) }
    ensures locators { IfOk result (λ copies. copies.1 ≡ locators.now) }
{
    let queue = queue.copy()?;
    Ok((queue, locators.copy()?))
}
