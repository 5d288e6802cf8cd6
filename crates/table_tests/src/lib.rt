//! Tests of the node store, the prefix table, the map-cache, the queue of requests and the state of
//! locators, for what no run shows: copies, reads that are counted, limits that no run comes to.
#![tactic(auto)]

#[cfg(test)]
mod choices;
#[cfg(test)]
mod copies;
#[cfg(test)]
mod mappings;
#[cfg(test)]
mod prefix_tables;
#[cfg(test)]
mod probes;
#[cfg(test)]
mod rows;
