//! Tests of desks in memory, of checksums and prefixes, and of headers, records and messages that
//! no run writes.
#![tactic(auto)]

#[cfg(test)]
mod data_headers;
#[cfg(test)]
mod desk_files;
#[cfg(test)]
mod ip_packets;
#[cfg(test)]
mod messages;
#[cfg(test)]
mod records;
