// The octets that a row stands for.
use crate::rows::{Names, Octets};
use anyhow::{Context, Result};
use std::alloc::Global;

/// The octets of words, or of words with changes.
pub fn octets_of(alloc: Global, names: &Names<'_>, octets: &Octets) -> Result<Vec<u8>> {
    match octets {
        Octets::Words(words) => joined(alloc, names, words.as_str()),
        Octets::Changed(changed) => {
            let mut octets = joined(alloc, names, changed.like.as_str())?;
            if let Some(size) = changed.size {
                octets.resize(size, 0)?;
            }
            for (place, words) in &changed.change {
                let values = joined(alloc, names, words.as_str())?;
                put(&mut octets, *place, &values)?;
            }
            Ok(octets)
        }
    }
}

// The octets of the words, one behind another.
fn joined(alloc: Global, names: &Names<'_>, words: &str) -> Result<Vec<u8>> {
    let mut octets = Vec::new(alloc);
    for word in words.split_ascii_whitespace() {
        match names.packet(word) {
            Some(packet) => push_packet(alloc, word, packet, &mut octets)?,
            None => octets.extend_from_slice(&decoded(alloc, word)?)?,
        }
    }
    Ok(octets)
}

// The octets of a named packet are hexadecimal alone, without names.
fn push_packet(alloc: Global, name: &str, packet: &str, octets: &mut Vec<u8>) -> Result<()> {
    for word in packet.split_ascii_whitespace() {
        let piece = decoded(alloc, word).context(format_args!("packet.{name}"))?;
        octets.extend_from_slice(&piece)?;
    }
    Ok(())
}

fn decoded(alloc: Global, word: &str) -> Result<Vec<u8>> {
    hex::decode(alloc, word).context(format_args!("{word:?} is no packet and no hexadecimal"))
}

// Puts the values in place of the octets from that place on; a place without an octet is a fault.
fn put(octets: &mut Vec<u8>, place: usize, values: &[u8]) -> Result<()> {
    for (i, value) in values.iter().enumerate() {
        let place = place.saturating_add(i);
        *octets
            .get_mut(place)
            .context(format_args!("no octet {place} to change"))? = *value;
    }
    Ok(())
}
