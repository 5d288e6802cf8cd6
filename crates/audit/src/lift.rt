// The nonces of the router's own Map-Requests, lifted out of a capture frame by frame.
ghost use Rattle.std.specs.Prelude.{◌≡◌, [], OnOk, OnErr};
ghost use Rattle.audit.specs.Lifted.{lifted_on, with_number};
ghost use Rattle.audit.specs.Limits.{most_lifted};

use crate::limits::MOST_LIFTED;
use crate::requests::sent_nonce;
use capture_io::Frame;
use lisp_settings::{Nonces, Settings};
use octets::{Items, NoMemory};
use std::alloc::Global;
use std::collections::BTreeSet;
use std::marker::Model;

/// The nonces lifted so far, which contracts see as their list.
#[derive(Drop)]
pub struct Lift {
    nonces: Vec<u64>,
    known: BTreeSet<u64>,
}

impl Model for Lift {
    ghost use Rattle.std.specs.Prelude.{ℕ, List};
    ghost use Rattle.audit.specs.Lifted.{AreKnown};

    ghost Value = { List ℕ };

    ghost view = { λ lift. lift.nonces.items };

    ghost invariant = { λ lift. AreKnown lift.nonces.items lift.known.keys };
}

impl Lift {
    /// A list without nonces. Takes no memory.
    pub fn new(alloc: Global) -> Self
        ensures { result ≡ [] }
    {
        Lift {
            nonces: Vec::new(alloc),
            known: BTreeSet::new(alloc),
        }
    }

    /// Adds the nonce of the Map-Request that the router of these settings sent in a frame, if
    /// there is one and its nonce isn't in the list yet. Behind the first 1,000,000 no nonce is
    /// added.
    pub fn see(&mut self, alloc: Global, settings: &Settings, frame: &Frame) -> Result<(), NoMemory>
        ensures ok { OnOk result (self.new ≡ lifted_on settings.now self.old frame.now) }
        ensures err { OnErr result (self.new ≡ self.old) }
    {
        match sent_nonce(alloc, settings, frame)? {
            Some(nonce) => self.add(nonce),
            None => Ok(()),
        }
    }

    /// The lifted nonces, in the order in which they were first sent.
    pub fn nonces(self) -> Nonces
        ensures { result ≡ self }
    {
        let Lift { nonces, known: _ } = self;
        Items::from_vec(nonces)
    }

    // Adds a nonce, unless it is in the list, or the list has `MOST_LIFTED`.
    fn add(&mut self, nonce: u64) -> Result<(), NoMemory>
        ensures ok { OnOk result (self.new ≡ with_number most_lifted self.old nonce) }
        ensures err { OnErr result (self.new ≡ self.old) }
    {
        if self.nonces.len() >= MOST_LIFTED || self.known.contains(&nonce) {
            return Ok(());
        }
        self.nonces.reserve(1)?;
        self.known.insert(nonce)?;
        self.nonces.push_reserved(nonce);
        Ok(())
    }
}
