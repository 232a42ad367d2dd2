// A sink that keeps what is written to it.
ghost use Rattle.std.specs.Prelude.{◌≡◌, ◌<◌, Some, length};
ghost use Rattle.st_base.specs.Streams.{HasCause, Takes};

use st_base::{Failed, Sink};
use std::alloc::Global;
use std::marker::Model;

/// Keeps what is written, and fails where memory is wanted. Contracts see it as a `Page`.
#[derive(Drop)]
pub struct Kept {
    bytes: Vec<u8>,
    faults: u64,
}

impl Model for Kept {
    ghost use Rattle.st_gen.specs.Page.{Page};

    ghost Value = { Page };

    ghost view = { λ k. record { bytes = k.bytes.items; faults = k.faults } };
}

impl Kept {
    ghost use Rattle.std.specs.Prelude.{◌≡◌, [], length};

    pub fn new(alloc: Global) -> Kept
        ensures { result ≡ record { bytes = []; faults = 0 } }
    {
        Kept {
            bytes: Vec::new(alloc),
            faults: 0,
        }
    }

    /// How many bytes were written.
    pub fn count(&self) -> usize
        ensures { result ≡ length self.now.bytes }
    {
        self.bytes.len()
    }
}

impl Sink for Kept {
    ghost written = { λ k. Some k.bytes };

    ghost faults = { λ k. k.faults };

    fn put(&mut self, bytes: &[u8]) -> Result<usize, Failed>
        requires { 0 < length bytes.now }
        ensures bytes { Takes (Some self.old.bytes) (Some self.new.bytes) result bytes.now }
        ensures cause { HasCause self.old.faults self.new.faults result }
    {
        match self.bytes.extend_from_slice(bytes) {
            Ok(()) => Ok(bytes.len()),
            Err(_) => {
                self.faults = self.faults.saturating_add(1);
                Err(Failed)
            }
        }
    }
}
