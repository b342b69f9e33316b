//! The output of a request.
ghost use Rattle.std.specs.Prelude.{◌≡◌, ◌++◌, ◌<◌, ◌≤◌, [], length, Some, IfOk};
ghost use Rattle.std.specs.Io.KnownBytes.{WriteAppends};
ghost use Rattle.outside.specs.Faults.{CountsFailure, HasCause};
ghost use Rattle.node_service.specs.Outputs.{OutputValue, PutsBytes};

use outside::{Failed, Sink};
use std::alloc::Global;
use std::marker::Model;

/// The output of a request, which goes out with its answer. A write fails only for want of memory.
#[derive(Drop)]
pub struct Output {
    bytes: Vec<u8>,
    faults: u64,
}

impl Model for Output {
    ghost use Rattle.node_service.specs.Outputs.{OutputValue};

    ghost Value = { OutputValue };

    ghost view = { λ o. record { bytes = o.bytes.items; faults = o.faults } };
}

impl Output {
    /// An output to which nothing was written.
    pub fn new(alloc: Global) -> Output
        ensures { result ≡ record { bytes = []; faults = 0 } }
    {
        Output {
            bytes: Vec::new(alloc),
            faults: 0,
        }
    }

    /// What was written.
    pub fn bytes(&self) -> &[u8]
        ensures { result.now ≡ self.now.bytes }
    {
        self.bytes.as_slice()
    }

    /// What was written, without a copy of it.
    pub fn into_bytes(self) -> Vec<u8>
        ensures { result.items ≡ self.bytes }
    {
        self.bytes
    }

    /// Writes bytes that were made for it. Where nothing was written before, it keeps them as they lie,
    /// so that they stand once. At `Failed`, which comes for want of memory, none of them is written.
    pub fn put(&mut self, bytes: Vec<u8>) -> Result<(), Failed>
        ensures puts { PutsBytes bytes.items self.old.bytes self.new.bytes result }
        ensures counts { CountsFailure result self.old.faults self.new.faults }
    {
        if self.bytes.is_empty() {
            self.bytes = bytes;
            return Ok(());
        }
        self.append(bytes.as_slice())
    }

    // Appends bytes, or none.
    fn append(&mut self, bytes: &[u8]) -> Result<(), Failed>
        ensures puts { PutsBytes bytes.now self.old.bytes self.new.bytes result }
        ensures counts { CountsFailure result self.old.faults self.new.faults }
        ensures cause { HasCause self.old.faults self.new.faults result }
    {
        match self.bytes.extend_from_slice(bytes) {
            Ok(()) => Ok(()),
            Err(_) => {
                self.faults = self.faults.saturating_add(1);
                Err(Failed)
            }
        }
    }
}

impl Sink for Output {
    ghost use Rattle.node_service.specs.Outputs.{output_told};

    ghost tells = { output_told };

    fn write(&mut self, bytes: &[u8]) -> Result<usize, Failed>
        ensures bound { IfOk result (λ n. n ≤ length bytes.now) }
        ensures some { 0 < length bytes.now → IfOk result (λ n. 0 < n) }
        ensures bytes { WriteAppends (Some self.old.bytes) (Some self.new.bytes) result bytes.now }
        ensures cause { HasCause self.old.faults self.new.faults result }
    {
        match self.append(bytes) {
            Ok(()) => Ok(bytes.len()),
            Err(e) => Err(e),
        }
    }
}
