// Standard input, output and error as a source and sinks. They tell none of their bytes.
ghost use Rattle.std.specs.Prelude.{◌≡◌, ◌<◌, ◌≤◌, true, false, None, IfOk, OnOk, OnErr, length};
ghost use Rattle.st_base.specs.Streams.{HasCause, Takes};

use st_base::{Failed, OutOfMemory, Sink, Source};
use std::alloc::Global;
use std::io::{ErrorKind, Read, Write};
use std::rt::Stdin;

/// How often a call is made that a signal interrupts. Each loop ends.
const TRIES: u64 = u64::MAX;

// Reads some bytes, and asks again where a signal interrupted the call.
fn read_some(input: &mut Stdin, into: &mut [u8]) -> Result<usize, Failed>
    ensures count { IfOk result (λ count. count ≤ length into.new) }
    ensures size { length into.new ≡ length into.old }
{
    for _ in 0..TRIES {
        match input.read(into) {
            Ok(count) => return Ok(count),
            Err(error) if error.kind() == ErrorKind::Interrupted => (),
            Err(_) => return Err(Failed),
        }
    }
    Err(Failed)
}

// Writes some of the bytes, and asks again where a signal interrupted the call. To take none is an error.
fn write_some<W: Write>(device: &mut W, bytes: &[u8]) -> Result<usize, Failed>
    ensures { IfOk result (λ count. (0 < count) × (count ≤ length bytes.now)) }
{
    for _ in 0..TRIES {
        match device.write(bytes) {
            Ok(0) => return Err(Failed),
            Ok(count) => return Ok(count),
            Err(error) if error.kind() == ErrorKind::Interrupted => (),
            Err(_) => return Err(Failed),
        }
    }
    Err(Failed)
}

/// Standard input, with a count of its errors.
#[derive(Drop)]
pub struct StdSource {
    input: Stdin,
    faults: u64,
}

impl StdSource {
    pub fn new(input: Stdin) -> StdSource {
        StdSource { input, faults: 0 }
    }
}

impl Source for StdSource {
    ghost left = { λ _. None };

    ghost faults = { λ s. s.faults };

    fn take(&mut self, into: &mut [u8]) -> Result<usize, Failed> {
        match read_some(&mut self.input, into) {
            Ok(count) => Ok(count),
            Err(_) => {
                self.faults = self.faults.saturating_add(1);
                Err(Failed)
            }
        }
    }
}

/// How many bytes of output are gathered before it is written.
const BLOCK: usize = 65_536;

/// Standard output or error, with a count of its errors. What is written is gathered, up to a limit
/// or until memory can't hold more. After an error nothing more is written.
#[derive(Drop)]
pub struct StdSink<W: Write + Drop> {
    device: W,
    gathered: Vec<u8>,
    limit: usize,
    has_failed: bool,
    faults: u64,
}

impl<W: Write + Drop> StdSink<W> {
    /// A sink that writes in blocks, with room for one.
    pub fn in_blocks(alloc: Global, device: W) -> Result<StdSink<W>, OutOfMemory> {
        Ok(StdSink {
            device,
            gathered: Vec::with_capacity(alloc, BLOCK)?,
            limit: BLOCK,
            has_failed: false,
            faults: 0,
        })
    }

    /// A sink that writes where it is finished, so that its bytes stand behind those of another.
    pub fn at_end(alloc: Global, device: W) -> StdSink<W> {
        StdSink {
            device,
            gathered: Vec::new(alloc),
            limit: usize::MAX,
            has_failed: false,
            faults: 0,
        }
    }

    /// Writes what is still gathered.
    pub fn finish(&mut self) -> Result<(), Failed>
        ensures cause { HasCause self.old.faults self.new.faults result }
        ensures closed { self.old.has_failed ≡ true → (self.new.device ≡ self.old.device) × OnOk result ⊥ }
        ensures closes { OnErr result (self.new.has_failed ≡ true) }
    {
        match self.write_gathered() {
            Ok(()) => Ok(()),
            Err(_) => {
                self.faults = self.faults.saturating_add(1);
                Err(Failed)
            }
        }
    }

    // Writes what is gathered, and gathers it no more.
    fn write_gathered(&mut self) -> Result<(), Failed>
        ensures kept { self.new.faults ≡ self.old.faults }
        ensures closed { self.old.has_failed ≡ true → (self.new ≡ self.old) × OnOk result ⊥ }
        ensures closes { OnErr result (self.new.has_failed ≡ true) }
    {
        if self.has_failed {
            return Err(Failed);
        }
        let written = self.device.write_all(self.gathered.as_slice());
        self.gathered.clear();
        self.has_failed = written.is_err();
        match written {
            Ok(()) => Ok(()),
            Err(_) => Err(Failed),
        }
    }

    // Gathers the bytes, where there is room for all of them.
    fn gather(&mut self, bytes: &[u8]) -> bool
        ensures kept { self.new.faults ≡ self.old.faults }
        ensures device { self.new.device ≡ self.old.device }
        ensures closed { self.old.has_failed ≡ true → (self.new.has_failed ≡ true) × (result ≡ false) }
    {
        let room = self.limit.saturating_sub(self.gathered.len());
        !self.has_failed && bytes.len() <= room && self.gathered.extend_from_slice(bytes).is_ok()
    }

    // Writes what is gathered, and then gathers the bytes, or writes some of them where there isn't
    // room for all.
    fn write_on(&mut self, bytes: &[u8]) -> Result<usize, Failed>
        requires { 0 < length bytes.now }
        ensures kept { self.new.faults ≡ self.old.faults }
        ensures closed { self.old.has_failed ≡ true → (self.new ≡ self.old) × OnOk result ⊥ }
        ensures closes { OnErr result (self.new.has_failed ≡ true) }
        ensures count { IfOk result (λ count. (0 < count) × (count ≤ length bytes.now)) }
    {
        self.write_gathered()?;
        if self.gather(bytes) {
            return Ok(bytes.len());
        }
        let written = write_some(&mut self.device, bytes);
        self.has_failed = written.is_err();
        written
    }
}

impl<W: Write + Drop> Sink for StdSink<W> {
    ghost written = { λ _. None };

    ghost faults = { λ s. s.faults };

    fn put(&mut self, bytes: &[u8]) -> Result<usize, Failed>
        requires { 0 < length bytes.now }
        ensures bytes { Takes None None result bytes.now }
        ensures cause { HasCause self.old.faults self.new.faults result }
        ensures closed { self.old.has_failed ≡ true → (self.new.device ≡ self.old.device) × OnOk result ⊥ }
        ensures closes { OnErr result (self.new.has_failed ≡ true) }
    {
        if self.gather(bytes) {
            return Ok(bytes.len());
        }
        match self.write_on(bytes) {
            Ok(count) => Ok(count),
            Err(_) => {
                self.faults = self.faults.saturating_add(1);
                Err(Failed)
            }
        }
    }
}

#[cfg(test)]
mod tests {
    use super::*;
    use st_base::put_all;
    use std::test::Fail;

    #[test]
    fn standard_input_gives_bytes_or_its_end(rt: HostRuntime) {
        let mut source = StdSource::new(rt.stdin());
        let mut buffer = [0u8; 4];
        assert!(rt; source.take(&mut buffer).is_ok());
        assert_eq!(rt; source.faults, 0);
    }

    #[test]
    fn standard_output_takes_bytes(rt: HostRuntime) -> Result<(), Fail> {
        let mut out = StdSink::in_blocks(rt.alloc(), rt.stdout())?;
        assert!(rt; put_all(&mut out, b"out\n").is_ok());
        assert!(rt; out.finish().is_ok());
        assert_eq!(rt; out.faults, 0);
        Ok(())
    }

    #[test]
    fn standard_error_takes_bytes(rt: HostRuntime) {
        let mut report = StdSink::at_end(rt.alloc(), rt.stderr());
        assert!(rt; put_all(&mut report, b"report\n").is_ok());
        assert!(rt; report.finish().is_ok());
        assert_eq!(rt; report.faults, 0);
    }
}
