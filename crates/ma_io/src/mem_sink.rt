//! A sink in memory.
ghost use Rattle.std.specs.Prelude.{◌≡◌, Some};
ghost use Rattle.ma_io.specs.Count.{Counts};
ghost use Rattle.ma_io.specs.MemSink.{new_sink, is_put_to_fail, PutAnswers, after_put};
ghost use Rattle.ma_io.specs.Put.{is_failed_put};

use crate::faults::SinkFault;
use crate::traits::Sink;
use std::alloc::Global;
use std::marker::Model;

/// A sink that keeps its bytes in memory and tells them, and fails at puts of given numbers.
///
/// Puts are numbered from 1. A put that fails puts nothing. One for which memory runs out changes
/// nothing, and has no number.
#[derive(Debug, Drop)]
pub struct MemSink {
    bytes: Vec<u8>,
    fail_puts: Vec<u64>,
    puts: u64,
    faults: u64,
}

impl Model for MemSink {
    ghost use Rattle.ma_io.specs.MemSink.{SinkState};

    ghost Value = { SinkState };

    ghost view = { λ s. record { written = s.bytes.items; fail_puts = s.fail_puts.items; puts = s.puts; faults = s.faults } };
}

impl MemSink {
    /// A sink that nothing was put into, whose puts of these numbers fail.
    pub fn new(alloc: Global, fail_puts: Vec<u64>) -> MemSink
        ensures { result ≡ new_sink fail_puts.items }
    {
        MemSink {
            bytes: Vec::new(alloc),
            fail_puts,
            puts: 0,
            faults: 0,
        }
    }

    /// The bytes put so far.
    pub fn bytes(&self) -> &[u8]
        ensures { result.now ≡ self.now.written }
    {
        self.bytes.as_slice()
    }
}

impl Sink for MemSink {
    ghost received = { λ s. record { written = Some s.written; faults = s.faults } };

    fn put(&mut self, bytes: &[u8]) -> Result<(), SinkFault>
        ensures answer { PutAnswers (is_put_to_fail self.old) result }
        ensures after { self.new ≡ after_put self.old bytes.now result }
        ensures faults { Counts (is_failed_put result) self.old.faults self.new.faults }
    {
        let number = self.puts.saturating_add(1);
        if self.fail_puts.contains(&number) {
            self.puts = number;
            self.faults = self.faults.saturating_add(1);
            return Err(SinkFault::Failed);
        }
        match self.bytes.extend_from_slice(bytes) {
            Ok(()) => {
                self.puts = number;
                Ok(())
            }
            Err(_) => Err(SinkFault::Memory),
        }
    }
}
