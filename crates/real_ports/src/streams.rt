//! The standard streams.

ghost use Rattle.std.specs.Prelude.{◌≡◌, ◌^◌, None, IfOk};
ghost use Rattle.hd_base.specs.Faults.{HasCause};

use hd_base::{Failed, Sink, Source};
use std::alloc::{AllocError, Global};
use std::io::{BufWriter, Read, Write};

/// A reader as a source. It shows nothing of what is left.
#[derive(Drop)]
pub struct StdSource<R> {
    /// The reader.
    pub inner: R,
    /// How many reads failed.
    pub faults: u64,
}

impl<R: Read + Drop> Source for StdSource<R> {
    ghost left = { λ _. None };

    ghost faults = { λ s. s.faults };

    ghost schedule = { λ _. None };

    fn read(&mut self, into: &mut [u8]) -> Result<usize, Failed> {
        match self.inner.read(into) {
            Ok(count) => Ok(count),
            Err(_) => {
                self.faults = self.faults.saturating_add(1);
                Err(Failed)
            }
        }
    }
}

/// A writer as a sink, which shows nothing of what was written and takes no memory. What is written stays in a buffer
/// until that is full or `flush` is called.
#[derive(Drop)]
pub struct StdSink<W: Write + Drop> {
    inner: BufWriter<W>,
    faults: u64,
}

impl<W: Write + Drop> StdSink<W> {
    /// A sink over this writer. Its only error is that the buffer finds no memory.
    pub fn new(alloc: Global, inner: W) -> Result<StdSink<W>, AllocError>
        ensures { IfOk result (λ sink. ⟦<StdSink<W> as Sink>⟧.faults sink ≡ 0) }
    {
        match BufWriter::new(alloc, inner) {
            Ok(inner) => Ok(StdSink { inner, faults: 0 }),
            Err(_) => Err(AllocError),
        }
    }

    /// Brings what stands in the buffer to the writer. A failure is counted.
    pub fn flush(&mut self) -> Result<(), Failed>
        ensures { HasCause (⟦<StdSink<W> as Sink>⟧.faults self.old) (⟦<StdSink<W> as Sink>⟧.faults self.new) result }
    {
        match self.inner.flush() {
            Ok(()) => Ok(()),
            Err(_) => {
                self.faults = self.faults.saturating_add(1);
                Err(Failed)
            }
        }
    }
}

impl<W: Write + Drop> Sink for StdSink<W> {
    ghost written = { λ _. None };

    ghost room = { λ _. 2 ^ 65 };

    ghost faults = { λ s. s.faults };

    ghost schedule = { λ _. None };

    fn room(&mut self, _alloc: Global, _len: u64) -> Result<(), AllocError> {
        Ok(())
    }

    fn write(&mut self, piece: &[u8]) -> Result<usize, Failed> {
        match self.inner.write(piece) {
            Ok(count) if count > 0 || piece.is_empty() => Ok(count),
            _ => {
                self.faults = self.faults.saturating_add(1);
                Err(Failed)
            }
        }
    }
}
