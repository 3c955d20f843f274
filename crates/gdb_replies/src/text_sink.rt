//! A sink that keeps what it takes, as far as there is memory.

ghost use Rattle.std.specs.Prelude.{◌≡◌, []};

use nk_host::{Sink, SinkFault};
use std::alloc::Global;

/// A text in memory. A put for which memory is wanting is a fault, and takes nothing.
#[derive(Drop)]
pub(crate) struct TextSink {
    pub(crate) text: Vec<u8>,
    pub(crate) count: u64,
}

impl TextSink {
    /// No text, and no fault yet.
    pub(crate) fn new(alloc: Global) -> TextSink
        ensures { result.text.items ≡ [] }
    {
        TextSink {
            text: Vec::new(alloc),
            count: 0,
        }
    }
}

impl Sink for TextSink {
    ghost use Rattle.std.specs.Prelude.{Some};

    ghost taken = { λ s. Some s.text.items };

    ghost faults = { λ s. s.count };

    fn put(&mut self, bytes: &[u8]) -> Result<(), SinkFault> {
        if bytes.is_empty() {
            return Ok(());
        }
        match self.text.extend_from_slice(bytes) {
            Ok(()) => Ok(()),
            Err(_) => {
                self.count = self.count.saturating_add(1);
                Err(SinkFault)
            }
        }
    }
}
