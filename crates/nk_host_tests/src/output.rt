//! Standard output.

use nk_host::{Sink, SinkFault, StdSink, put_all};
use std::fmt::Display;
use std::fs::File;
use std::io::{Error, ErrorKind, Result as IoResult, Write};
use std::test::Fail;

/// Whether no byte and a line are taken.
fn takes_bytes<O: Sink>(out: &mut O) -> bool {
    out.put(b"").is_ok() && put_all(out, b"a line\n").is_ok()
}

#[test]
fn standard_output_takes_bytes(rt: HostRuntime) {
    assert!(rt; takes_bytes(&mut StdSink::new(&rt)));
}

/// A runtime whose standard output is an open file.
#[derive(Drop)]
struct Redirected<'a> {
    output: &'a File,
}

impl Print for Redirected<'_> {
    fn print<D: Display + Drop>(&self, _value: D) -> IoResult<()> {
        Err(Error::from(ErrorKind::Unsupported))
    }

    fn println<D: Display + Drop>(&self, _value: D) -> IoResult<()> {
        Err(Error::from(ErrorKind::Unsupported))
    }

    fn write_all(&self, bytes: &[u8]) -> IoResult<()> {
        let mut output = self.output;
        output.write_all(bytes)
    }

    fn write_some(&self, bytes: &[u8]) -> IoResult<usize> {
        let mut output = self.output;
        output.write(bytes)
    }
}

/// Whether no byte is taken, and a line isn't, in one put and in pieces.
fn refuses_bytes<O: Sink>(out: &mut O) -> bool {
    out.put(b"") == Ok(())
        && out.put(b"a line\n") == Err(SinkFault)
        && put_all(out, b"a line\n") == Err(SinkFault)
}

#[test]
fn a_full_device_is_a_fault(rt: HostRuntime) -> Result<(), Fail> {
    let device = File::options().write(true).open(&rt, "/dev/full")?;
    let full = Redirected { output: &device };
    let mut out = StdSink::new(&full);
    assert!(rt; refuses_bytes(&mut out));
    assert!(rt; out.faults() == 2);
    Ok(())
}
