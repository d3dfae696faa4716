ghost use Rattle.std.specs.Prelude.{◌≡◌, None, OnOk};
ghost use Rattle.std.specs.Io.KnownBytes.{Appends};

use crate::{PutFault, Sink};
use std::io::Write;

/// A sink over a writer, such as standard output or standard error. It tells no bytes.
#[derive(Debug, Drop)]
pub struct OsSink<W> {
    writer: W,
    faults: u64,
}

impl<W: Write> OsSink<W> {
    pub fn new(writer: W) -> OsSink<W>
        ensures faults { ⟦<OsSink<W> as Sink>⟧.faults result ≡ 0 }
        ensures written { ⟦<OsSink<W> as Sink>⟧.written result ≡ None }
    {
        OsSink { writer, faults: 0 }
    }
}

impl<W: Write> Sink for OsSink<W> {
    ghost faults = { λ sink. sink.faults };

    ghost written = { λ _. None };

    fn put(&mut self, piece: &[u8]) -> Result<(), PutFault> {
        let answer = write_whole(&mut self.writer, piece);
        if answer.is_err() {
            self.faults = self.faults.saturating_add(1);
        }
        answer
    }
}

/// Writes in turns, each of which takes a byte or more.
fn write_whole<W: Write>(writer: &mut W, bytes: &[u8]) -> Result<(), PutFault>
    ensures { OnOk result (Appends (W.contents writer.old) (W.contents writer.new) bytes.now) }
{
    let mut at = 0;
    while at < bytes.len() {
        match writer.write(&bytes[at..]) {
            Ok(0) | Err(_) => return Err(PutFault::Failed),
            Ok(taken) => at += taken,
        }
    }
    Ok(())
}
