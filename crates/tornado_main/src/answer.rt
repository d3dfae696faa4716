ghost use Rattle.std.specs.Prelude.{ℕ, List};
ghost use Rattle.tor_edge.specs.Written.{Wrote};
ghost use Rattle.tornado_main.specs.Ending.{SentAnswer};

use crate::refusal::Refusal;
use tor_edge::{PutFault, Sink, put_text};

/// The finished answer of a command. To write it takes no memory.
pub trait Answer {
    // What it says.
    ghost text: { Self → List ℕ };

    fn write<S: Sink>(&self, sink: &mut S) -> Result<(), PutFault>
        ensures { Wrote S.faults S.written sink.old sink.new (text self.now) result };
}

/// A line that is known beforehand.
#[derive(Debug, Clone, Copy)]
pub struct Line(pub &'static str);

impl Answer for Line {
    ghost text = { λ line. line.0.now };

    fn write<S: Sink>(&self, sink: &mut S) -> Result<(), PutFault> {
        put_text(sink, self.0)
    }
}

/// Writes the answer to the output.
pub fn send<'a, A: Answer, O: Sink>(answer: &A, out: &mut O) -> Result<(), Refusal<'a>>
    ensures { SentAnswer O.faults O.written (A.text answer.now) out.old out.new result }
{
    answer.write(out)?;
    Ok(())
}
