//! The text of a trial.
ghost use Rattle.std.specs.Prelude.{◌≡◌, ◌++◌, codes, decimal, flat_map};
ghost use Rattle.tor_edge.specs.Written.{Wrote};
ghost use Rattle.share_trial.specs.TrialText.{share_text, output_text, outputs_text, head_text, trial_text};

use crate::trials::{Trial, TrialOutput};
use tor_edge::{Piece, PutFault, Sink, put_pieces, put_text};

/// Writes the text of a trial: how many shares and random words, and a line for each output.
pub fn write_trial<S: Sink>(trial: &Trial, sink: &mut S) -> Result<(), PutFault>
    ensures { Wrote S.faults S.written sink.old sink.new (trial_text trial.now) result }
{
    put_head(sink, trial.shares, trial.words)?;
    put_outputs(sink, trial.outputs.as_slice())
}

fn put_head<S: Sink>(sink: &mut S, shares: u32, words: u64) -> Result<(), PutFault>
    ensures { Wrote S.faults S.written sink.old sink.new (head_text shares words) result }
{
    put_pieces(
        sink,
        &[
            Piece::Text("shares "),
            Piece::Number(u64::from(shares)),
            Piece::Text("\nwords "),
            Piece::Number(words),
            Piece::Text("\n"),
        ],
    )
}

fn put_outputs<S: Sink>(sink: &mut S, outputs: &[TrialOutput]) -> Result<(), PutFault>
    ensures { Wrote S.faults S.written sink.old sink.new (outputs_text 0 outputs.now) result }
{
    for (k, output) in outputs.iter().enumerate() {
        put_output(sink, k as u64, output)?;
    }
    Ok(())
}

fn put_output<S: Sink>(sink: &mut S, number: u64, output: &TrialOutput) -> Result<(), PutFault>
    ensures { Wrote S.faults S.written sink.old sink.new (output_text number output.now) result }
{
    put_value(sink, number, output.value)?;
    put_shares(sink, output.shares.as_slice())?;
    put_text(sink, "\n")
}

fn put_value<S: Sink>(sink: &mut S, number: u64, value: u64) -> Result<(), PutFault>
    ensures { let text = codes "o" ++ decimal number ++ codes " " ++ decimal value ++ codes " =" in
        Wrote S.faults S.written sink.old sink.new text result }
{
    put_pieces(
        sink,
        &[
            Piece::Text("o"),
            Piece::Number(number),
            Piece::Text(" "),
            Piece::Number(value),
            Piece::Text(" ="),
        ],
    )
}

fn put_shares<S: Sink>(sink: &mut S, shares: &[u64]) -> Result<(), PutFault>
    ensures { Wrote S.faults S.written sink.old sink.new (flat_map share_text shares.now) result }
{
    for share in shares {
        put_share(sink, *share)?;
    }
    Ok(())
}

fn put_share<S: Sink>(sink: &mut S, share: u64) -> Result<(), PutFault>
    ensures { Wrote S.faults S.written sink.old sink.new (share_text share) result }
{
    put_pieces(sink, &[Piece::Text(" "), Piece::Number(share)])
}
