ghost use Rattle.std.specs.Prelude.{◌∷◌, flat_map};
ghost use Rattle.data_text.specs.Writing.{value_after, values_text};
ghost use Rattle.tor_edge.specs.Written.{Wrote};

use tor_edge::{Piece, PutFault, Sink, put_number, put_pieces, put_text};

/// Writes values on one line.
pub fn write_values<S: Sink>(values: &[u64], sink: &mut S) -> Result<(), PutFault>
    ensures { Wrote S.faults S.written sink.old sink.new (values_text values.now) result }
{
    match values {
        [first, more @ ..] => put_line(sink, *first, more),
        [] => put_text(sink, "\n"),
    }
}

fn put_line<S: Sink>(sink: &mut S, first: u64, more: &[u64]) -> Result<(), PutFault>
    ensures { Wrote S.faults S.written sink.old sink.new (values_text (first ∷ more.now)) result }
{
    put_number(sink, first)?;
    put_more(sink, more)?;
    put_text(sink, "\n")
}

// Values that stand behind others.
fn put_more<S: Sink>(sink: &mut S, values: &[u64]) -> Result<(), PutFault>
    ensures { Wrote S.faults S.written sink.old sink.new (flat_map value_after values.now) result }
{
    for value in values {
        put_after(sink, *value)?;
    }
    Ok(())
}

fn put_after<S: Sink>(sink: &mut S, value: u64) -> Result<(), PutFault>
    ensures { Wrote S.faults S.written sink.old sink.new (value_after value) result }
{
    put_pieces(sink, &[Piece::Text(" "), Piece::Number(value)])
}
