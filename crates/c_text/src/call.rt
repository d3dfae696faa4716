ghost use Rattle.std.specs.Prelude.{◌++◌, flat_map, decimal};
ghost use Rattle.tor_edge.specs.Written.{Wrote};
ghost use Rattle.c_text.specs.CText.{call_text, argument_text, further_text, listed};

use c_tree::{CArg, CCall};
use tor_edge::{Piece, PutFault, Sink, put_pieces, put_text};

// The line of a call.
pub fn put_call<S: Sink>(sink: &mut S, call: &CCall) -> Result<(), PutFault>
    ensures { Wrote S.faults S.written sink.old sink.new (call_text call.now) result }
{
    put_pieces(
        sink,
        &[
            Piece::Text("  "),
            Piece::Text(call.gadget.as_str()),
            Piece::Text("("),
        ],
    )?;
    put_arguments(sink, call.args.as_slice())?;
    put_text(sink, ");\n")
}

fn put_arguments<S: Sink>(sink: &mut S, arguments: &[CArg]) -> Result<(), PutFault>
    ensures { Wrote S.faults S.written sink.old sink.new (listed argument_text arguments.now) result }
{
    match arguments {
        [] => Ok(()),
        [first, rest @ ..] => {
            put_argument(sink, "", *first)?;
            put_further(sink, rest)
        }
    }
}

fn put_further<S: Sink>(sink: &mut S, arguments: &[CArg]) -> Result<(), PutFault>
    ensures { Wrote S.faults S.written sink.old sink.new (flat_map (further_text argument_text) arguments.now) result }
{
    for argument in arguments {
        put_argument(sink, ", ", *argument)?;
    }
    Ok(())
}

// An argument after a text.
fn put_argument<S: Sink>(sink: &mut S, before: &str, argument: CArg) -> Result<(), PutFault>
    ensures { Wrote S.faults S.written sink.old sink.new (before.now ++ argument_text argument) result }
{
    match argument {
        CArg::Out(n) => put_enclosed(sink, before, "out[", n, "]"),
        CArg::Input(n) => put_enclosed(sink, before, "in[", n, "]"),
        CArg::Slot(n) => put_enclosed(sink, before, "v[", n, "]"),
        CArg::Number(n) => put_enclosed(sink, before, "UINT64_C(", n, ")"),
    }
}

// A number between two texts, after a third one.
fn put_enclosed<'x, S: Sink>(
    sink: &mut S,
    before: &'x str,
    opening: &'x str,
    number: u64,
    closing: &'x str,
) -> Result<(), PutFault>
    ensures { let text = before.now ++ (opening.now ++ decimal number ++ closing.now) in
        Wrote S.faults S.written sink.old sink.new text result }
{
    put_pieces(
        sink,
        &[
            Piece::Text(before),
            Piece::Text(opening),
            Piece::Number(number),
            Piece::Text(closing),
        ],
    )
}
