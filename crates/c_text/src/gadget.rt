ghost use Rattle.std.specs.Prelude.{◌++◌, flat_map};
ghost use Rattle.tor_edge.specs.Written.{Wrote};
ghost use Rattle.c_text.specs.CText.{gadget_text, parameter_text, further_text, listed};

use crate::statement::put_statements;
use c_tree::{CFun, CParam};
use tor_edge::{Piece, PutFault, Sink, put_pieces, put_text};

pub fn put_gadget<S: Sink>(sink: &mut S, gadget: &CFun) -> Result<(), PutFault>
    ensures { Wrote S.faults S.written sink.old sink.new (gadget_text gadget.now) result }
{
    put_pieces(
        sink,
        &[
            Piece::Text("static void "),
            Piece::Text(gadget.name.as_str()),
            Piece::Text("("),
        ],
    )?;
    put_parameters(sink, gadget.params.as_slice())?;
    put_text(sink, ") {\n")?;
    put_statements(sink, gadget.body.as_slice(), 1)?;
    put_text(sink, "}\n")
}

fn put_parameters<S: Sink>(sink: &mut S, parameters: &[CParam]) -> Result<(), PutFault>
    ensures { Wrote S.faults S.written sink.old sink.new (listed parameter_text parameters.now) result }
{
    match parameters {
        [] => Ok(()),
        [first, rest @ ..] => {
            put_parameter(sink, "", first)?;
            put_further(sink, rest)
        }
    }
}

fn put_further<S: Sink>(sink: &mut S, parameters: &[CParam]) -> Result<(), PutFault>
    ensures { let text = flat_map (further_text parameter_text) parameters.now in
        Wrote S.faults S.written sink.old sink.new text result }
{
    for parameter in parameters {
        put_parameter(sink, ", ", parameter)?;
    }
    Ok(())
}

// A parameter after a text.
fn put_parameter<S: Sink>(sink: &mut S, before: &str, parameter: &CParam) -> Result<(), PutFault>
    ensures { Wrote S.faults S.written sink.old sink.new (before.now ++ parameter_text parameter.now) result }
{
    match parameter {
        CParam::Array(name) => put_enclosed(sink, before, "reg ", name.as_str(), "[D]"),
        CParam::Word(name) => put_enclosed(sink, before, "uint64_t ", name.as_str(), ""),
    }
}

// A name between two texts, after a third one.
fn put_enclosed<S: Sink>(
    sink: &mut S,
    before: &str,
    opening: &str,
    name: &str,
    closing: &str,
) -> Result<(), PutFault>
    ensures { let text = before.now ++ (opening.now ++ name.now ++ closing.now) in
        Wrote S.faults S.written sink.old sink.new text result }
{
    put_pieces(
        sink,
        &[
            Piece::Text(before),
            Piece::Text(opening),
            Piece::Text(name),
            Piece::Text(closing),
        ],
    )
}
