ghost use Rattle.std.specs.Prelude.{◌≡◌, ◌<◌, ◌≤◌, ◌^◌, IfOk, flat_map, length};
ghost use Rattle.std.specs.List.{range_with_len};
ghost use Rattle.source_gen.specs.Source.{line_text, generated_line, head_text, generated_source};
ghost use Rattle.tor_edge.specs.Written.{Wrote};

use crate::draft::Draft;
use crate::operands::{Operands, draw_operands, element_of, variable_of};
use std::alloc::{AllocError, Global};
use tor_edge::{List, MAX_FILE_BYTES, Piece, PutFault, Sink, put_pieces, put_text};
use word_draws::Draws;

/// The most lines of a generated source.
pub const MAX_SIZE: u64 = 4_096;

/// The value of the limit.
pub fn limits()
    ensures { MAX_SIZE ≡ 4096 }
{}

/// The bytes of the source of so many lines. They are no more than a file may have.
pub fn source_of(alloc: Global, seed: u64, size: u64) -> Result<List<u8>, AllocError>
    requires { size ≤ MAX_SIZE }
    ensures source { IfOk result (λ bytes. bytes ≡ generated_source seed size) }
    ensures few { IfOk result (λ bytes. length bytes ≤ MAX_FILE_BYTES) }
{
    let mut draft = Draft::new(alloc);
    match write_source(seed, size, &mut draft) {
        Ok(()) => Ok(List::from_vec(draft.into_bytes())),
        Err(_) => Err(AllocError),
    }
}

/// Writes the source of so many lines.
pub fn write_source<S: Sink>(seed: u64, size: u64, sink: &mut S) -> Result<(), PutFault>
    requires { size ≤ MAX_SIZE }
    ensures { Wrote S.faults S.written sink.old sink.new (generated_source seed size) result }
{
    put_head(sink, size)?;
    put_lines(sink, seed, size)?;
    put_text(sink, "tel\n")
}

fn put_head<S: Sink>(sink: &mut S, size: u64) -> Result<(), PutFault>
    ensures { Wrote S.faults S.written sink.old sink.new (head_text size) result }
{
    put_pieces(
        sink,
        &[
            Piece::Text("node g (x:b8) returns (z:b"),
            Piece::Number(size),
            Piece::Text(")\nlet\n"),
        ],
    )
}

fn put_lines<S: Sink>(sink: &mut S, seed: u64, size: u64) -> Result<(), PutFault>
    requires { size ≤ MAX_SIZE }
    ensures { let lines = flat_map (generated_line seed) (range_with_len 0 size) in
        Wrote S.faults S.written sink.old sink.new lines result }
{
    let mut draws = Draws::new(seed);
    for line in 0..size {
        let operands = draw_operands(&mut draws, line);
        put_line(sink, line, operands)?;
    }
    Ok(())
}

fn put_line<S: Sink>(sink: &mut S, line: u64, operands: Operands) -> Result<(), PutFault>
    ensures { Wrote S.faults S.written sink.old sink.new (line_text line operands) result }
{
    put_pieces(
        sink,
        &[
            Piece::Text("  z["),
            Piece::Number(line),
            Piece::Text("] = ("),
            Piece::Text(variable_of(operands.first)),
            Piece::Number(element_of(operands.first)),
            Piece::Text("] ^ "),
            Piece::Text(variable_of(operands.second)),
            Piece::Number(element_of(operands.second)),
            Piece::Text("]) & "),
            Piece::Text(variable_of(operands.third)),
            Piece::Number(element_of(operands.third)),
            Piece::Text("];\n"),
        ],
    )
}
