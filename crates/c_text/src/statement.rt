ghost use Rattle.std.specs.Prelude.{◌≡◌, ◌≤◌, ◌++◌, codes};
ghost use Rattle.tor_edge.specs.Written.{Wrote};
ghost use Rattle.tor_edge.specs.Pieces.{piece_text};
ghost use Rattle.c_text.specs.CText.{statement_text, statements_text, indentation, inner_depth, loop_text, low_text};
ghost use Rattle.c_text.specs.CText.{cell_text, expression_text};

use crate::expression::{put_cell, put_expression};
use c_tree::{CExpr, CIndex, CLow, CStmt};
use tor_edge::{Piece, PutFault, Sink, put_pieces, put_text};

/// How many pairs of braces stand round a line at most, for its indentation.
const MOST_BRACES: u32 = 3;

// Statements at a depth.
pub fn put_statements<S: Sink>(
    sink: &mut S,
    statements: &[CStmt],
    depth: u32,
) -> Result<(), PutFault>
    requires { depth ≤ 3 }
    ensures { Wrote S.faults S.written sink.old sink.new (statements_text depth statements.now) result }
{
    for statement in statements {
        put_statement(sink, statement, depth)?;
    }
    Ok(())
}

fn put_statement<S: Sink>(sink: &mut S, statement: &CStmt, depth: u32) -> Result<(), PutFault>
    requires { depth ≤ 3 }
    ensures { Wrote S.faults S.written sink.old sink.new (statement_text statement.now depth) result }
{
    match statement {
        CStmt::Assign {
            array,
            index,
            value,
        } => put_assignment(sink, array.as_str(), index, value, depth),
        CStmt::Let { name, value } => put_declaration(sink, name.as_str(), value, depth),
        CStmt::For { counter, low, body } => {
            put_loop_start(sink, counter.as_str(), low, depth)?;
            for inner in body.as_slice() {
                put_statement(sink, inner, inner_depth_of(depth))?;
            }
            put_loop_end(sink, depth)
        }
    }
}

fn put_assignment<S: Sink>(
    sink: &mut S,
    array: &str,
    index: &CIndex,
    value: &CExpr,
    depth: u32,
) -> Result<(), PutFault>
    requires { depth ≤ 3 }
    ensures { let text = indentation depth ++ cell_text array.now index.now ++ codes " = (reg)"
        ++ expression_text value.now ++ codes ";\n" in
        Wrote S.faults S.written sink.old sink.new text result }
{
    put_cell(sink, blanks(depth), array, index, " = (reg)")?;
    put_expression(sink, value)?;
    put_text(sink, ";\n")
}

fn put_declaration<S: Sink>(
    sink: &mut S,
    name: &str,
    value: &CExpr,
    depth: u32,
) -> Result<(), PutFault>
    requires { depth ≤ 3 }
    ensures { let text = indentation depth ++ codes "uint64_t " ++ name.now ++ codes " = "
        ++ expression_text value.now ++ codes ";\n" in
        Wrote S.faults S.written sink.old sink.new text result }
{
    put_declared(sink, name, depth)?;
    put_expression(sink, value)?;
    put_text(sink, ";\n")
}

fn put_declared<S: Sink>(sink: &mut S, name: &str, depth: u32) -> Result<(), PutFault>
    requires { depth ≤ 3 }
    ensures { let text = indentation depth ++ codes "uint64_t " ++ name.now ++ codes " = " in
        Wrote S.faults S.written sink.old sink.new text result }
{
    put_pieces(
        sink,
        &[
            Piece::Text(blanks(depth)),
            Piece::Text("uint64_t "),
            Piece::Text(name),
            Piece::Text(" = "),
        ],
    )
}

fn put_loop_start<'x, S: Sink>(
    sink: &mut S,
    counter: &'x str,
    low: &'x CLow,
    depth: u32,
) -> Result<(), PutFault>
    requires { depth ≤ 3 }
    ensures { let text = indentation depth ++ loop_text counter.now low.now in
        Wrote S.faults S.written sink.old sink.new text result }
{
    let (low_start, low_end) = low_pieces(low);
    put_pieces(
        sink,
        &[
            Piece::Text(blanks(depth)),
            Piece::Text("for (unsigned "),
            Piece::Text(counter),
            Piece::Text(" = "),
            low_start,
            low_end,
            Piece::Text("; "),
            Piece::Text(counter),
            Piece::Text(" < D; "),
            Piece::Text(counter),
            Piece::Text("++) {\n"),
        ],
    )
}

fn low_pieces(low: &CLow) -> (Piece<'_>, Piece<'_>)
    ensures { piece_text result.0 ++ piece_text result.1 ≡ low_text low.now }
{
    match low {
        CLow::Number(n) => (Piece::Number(*n), Piece::Text("")),
        CLow::After(name) => (Piece::Text(name.as_str()), Piece::Text(" + 1")),
    }
}

fn put_loop_end<S: Sink>(sink: &mut S, depth: u32) -> Result<(), PutFault>
    requires { depth ≤ 3 }
    ensures { Wrote S.faults S.written sink.old sink.new (indentation depth ++ codes "}\n") result }
{
    put_pieces(sink, &[Piece::Text(blanks(depth)), Piece::Text("}\n")])
}

fn inner_depth_of(depth: u32) -> u32
    requires { depth ≤ 3 }
    ensures value { result ≡ inner_depth depth }
    ensures within { result ≤ 3 }
{
    (depth + 1).min(MOST_BRACES)
}

fn blanks(depth: u32) -> &'static str
    requires { depth ≤ 3 }
    ensures { result.now ≡ indentation depth }
{
    match depth {
        0 => "",
        1 => "  ",
        2 => "    ",
        _ => "      ",
    }
}
