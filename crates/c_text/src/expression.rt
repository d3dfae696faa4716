ghost use Rattle.std.specs.Prelude.{◌≡◌, ◌++◌, codes};
ghost use Rattle.tor_edge.specs.Written.{Wrote};
ghost use Rattle.tor_edge.specs.Pieces.{piece_text};
ghost use Rattle.c_text.specs.CText.{expression_text, operator_text, cell_text, index_text, constant_text};

use c_tree::{CExpr, CIndex, COp};
use tor_edge::{Piece, PutFault, Sink, put_pieces, put_text};

pub fn put_expression<S: Sink>(sink: &mut S, expression: &CExpr) -> Result<(), PutFault>
    ensures { Wrote S.faults S.written sink.old sink.new (expression_text expression.now) result }
{
    match expression {
        CExpr::Cell { array, index } => put_operand(sink, array.as_str(), index),
        CExpr::Word(name) => put_word(sink, name.as_str()),
        CExpr::Number(n) => put_constant(sink, *n),
        CExpr::Random => put_word(sink, "tornado_random()"),
        CExpr::Two { op, left, right } => {
            put_word(sink, "(")?;
            put_expression(sink, left.get())?;
            put_operator(sink, *op)?;
            put_expression(sink, right.get())?;
            put_word(sink, ")")
        }
    }
}

fn put_word<S: Sink>(sink: &mut S, word: &str) -> Result<(), PutFault>
    ensures { Wrote S.faults S.written sink.old sink.new word.now result }
{
    put_text(sink, word)
}

fn put_operand<S: Sink>(sink: &mut S, array: &str, index: &CIndex) -> Result<(), PutFault>
    ensures { let text = codes "(uint64_t)" ++ cell_text array.now index.now in
        Wrote S.faults S.written sink.old sink.new text result }
{
    put_cell(sink, "(uint64_t)", array, index, "")
}

// An element of an array between two texts.
pub fn put_cell<'x, S: Sink>(
    sink: &mut S,
    before: &'x str,
    array: &'x str,
    index: &'x CIndex,
    after: &'x str,
) -> Result<(), PutFault>
    ensures { let text = before.now ++ cell_text array.now index.now ++ after.now in
        Wrote S.faults S.written sink.old sink.new text result }
{
    put_pieces(
        sink,
        &[
            Piece::Text(before),
            Piece::Text(array),
            Piece::Text("["),
            index_piece(index),
            Piece::Text("]"),
            Piece::Text(after),
        ],
    )
}

fn index_piece(index: &CIndex) -> Piece<'_>
    ensures { piece_text result ≡ index_text index.now }
{
    match index {
        CIndex::Number(n) => Piece::Number(*n),
        CIndex::Counter(name) => Piece::Text(name.as_str()),
    }
}

fn put_constant<S: Sink>(sink: &mut S, number: u64) -> Result<(), PutFault>
    ensures { Wrote S.faults S.written sink.old sink.new (constant_text number) result }
{
    put_pieces(
        sink,
        &[
            Piece::Text("UINT64_C("),
            Piece::Number(number),
            Piece::Text(")"),
        ],
    )
}

fn put_operator<S: Sink>(sink: &mut S, op: COp) -> Result<(), PutFault>
    ensures { Wrote S.faults S.written sink.old sink.new (codes " " ++ operator_text op ++ codes " ") result }
{
    put_word(sink, spaced(op))
}

fn spaced(op: COp) -> &'static str
    ensures { result.now ≡ codes " " ++ operator_text op ++ codes " " }
{
    match op {
        COp::Xor => " ^ ",
        COp::And => " & ",
        COp::Or => " | ",
        COp::Shl => " << ",
        COp::Shr => " >> ",
        COp::Sub => " - ",
    }
}
