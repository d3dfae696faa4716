//! The text of a view.
ghost use Rattle.std.specs.Prelude.{◌≡◌, ◌+◌, ◌<◌, ◌≤◌, ◌^◌, ◌++◌, length, codes};
ghost use Rattle.tor_edge.specs.Written.{Wrote};
ghost use Rattle.linear_view.specs.RowsText.{kind_text, column_text, row_text, line_text, operand_text, product_text, texts_from, head_text, rows_text};

use crate::column::{Column, ColumnKind};
use crate::view::{Pair, View};
use gf2_span::BitRow;
use tor_edge::{Piece, PutFault, Sink, put_pieces, put_text};

/// Writes the text of the view: how many columns it has, and a line for each row of the operands of each product.
pub fn write_rows<S: Sink>(view: &View, sink: &mut S) -> Result<(), PutFault>
    ensures { Wrote S.faults S.written sink.old sink.new (rows_text view.now) result }
{
    let columns = view.column_slice();
    put_head(sink, columns.len() as u64)?;
    put_products(sink, columns, view.product_slice())
}

/// Writes those of the view's columns whose bit is set in a row, each after a blank.
pub fn write_columns<S: Sink>(view: &View, row: &BitRow, sink: &mut S) -> Result<(), PutFault>
    ensures { Wrote S.faults S.written sink.old sink.new (row_text view.now.columns row.now) result }
{
    put_row(sink, view.column_slice(), row)
}

fn put_head<S: Sink>(sink: &mut S, columns: u64) -> Result<(), PutFault>
    ensures { Wrote S.faults S.written sink.old sink.new (head_text columns) result }
{
    put_pieces(
        sink,
        &[
            Piece::Text("columns "),
            Piece::Number(columns),
            Piece::Text("\n"),
        ],
    )
}

fn put_products<S: Sink>(
    sink: &mut S,
    columns: &[Column],
    products: &[Pair],
) -> Result<(), PutFault>
    requires few { length columns.now < 2 ^ 32 }
    ensures { Wrote S.faults S.written sink.old sink.new (texts_from (product_text columns.now) 0 products.now) result }
{
    for (k, pair) in products.iter().enumerate() {
        put_product(sink, columns, k as u64, pair)?;
    }
    Ok(())
}

fn put_product<S: Sink>(
    sink: &mut S,
    columns: &[Column],
    product: u64,
    pair: &Pair,
) -> Result<(), PutFault>
    requires { length columns.now < 2 ^ 32 }
    ensures { Wrote S.faults S.written sink.old sink.new (product_text columns.now product pair.now) result }
{
    put_operand(sink, columns, product, "left", pair.left().as_slice())?;
    put_operand(sink, columns, product, "right", pair.right().as_slice())
}

fn put_operand<S: Sink>(
    sink: &mut S,
    columns: &[Column],
    product: u64,
    side: &str,
    rows: &[BitRow],
) -> Result<(), PutFault>
    requires { length columns.now < 2 ^ 32 }
    ensures { Wrote S.faults S.written sink.old sink.new (operand_text columns.now product side.now rows.now) result }
{
    for (bit, row) in rows.iter().enumerate() {
        put_line(sink, columns, product, side, bit as u64, row)?;
    }
    Ok(())
}

fn put_line<S: Sink>(
    sink: &mut S,
    columns: &[Column],
    product: u64,
    side: &str,
    bit: u64,
    row: &BitRow,
) -> Result<(), PutFault>
    requires { length columns.now < 2 ^ 32 }
    ensures { Wrote S.faults S.written sink.old sink.new (line_text columns.now product side.now bit row.now) result }
{
    put_pieces(
        sink,
        &[
            Piece::Text("p"),
            Piece::Number(product),
            Piece::Text(" "),
            Piece::Text(side),
            Piece::Text(" "),
            Piece::Number(bit),
            Piece::Text(" ="),
        ],
    )?;
    put_row(sink, columns, row)?;
    put_text(sink, "\n")
}

// The columns of the row, from its first one on.
fn put_row<S: Sink>(sink: &mut S, columns: &[Column], row: &BitRow) -> Result<(), PutFault>
    requires { length columns.now < 2 ^ 32 }
    ensures { Wrote S.faults S.written sink.old sink.new (row_text columns.now row.now) result }
{
    if let Some(first) = row.first() {
        for c in first as usize..columns.len() {
            if row.has(c as u32) {
                put_column(sink, columns[c])?;
            }
        }
    }
    Ok(())
}

// The column, after a blank.
fn put_column<S: Sink>(sink: &mut S, column: Column) -> Result<(), PutFault>
    ensures { Wrote S.faults S.written sink.old sink.new (codes " " ++ column_text column) result }
{
    put_pieces(
        sink,
        &[
            Piece::Text(letter(column.kind)),
            Piece::Number(u64::from(column.number)),
            Piece::Text("."),
            Piece::Number(u64::from(column.bit)),
        ],
    )
}

// A blank and the letter of the kind.
fn letter(kind: ColumnKind) -> &'static str
    ensures { result.now ≡ codes " " ++ kind_text kind }
{
    match kind {
        ColumnKind::Input => " i",
        ColumnKind::Product => " p",
        ColumnKind::Refresh => " f",
    }
}
