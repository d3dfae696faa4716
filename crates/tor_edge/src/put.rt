ghost use Rattle.std.specs.Prelude.{◌≡◌, [], decimal, IsOk};
ghost use Rattle.tor_edge.specs.Written.{Wrote};
ghost use Rattle.tor_edge.specs.Pieces.{piece_text, text_of};
ghost use Rattle.tor_edge.specs.Gathered.{Gathered};

use crate::{PutFault, Sink};
use arrayvec::ArrayVec;

/// How many bytes of several pieces are put at one go.
const AT_ONE_GO: usize = 256;

/// A part of a text that is put at one go.
#[derive(Debug, Clone, Copy)]
pub enum Piece<'a> {
    Text(&'a str),
    Number(u64),
}

/// Writes the bytes, and calls nothing where there are none.
pub fn put_bytes<S: Sink>(sink: &mut S, piece: &[u8]) -> Result<(), PutFault>
    ensures wrote { Wrote S.faults S.written sink.old sink.new piece.now result }
    ensures nothing { piece.now ≡ [] → IsOk result × (sink.new ≡ sink.old) }
{
    if piece.is_empty() {
        return Ok(());
    }
    sink.put(piece)
}

/// Writes the text's UTF-8.
pub fn put_text<S: Sink>(sink: &mut S, text: &str) -> Result<(), PutFault>
    ensures wrote { Wrote S.faults S.written sink.old sink.new text.now result }
    ensures nothing { text.now ≡ [] → IsOk result × (sink.new ≡ sink.old) }
{
    put_bytes(sink, text.as_bytes())
}

/// Writes the number in decimal digits, without leading zeros.
pub fn put_number<S: Sink>(sink: &mut S, value: u64) -> Result<(), PutFault>
    ensures { Wrote S.faults S.written sink.old sink.new (decimal value) result }
{
    put_text(sink, itoa::Buffer::new().format(value))
}

/// Writes the pieces one after another, up to the first fault. Pieces that are short together are put at one go.
pub fn put_pieces<S: Sink>(sink: &mut S, pieces: &[Piece<'_>]) -> Result<(), PutFault>
    ensures { Wrote S.faults S.written sink.old sink.new (text_of pieces.now) result }
{
    let mut waiting = ArrayVec::new();
    for piece in pieces {
        gather_piece(sink, &mut waiting, piece)?;
    }
    put_bytes(sink, waiting.as_slice())
}

fn gather_piece<S: Sink>(
    sink: &mut S,
    waiting: &mut ArrayVec<u8, AT_ONE_GO>,
    piece: &Piece<'_>,
) -> Result<(), PutFault>
    ensures { Gathered S.faults S.written sink.old sink.new waiting.old.items (piece_text piece.now)
        waiting.new.items result }
{
    match *piece {
        Piece::Text(text) => gather(sink, waiting, text),
        Piece::Number(value) => gather(sink, waiting, itoa::Buffer::new().format(value)),
    }
}

fn gather<S: Sink>(
    sink: &mut S,
    waiting: &mut ArrayVec<u8, AT_ONE_GO>,
    text: &str,
) -> Result<(), PutFault>
    ensures { Gathered S.faults S.written sink.old sink.new waiting.old.items text.now waiting.new.items result }
{
    if waiting.try_extend_from_slice(text.as_bytes()).is_ok() {
        return Ok(());
    }
    put_bytes(sink, waiting.as_slice())?;
    waiting.clear();
    put_text(sink, text)
}
