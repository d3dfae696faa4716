ghost use Rattle.std.specs.Prelude.{◌++◌, flat_map};
ghost use Rattle.tor_edge.specs.Written.{Wrote};
ghost use Rattle.c_text.specs.CText.{c_text, head_text, masked_text, slots_text, gadget_text, call_text};

use crate::call::put_call;
use crate::gadget::put_gadget;
use c_tree::{CCall, CFile, CFun};
use tor_edge::{Piece, PutFault, Sink, put_pieces, put_text};

/// Writes the text of the file.
pub fn write_c<S: Sink>(file: &CFile, sink: &mut S) -> Result<(), PutFault>
    ensures { Wrote S.faults S.written sink.old sink.new (c_text file.now) result }
{
    put_head(sink, file.reg_bits)?;
    put_gadgets(sink, file.gadgets.as_slice())?;
    put_start(sink, file)?;
    put_calls(sink, file.calls.as_slice())?;
    put_text(sink, "}\n")
}

fn put_head<S: Sink>(sink: &mut S, bits: u32) -> Result<(), PutFault>
    ensures { Wrote S.faults S.written sink.old sink.new (head_text bits) result }
{
    put_pieces(
        sink,
        &[
            Piece::Text("#include <stdint.h>\n#ifndef D\n#define D 2\n#endif\ntypedef uint"),
            Piece::Number(u64::from(bits)),
            Piece::Text("_t reg;\nuint64_t tornado_random(void);\n"),
        ],
    )
}

fn put_gadgets<S: Sink>(sink: &mut S, gadgets: &[CFun]) -> Result<(), PutFault>
    ensures { Wrote S.faults S.written sink.old sink.new (flat_map gadget_text gadgets.now) result }
{
    for gadget in gadgets {
        put_gadget(sink, gadget)?;
    }
    Ok(())
}

// The first line of `masked`, and the declaration of `v`.
fn put_start<S: Sink>(sink: &mut S, file: &CFile) -> Result<(), PutFault>
    ensures { let text = masked_text file.now.outputs file.now.inputs ++ slots_text file.now.slots in
        Wrote S.faults S.written sink.old sink.new text result }
{
    put_masked(sink, file.outputs, file.inputs)?;
    put_slots(sink, file.slots)
}

fn put_masked<S: Sink>(sink: &mut S, outputs: u32, inputs: u32) -> Result<(), PutFault>
    ensures { Wrote S.faults S.written sink.old sink.new (masked_text outputs inputs) result }
{
    put_pieces(
        sink,
        &[
            Piece::Text("void masked(reg out["),
            Piece::Number(u64::from(outputs)),
            Piece::Text("][D], reg in["),
            Piece::Number(u64::from(inputs)),
            Piece::Text("][D]) {\n"),
        ],
    )
}

fn put_slots<S: Sink>(sink: &mut S, slots: u32) -> Result<(), PutFault>
    ensures { Wrote S.faults S.written sink.old sink.new (slots_text slots) result }
{
    if slots == 0 {
        return Ok(());
    }
    put_pieces(
        sink,
        &[
            Piece::Text("  reg v["),
            Piece::Number(u64::from(slots)),
            Piece::Text("][D];\n"),
        ],
    )
}

fn put_calls<S: Sink>(sink: &mut S, calls: &[CCall]) -> Result<(), PutFault>
    ensures { Wrote S.faults S.written sink.old sink.new (flat_map call_text calls.now) result }
{
    for call in calls {
        put_call(sink, call)?;
    }
    Ok(())
}
