//! The text of a circuit.
ghost use Rattle.std.specs.Prelude.{◌≡◌, ℕ, ◌+◌, ◌<◌, ◌^◌, ◌++◌, length, codes, decimal};
ghost use Rattle.tor_edge.specs.Written.{Wrote};
ghost use Rattle.usuba0.specs.CoreText.{core_text, head_text, equations_text, equation_text, outputs_text, output_text};

use crate::circuit::{Core, Gate, Reg};
use tor_edge::{Piece, PutFault, Sink, put_pieces, put_text};

/// Writes the text of the circuit: its width, its inputs, a line for each equation, and its outputs.
pub fn write_core<S: Sink>(core: &Core, sink: &mut S) -> Result<(), PutFault>
    ensures { Wrote S.faults S.written sink.old sink.new (core_text core.now) result }
{
    let inputs = core.inputs();
    put_head(sink, core.width(), inputs)?;
    put_equations(sink, u64::from(inputs), core.equation_slice())?;
    put_text(sink, "outputs")?;
    put_outputs(sink, core.output_slice())?;
    put_text(sink, "\n")
}

fn put_head<S: Sink>(sink: &mut S, width: u32, inputs: u32) -> Result<(), PutFault>
    ensures { Wrote S.faults S.written sink.old sink.new (head_text width inputs) result }
{
    put_pieces(
        sink,
        &[
            Piece::Text("width "),
            Piece::Number(u64::from(width)),
            Piece::Text("\ninputs "),
            Piece::Number(u64::from(inputs)),
            Piece::Text("\n"),
        ],
    )
}

// The lines of the equations, the first of which makes register `first`.
fn put_equations<S: Sink>(sink: &mut S, first: u64, gates: &[Gate]) -> Result<(), PutFault>
    requires { first + length gates.now < 2 ^ 64 }
    ensures { Wrote S.faults S.written sink.old sink.new (equations_text first gates.now) result }
{
    let mut register = first;
    for gate in gates {
        put_equation(sink, register, gate)?;
        register += 1;
    }
    Ok(())
}

fn put_equation<S: Sink>(sink: &mut S, register: u64, gate: &Gate) -> Result<(), PutFault>
    ensures { Wrote S.faults S.written sink.old sink.new (equation_text register gate.now) result }
{
    match *gate {
        Gate::Const(c) => put_pieces(
            sink,
            &[
                Piece::Text("r"),
                Piece::Number(register),
                Piece::Text(" = const "),
                Piece::Number(c),
                Piece::Text("\n"),
            ],
        ),
        Gate::Xor(a, b) => put_two(sink, register, "xor r", a, b),
        Gate::Not(a) => put_one(sink, register, "not r", a),
        Gate::Mask(c, a) => put_numbered(sink, register, "mask ", c, a),
        Gate::And(a, b) => put_two(sink, register, "and r", a, b),
        Gate::Shl(k, a) => put_numbered(sink, register, "shl ", u64::from(k), a),
        Gate::Shr(k, a) => put_numbered(sink, register, "shr ", u64::from(k), a),
        Gate::Rotl(k, a) => put_numbered(sink, register, "rotl ", u64::from(k), a),
        Gate::Refresh(a) => put_one(sink, register, "refresh r", a),
    }
}

// An equation whose right side is `name` and the number of a register.
fn put_one<S: Sink>(sink: &mut S, register: u64, name: &str, a: Reg) -> Result<(), PutFault>
    ensures { let text = codes "r" ++ decimal register ++ codes " = " ++ name.now ++ decimal a.0 ++ codes "\n" in
        Wrote S.faults S.written sink.old sink.new text result }
{
    put_pieces(
        sink,
        &[
            Piece::Text("r"),
            Piece::Number(register),
            Piece::Text(" = "),
            Piece::Text(name),
            Piece::Number(u64::from(a.0)),
            Piece::Text("\n"),
        ],
    )
}

// An equation whose right side is `name` and the numbers of two registers.
fn put_two<S: Sink>(sink: &mut S, register: u64, name: &str, a: Reg, b: Reg) -> Result<(), PutFault>
    ensures { let text = codes "r" ++ decimal register ++ codes " = " ++ name.now ++ decimal a.0 ++ codes " r" ++ decimal b.0 ++ codes "\n" in
        Wrote S.faults S.written sink.old sink.new text result }
{
    put_pieces(
        sink,
        &[
            Piece::Text("r"),
            Piece::Number(register),
            Piece::Text(" = "),
            Piece::Text(name),
            Piece::Number(u64::from(a.0)),
            Piece::Text(" r"),
            Piece::Number(u64::from(b.0)),
            Piece::Text("\n"),
        ],
    )
}

// An equation whose right side is `name`, a number and a register.
fn put_numbered<S: Sink>(
    sink: &mut S,
    register: u64,
    name: &str,
    number: u64,
    a: Reg,
) -> Result<(), PutFault>
    ensures { let text = codes "r" ++ decimal register ++ codes " = " ++ name.now ++ decimal number ++ codes " r" ++ decimal a.0 ++ codes "\n" in
        Wrote S.faults S.written sink.old sink.new text result }
{
    put_pieces(
        sink,
        &[
            Piece::Text("r"),
            Piece::Number(register),
            Piece::Text(" = "),
            Piece::Text(name),
            Piece::Number(number),
            Piece::Text(" r"),
            Piece::Number(u64::from(a.0)),
            Piece::Text("\n"),
        ],
    )
}

fn put_outputs<S: Sink>(sink: &mut S, registers: &[Reg]) -> Result<(), PutFault>
    ensures { Wrote S.faults S.written sink.old sink.new (outputs_text registers.now) result }
{
    for register in registers {
        put_output(sink, *register)?;
    }
    Ok(())
}

fn put_output<S: Sink>(sink: &mut S, register: Reg) -> Result<(), PutFault>
    ensures { Wrote S.faults S.written sink.old sink.new (output_text register) result }
{
    put_pieces(
        sink,
        &[Piece::Text(" r"), Piece::Number(u64::from(register.0))],
    )
}
