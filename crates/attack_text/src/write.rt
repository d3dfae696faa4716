ghost use Rattle.std.specs.Prelude.{◌≡◌, ◌++◌, map, length, codes, decimal};
ghost use Rattle.tor_edge.specs.Written.{Wrote};
ghost use Rattle.attack_text.specs.AttackText as text;
ghost use Rattle.text_lines.specs.Words.{line_text, spaced};

use attack_model::{Attack, Listing, Probe, Side, Step};
use gf2_span::BitRow;
use linear_view::{View, write_columns};
use tor_edge::{Piece, PutFault, Sink, put_pieces, put_text};

/// Writes the text of an attack on the circuit of a view, in version 2.
pub fn write_attack<S: Sink>(view: &View, attack: &Attack, sink: &mut S) -> Result<(), PutFault>
    requires { length attack.now.derivation.leak ≡ length view.now.columns }
    ensures { Wrote S.faults S.written sink.old sink.new (text.attack_text view.now attack.now) result }
{
    write_attack_among(view.columns(), view, attack, sink)
}

/// Writes an attack on a circuit that has so many columns, of which the view may have only some.
pub fn write_attack_among<S: Sink>(
    columns: u32,
    view: &View,
    attack: &Attack,
    sink: &mut S,
) -> Result<(), PutFault>
    requires { length attack.now.derivation.leak ≡ length view.now.columns }
    ensures { Wrote S.faults S.written sink.old sink.new (text.attack_text_among columns view.now attack.now) result }
{
    put_head(sink, columns, view.products())?;
    put_leak(sink, view, &attack.derivation.leak)?;
    put_steps(sink, attack.derivation.steps.as_slice())?;
    put_root(sink, attack.derivation.root.as_slice())?;
    put_listing(sink, &attack.listing)
}

fn put_head<S: Sink>(sink: &mut S, columns: u32, products: u32) -> Result<(), PutFault>
    ensures { Wrote S.faults S.written sink.old sink.new (text.head_text columns products) result }
{
    put_pieces(
        sink,
        &[
            Piece::Text("attack 2\ncore columns "),
            Piece::Number(u64::from(columns)),
            Piece::Text(" products "),
            Piece::Number(u64::from(products)),
            Piece::Text("\n"),
        ],
    )
}

fn put_leak<S: Sink>(sink: &mut S, view: &View, leak: &BitRow) -> Result<(), PutFault>
    requires { length leak.now ≡ length view.now.columns }
    ensures { Wrote S.faults S.written sink.old sink.new (text.leak_text view.now.columns leak.now) result }
{
    put_text(sink, "leak")?;
    write_columns(view, leak, sink)?;
    put_text(sink, "\n")
}

// How many steps there are, and a line for each.
fn put_steps<S: Sink>(sink: &mut S, steps: &[Step]) -> Result<(), PutFault>
    ensures { Wrote S.faults S.written sink.old sink.new (text.counted_steps_text steps.now) result }
{
    put_steps_count(sink, steps)?;
    put_step_lines(sink, steps)
}

fn put_steps_count<S: Sink>(sink: &mut S, steps: &[Step]) -> Result<(), PutFault>
    ensures { Wrote S.faults S.written sink.old sink.new (text.steps_count_text (length steps.now)) result }
{
    put_pieces(
        sink,
        &[
            Piece::Text("steps "),
            Piece::Number(steps.len() as u64),
            Piece::Text("\n"),
        ],
    )
}

fn put_step_lines<S: Sink>(sink: &mut S, steps: &[Step]) -> Result<(), PutFault>
    ensures { Wrote S.faults S.written sink.old sink.new (text.steps_text 0 steps.now) result }
{
    for (index, step) in steps.iter().enumerate() {
        put_step(sink, index as u64, step)?;
    }
    Ok(())
}

fn put_step<S: Sink>(sink: &mut S, index: u64, step: &Step) -> Result<(), PutFault>
    ensures { Wrote S.faults S.written sink.old sink.new (line_text (text.step_words index step.now)) result }
{
    put_step_head(sink, index, step.product, step.side)?;
    put_uses(sink, step.uses.as_slice())?;
    put_text(sink, "\n")
}

// What stands before the uses of a step.
fn put_step_head<S: Sink>(
    sink: &mut S,
    index: u64,
    product: u32,
    side: Side,
) -> Result<(), PutFault>
    ensures { let text = codes "step " ++ (decimal index ++ (codes " product " ++ (decimal product ++ (codes " " ++ (text.side_word side ++ codes " uses"))))) in
        Wrote S.faults S.written sink.old sink.new text result }
{
    put_pieces(
        sink,
        &[
            Piece::Text("step "),
            Piece::Number(index),
            Piece::Text(" product "),
            Piece::Number(u64::from(product)),
            Piece::Text(" "),
            Piece::Text(side_text(side)),
            Piece::Text(" uses"),
        ],
    )
}

fn side_text(side: Side) -> &'static str
    ensures { result.now ≡ text.side_word side }
{
    match side {
        Side::Left => "left",
        Side::Right => "right",
    }
}

// The numbers, each after a blank.
fn put_uses<S: Sink>(sink: &mut S, uses: &[u32]) -> Result<(), PutFault>
    ensures { Wrote S.faults S.written sink.old sink.new (spaced (map decimal uses.now)) result }
{
    for number in uses {
        put_use(sink, *number)?;
    }
    Ok(())
}

fn put_use<S: Sink>(sink: &mut S, number: u32) -> Result<(), PutFault>
    ensures { Wrote S.faults S.written sink.old sink.new (codes " " ++ decimal number) result }
{
    put_pieces(sink, &[Piece::Text(" "), Piece::Number(u64::from(number))])
}

fn put_root<S: Sink>(sink: &mut S, uses: &[u32]) -> Result<(), PutFault>
    ensures { Wrote S.faults S.written sink.old sink.new (text.root_text uses.now) result }
{
    put_text(sink, "root uses")?;
    put_uses(sink, uses)?;
    put_text(sink, "\n")
}

fn put_listing<S: Sink>(sink: &mut S, listing: &Listing) -> Result<(), PutFault>
    ensures { Wrote S.faults S.written sink.old sink.new (text.listing_text listing.now) result }
{
    match listing {
        Listing::Large => put_text(sink, "probes large\n"),
        Listing::Probes(probes) => put_probes(sink, probes.as_slice()),
    }
}

// How many probes there are, and a line for each.
fn put_probes<S: Sink>(sink: &mut S, probes: &[Probe]) -> Result<(), PutFault>
    ensures { Wrote S.faults S.written sink.old sink.new (text.probes_count_text (length probes.now) ++ text.probes_text probes.now) result }
{
    put_probes_count(sink, probes)?;
    put_probe_lines(sink, probes)
}

fn put_probes_count<S: Sink>(sink: &mut S, probes: &[Probe]) -> Result<(), PutFault>
    ensures { Wrote S.faults S.written sink.old sink.new (text.probes_count_text (length probes.now)) result }
{
    put_pieces(
        sink,
        &[
            Piece::Text("probes "),
            Piece::Number(probes.len() as u64),
            Piece::Text("\n"),
        ],
    )
}

fn put_probe_lines<S: Sink>(sink: &mut S, probes: &[Probe]) -> Result<(), PutFault>
    ensures { Wrote S.faults S.written sink.old sink.new (text.probes_text probes.now) result }
{
    for probe in probes {
        put_probe(sink, *probe)?;
    }
    Ok(())
}

fn put_probe<S: Sink>(sink: &mut S, probe: Probe) -> Result<(), PutFault>
    ensures { Wrote S.faults S.written sink.old sink.new (line_text (text.probe_words probe)) result }
{
    put_pieces(
        sink,
        &[
            Piece::Text("probe "),
            Piece::Number(u64::from(probe.product)),
            Piece::Text(" "),
            Piece::Number(u64::from(probe.left_share)),
            Piece::Text(" "),
            Piece::Number(u64::from(probe.right_share)),
            Piece::Text("\n"),
        ],
    )
}
