ghost use Rattle.source_gen.specs.Report.{report_text, verdict_text};
ghost use Rattle.std.specs.Prelude.{◌≡◌};
ghost use Rattle.tor_edge.specs.Written.{Wrote};

use tor_edge::{Piece, PutFault, Sink, put_pieces};

/// What is told of a generated source that was judged.
#[derive(Debug, Clone, Copy, Drop)]
pub struct Report {
    pub seed: u64,
    pub size: u64,
    /// How many equations its core has.
    pub equations: u64,
    /// How many columns its core has.
    pub columns: u64,
    pub secure: bool,
}

/// Writes a line for each part of the report.
pub fn write_report<S: Sink>(report: Report, sink: &mut S) -> Result<(), PutFault>
    ensures { Wrote S.faults S.written sink.old sink.new (report_text report) result }
{
    put_pieces(
        sink,
        &[
            Piece::Text("seed "),
            Piece::Number(report.seed),
            Piece::Text("\nsize "),
            Piece::Number(report.size),
            Piece::Text("\nequations "),
            Piece::Number(report.equations),
            Piece::Text("\ncolumns "),
            Piece::Number(report.columns),
            Piece::Text("\nverdict "),
            Piece::Text(verdict(report.secure)),
            Piece::Text("\n"),
        ],
    )
}

fn verdict(secure: bool) -> &'static str
    ensures { result.now ≡ verdict_text secure }
{
    if secure { "secure" } else { "attack" }
}
