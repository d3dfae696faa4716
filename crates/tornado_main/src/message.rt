ghost use Rattle.std.specs.Prelude.{◌≡◌, ◌++◌, codes};
ghost use Rattle.tor_edge.specs.Written.{Wrote};
ghost use Rattle.tornado_main.specs.Message.{kind_text, complaint_text, spot_text, run_message, file_message};

use tor_edge::{Piece, Place, PutFault, Sink, put_pieces, put_text};
use usuba_types::FaultKind;

/// What is wrong.
#[derive(Debug, Clone, Copy, PartialEq, Eq)]
pub enum Complaint {
    BadCommandLine,
    CannotRead,
    TooLong,
    CannotWrite,
    OutOfMemory,
    Syntax,
    TooDeep,
    NumberTooBig,
    /// What is wrong with a source that was read.
    Judged(FaultKind),
    CoreTooLarge,
    ColumnsTooMany,
    LimitPassed,
    OutOfRange,
    OtherCore,
    WordSize,
    BadName,
    IndexOut,
    BadShift,
    WordsShort,
}

/// Where in a file something is wrong.
#[derive(Debug, Clone, Copy, PartialEq, Eq)]
pub enum Spot {
    /// In the file as a whole.
    Whole,
    /// At a line.
    Line(u64),
    /// At a line and a column.
    Place(Place),
    /// In the call of this number.
    Call(u64),
}

/// What is wrong with a file, and where.
#[derive(Debug, Clone, Copy, PartialEq, Eq)]
pub struct Fault {
    pub at: Spot,
    pub what: Complaint,
}

impl Complaint {
    fn text(self) -> &'static str
        ensures { result.now ≡ complaint_text self }
    {
        match self {
            Complaint::BadCommandLine => "bad command line",
            Complaint::CannotRead => "cannot read",
            Complaint::TooLong => "longer than 1048576 bytes",
            Complaint::CannotWrite => "cannot write",
            Complaint::OutOfMemory => "out of memory",
            Complaint::Syntax => "syntax",
            Complaint::TooDeep => "nesting too deep",
            Complaint::NumberTooBig => "number too big",
            Complaint::Judged(kind) => kind_text(kind),
            Complaint::CoreTooLarge => "core too large",
            Complaint::ColumnsTooMany => "too many columns",
            Complaint::LimitPassed => "limit passed",
            Complaint::OutOfRange => "out of range",
            Complaint::OtherCore => "another core",
            Complaint::WordSize => "word size needs width 1",
            Complaint::BadName => "bad name",
            Complaint::IndexOut => "index out of range",
            Complaint::BadShift => "bad shift",
            Complaint::WordsShort => "random words too few",
        }
    }
}

fn kind_text(kind: FaultKind) -> &'static str
    ensures { result.now ≡ kind_text kind }
{
    match kind {
        FaultKind::DuplicateName => "name declared twice",
        FaultKind::UnknownName => "unknown name",
        FaultKind::NoEntry => "no entry node",
        FaultKind::MixedWidth => "another width",
        FaultKind::NoWidth => "no width",
        FaultKind::BadTable => "bad table",
        FaultKind::BadPerm => "bad permutation",
        FaultKind::ZeroDivisor => "division by zero",
        FaultKind::IndexOut => "index out of range",
        FaultKind::ConstTooBig => "constant too big",
        FaultKind::ShiftTooFar => "shift too far",
        FaultKind::SizeMismatch => "sizes differ",
        FaultKind::TooManyOps => "too many operations",
        FaultKind::AssignedTwice => "assigned twice",
        FaultKind::Unassigned => "never assigned",
        FaultKind::Cyclic => "cyclic equations",
        FaultKind::CallsTooDeep => "calls too deep",
    }
}

/// Writes the line for a complaint about no file.
pub fn write_complaint<S: Sink>(what: Complaint, sink: &mut S) -> Result<(), PutFault>
    ensures { Wrote S.faults S.written sink.old sink.new (run_message what) result }
{
    put_pieces(
        sink,
        &[
            Piece::Text("tornado: "),
            Piece::Text(what.text()),
            Piece::Text("\n"),
        ],
    )
}

/// Writes the line for a fault of the file of this name.
pub fn write_fault<S: Sink>(name: &str, fault: Fault, sink: &mut S) -> Result<(), PutFault>
    ensures { Wrote S.faults S.written sink.old sink.new (file_message name.now fault) result }
{
    put_text(sink, "tornado: ")?;
    put_text(sink, name)?;
    put_spot(fault.at, sink)?;
    put_end(fault.what, sink)
}

// What is wrong, at the end of a line.
fn put_end<S: Sink>(what: Complaint, sink: &mut S) -> Result<(), PutFault>
    ensures { Wrote S.faults S.written sink.old sink.new (codes ": " ++ complaint_text what ++ codes "\n") result }
{
    put_pieces(
        sink,
        &[
            Piece::Text(": "),
            Piece::Text(what.text()),
            Piece::Text("\n"),
        ],
    )
}

fn put_spot<S: Sink>(at: Spot, sink: &mut S) -> Result<(), PutFault>
    ensures { Wrote S.faults S.written sink.old sink.new (spot_text at) result }
{
    match at {
        Spot::Whole => Ok(()),
        Spot::Line(line) => put_pieces(sink, &[Piece::Text(":"), Piece::Number(line)]),
        Spot::Place(at) => put_place(at, sink),
        Spot::Call(call) => put_pieces(sink, &[Piece::Text(": call "), Piece::Number(call)]),
    }
}

fn put_place<S: Sink>(at: Place, sink: &mut S) -> Result<(), PutFault>
    ensures { Wrote S.faults S.written sink.old sink.new (spot_text (Spot.Place at)) result }
{
    put_pieces(
        sink,
        &[
            Piece::Text(":"),
            Piece::Number(u64::from(at.line)),
            Piece::Text(":"),
            Piece::Number(u64::from(at.column)),
        ],
    )
}
