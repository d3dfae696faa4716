ghost use Rattle.std.specs.Prelude.{◌≡◌};
ghost use Rattle.tornado_main.specs.Message.{complaint_of};
ghost use Rattle.tornado_main.specs.Refusals.{status_of, message_of};
ghost use Rattle.tor_edge.specs.Written.{Wrote};
ghost use Rattle.tornado_main.specs.Run.{Sent};
ghost use Rattle.tornado_main.specs.declared.refusal.Refusal.TheVariants.{Memory, Unwritten};

use crate::message::{Complaint, Fault, Spot, write_complaint, write_fault};
use crate::status::Status;
use std::alloc::AllocError;
use tor_edge::{Place, PutFault, Reason, Sink};

/// Why an order ends without its whole answer. A file's name stands beside what is wrong with it.
#[derive(Debug, Clone, Copy)]
pub enum Refusal<'a> {
    /// The file has a fault, for which the run ends with this status.
    Faulty(Status, &'a str, Fault),
    /// The fetch of the file was refused.
    Unread(&'a str, Reason),
    /// The output failed.
    Unwritten,
    /// Memory was wanting.
    Memory,
}

impl From<AllocError> for Refusal<'_> {
    ghost from_gives = { λ _ refusal. refusal ≡ Memory };

    fn from(_error: AllocError) -> Self {
        Refusal::Memory
    }
}

impl From<PutFault> for Refusal<'_> {
    ghost from_gives = { λ _ refusal. refusal ≡ Unwritten };

    fn from(_fault: PutFault) -> Self {
        Refusal::Unwritten
    }
}

impl Refusal<'_> {
    fn status(self) -> Status
        ensures { result ≡ status_of self.entry }
    {
        match self {
            Refusal::Faulty(status, _, _) => status,
            Refusal::Unread(_, _) => Status::Unread,
            Refusal::Unwritten => Status::Unwritten,
            Refusal::Memory => Status::Memory,
        }
    }

    fn write<S: Sink>(self, sink: &mut S) -> Result<(), PutFault>
        ensures { Wrote S.faults S.written sink.old sink.new (message_of self.entry) result }
    {
        match self {
            Refusal::Faulty(_, name, fault) => write_fault(name, fault, sink),
            Refusal::Unread(name, why) => write_fault(name, unread_fault(why), sink),
            Refusal::Unwritten => write_complaint(Complaint::CannotWrite, sink),
            Refusal::Memory => write_complaint(Complaint::OutOfMemory, sink),
        }
    }

    /// Tells the refusal in its one line, and answers the status with which the run then ends. A fault of the sink
    /// changes no status.
    pub fn tell<S: Sink>(self, sink: &mut S) -> Status
        ensures status { result ≡ status_of self.entry }
        ensures told { Sent S.faults S.written sink.old sink.new (message_of self.entry) }
    {
        let _ = self.write(sink);
        self.status()
    }
}

// What is wrong with a file whose fetch was refused.
fn unread_fault(why: Reason) -> Fault
    ensures { result ≡ record { at = Spot.Whole; what = complaint_of why } }
{
    let what = match why {
        Reason::Failed => Complaint::CannotRead,
        Reason::TooLong => Complaint::TooLong,
    };
    Fault {
        at: Spot::Whole,
        what,
    }
}

/// The refusal of a file for what is wrong at a place.
pub fn faulty_place<'a>(status: Status, name: &'a str, at: Place, what: Complaint) -> Refusal<'a>
    ensures { result ≡ Refusal.Faulty status name.entry (record { at = Spot.Place at; what = what }) }
{
    let fault = Fault {
        at: Spot::Place(at),
        what,
    };
    Refusal::Faulty(status, name, fault)
}

/// The refusal of a file for what is wrong at a line.
pub fn faulty_line<'a>(status: Status, name: &'a str, line: u64, what: Complaint) -> Refusal<'a>
    ensures { result ≡ Refusal.Faulty status name.entry (record { at = Spot.Line line; what = what }) }
{
    let fault = Fault {
        at: Spot::Line(line),
        what,
    };
    Refusal::Faulty(status, name, fault)
}

/// The refusal of a file for what is wrong with it as a whole.
pub fn faulty_file<'a>(status: Status, name: &'a str, what: Complaint) -> Refusal<'a>
    ensures { result ≡ Refusal.Faulty status name.entry (record { at = Spot.Whole; what = what }) }
{
    let fault = Fault {
        at: Spot::Whole,
        what,
    };
    Refusal::Faulty(status, name, fault)
}

/// The refusal of a file for what is wrong in one of its calls.
pub fn faulty_call<'a>(status: Status, name: &'a str, call: u64, what: Complaint) -> Refusal<'a>
    ensures { result ≡ Refusal.Faulty status name.entry (record { at = Spot.Call call; what = what }) }
{
    let fault = Fault {
        at: Spot::Call(call),
        what,
    };
    Refusal::Faulty(status, name, fault)
}
