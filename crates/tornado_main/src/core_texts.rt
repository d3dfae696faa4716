ghost use Rattle.std.specs.Prelude.{◌≤◌, length, IfOk, IfErr};
ghost use Rattle.tor_edge.specs.declared.files.TheConstants.{MAX_FILE_BYTES};
ghost use Rattle.usuba0.specs.Circuit.{IsSmall, HasFewColumns};
ghost use Rattle.tornado_main.specs.CoreText.{IsCoreText, IsFaultyCoreText};
ghost use Rattle.tornado_main.specs.Ending.{IsRefusedFor};

use crate::message::Complaint;
use crate::refusal::{Refusal, faulty_file, faulty_line};
use crate::status::Status;
use core_text::{CoreFault, read_core, read_is_written};
use std::alloc::Global;
use usuba0::Core;

/// The core of the bytes of core text.
pub fn core_of_text<'a>(alloc: Global, name: &'a str, bytes: &[u8]) -> Result<Core, Refusal<'a>>
    requires { length bytes.now ≤ MAX_FILE_BYTES }
    ensures core { IfOk result (λ core. IsCoreText core bytes.now) }
    ensures within { IfOk result (λ core. IsSmall core × HasFewColumns core) }
    ensures refused { IfErr result
        (λ refusal. IsRefusedFor Status.Source name.now (λ fault. IsFaultyCoreText fault bytes.now) refusal) }
{
    read_is_written();
    match read_core(alloc, bytes) {
        Ok(core) => Ok(core),
        Err(CoreFault::Syntax(line)) => Err(faulty_line(
            Status::Source,
            name,
            line,
            Complaint::Syntax,
        )),
        Err(CoreFault::OutOfRange(line)) => Err(faulty_line(
            Status::Source,
            name,
            line,
            Complaint::OutOfRange,
        )),
        Err(CoreFault::Limit) => Err(faulty_file(Status::Source, name, Complaint::LimitPassed)),
        Err(CoreFault::Memory(_)) => Err(Refusal::Memory),
    }
}
