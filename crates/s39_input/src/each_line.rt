//! What the commands share that answer each line of their input by itself.
ghost use Rattle.std.specs.Prelude.{◌≡◌};
ghost use Rattle.s39_input.specs.EachLine.{answered, fault_of_no_answer};

use crate::fault::{DeviceFailure, Fault, LineRefusal, Refusal, Stop};

/// Why a line isn't answered.
#[derive(Clone, Copy)]
pub(crate) enum NoAnswer {
    /// The line is refused.
    Line(LineRefusal),
    /// A write of its answer failed.
    WriteFailed,
}

/// The fault of a run that stopped for this cause.
fn fault_of_no_answer(stop: Stop<NoAnswer>) -> Fault
    ensures { result ≡ fault_of_no_answer stop }
{
    match stop {
        Stop::AtLine(refused) => match refused.refusal {
            NoAnswer::Line(refusal) => Fault {
                line: Some(refused.number),
                refusal: Refusal::Line(refusal),
            },
            NoAnswer::WriteFailed => Fault::from(Refusal::Device(DeviceFailure::Write)),
        },
        Stop::ReadFailed => Fault::from(Refusal::Device(DeviceFailure::Read)),
    }
}

/// The answer of a run over the lines of an input: `done` if all are answered, and otherwise the fault.
pub(crate) fn answered<T: Copy>(done: T, stopped: Result<(), Stop<NoAnswer>>) -> Result<T, Fault>
    ensures { result ≡ answered done stopped }
{
    match stopped {
        Ok(()) => Ok(done),
        Err(stop) => Err(fault_of_no_answer(stop)),
    }
}
