//! How the output of a command goes to its writer.
ghost use Rattle.std.specs.Prelude.{◌≡◌, IsFalse, IsTrue, Err};
ghost use Rattle.s39_input.specs.Fault.{fault_of};
ghost use Rattle.s39_cli.specs.Ending.{GoesOut, IsFlushed};

use crate::patient::Patient;
use s39_tool::{DeviceFailure, Fault, Refusal};
use std::io::Write;

/// Flushes a writer after a run that gave this answer, unless nothing was written or a write failed. If the flush fails, the
/// answer is that the writer failed.
pub(crate) fn flushed<W: Write>(
    answer: Result<bool, Fault>,
    output: Patient<W>,
) -> (Result<bool, Fault>, W)
    ensures kept { IsFlushed (W.contents output.output) (W.contents result.1) answer result.0 }
    ensures untouched { IsFalse output.is_written → result.1 ≡ output.output }
    ensures failed { (fault : Fault) → answer ≡ Err fault
        → fault.refusal ≡ Refusal.Device DeviceFailure.Write → result.1 ≡ output.output }
{
    let mut output = output;
    let is_whole = !output.is_written() || has_failed(&answer) || output.flush().is_ok();
    let output = output.into_inner();
    if is_whole {
        (answer, output)
    } else {
        (Err(write_failed()), output)
    }
}

/// Whether a write failed.
fn has_failed(answer: &Result<bool, Fault>) -> bool
    ensures { (fault : Fault) → answer.now ≡ Err fault
        → fault.refusal ≡ Refusal.Device DeviceFailure.Write → IsTrue result }
{
    match answer {
        Ok(_) => false,
        Err(fault) => matches!(fault.refusal, Refusal::Device(DeviceFailure::Write)),
    }
}

/// Writes a text and flushes the writer, and says whether all of the text has gone out.
pub(crate) fn show_text<W: Write>(text: &str, output: W) -> (bool, W)
    ensures { GoesOut (W.contents output) (W.contents result.1) text.now result.0 }
{
    let mut output = Patient::new(output);
    let is_whole = write_whole(&mut output, text.as_bytes()) && output.flush().is_ok();
    (is_whole, output.into_inner())
}

/// Writes a text, and says whether all of it was taken: no write failed, or took no byte.
fn write_whole<W: Write>(output: &mut W, text: &[u8]) -> bool
    ensures { GoesOut (W.contents output.old) (W.contents output.new) text.now result }
{
    let mut rest = text;
    while !rest.is_empty() {
        let Ok(count) = output.write(rest) else {
            return false;
        };
        if count == 0 {
            return false;
        }
        rest = &rest[count..];
    }
    true
}

/// The fault of a writer that failed.
pub(crate) fn write_failed() -> Fault
    ensures { result ≡ fault_of (Refusal.Device DeviceFailure.Write) }
{
    Fault::from(Refusal::Device(DeviceFailure::Write))
}
