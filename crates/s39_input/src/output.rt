//! The lines of an output.
ghost use Rattle.std.specs.Prelude.{◌≡◌, ◌+◌, ◌*◌, ◌<◌, ◌≤◌, ◌++◌, All, length};
ghost use Rattle.std.specs.Fmt.{decimal};
ghost use Rattle.hex.specs.Hex.{encode_lower};
ghost use Rattle.s39_kdf.specs.Limits.{longest_secret};
ghost use Rattle.s39_set.specs.Names.{most_groups, most_members};
ghost use Rattle.s39_set.specs.Written.{name_text, quorum_text};
ghost use Rattle.s39_input.specs.declared.output.TheConstants.{LINE_BYTES, NAME_BYTES};
ghost use Rattle.s39_input.specs.Input.{ended_line};
ghost use Rattle.s39_input.specs.Output.{WritesText};

use crate::device::Counting;
use crate::fault::{DeviceFailure, Fault, Refusal};
use crate::hexadecimal::write_hex;
use arrayvec::ArrayVec;
use s39_kdf::MAX_SECRET_BYTES;
use s39_set::MAX_NAMES;
use std::io::Write;

/// The most bytes of a name in a list of names: two numbers of two digits, a point, and a sign between names.
const NAME_BYTES: usize = 6;

/// The most bytes of a line: all names that there are, a space, a secret in hexadecimal, and a line feed.
pub const LINE_BYTES: usize = NAME_BYTES * MAX_NAMES + 2 * MAX_SECRET_BYTES + 2;

/// A line of an output while it is built.
pub type Line = ArrayVec<u8, LINE_BYTES>;

/// Appends a text. The caller makes sure that there is room.
pub fn push_text(line: &mut Line, text: &[u8])
    requires { length line.old.items + length text.now ≤ LINE_BYTES }
    ensures { line.new.items ≡ line.old.items ++ text.now }
{
    line.try_extend_from_slice(text).unwrap();
}

/// The line of a text, which ends with a line feed. The caller makes sure that there is room.
pub fn line_of(text: &[u8]) -> Line
    requires { length text.now < LINE_BYTES }
    ensures { result.items ≡ ended_line text.now }
{
    let mut line = Line::new();
    push_text(&mut line, text);
    line.push(b'\n');
    line
}

/// Appends a number in decimal. The caller makes sure that there is room for its digits.
pub fn push_number(line: &mut Line, number: u64)
    requires { length line.old.items + length (decimal number) ≤ LINE_BYTES }
    ensures { line.new.items ≡ line.old.items ++ decimal number }
{
    if number >= 10 {
        push_number(line, number / 10);
    }
    line.push(b'0' + (number % 10) as u8);
}

/// Appends a text that names a number, and the number in decimal. The caller makes sure that there is room for the text
/// and five bytes more.
pub fn push_field(line: &mut Line, name: &[u8], number: u16)
    requires { length line.old.items + length name.now + 5 ≤ LINE_BYTES }
    ensures text { line.new.items ≡ line.old.items ++ name.now ++ decimal number }
    ensures room { length line.new.items ≤ length line.old.items + length name.now + 5 }
{
    push_text(line, name);
    push_number(line, u64::from(number));
}

/// Appends the name of a share: its group and its member index, with a point between them.
fn push_name(line: &mut Line, name: (u8, u8))
    requires group { name.0 < most_groups }
    requires member { name.1 < most_members }
    requires room { length line.old.items + NAME_BYTES ≤ LINE_BYTES + 1 }
    ensures text { line.new.items ≡ line.old.items ++ name_text name }
    ensures room { length line.new.items + 1 ≤ length line.old.items + NAME_BYTES }
{
    push_number(line, u64::from(name.0));
    line.push(b'.');
    push_number(line, u64::from(name.1));
}

/// Appends names of shares, joined by plus signs. The caller makes sure that each group and each member index is below
/// 16, and that there is room for six bytes for each name.
pub fn push_names(line: &mut Line, names: &[(u8, u8)])
    requires groups { All (λ name. name.0 < most_groups) names.now }
    requires members { All (λ name. name.1 < most_members) names.now }
    requires room { length line.old.items + NAME_BYTES * length names.now ≤ LINE_BYTES }
    ensures text { line.new.items ≡ line.old.items ++ quorum_text names.now }
    ensures room { length line.new.items
        ≤ length line.old.items + NAME_BYTES * length names.now }
{
    let Some((first, others)) = names.split_first() else {
        return;
    };
    push_name(line, *first);
    for name in others {
        line.push(b'+');
        push_name(line, *name);
    }
}

/// Appends bytes in lower-case hexadecimal.
pub(crate) fn push_hex(line: &mut Line, bytes: &[u8])
    requires short { length bytes.now ≤ longest_secret }
    requires room { length line.old.items + 2 * length bytes.now ≤ LINE_BYTES }
    ensures { line.new.items ≡ line.old.items ++ encode_lower bytes.now }
{
    let mut digits = [0; 2 * MAX_SECRET_BYTES];
    let digits = &mut digits[..2 * bytes.len()];
    write_hex(bytes, digits);
    push_text(line, digits);
}

/// A write failed, or took no byte.
#[derive(Clone, Copy, Debug)]
pub struct WriteFailed;

impl From<WriteFailed> for Fault {
    ghost use Rattle.s39_input.specs.Fault.{fault_of};
    ghost use Rattle.s39_input.specs.declared.fault.Refusal.TheVariants.{Device};
    ghost use Rattle.s39_input.specs.declared.fault.DeviceFailure.TheVariants.{Write as WriteFails};

    ghost from_gives = { λ failed fault. fault ≡ fault_of (Device WriteFails) };

    fn from(_failed: WriteFailed) -> Fault {
        Fault::from(Refusal::Device(DeviceFailure::Write))
    }
}

/// Writes the whole text, by as many writes as the device takes for it, or until the first one fails. The caller keeps
/// `failures()` below `u64::MAX`.
pub fn write_text<W: Write>(output: &mut Counting<W>, text: &[u8]) -> Result<(), WriteFailed>
    requires { output.old.failures < u64.MAX }
    ensures { WritesText W.contents output.old text.now result output.new }
{
    let mut rest = text;
    while !rest.is_empty() {
        let Ok(count) = output.write(rest) else {
            return Err(WriteFailed);
        };
        rest = &rest[count..];
    }
    Ok(())
}
