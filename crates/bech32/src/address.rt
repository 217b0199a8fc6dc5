//! The text of an address.
ghost use Rattle.std.specs.Prelude.{◌≡◌, ◌+◌, ◌*◌, ◌/◌, ◌%◌, ◌^◌, ◌<◌, ◌≤◌, ◌++◌, ◌∷◌, [], length, map, All};
ghost use Rattle.bech32.specs.Groups.{IsGroup, groups};
ghost use Rattle.bech32.specs.Segwit.{letter, bech32, final_register, address};

use crate::bit_writer::{BitWriter, MAX_DIGITS};
use crate::checksum::checksum;
use arrayvec::ArrayVec;

/// The most characters of an address.
pub const MAX_ADDRESS: usize = 90;

pub(crate) const LETTERS: [u8; 32] = *b"qpzry9x8gf2tvdw0s3jn54khce6mua7l";

/// Returns the address of a witness program. Only for a human-readable part in lower case that BIP-173 allows, and a program
/// that BIP-141 allows for this version, is the text an address.
pub fn segwit_address(prefix: &[u8], version: u8, program: &[u8]) -> ArrayVec<u8, MAX_ADDRESS>
    requires prefix { length prefix.now ≤ 18 }
    requires version { version ≤ 16 }
    requires program { length program.now ≤ 40 }
    ensures { result.items ≡ address prefix.now version program.now }
{
    let mut values: ArrayVec<u8, 65> = ArrayVec::new();
    values.push(version);
    values.try_extend_from_slice(&groups(program)).unwrap();
    bech32(final_register(version), prefix, &values)
}

/// What the register of an address holds at the end.
pub(crate) fn final_register(version: u8) -> u32
    ensures { result ≡ final_register version }
{
    if version == 0 { 1 } else { 0x2bc8_30a3 }
}

/// Returns the bits of the bytes in groups of five.
fn groups(program: &[u8]) -> ArrayVec<u8, MAX_DIGITS>
    requires { length program.now ≤ 40 }
    ensures { result.items ≡ groups program.now }
{
    let mut writer: BitWriter<5> = BitWriter::new();
    for byte in program {
        writer.write(*byte, 8);
    }
    writer.write(0, (5 - 8 * program.len() % 5) % 5);
    writer.into_digits()
}

/// Returns the text of values.
fn bech32(last: u32, prefix: &[u8], values: &[u8]) -> ArrayVec<u8, MAX_ADDRESS>
    requires prefix { length prefix.now ≤ 18 }
    requires values { length values.now ≤ 65 }
    requires groups { All IsGroup values.now }
    ensures { result.items ≡ bech32 last prefix.now values.now }
{
    let mut text = ArrayVec::new();
    text.try_extend_from_slice(prefix).unwrap();
    text.push(b'1');
    push_letters(&mut text, values);
    push_letters(&mut text, &checksum(last, prefix, values));
    text
}

/// Appends the characters of groups.
fn push_letters(text: &mut ArrayVec<u8, MAX_ADDRESS>, groups: &[u8])
    requires room { length text.old.items + length groups.now ≤ MAX_ADDRESS }
    requires groups { All IsGroup groups.now }
    ensures { text.new.items ≡ text.old.items ++ map letter groups.now }
{
    for group in groups {
        text.push(LETTERS[usize::from(*group)]);
    }
}
