//! Reading an address back.
ghost use Rattle.std.specs.Prelude.{◌≡◌, ◌+◌, ◌-◌, ◌*◌, ◌/◌, ◌%◌, ◌^◌, ◌<◌, ◌≤◌, ◌++◌, ◌∷◌, [], length, map, take, All, MatchResult, Some, None};
ghost use Rattle.std.specs.Str.{bytes_eq, str_to_ascii_lowercase, str_to_ascii_uppercase};
ghost use Rattle.s39_lists.specs.Digits.{number_of};
ghost use Rattle.bech32.specs.Groups.{IsGroup};
ghost use Rattle.bech32.specs.Segwit.{group_of};
ghost use Rattle.bech32.specs.Reading.{has_one_case, has_prefix, bytes_of, letters_behind, first_bad_letter, version_of, groups_behind};
ghost use Rattle.bech32.specs.Reading.{program_groups, program_refusal, groups_refusal, letters_refusal, refusal_of};

use crate::address::{LETTERS, MAX_ADDRESS, final_register};
use crate::bit_writer::{BitWriter, MAX_DIGITS};
use crate::checksum::polymod;
use arrayvec::ArrayVec;

/// A witness program and its version.
#[derive(Drop)]
pub struct WitnessProgram {
    pub version: u8,
    pub program: ArrayVec<u8, MAX_DIGITS>,
}

/// Why a text isn't read as an address.
#[derive(Clone, Copy, Debug, PartialEq, Eq)]
pub enum AddressError {
    /// The text has more than 90 characters, or too few for a version and a checksum.
    BadLength,
    /// The text has letters in upper case and in lower case.
    MixedCase,
    /// The text doesn't begin with the human-readable part and "1".
    BadPrefix,
    /// The character at this position is none of the 32 letters.
    BadLetter { position: usize },
    /// The checksum isn't that of the other characters, or is of the kind of other versions.
    BadChecksum,
    /// The version is above 16.
    BadVersion,
    /// The bits behind the last whole byte are more than four, or not all 0.
    BadPadding,
    /// No program of this version has so many bytes.
    BadProgram,
}

/// Reads the address of a witness program, in upper case or in lower case.
///
/// Just the addresses with this human-readable part are read, each as its version and program (`laws::addresses_are_read`).
/// Whether BIP-173 allows this part isn't looked at.
pub fn read_segwit_address(prefix: &[u8], text: &[u8]) -> Result<WitnessProgram, AddressError>
    requires { length prefix.now ≤ 18 }
    ensures { MatchResult result
        (λ found. (refusal_of prefix.now text.now ≡ None) × ((found.version ≡ version_of (groups_behind prefix.now text.now))
        × (found.program.items ≡ bytes_of (program_groups (groups_behind prefix.now text.now)))))
        (λ error. refusal_of prefix.now text.now ≡ Some error) }
{
    match refusal_of(prefix, text) {
        Some(error) => Err(error),
        None => Ok(program_of(prefix, text)),
    }
}

/// The version and the program of an address.
fn program_of(prefix: &[u8], text: &[u8]) -> WitnessProgram
    requires most { length text.now ≤ MAX_ADDRESS }
    requires least { length prefix.now + 8 ≤ length text.now }
    requires letters { length (letters_behind prefix.now text.now) ≤ first_bad_letter (letters_behind prefix.now text.now) }
    ensures version { result.version ≡ version_of (groups_behind prefix.now text.now) }
    ensures program { result.program.items ≡ bytes_of (program_groups (groups_behind prefix.now text.now)) }
{
    let lower = lower_case(text);
    let groups = groups_of(&lower[prefix.len() + 1..]);
    WitnessProgram {
        version: groups[0],
        program: bytes_of(&groups[1..groups.len() - 6]),
    }
}

/// The whole bytes in the bits of groups.
fn bytes_of(groups: &[u8]) -> ArrayVec<u8, MAX_DIGITS>
    requires most { length groups.now ≤ MAX_ADDRESS }
    requires below { All IsGroup groups.now }
    ensures { result.items ≡ bytes_of groups.now }
{
    bits_of(groups).into_digits()
}

/// Why the text is no address, if it is none.
#[tactic(auto, unfolding(crate::specs::Reading::refusal_of))]
fn refusal_of(prefix: &[u8], text: &[u8]) -> Option<AddressError>
    requires { length prefix.now ≤ 18 }
    ensures { result ≡ refusal_of prefix.now text.now }
{
    if text.len() > MAX_ADDRESS {
        return Some(AddressError::BadLength);
    }
    if text.len() < prefix.len() + 8 {
        return Some(AddressError::BadLength);
    }
    if !has_one_case(text) {
        return Some(AddressError::MixedCase);
    }
    if !has_prefix(prefix, text) {
        return Some(AddressError::BadPrefix);
    }
    let lower = lower_case(text);
    letters_refusal(prefix, &lower[prefix.len() + 1..])
}

/// Whether a text has no letter in upper case, or none in lower case.
fn has_one_case(text: &[u8]) -> bool
    requires { length text.now ≤ MAX_ADDRESS }
    ensures { result ≡ has_one_case text.now }
{
    same(&lower_case(text), text) || same(&upper_case(text), text)
}

/// Whether a text begins with the human-readable part and "1".
fn has_prefix(prefix: &[u8], text: &[u8]) -> bool
    requires most { length text.now ≤ MAX_ADDRESS }
    requires least { length prefix.now < length text.now }
    ensures { result ≡ has_prefix prefix.now text.now }
{
    let mut wanted: ArrayVec<u8, MAX_ADDRESS> = ArrayVec::new();
    wanted.try_extend_from_slice(prefix).unwrap();
    wanted.push(b'1');
    same(&lower_case(text)[..prefix.len() + 1], &wanted)
}

fn same(a: &[u8], b: &[u8]) -> bool
    ensures { result ≡ bytes_eq a.now b.now }
{
    a == b
}

/// Why the letters behind the human-readable part make no address, if they make none.
#[tactic(auto, unfolding(crate::specs::Reading::letters_refusal))]
fn letters_refusal(prefix: &[u8], letters: &[u8]) -> Option<AddressError>
    requires prefix { length prefix.now ≤ 18 }
    requires least { 7 ≤ length letters.now }
    requires most { length letters.now ≤ MAX_ADDRESS }
    ensures { result ≡ letters_refusal prefix.now letters.now }
{
    let bad = first_bad_letter(letters);
    if bad < letters.len() {
        return Some(AddressError::BadLetter {
            position: prefix.len() + 1 + bad,
        });
    }
    groups_refusal(prefix, &groups_of(letters))
}

/// Why groups are no address, if they are none.
#[tactic(auto, unfolding(crate::specs::Reading::groups_refusal))]
fn groups_refusal(prefix: &[u8], groups: &[u8]) -> Option<AddressError>
    requires least { 7 ≤ length groups.now }
    requires most { length groups.now ≤ MAX_ADDRESS }
    requires below { All IsGroup groups.now }
    ensures { result ≡ groups_refusal prefix.now groups.now }
{
    let version = groups[0];
    if polymod(prefix, groups) == final_register(version) {
        program_refusal(version, &groups[1..groups.len() - 6])
    } else {
        Some(AddressError::BadChecksum)
    }
}

/// Why groups are no program of this version, if they are none.
#[tactic(auto, unfolding(crate::specs::Reading::program_refusal))]
fn program_refusal(version: u8, groups: &[u8]) -> Option<AddressError>
    requires most { length groups.now ≤ MAX_ADDRESS }
    requires below { All IsGroup groups.now }
    ensures { result ≡ program_refusal version groups.now }
{
    if version > 16 {
        return Some(AddressError::BadVersion);
    }
    if 5 * groups.len() % 8 > 4 {
        return Some(AddressError::BadPadding);
    }
    if bits_of(groups).rest() > 0 {
        return Some(AddressError::BadPadding);
    }
    let count = 5 * groups.len() / 8;
    if count < 2 {
        return Some(AddressError::BadProgram);
    }
    if count > 40 {
        return Some(AddressError::BadProgram);
    }
    if version > 0 || count == 20 || count == 32 {
        None
    } else {
        Some(AddressError::BadProgram)
    }
}

/// The bits of groups.
fn bits_of(groups: &[u8]) -> BitWriter<8>
    requires most { length groups.now ≤ MAX_ADDRESS }
    requires below { All IsGroup groups.now }
    ensures { result ≡ record { count = 5 * length groups.now; number = number_of 5 groups.now } }
{
    let mut bits = BitWriter::new();
    for group in groups {
        bits.write(*group, 5);
    }
    bits
}

/// Where the first letter is that isn't of the alphabet, or how many letters there are.
fn first_bad_letter(letters: &[u8]) -> usize
    ensures { result ≡ first_bad_letter letters.now }
{
    for i in 0..letters.len() {
        if group_of(letters[i]) == 32 {
            return i;
        }
    }
    letters.len()
}

/// The groups of letters.
fn groups_of(letters: &[u8]) -> ArrayVec<u8, MAX_ADDRESS>
    requires { length letters.now ≤ MAX_ADDRESS }
    ensures { result.items ≡ map group_of letters.now }
{
    let mut groups = ArrayVec::new();
    for letter in letters {
        groups.push(group_of(*letter));
    }
    groups
}

/// The group of a letter, or 32 if it is none's.
fn group_of(letter: u8) -> u8
    ensures group { result ≡ group_of letter }
    ensures most { result ≤ 32 }
{
    for group in 0..32u8 {
        if LETTERS[usize::from(group)] == letter {
            return group;
        }
    }
    32
}

fn lower_case(text: &[u8]) -> ArrayVec<u8, MAX_ADDRESS>
    requires { length text.now ≤ MAX_ADDRESS }
    ensures { result.items ≡ str_to_ascii_lowercase text.now }
{
    let mut lower = ArrayVec::new();
    for byte in text {
        lower.push(byte.to_ascii_lowercase());
    }
    lower
}

fn upper_case(text: &[u8]) -> ArrayVec<u8, MAX_ADDRESS>
    requires { length text.now ≤ MAX_ADDRESS }
    ensures { result.items ≡ str_to_ascii_uppercase text.now }
{
    let mut upper = ArrayVec::new();
    for byte in text {
        upper.push(byte.to_ascii_uppercase());
    }
    upper
}
