//! What wallets show, read back from its text.
ghost use Rattle.std.specs.Prelude.{◌≡◌, ◌<◌, ◌≤◌, length, codes, drop, is_some};
ghost use Rattle.std.specs.Str.{str_to_ascii_lowercase};
ghost use Rattle.std.specs.Int.Digits.{number_from_digits};
ghost use Rattle.curve_points.specs.Lifted.{lift_x};
ghost use Rattle.accounts.specs.Shown.{version_of, is_public, is_private, is_of_test_network, is_sign, is_point, has_place, is_key, key_in, hash_in, payload_in, of_base58, base58_in, unknown_on, of_bech32, program_in, witness_in, account_in, begins, by_front, shown_in};

use addresses::{Address, erc55};
use base58::{Base58Error, read_base58check};
use bech32::{AddressError, read_segwit_address};
use bip32::SERIALIZED_BYTES;
use curve_field::FieldElement;
use curve_points::lift_x;
use hex::{FromHex, FromHexError};

/// The bytes of an extended public key whose version is that of an `xpub`, a `ypub` or a `zpub`.
#[derive(Clone, Copy, Debug, PartialEq, Eq)]
pub struct ExtendedPublicKey {
    pub bytes: [u8; SERIALIZED_BYTES],
}

/// What a wallet shows of a seed.
#[derive(Clone, Copy, Debug, PartialEq, Eq)]
pub enum Shown {
    /// A master fingerprint.
    Fingerprint([u8; 4]),
    /// An extended public key.
    PublicKey(ExtendedPublicKey),
    /// An address.
    Address(Address),
}

/// Why a text is nothing that a wallet shows.
#[derive(Clone, Copy, Debug, PartialEq, Eq)]
pub enum ShownError {
    /// The byte at this position, counted from 0, is none of the form's letters.
    BadLetter { position: usize },
    /// The text is too short or too long for its form.
    BadLength,
    /// The text of a witness program has letters in upper case and in lower case.
    MixedCase,
    /// The checksum isn't that of the other characters. Ethereum has it in its capitals: an address whose capitals aren't those of
    /// ERC-55 is refused, also one in lower case.
    BadChecksum,
    /// The text is of a test network: an address, or a `tpub`, a `upub` or a `vpub`.
    OtherNetwork,
    /// The text is of no kind that is known here: another version, length or witness program. So are a private key in WIF and the
    /// extended keys that SLIP-132 has for several signers, also private ones.
    UnknownKind,
    /// The text is an extended private key: an `xprv`, a `yprv` or a `zprv`, or a `tprv`, a `uprv` or a `vprv`.
    PrivateKey,
    /// The extended public key has no point of the curve, or is a master key with a parent or a number.
    BadKey,
}

/// Reads what a wallet shows: a master fingerprint, an extended public key, or an address.
///
/// Just the texts that are written so are read, each as what it writes (`laws::shown_texts_are_read`). Eight hexadecimal digits
/// in either case are a fingerprint. A text that begins with `0x`, or with a human-readable part and `1`, is read as that kind of
/// address, and any other in Base58Check. Of a text that is refused, the first cause is told: a letter, a length or a checksum as
/// its form has them, then an extended private key, then a test network, then an unknown kind or a bad key.
///
/// ```rust
/// let shown = read_shown(b"bc1qcr8te4kr609gcawutmrza0j4xv80jy8z306fyu");
/// assert_eq!(rt; shown, Ok(Shown::Address(address)));
/// assert_eq!(rt; read_shown(b"BC1QCR8TE4KR609GCAWUTMRZA0J4XV80JY8Z306FYU"), shown);
/// assert_eq!(rt; read_shown(b"73C5DA0A"), Ok(Shown::Fingerprint(*b"\x73\xc5\xda\x0a")));
/// ```
#[tactic(auto, unfolding(crate::specs::Shown::shown_in))]
pub fn read_shown(text: &[u8]) -> Result<Shown, ShownError>
    ensures { result ≡ shown_in text.now }
{
    match <[u8; 4]>::from_hex(text) {
        Ok(bytes) => Ok(Shown::Fingerprint(bytes)),
        Err(_) => by_front(text),
    }
}

/// What a text that isn't a fingerprint is, by its first letters.
fn by_front(text: &[u8]) -> Result<Shown, ShownError>
    ensures { result ≡ by_front (str_to_ascii_lowercase text.now) text.now }
{
    if begins(b"0x", text) {
        return account_in(text);
    }
    if begins(b"bc1", text) {
        return witness_in(true, b"bc", text);
    }
    if begins(b"tb1", text) {
        return witness_in(false, b"tb", text);
    }
    if begins(b"bcrt1", text) {
        return witness_in(false, b"bcrt", text);
    }
    base58_in(text)
}

/// Whether a text begins so, in either case.
fn begins(front: &[u8], text: &[u8]) -> bool
    ensures { result ≡ begins front.now (str_to_ascii_lowercase text.now) }
{
    for i in 0..front.len() {
        if i >= text.len() {
            return false;
        }
        let lower = text[i].to_ascii_lowercase();
        if lower != front[i] {
            return false;
        }
    }
    true
}

/// What a text that begins with "0x" is.
fn account_in(text: &[u8]) -> Result<Shown, ShownError>
    requires { 2 ≤ length text.now }
    ensures { result ≡ account_in text.now }
{
    match <[u8; 20]>::from_hex(&text[2..]) {
        Ok(bytes) if erc55(&bytes).as_slice() == text => {
            Ok(Shown::Address(Address::Ethereum(bytes)))
        }
        Ok(_) => Err(ShownError::BadChecksum),
        Err(FromHexError::InvalidHexCharacter { index, .. }) => Err(ShownError::BadLetter {
            position: index + 2,
        }),
        Err(_) => Err(ShownError::BadLength),
    }
}

/// What a text with this human-readable part is.
fn witness_in(main: bool, prefix: &[u8], text: &[u8]) -> Result<Shown, ShownError>
    requires { length prefix.now ≤ 18 }
    ensures { result ≡ witness_in main prefix.now text.now }
{
    match read_segwit_address(prefix, text) {
        Ok(found) => program_in(main, found.version, &found.program),
        Err(error) => Err(of_bech32(main, error)),
    }
}

fn program_in(main: bool, version: u8, program: &[u8]) -> Result<Shown, ShownError>
    ensures { result ≡ program_in main version program.now }
{
    if main && version == 0 && program.len() == 20 {
        let mut hash = [0; 20];
        hash.copy_from_slice(program);
        return Ok(Shown::Address(Address::P2wpkh(hash)));
    }
    if main && version == 1 && program.len() == 32 {
        let mut key = [0; 32];
        key.copy_from_slice(program);
        return Ok(Shown::Address(Address::P2tr(key)));
    }
    Err(unknown_on(main))
}

fn unknown_on(main: bool) -> ShownError
    ensures { result ≡ unknown_on main }
{
    if main {
        ShownError::UnknownKind
    } else {
        ShownError::OtherNetwork
    }
}

fn of_bech32(main: bool, error: AddressError) -> ShownError
    ensures { result ≡ of_bech32 main error }
{
    match error {
        AddressError::BadLength => ShownError::BadLength,
        AddressError::MixedCase => ShownError::MixedCase,
        AddressError::BadPrefix => ShownError::UnknownKind,
        AddressError::BadLetter { position } => ShownError::BadLetter { position },
        AddressError::BadChecksum => ShownError::BadChecksum,
        AddressError::BadVersion => unknown_on(main),
        AddressError::BadPadding => unknown_on(main),
        AddressError::BadProgram => unknown_on(main),
    }
}

/// What a text in Base58Check is.
fn base58_in(text: &[u8]) -> Result<Shown, ShownError>
    ensures { result ≡ base58_in text.now }
{
    match read_base58check(text) {
        Ok(payload) => payload_in(&payload),
        Err(error) => Err(of_base58(error)),
    }
}

fn of_base58(error: Base58Error) -> ShownError
    ensures { result ≡ of_base58 error }
{
    match error {
        Base58Error::BadLetter { position } => ShownError::BadLetter { position },
        Base58Error::BadLength => ShownError::BadLength,
        Base58Error::BadChecksum => ShownError::BadChecksum,
    }
}

fn payload_in(payload: &[u8]) -> Result<Shown, ShownError>
    ensures { result ≡ payload_in payload.now }
{
    if payload.len() == SERIALIZED_BYTES {
        let mut bytes = [0; SERIALIZED_BYTES];
        bytes.copy_from_slice(payload);
        return key_in(&bytes);
    }
    if payload.len() == 21 {
        let mut hash = [0; 20];
        hash.copy_from_slice(&payload[1..21]);
        return hash_in(payload[0], &hash);
    }
    Err(ShownError::UnknownKind)
}

fn hash_in(version: u8, hash: &[u8; 20]) -> Result<Shown, ShownError>
    ensures { result ≡ hash_in version hash.now }
{
    match version {
        0 => Ok(Shown::Address(Address::P2pkh(*hash))),
        5 => Ok(Shown::Address(Address::P2sh(*hash))),
        111 => Err(ShownError::OtherNetwork),
        196 => Err(ShownError::OtherNetwork),
        _ => Err(ShownError::UnknownKind),
    }
}

/// What the bytes of an extended key are.
fn key_in(bytes: &[u8; SERIALIZED_BYTES]) -> Result<Shown, ShownError>
    ensures { result ≡ key_in bytes.now }
{
    let version = version_of(bytes);
    if is_private(version) {
        return Err(ShownError::PrivateKey);
    }
    if is_of_test_network(version) {
        return Err(ShownError::OtherNetwork);
    }
    if !is_public(version) {
        return Err(ShownError::UnknownKind);
    }
    if is_key(bytes) {
        Ok(Shown::PublicKey(ExtendedPublicKey { bytes: *bytes }))
    } else {
        Err(ShownError::BadKey)
    }
}

/// The number in the first four bytes.
fn version_of(bytes: &[u8; SERIALIZED_BYTES]) -> u32
    ensures { result ≡ version_of bytes.now }
{
    let mut version = [0; 4];
    version.copy_from_slice(&bytes[0..4]);
    u32::from_be_bytes(version)
}

fn is_public(version: u32) -> bool
    ensures { result ≡ is_public version }
{
    version == 0x0488_b21e || version == 0x049d_7cb2 || version == 0x04b2_4746
}

fn is_private(version: u32) -> bool
    ensures { result ≡ is_private version }
{
    version == 0x0488_ade4
        || version == 0x049d_7878
        || version == 0x04b2_430c
        || version == 0x0435_8394
        || version == 0x044a_4e28
        || version == 0x045f_18bc
}

fn is_of_test_network(version: u32) -> bool
    ensures { result ≡ is_of_test_network version }
{
    version == 0x0435_87cf || version == 0x044a_5262 || version == 0x045f_1cf6
}

/// Whether a public key has a place below a master key, and a point.
fn is_key(bytes: &[u8; SERIALIZED_BYTES]) -> bool
    ensures { result ≡ is_key bytes.now }
{
    has_place(bytes) && is_point(&bytes[45..78])
}

/// Whether the key is below another, or has no parent's fingerprint and no number.
fn has_place(bytes: &[u8; SERIALIZED_BYTES]) -> bool
    ensures { result ≡ has_place bytes.now }
{
    let mut place = [0; 8];
    place.copy_from_slice(&bytes[5..13]);
    bytes[4] > 0 || u64::from_be_bytes(place) == 0
}

/// Whether 33 bytes are a point of the curve.
fn is_point(bytes: &[u8]) -> bool
    requires { length bytes.now ≡ 33 }
    ensures { result ≡ is_point bytes.now }
{
    let mut x = [0; 32];
    x.copy_from_slice(&bytes[1..]);
    is_sign(bytes[0]) && is_x(&x)
}

/// Whether a point's first byte tells the parity of its y.
fn is_sign(byte: u8) -> bool
    ensures { result ≡ is_sign byte }
{
    byte == 2 || byte == 3
}

/// Whether these bytes are the x of a point of the curve.
#[tactic(auto, unfolding(curve_points::specs::Lifted::lift_x))]
fn is_x(bytes: &[u8; 32]) -> bool
    ensures { result ≡ is_some (lift_x (number_from_digits 256 bytes.now)) }
{
    match FieldElement::from_bytes(bytes) {
        Some(x) => lift_x(x).is_some(),
        None => false,
    }
}
