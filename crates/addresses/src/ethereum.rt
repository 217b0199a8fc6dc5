//! Ethereum's addresses.
ghost use Rattle.std.specs.Prelude.{◌≡◌, ◌+◌, ◌*◌, ◌<◌, ◌≤◌, ◌++◌, ◌∷◌, [], length, map, All};
ghost use Rattle.addresses.specs.Ethereum.{account, halves, lower, upper, cased, erc55, ethereum_address};

use arrayvec::ArrayVec;
use keccak::keccak256;

/// The characters of an address.
pub const ETHEREUM_ADDRESS: usize = 42;

const LOWER: [u8; 16] = *b"0123456789abcdef";

const UPPER: [u8; 16] = *b"0123456789ABCDEF";

/// Returns the address of the public key with these coordinates: 32 bytes of x and then 32 of y, the highest first.
pub fn ethereum_address(coordinates: &[u8; 64]) -> ArrayVec<u8, ETHEREUM_ADDRESS>
    ensures { result.items ≡ ethereum_address coordinates.now }
{
    erc55(&account(coordinates))
}

/// The last 20 bytes of the digest of both coordinates.
pub(crate) fn account(coordinates: &[u8; 64]) -> [u8; 20]
    ensures { result ≡ account coordinates.now }
{
    let digest = keccak256(coordinates);
    let mut bytes = [0; 20];
    bytes.copy_from_slice(&digest[12..32]);
    bytes
}

/// Returns the address of 20 bytes: hexadecimal digits, with the capitals of ERC-55.
pub fn erc55(bytes: &[u8; 20]) -> ArrayVec<u8, ETHEREUM_ADDRESS>
    ensures { result.items ≡ erc55 bytes.now }
{
    let figures = halves(bytes);
    let digest = halves(&keccak256(&lower_text(&figures)));
    let mut text = ArrayVec::new();
    text.push(b'0');
    text.push(b'x');
    push_cased(&mut text, &figures, &digest);
    text
}

/// The halves of bytes.
fn halves(bytes: &[u8]) -> ArrayVec<u8, 64>
    requires { length bytes.now ≤ 32 }
    ensures halves { result.items ≡ halves bytes.now }
    ensures count { length result.items ≡ 2 * length bytes.now }
    ensures below { All (λ n. n < 16) result.items }
{
    let mut halves = ArrayVec::new();
    for byte in bytes {
        halves.push(*byte / 16);
        halves.push(*byte % 16);
    }
    halves
}

/// Hexadecimal digits in lower case.
fn lower_text(figures: &[u8]) -> ArrayVec<u8, 64>
    requires count { length figures.now ≤ 64 }
    requires below { All (λ n. n < 16) figures.now }
    ensures { result.items ≡ map lower figures.now }
{
    let mut text = ArrayVec::new();
    for figure in figures {
        text.push(LOWER[usize::from(*figure)]);
    }
    text
}

/// Appends hexadecimal digits, in upper case where the digest has at least 8.
fn push_cased(text: &mut ArrayVec<u8, ETHEREUM_ADDRESS>, figures: &[u8], digest: &[u8])
    requires room { length text.old.items + length figures.now ≤ ETHEREUM_ADDRESS }
    requires below { All (λ n. n < 16) figures.now }
    requires digest { length figures.now ≤ length digest.now }
    ensures { text.new.items ≡ text.old.items ++ cased figures.now digest.now }
{
    for i in 0..figures.len() {
        text.push(cased(figures[i], digest[i]));
    }
}

/// A hexadecimal digit, in upper case if the digest's is at least 8.
fn cased(figure: u8, digest: u8) -> u8
    requires { figure < 16 }
    ensures { cased (figure ∷ []) (digest ∷ []) ≡ result ∷ [] }
{
    if digest > 7 {
        UPPER[usize::from(figure)]
    } else {
        LOWER[usize::from(figure)]
    }
}
