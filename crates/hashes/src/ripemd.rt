//! RIPEMD-160.
ghost use Rattle.std.specs.Prelude.{◌≡◌, ◌/◌, ◌*◌, ◌<◌, ◌≤◌, drop, length};
ghost use Rattle.hashes.specs.Blocks.{after_blocks};
ghost use Rattle.hashes.specs.Ripemd160.{compress, padded_message, digest_bytes, ripemd160};

use crate::ripemd_steps::line;
use arrayvec::ArrayVec;

/// The length of a block in bytes.
const BLOCK_BYTES: usize = 64;

/// Returns the RIPEMD-160 of the message.
#[tactic(auto, using(crate::proofs::RipemdBlocks::in_two))]
pub fn ripemd160(message: &[u8]) -> [u8; 20]
    ensures { result ≡ ripemd160 message.now }
{
    let initial = [
        0x6745_2301,
        0xefcd_ab89,
        0x98ba_dcfe,
        0x1032_5476,
        0xc3d2_e1f0,
    ];
    digest_bytes(after_blocks(after_blocks(initial, message), &ending(message)))
}

/// The hash value after the whole blocks of the bytes.
fn after_blocks(start: [u32; 5], bytes: &[u8]) -> [u32; 5]
    ensures { result ≡ after_blocks compress 64 start bytes.now (length bytes.now / 64) }
{
    let mut state = start;
    for n in 0..bytes.len() / BLOCK_BYTES {
        let place = n * BLOCK_BYTES;
        let next = compress(state, &bytes[place..place + BLOCK_BYTES]);
        state = next;
    }
    state
}

/// What follows the whole blocks of the message in the padded message.
fn ending(message: &[u8]) -> ArrayVec<u8, 128>
    ensures { result.items ≡ drop (length message.now / 64 * 64) (padded_message message.now) }
{
    let used = message.len() % BLOCK_BYTES;
    let mut ending = ArrayVec::new();
    ending
        .try_extend_from_slice(&message[message.len() - used..])
        .unwrap();
    ending.push(0x80);
    ending
        .try_extend_from_slice(&[0; BLOCK_BYTES][..(119 - used) % BLOCK_BYTES])
        .unwrap();
    ending
        .try_extend_from_slice(&(message.len() as u64).wrapping_mul(8).to_le_bytes())
        .unwrap();
    ending
}

fn digest_bytes(h: [u32; 5]) -> [u8; 20]
    ensures { result ≡ digest_bytes h }
{
    let mut bytes = [0; 20];
    bytes[0..4].copy_from_slice(&h[0].to_le_bytes());
    bytes[4..8].copy_from_slice(&h[1].to_le_bytes());
    bytes[8..12].copy_from_slice(&h[2].to_le_bytes());
    bytes[12..16].copy_from_slice(&h[3].to_le_bytes());
    bytes[16..20].copy_from_slice(&h[4].to_le_bytes());
    bytes
}

/// The hash value after one block more.
#[tactic(auto, unfolding(crate::specs::Ripemd160::compress))]
fn compress(h: [u32; 5], block: &[u8]) -> [u32; 5]
    requires { length block.now ≡ BLOCK_BYTES }
    ensures { result ≡ compress h block.now }
{
    let left = line(false, block, h);
    let right = line(true, block, h);
    [
        h[1].wrapping_add(left[2]).wrapping_add(right[3]),
        h[2].wrapping_add(left[3]).wrapping_add(right[4]),
        h[3].wrapping_add(left[4]).wrapping_add(right[0]),
        h[4].wrapping_add(left[0]).wrapping_add(right[1]),
        h[0].wrapping_add(left[1]).wrapping_add(right[2]),
    ]
}
