//! Clearing of blocks of the heap before they are freed.
ghost use Rattle.std.specs.Prelude.{◌≡◌, All, vec_len};
ghost use Rattle.std.specs.Vec.{vec_capacity};

/// Bytes in a block of the heap, all of which is filled with zeros before it is freed.
pub struct Cleared {
    /// The bytes.
    pub bytes: Vec<u8>,
}

impl Drop for Cleared {
    fn drop(self) {
        let Cleared { mut bytes } = self;
        clear_block(&mut bytes);
    }
}

/// Fills the whole block of a vector with zeros.
pub fn clear_block(bytes: &mut Vec<u8>)
    ensures zeros { All (λ byte. byte ≡ 0) bytes.new.items }
    ensures whole { vec_len bytes.new ≡ vec_capacity bytes.old }
    // The block keeps its size.
    ensures block { vec_capacity bytes.new ≡ vec_capacity bytes.old }
{
    let room = bytes.capacity();
    bytes.clear();
    for _ in 0..room {
        bytes.push_reserved(0);
    }
}
