//! The call that clears a buffer.
ghost use Rattle.std.specs.Prelude.{◌≡◌, All};

/// Fills a buffer of the caller with zeros, such as one that held a secret. The compiler of the caller can't leave this out.
#[unsafe(no_mangle)]
pub extern "C" fn shamir_wipe(buffer: &mut [u8])
    ensures { All (λ byte. byte ≡ 0) buffer.new }
{
    buffer.fill(0);
}
