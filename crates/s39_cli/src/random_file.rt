//! The random bytes of a command that stand in a file.
ghost use Rattle.std.specs.Prelude.{◌≡◌, ◌≤◌, [], IfOk, vec_len};
ghost use Rattle.std.specs.Vec.{vec_capacity};
ghost use Rattle.s39_cli.specs.Values.{AreDrawn, IsPart};
ghost use Rattle.s39_cli.specs.declared.values.Until.{Until};

use crate::values::{Shelf, next_byte};
use s39_clearing::Cleared;
use std::alloc::{AllocError, Global};
use std::io;
use std::io::Read;

/// The most bytes of the file that are read: one more than a backup takes at most.
const MOST: usize = 32_575;

/// Why random bytes aren't read.
#[derive(Drop)]
pub(crate) enum NoRandom {
    /// The program is out of memory.
    Memory,
    /// An open or a read failed.
    Failed(io::Error),
}

impl From<AllocError> for NoRandom {
    ghost use Rattle.s39_cli.specs.declared.random_file.NoRandom.TheVariants.{Memory};

    ghost from_gives = { λ _ no_random. no_random ≡ Memory };

    fn from(_error: AllocError) -> NoRandom {
        NoRandom::Memory
    }
}

impl From<io::Error> for NoRandom {
    ghost use Rattle.s39_cli.specs.declared.random_file.NoRandom.TheVariants.{Failed};

    ghost from_gives = { λ error no_random. no_random ≡ Failed error };

    fn from(error: io::Error) -> NoRandom {
        NoRandom::Failed(error)
    }
}

/// The first bytes of the file of this name, as many as are read at most.
pub(crate) fn random_of<S: Shelf>(alloc: Global, shelf: &S, name: &str) -> Result<Cleared, NoRandom>
    ensures { IfOk result (λ random. AreDrawn (S.told shelf.now name.now) random.bytes.items) }
{
    let bytes = Vec::with_capacity(alloc, MOST)?;
    let mut random = Cleared { bytes };
    let mut file = shelf.open(name)?;
    fill(&mut file, &mut random)?;
    Ok(random)
}

/// Fills an empty block with the first bytes of a reader. The block is cleared also if a read fails.
fn fill<R: Read>(input: &mut R, random: &mut Cleared) -> io::Result<()>
    requires empty { random.old.bytes.items ≡ [] }
    requires room { 32575 ≤ vec_capacity random.old.bytes }
    ensures { IfOk result (λ _. IsPart Until.End 32575 (R.remaining input.old) (R.remaining input.new)
        random.new.bytes.items) }
{
    for _ in 0..MOST {
        let Some(byte) = next_byte(input)? else {
            break;
        };
        random.bytes.push_reserved(byte);
    }
    Ok(())
}
