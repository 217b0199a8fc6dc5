//! The rounds of the cipher.
ghost use Rattle.std.specs.Prelude.{◌≡◌, ◌↔◌, ◌<◌, IsSome, IfSome};
ghost use Rattle.s39_kdf.specs.Rounds.{rounds};

/// The number of rounds.
pub const ROUNDS: u8 = 4;

/// A round of the cipher (SLIP-0039, "Encryption of the master secret").
///
/// ```rust
/// let last = Round::new(3).unwrap();
/// assert_eq!(rt; last.number, 3);
/// assert_eq!(rt; Round::new(4), None);
/// ```
#[derive(Clone, Copy, PartialEq, Eq, Debug)]
pub struct Round {
    /// The number of the round, 0 to 3.
    pub number: u8,
    ghost in_range: { number < rounds },
}

impl Round {
    /// Returns the round with this number, or `None` if the number is above 3.
    pub fn new(number: u8) -> Option<Round>
        ensures in_range { IsSome result ↔ number < rounds }
        ensures same { IfSome result (λ round. round.number ≡ number) }
    {
        if number < ROUNDS {
            return Some(Round { number });
        }
        None
    }
}
