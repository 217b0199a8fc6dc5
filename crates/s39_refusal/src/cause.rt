//! The cause of a refusal.
ghost use Rattle.std.specs.Prelude.{◌≡◌};
ghost use Rattle.s39_refusal.specs.Causes.{cause};

/// The cause of a refusal: its number, and up to two details.
#[derive(Clone, Copy, Debug, PartialEq, Eq)]
pub struct Cause {
    /// The number of the refusal, as one of the constants in `code`.
    pub code: u8,
    /// The first detail, which is a position, a number or a group. It is 0 if there is none.
    pub first: u64,
    /// The second detail. It is 0 if there is none.
    pub second: u64,
}

impl Cause {
    /// Makes the cause with this number and these details.
    pub fn new(code: u8, first: u64, second: u64) -> Cause
        ensures { result ≡ cause code first second }
    {
        Cause {
            code,
            first,
            second,
        }
    }

    /// Makes the cause with this number, without details.
    pub fn of(code: u8) -> Cause
        ensures { result ≡ cause code 0 0 }
    {
        Cause::new(code, 0, 0)
    }
}
