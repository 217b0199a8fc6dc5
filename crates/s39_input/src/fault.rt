//! Why a run stopped.
ghost use Rattle.std.specs.Prelude.{◌≡◌};

use s39_backup::{CreateError, Mismatch, ReissueError, ResplitError, TooFew};
use s39_kdf::{BadPassphrase, BadSecretLength};
use s39_refusal::{Cause, code};
use s39_repair::RepairError;
use s39_set::{NotAQuorum, SetError, SetLack};
use s39_words::WordError;

/// Why a line is refused.
#[derive(Clone, Copy, Debug)]
pub enum LineRefusal {
    /// The line isn't a mnemonic.
    Word(WordError),
    /// The line's marks give no mnemonic.
    Marks(RepairError),
    /// The line's share can't join those of the lines before it.
    Set(SetError),
    /// The line has more than 1,024 bytes.
    TooLong,
}

impl LineRefusal {
    ghost use Rattle.s39_input.specs.Fault.{line_cause_of};

    /// Returns the number of the refusal, 11 to 15, 17 to 19, 21 to 28, or 71, and the details of the cause.
    pub fn cause(&self) -> Cause
        ensures { result ≡ line_cause_of self.now }
    {
        match self {
            LineRefusal::Word(error) => error.cause(),
            LineRefusal::Marks(error) => error.cause(),
            LineRefusal::Set(error) => error.cause(),
            LineRefusal::TooLong => Cause::of(code::LINE_TOO_LONG),
        }
    }
}

/// A line that is refused.
#[derive(Clone, Copy, Debug, Drop)]
pub struct RefusedLine<E> {
    /// The number of the line, counted from 1. The count doesn't rise above 2^64 - 1.
    pub number: u64,
    /// The cause.
    pub refusal: E,
}

/// Why not all lines of an input were taken.
#[derive(Clone, Copy, Debug, Drop)]
pub enum Stop<E> {
    /// A line is refused.
    AtLine(RefusedLine<E>),
    /// A read failed.
    ReadFailed,
}

impl<E> From<RefusedLine<E>> for Stop<E> {
    ghost use Rattle.s39_input.specs.declared.fault.Stop.TheVariants.{AtLine};

    ghost from_gives = { λ refused stop. stop ≡ AtLine refused };

    fn from(refused: RefusedLine<E>) -> Stop<E> {
        Stop::AtLine(refused)
    }
}

/// Which device failed.
#[derive(Clone, Copy, Debug)]
pub enum DeviceFailure {
    /// A read failed.
    Read,
    /// A write failed, or took no byte.
    Write,
}

impl DeviceFailure {
    ghost use Rattle.s39_input.specs.Fault.{device_cause_of};

    /// Returns the number of the failure: 72 for a read, and 73 for a write.
    pub fn cause(&self) -> Cause
        ensures { result ≡ device_cause_of self.now }
    {
        match self {
            DeviceFailure::Read => Cause::of(code::READ_FAILED),
            DeviceFailure::Write => Cause::of(code::WRITE_FAILED),
        }
    }
}

/// Why a run stopped.
#[derive(Clone, Copy, Debug)]
pub enum Refusal {
    /// A line is refused.
    Line(LineRefusal),
    /// The shares have no quorum.
    Lack(SetLack),
    /// A byte of the passphrase isn't printable ASCII, which is 32 to 126.
    Passphrase(BadPassphrase),
    /// The secret has an odd number of bytes, or fewer than 16, or more than 128.
    SecretLength(BadSecretLength),
    /// The backup takes `needed` random bytes, and more or fewer came.
    RandomLength { needed: usize },
    /// A digest doesn't match what the shares combine to.
    DigestMismatch(Mismatch),
    /// The recovered secret has another fingerprint than the expected one.
    OtherSecret,
    /// The names after which a drill is to start aren't a quorum of the shares.
    NotAQuorum,
    /// The plan has no share with this name. Group and member index count from 0.
    NotInPlan { group: u8, member: u8 },
    /// No backup of the plan can have all of these shares.
    OtherPlan,
    /// The shares don't determine one of the requested shares.
    Undetermined(TooFew),
    /// The backup isn't extendable, so its encrypted secret can't be split anew.
    NotExtendable,
    /// The first two random bytes give the identifier that the backup has.
    SameIdentifier,
    /// A device failed.
    Device(DeviceFailure),
}

impl Refusal {
    ghost use Rattle.s39_input.specs.Fault.{cause_of};

    /// Returns the number of the refusal, 11 to 15, 17 to 19, 21 to 30, 41 to 43, 51, 52, 62, 64 to 68, or 71 to 73, and the
    /// details of the cause.
    pub fn cause(&self) -> Cause
        ensures { result ≡ cause_of self.now }
    {
        match self {
            Refusal::Line(refusal) => refusal.cause(),
            Refusal::Lack(lack) => lack.cause(),
            Refusal::Passphrase(bad) => bad.cause(),
            Refusal::SecretLength(bad) => bad.cause(),
            Refusal::RandomLength { needed } => {
                CreateError::BadRandomLength { needed: *needed }.cause()
            }
            Refusal::DigestMismatch(mismatch) => mismatch.cause(),
            Refusal::OtherSecret => Cause::of(code::OTHER_SECRET),
            Refusal::NotAQuorum => NotAQuorum.cause(),
            Refusal::NotInPlan { group, member } => {
                Cause::new(code::NOT_IN_PLAN, u64::from(*group), u64::from(*member))
            }
            Refusal::OtherPlan => Cause::of(code::OTHER_PLAN),
            Refusal::Undetermined(few) => few.cause(),
            Refusal::NotExtendable => Cause::of(code::NOT_EXTENDABLE),
            Refusal::SameIdentifier => Cause::of(code::SAME_IDENTIFIER),
            Refusal::Device(failure) => failure.cause(),
        }
    }
}

/// Why a run stopped, and at which line if it was a line.
#[derive(Clone, Copy, Debug)]
pub struct Fault {
    /// The number of the refused line, counted from 1; `None` if the refusal isn't of a line. The count stays at 2^64
    /// - 1 once it is there.
    pub line: Option<u64>,
    /// The cause.
    pub refusal: Refusal,
}

/// A fault at no line.
impl From<Refusal> for Fault {
    ghost use Rattle.s39_input.specs.Fault.{fault_of};

    ghost from_gives = { λ refusal fault. fault ≡ fault_of refusal };

    fn from(refusal: Refusal) -> Fault {
        Fault {
            line: None,
            refusal,
        }
    }
}

impl From<BadPassphrase> for Fault {
    ghost use Rattle.s39_input.specs.Fault.{fault_of};
    ghost use Rattle.s39_input.specs.declared.fault.Refusal.TheVariants.{Passphrase};

    ghost from_gives = { λ bad fault. fault ≡ fault_of (Passphrase bad) };

    fn from(bad: BadPassphrase) -> Fault {
        Fault::from(Refusal::Passphrase(bad))
    }
}

impl From<BadSecretLength> for Fault {
    ghost use Rattle.s39_input.specs.Fault.{fault_of};
    ghost use Rattle.s39_input.specs.declared.fault.Refusal.TheVariants.{SecretLength};

    ghost from_gives = { λ bad fault. fault ≡ fault_of (SecretLength bad) };

    fn from(bad: BadSecretLength) -> Fault {
        Fault::from(Refusal::SecretLength(bad))
    }
}

impl From<SetLack> for Fault {
    ghost use Rattle.s39_input.specs.Fault.{fault_of};
    ghost use Rattle.s39_input.specs.declared.fault.Refusal.TheVariants.{Lack};

    ghost from_gives = { λ lack fault. fault ≡ fault_of (Lack lack) };

    fn from(lack: SetLack) -> Fault {
        Fault::from(Refusal::Lack(lack))
    }
}

impl From<Mismatch> for Fault {
    ghost use Rattle.s39_input.specs.Fault.{fault_of};
    ghost use Rattle.s39_input.specs.declared.fault.Refusal.TheVariants.{DigestMismatch};

    ghost from_gives = { λ mismatch fault. fault ≡ fault_of (DigestMismatch mismatch) };

    fn from(mismatch: Mismatch) -> Fault {
        Fault::from(Refusal::DigestMismatch(mismatch))
    }
}

impl From<CreateError> for Fault {
    ghost use Rattle.s39_input.specs.Create.{fault_of_creation};

    ghost from_gives = { λ error fault. fault ≡ fault_of_creation error };

    fn from(error: CreateError) -> Fault {
        match error {
            CreateError::Passphrase(bad) => Fault::from(Refusal::Passphrase(bad)),
            CreateError::SecretLength(bad) => Fault::from(Refusal::SecretLength(bad)),
            CreateError::BadRandomLength { needed } => Fault::from(Refusal::RandomLength {
                needed,
            }),
        }
    }
}

impl From<ReissueError> for Fault {
    ghost use Rattle.s39_input.specs.Fault.{fault_of_reissue};

    ghost from_gives = { λ error fault. fault ≡ fault_of_reissue error };

    fn from(error: ReissueError) -> Fault {
        match error {
            ReissueError::Undetermined(few) => Fault::from(Refusal::Undetermined(few)),
            ReissueError::DigestMismatch(mismatch) => Fault::from(mismatch),
        }
    }
}

impl From<ResplitError> for Fault {
    ghost use Rattle.s39_input.specs.Fault.{fault_of_resplit};

    ghost from_gives = { λ error fault. fault ≡ fault_of_resplit error };

    fn from(error: ResplitError) -> Fault {
        match error {
            ResplitError::Lack(lack) => Fault::from(lack),
            ResplitError::DigestMismatch(mismatch) => Fault::from(mismatch),
            ResplitError::NotExtendable => Fault::from(Refusal::NotExtendable),
            ResplitError::BadRandomLength { needed } => Fault::from(Refusal::RandomLength {
                needed,
            }),
            ResplitError::SameIdentifier => Fault::from(Refusal::SameIdentifier),
        }
    }
}

impl From<Stop<LineRefusal>> for Fault {
    ghost use Rattle.s39_input.specs.Fault.{fault_of_stop};

    ghost from_gives = { λ stop fault. fault ≡ fault_of_stop stop };

    fn from(stop: Stop<LineRefusal>) -> Fault {
        match stop {
            Stop::AtLine(refused) => Fault {
                line: Some(refused.number),
                refusal: Refusal::Line(refused.refusal),
            },
            Stop::ReadFailed => Fault::from(Refusal::Device(DeviceFailure::Read)),
        }
    }
}
