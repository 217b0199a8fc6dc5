//! What a person at a terminal is told beside the answer of a command, and when.
ghost use Rattle.std.specs.Prelude.{◌≡◌};
ghost use Rattle.s39_cli.specs.Said.{is_bare, recovers_any, tells_of_drawing};

use s39_command::{BadValues, Call, Job};

/// Said before a secret is typed.
pub(crate) const SECRET_ASKED: &[u8] =
    b"shamir: type the digits of the secret, then press Enter: they are shown as they are typed\n";

/// Said before a passphrase is typed.
pub(crate) const PASSPHRASE_ASKED: &[u8] =
    b"shamir: type the passphrase, then press Enter: it is shown as it is typed (docs/SCRIPTS.md says how to hide it)\n";

/// Said before mnemonics are typed.
pub(crate) const TYPING: &[u8] =
    b"shamir: type a mnemonic on each line, then press Ctrl-D on an empty line\n";

/// Said of secrets that another passphrase would change.
pub(crate) const BARE: &[u8] =
    b"shamir: no passphrase was used: a backup with one gives another secret here\n";

/// Said after a text that has another form than a plan is refused.
pub(crate) const PLAN_FORM: &[u8] =
    b"shamir: a plan is TofN for one group, or GT/T1ofN1,T2ofN2,.. for several, as 2of3 or 2/2of3,1of1,1of1\n";

/// Said after a creation without a secret is refused.
pub(crate) const NEW_SECRET: &[u8] =
    b"shamir: shamir-papers new asks step by step; to draw a new secret by hand: od -An -v -tx1 -N16 /dev/urandom | tr -dc 0-9a-f | install -m 600 /dev/stdin /dev/shm/secret\n";

/// Whether a person is told how to draw a secret: one looks on, and no secret is given.
pub(crate) fn tells_of_drawing(is_attended: bool, bad: BadValues) -> bool
    ensures { result ≡ tells_of_drawing is_attended bad }
{
    match bad {
        BadValues::NoSecret => is_attended,
        _ => false,
    }
}

/// Whether no passphrase is given, and the command recovers secrets without a fingerprint to tell.
pub(crate) fn is_bare(call: &Call) -> bool
    ensures { result ≡ is_bare call.now }
{
    call.given.passphrase.is_none() && call.files.passphrase.is_none() && recovers_any(&call.job)
}

/// Whether the command recovers secrets, and no fingerprint is expected.
fn recovers_any(job: &Job) -> bool
    ensures { result ≡ recovers_any job.now }
{
    match job {
        Job::Recover { expected, .. } | Job::Drill { expected, .. } => expected.is_none(),
        _ => false,
    }
}
