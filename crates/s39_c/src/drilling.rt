//! The call that drills.
ghost use Rattle.std.specs.Option.{option_copied};
ghost use Rattle.std.specs.Prelude.{◌≡◌, ◌≤◌, All};
ghost use Rattle.s39_drilling.specs.Drill.{IsDrillOutput, DrillsCreated, WritesDrillOf};
ghost use Rattle.s39_input.specs.Input.{whole};
ghost use Rattle.s39_c.specs.Drilling.{expecting, form_of, GivesListing, GivesDrillIn, GivesDrillAfter, GivesDrill};
ghost use Rattle.s39_kdf.specs.Limits.{IsPrintable};
ghost use Rattle.s39_kdf.specs.Noted.{noted_in};
ghost use Rattle.s39_c.specs.Exponents.{GivesUpTo};

use crate::answer::ShamirAnswer;
use crate::clearing::DRILL;
use crate::exponent::set_up_to;
use s39_clearing::clear_stack;
use s39_drilling::drill_set;
use s39_drilling::laws::created_backups_drill;
use s39_input::SecretForm;
use s39_kdf::{BadFingerprint, parse_fingerprint};
use s39_set::{Quorum, ShareSet, parse_quorum};

/// Lists what each quorum recovers, in the format of the command `drill`. A quorum is a minimal set of mnemonics that
/// meets the thresholds. The call lists the quorums that come after the one that `after` names, or all if `after` is
/// empty.
///
/// If `form` is 0, a line has the digits of the secret that its quorum recovers. If it is 1, the line has the
/// fingerprint of that secret instead, and no secret is written. If it is 2, the line says whether the secret has the
/// fingerprint `expected`, which is eight hexadecimal digits in either case. Other forms don't use `expected`.
///
/// The listing goes to the start of `text`; `written` is its length in bytes, and the bytes after it are unchanged. It
/// has at most `limit` quorums. It ends sooner if the line of the next quorum, with the last line after it, doesn't
/// fit. The last line is `end`, or `more after` and the names for the next call. `first` is the number of listed
/// quorums, and `second` is the offset of the last line in `text`. `mismatches` is the number of listed quorums with a
/// digest mismatch, or with another secret than the expected one.
///
/// The call refuses with the first of these that applies, and `text` is then unchanged:
///
/// - 2 (a limit of 0, or a form above 2), 61 (`after` isn't a list of names), 44 (the form is 2, and `expected` isn't a
///   fingerprint), 41 (the passphrase);
/// - the code of the first refused line (11 to 15, 21 to 28, 71), then 29, 30;
/// - 3, if the exponent of the mnemonics is above `max_exponent`; the call then derives no key;
/// - 62 (the names aren't those of a quorum);
/// - 1, if `text` is too short for one quorum, or for `end` if no quorum is left.
///
/// ```c
/// shamir_answer answer = shamir_drill(lines, lines_bytes, "", 0, SHAMIR_EXPONENT_MAX, after, after_bytes, 1000,
///                                     SHAMIR_FORM_FINGERPRINTS, NULL, 0, text, sizeof text);
/// ```
#[unsafe(no_mangle)]
pub extern "C" fn shamir_drill(
    lines: &[u8],
    passphrase: &[u8],
    max_exponent: u32,
    after: &[u8],
    limit: u32,
    form: u32,
    expected: &[u8],
    text: &mut [u8],
) -> ShamirAnswer
    ensures drills { GivesDrill (λ kind names. GivesUpTo max_exponent passphrase.now lines.now
        (GivesListing (λ n. IsDrillOutput kind passphrase.now names n (whole lines.now)) limit text.old) text.old)
        after.now limit form expected.now text.old text.new result }
    // For mnemonics of a created backup and its passphrase, the call lists their quorums and no others, each with the secret
    // in this form. Or the refusal says that they have no quorum, or that the cursor doesn't name one.
    ensures complete { GivesDrill (λ kind names. GivesUpTo max_exponent passphrase.now lines.now
        (GivesListing (λ n. DrillsCreated kind passphrase.now names n (whole lines.now)) limit text.old) text.old)
        after.now limit form expected.now text.old text.new result }
{
    created_backups_drill();
    let answer = drill_answer(
        lines,
        passphrase,
        max_exponent,
        after,
        limit,
        form,
        expected,
        text,
    );
    let _ = clear_stack::<DRILL>();
    answer
}

/// The answer of `shamir_drill`.
#[inline(never)]
fn drill_answer(
    lines: &[u8],
    passphrase: &[u8],
    max_exponent: u32,
    after: &[u8],
    limit: u32,
    form: u32,
    expected: &[u8],
    text: &mut [u8],
) -> ShamirAnswer
    ensures { GivesDrill (λ kind names. GivesUpTo max_exponent passphrase.now lines.now
        (GivesListing (λ n. IsDrillOutput kind passphrase.now names n (whole lines.now)) limit text.old) text.old)
        after.now limit form expected.now text.old text.new result }
{
    if limit == 0 {
        return ShamirAnswer::out_of_range();
    }
    match form_of(form, expected) {
        Some(kind) => drill_after(kind, passphrase, max_exponent, after, limit, lines, text),
        None => ShamirAnswer::out_of_range(),
    }
}

/// The form of secrets that a number stands for, if it stands for one. With the number of the form that compares, it is
/// that of the fingerprint which the text writes.
fn form_of(number: u32, expected: &[u8]) -> Option<Result<SecretForm, BadFingerprint>>
    ensures { result ≡ form_of number expected.now }
{
    match number {
        0 => Some(Ok(SecretForm::Digits)),
        1 => Some(Ok(SecretForm::Fingerprint)),
        2 => Some(expecting(expected)),
        _ => None,
    }
}

/// The form that says whether a secret has the fingerprint of a text.
fn expecting(text: &[u8]) -> Result<SecretForm, BadFingerprint>
    ensures { result ≡ expecting (noted_in text.now) }
{
    match parse_fingerprint(text) {
        Ok(noted) => Ok(SecretForm::Expected(noted)),
        Err(error) => Err(error),
    }
}

/// Drills lines from the quorum on that comes after the one of a cursor, or from the first one on.
fn drill_after(
    form: Result<SecretForm, BadFingerprint>,
    passphrase: &[u8],
    max_exponent: u32,
    after: &[u8],
    limit: u32,
    lines: &[u8],
    text: &mut [u8],
) -> ShamirAnswer
    requires { 1 ≤ limit }
    ensures { GivesDrillAfter (λ kind names. GivesUpTo max_exponent passphrase.now lines.now
        (GivesListing (λ n. IsDrillOutput kind passphrase.now names n (whole lines.now)) limit text.old) text.old)
        form after.now text.old text.new result }
{
    if after.is_empty() {
        return drill_in(form, passphrase, max_exponent, None, limit, lines, text);
    }
    match parse_quorum(after) {
        Ok(quorum) => drill_in(
            form,
            passphrase,
            max_exponent,
            Some(&quorum),
            limit,
            lines,
            text,
        ),
        Err(error) => ShamirAnswer::from(error),
    }
}

/// Drills lines in a form of secrets, if there is one, from the quorum on that comes after a given one, or from the first
/// one on.
fn drill_in(
    form: Result<SecretForm, BadFingerprint>,
    passphrase: &[u8],
    max_exponent: u32,
    after: Option<&Quorum>,
    limit: u32,
    lines: &[u8],
    text: &mut [u8],
) -> ShamirAnswer
    requires { 1 ≤ limit }
    ensures { GivesDrillIn (λ kind. GivesUpTo max_exponent passphrase.now lines.now
        (GivesListing (λ n. IsDrillOutput kind passphrase.now (option_copied after.entry) n (whole lines.now))
        limit text.old) text.old)
        form text.old text.new result }
{
    match form {
        Ok(kind) => drill_up_to(kind, passphrase, max_exponent, after, limit, lines, text),
        Err(bad) => ShamirAnswer::from(bad),
    }
}

/// Drills lines from the quorum on that comes after a given one, or from the first one on.
fn drill_up_to(
    form: SecretForm,
    passphrase: &[u8],
    max_exponent: u32,
    after: Option<&Quorum>,
    limit: u32,
    lines: &[u8],
    text: &mut [u8],
) -> ShamirAnswer
    requires { 1 ≤ limit }
    ensures { GivesUpTo max_exponent passphrase.now lines.now
        (GivesListing (λ n. IsDrillOutput form passphrase.now (option_copied after.entry) n (whole lines.now))
        limit text.old) text.old text.new result }
{
    match set_up_to(max_exponent, passphrase, lines) {
        Ok(set) => give_listing(form, passphrase, after, limit, &set, text),
        Err(refusal) => refusal,
    }
}

/// Writes the listing of the quorums of a set after a given one, or of all of them, up to the first line that doesn't
/// fit.
fn give_listing(
    form: SecretForm,
    passphrase: &[u8],
    after: Option<&Quorum>,
    limit: u32,
    set: &ShareSet,
    text: &mut [u8],
) -> ShamirAnswer
    requires printable { All IsPrintable passphrase.now }
    requires some { 1 ≤ limit }
    ensures { GivesListing (λ n text answer.
        WritesDrillOf form passphrase.now (option_copied after.entry) n set.now (text, answer))
        limit text.old text.new result }
{
    match drill_set(form, passphrase, after, limit, set, text) {
        Ok(listing) => ShamirAnswer::listed(listing),
        Err(cause) => ShamirAnswer::from(cause),
    }
}
