//! What is wrong with the values that the words of a command line give.
ghost use Rattle.std.specs.Prelude.{◌≡◌, ◌≢◌, None, Some, IfNone, IfSome, IsFalse, IsTrue};
ghost use Rattle.clap.specs.Words.{first_of, found_of, rows_of};
ghost use Rattle.s39_command.specs.Command.{HasBadValues, IsGiven, text_at};
ghost use Rattle.s39_command.specs.declared.command.BadValues.{BadValues};

use crate::command::BadValues;
use clap::ArgMatches;

/// Whether a text was found for this id.
fn is_given(options: &ArgMatches, id: &str) -> bool
    ensures given { IsTrue result → IsGiven id.now (text_at (rows_of (found_of options.now))) }
    ensures missing { IsFalse result → first_of id.now (rows_of (found_of options.now)) ≡ None }
{
    options.get_str(id).is_some()
}

/// Whether this text was found for this id.
fn is_said(options: &ArgMatches, id: &str, wanted: &str) -> bool
    ensures said { IsTrue result → first_of id.now (rows_of (found_of options.now)) ≡ Some wanted.now }
    ensures unsaid { IsFalse result → first_of id.now (rows_of (found_of options.now)) ≢ Some wanted.now }
{
    match options.get_str(id) {
        Some(text) => text == wanted,
        None => false,
    }
}

/// What is first wrong with the values that were found for the command with this name.
pub(crate) fn bad_values(name: &str, options: &ArgMatches) -> Option<BadValues>
    ensures bad { IfSome result (HasBadValues name.now (text_at (rows_of (found_of options.now)))) }
    ensures sound { IfNone result
        (((bad : BadValues) × HasBadValues name.now (text_at (rows_of (found_of options.now))) bad) → ⊥) }
{
    let has_secret = is_given(options, "master-secret");
    let has_secret_file = is_given(options, "master-secret-file");
    let has_passphrase = is_given(options, "passphrase");
    let has_passphrase_file = is_given(options, "passphrase-file");
    let has_expected = is_given(options, "expect");
    let has_fingerprint = is_said(options, "fingerprint", "true");
    let has_random_input = is_said(options, "random-file", "-");
    if name == "create" && !has_secret && !has_secret_file {
        return Some(BadValues::NoSecret);
    }
    if has_secret && has_secret_file {
        return Some(BadValues::TwoSecrets);
    }
    if has_passphrase && has_passphrase_file {
        return Some(BadValues::TwoPassphrases);
    }
    if name == "drill" && has_expected && has_fingerprint {
        return Some(BadValues::TwoForms);
    }
    if name == "resplit" && has_random_input {
        return Some(BadValues::RandomInput);
    }
    None
}
