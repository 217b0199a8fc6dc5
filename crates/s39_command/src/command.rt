//! The command line: which command its words give, with which values.
ghost use Rattle.std.specs.Prelude.{◌≡◌, ◌≢◌, ◌⊎◌, [], ◌∷◌, codes, None, Some, true, map, IfOk, IfErr, IfNone, IfSome, IsFalse, IsTrue, OnOk};
ghost use Rattle.clap.specs.Words.{fault_of, first_of, found_of, kind_of, one_text, rows_of, takes};
ghost use Rattle.s39_clap.specs.Found.{EntersOne};
ghost use Rattle.s39_command.specs.Command.{bad_text, shamir_app, commands, text_at};
ghost use Rattle.s39_command.specs.Command.{Gives, GivesCall, IsInRange, AnswersKind, AnswersWords};
ghost use Rattle.s39_command.specs.Command.{AnswersHelp, AreFound, HasBadValues, IsGiven, IsHelp, IsRefusal, SaysHelp};
ghost use Rattle.s39_command.specs.declared.command.BadValues.{BadValues};

use crate::definition::shamir;
use crate::values::bad_values;
use clap::error::ErrorKind;
use clap::{ArgMatches, Error};
use s39_kdf::SecretForm;
use std::alloc::{AllocError, Global};

/// A command of the program, with its values except for the secret and the passphrase.
#[derive(Clone, Copy, Debug, PartialEq, Eq)]
pub enum Job<'a> {
    /// Shows the fields of the mnemonics on standard input.
    Show,
    /// Creates a backup of a secret from the random bytes on standard input.
    Create {
        /// The text of the plan.
        plan: &'a str,
        /// The iteration exponent, 0 to 15. It is 0 if none was given.
        exponent: u8,
        /// Whether the extendable flag was given.
        extendable: bool,
    },
    /// Recovers the secret from the mnemonics on standard input.
    Recover {
        /// The form in which the secret is written: its fingerprint if `--fingerprint` was given, and otherwise its digits.
        form: SecretForm,
        /// The text of the fingerprint that the secret is expected to have, if one was given.
        expected: Option<&'a str>,
    },
    /// Tries the quorums of the mnemonics on standard input.
    Drill {
        /// The text of the quorum after which the drill starts, if one was given.
        after: Option<&'a str>,
        /// How many quorums are tried at most, 1 or more. It is 1000 if no number was given.
        limit: u32,
        /// The form in which each secret is written: its fingerprint if `--fingerprint` was given, and otherwise its digits.
        form: SecretForm,
        /// The text of the fingerprint that each secret is expected to have, if one was given. Each line then says whether
        /// the secret has it, and the form isn't used.
        expected: Option<&'a str>,
    },
    /// Tells which members of each group are on standard input, and whether they are enough.
    Status,
    /// Computes lost mnemonics of a backup from the mnemonics on standard input.
    Reissue {
        /// The text of the plan.
        plan: &'a str,
        /// The text of the names of the mnemonics.
        names: &'a str,
    },
    /// Finds the mnemonics that fit the lines on standard input, in which words can't be read.
    Repair,
    /// Creates another backup of the secret of the mnemonics on standard input, without a passphrase.
    Resplit {
        /// The text of the plan.
        plan: &'a str,
        /// The name of the file with the random bytes.
        random_file: &'a str,
    },
}

/// A text for the secret and one for the passphrase, each if it was given.
#[derive(Clone, Copy, Debug, PartialEq, Eq)]
pub struct Texts<'a> {
    /// The text for the secret's digits.
    pub secret: Option<&'a str>,
    /// The text for the passphrase, which may be the empty one.
    pub passphrase: Option<&'a str>,
}

/// What the words of a command line ask for.
#[derive(Clone, Copy, Debug, PartialEq, Eq)]
pub struct Call<'a> {
    /// The command.
    pub job: Job<'a>,
    /// The secret and the passphrase that stand in the words.
    pub given: Texts<'a>,
    /// The names of the files that hold them. The name `-` stands for the first line of the input.
    pub files: Texts<'a>,
}

/// What is wrong with the values of a command.
#[derive(Clone, Copy, Debug, PartialEq, Eq)]
pub enum BadValues {
    /// The command creates a backup, and neither a secret nor a file of it is given.
    NoSecret,
    /// Both a secret and a file of it are given.
    TwoSecrets,
    /// Both a passphrase and a file of it are given.
    TwoPassphrases,
    /// A drill is asked both to print fingerprints and to compare with one.
    TwoForms,
    /// The random bytes would come from standard input, which has the mnemonics.
    RandomInput,
}

impl BadValues {
    /// The text that refuses the words, for standard error. It has the form of `clap`'s texts.
    pub fn text(self) -> &'static str
        ensures { result.now ≡ bad_text self }
    {
        match self {
            BadValues::NoSecret =>
                "error: one of --master-secret <HEX> and --master-secret-file <FILE> is required

For more information, try '--help'.
",
            BadValues::TwoSecrets =>
                "error: --master-secret <HEX> and --master-secret-file <FILE> can't be given together

For more information, try '--help'.
",
            BadValues::TwoPassphrases =>
                "error: --passphrase <TEXT> and --passphrase-file <FILE> can't be given together

For more information, try '--help'.
",
            BadValues::TwoForms =>
                "error: --expect <FINGERPRINT> and --fingerprint can't be given together

For more information, try '--help'.
",
            BadValues::RandomInput =>
                "error: --random-file <FILE> can't be -: standard input has the mnemonics

For more information, try '--help'.
",
        }
    }
}

/// Why the words of a command line give no command.
#[derive(Debug, Drop)]
pub enum NoJob {
    /// They ask for help or the version. The text goes to standard output.
    Help(String),
    /// They are no command of the program. The text goes to standard error.
    Refused(String),
    /// A value is missing, or it is given twice.
    Values(BadValues),
    /// The program is out of memory.
    Memory,
}

impl From<AllocError> for NoJob {
    ghost use Rattle.s39_command.specs.declared.command.NoJob.TheVariants.{Memory};

    ghost from_gives = { λ _ no_job. no_job ≡ Memory };

    fn from(_error: AllocError) -> NoJob {
        NoJob::Memory
    }
}

/// Refuses more words than help or the version takes.
fn too_many(alloc: Global) -> NoJob
    ensures { IsRefusal result }
{
    let text =
        "error: --version takes no other argument, and help at most one command\n\nFor more information, try '--help'.\n";
    match text.to_string(alloc) {
        Ok(text) => NoJob::Refused(text),
        Err(_) => NoJob::Memory,
    }
}

/// What so many words get that give this error.
fn no_job(alloc: Global, error: &Error, count: usize) -> NoJob
    ensures memory { kind_of error.now ≡ ErrorKind.OutOfMemory → result ≡ NoJob.Memory }
    ensures answer { AnswersKind result (kind_of error.now) count }
{
    if error.kind() == ErrorKind::OutOfMemory {
        return NoJob::Memory;
    }
    if error.kind() == ErrorKind::DisplayVersion && count != 2 {
        return too_many(alloc);
    }
    match error.to_string(alloc) {
        Ok(text) if error.use_stderr() => NoJob::Refused(text),
        Ok(text) => NoJob::Help(text),
        Err(_) => NoJob::Memory,
    }
}

/// The texts that were found for these ids.
fn texts_of<'a>(options: &ArgMatches<'a>, secret: &str, passphrase: &str) -> Texts<'a>
    ensures { AreFound secret.now passphrase.now (text_at (rows_of (found_of options.now))) result }
{
    Texts {
        secret: options.get_str(secret),
        passphrase: options.get_str(passphrase),
    }
}

/// The job `create`, from what was found for its arguments.
#[tactic(auto, unfolding(crate::specs::Command::shamir_app))]
fn create_job<'a>(options: &ArgMatches<'a>) -> Job<'a>
    requires { EntersOne commands (Some (codes "create", rows_of (found_of options.now))) }
    ensures gives { Gives (codes "create") (rows_of (found_of options.now)) result }
    ensures range { IsInRange result }
{
    Job::Create {
        plan: options.get_str("plan").unwrap(),
        exponent: options.get_one("exponent").unwrap(),
        extendable: options.get_flag("extendable"),
    }
}

/// The form in which a secret is told, by the flag that was found.
fn form_of(options: &ArgMatches) -> SecretForm
    ensures said { one_text (found_of options.now) (codes "fingerprint") ≡ Some (codes "true")
        → result ≡ SecretForm.Fingerprint }
    ensures unsaid { one_text (found_of options.now) (codes "fingerprint") ≡ Some (codes "false")
        → result ≡ SecretForm.Digits }
{
    if options.get_flag("fingerprint") {
        SecretForm::Fingerprint
    } else {
        SecretForm::Digits
    }
}

/// The job `recover`, from what was found for its arguments.
#[tactic(auto, unfolding(crate::specs::Command::shamir_app))]
fn recover_job<'a>(options: &ArgMatches<'a>) -> Job<'a>
    requires { EntersOne commands (Some (codes "recover", rows_of (found_of options.now))) }
    ensures gives { Gives (codes "recover") (rows_of (found_of options.now)) result }
    ensures range { IsInRange result }
{
    Job::Recover {
        form: form_of(options),
        expected: options.get_str("expect"),
    }
}

/// The job `drill`, from what was found for its arguments.
#[tactic(auto, unfolding(crate::specs::Command::shamir_app))]
fn drill_job<'a>(options: &ArgMatches<'a>) -> Job<'a>
    requires { EntersOne commands (Some (codes "drill", rows_of (found_of options.now))) }
    ensures gives { Gives (codes "drill") (rows_of (found_of options.now)) result }
    ensures range { IsInRange result }
{
    let expected = options.get_str("expect");
    Job::Drill {
        after: options.get_str("after"),
        limit: options.get_one("limit").unwrap(),
        form: form_of(options),
        expected,
    }
}

/// The job `reissue`, from what was found for its arguments.
#[tactic(auto, unfolding(crate::specs::Command::shamir_app))]
fn reissue_job<'a>(options: &ArgMatches<'a>) -> Job<'a>
    requires { EntersOne commands (Some (codes "reissue", rows_of (found_of options.now))) }
    ensures gives { Gives (codes "reissue") (rows_of (found_of options.now)) result }
    ensures range { IsInRange result }
{
    Job::Reissue {
        plan: options.get_str("plan").unwrap(),
        names: options.get_str("names").unwrap(),
    }
}

/// The job `resplit`, from what was found for its arguments.
#[tactic(auto, unfolding(crate::specs::Command::shamir_app))]
fn resplit_job<'a>(options: &ArgMatches<'a>) -> Job<'a>
    requires { EntersOne commands (Some (codes "resplit", rows_of (found_of options.now))) }
    ensures gives { Gives (codes "resplit") (rows_of (found_of options.now)) result }
    ensures range { IsInRange result }
{
    Job::Resplit {
        plan: options.get_str("plan").unwrap(),
        random_file: options.get_str("random-file").unwrap(),
    }
}

/// The job of the command with this name, from what was found for its arguments.
#[tactic(auto, unfolding(crate::specs::Command::shamir_app))]
fn job_of<'a>(name: &str, options: &ArgMatches<'a>) -> Job<'a>
    requires { EntersOne commands (Some (name.now, rows_of (found_of options.now))) }
    ensures gives { Gives name.now (rows_of (found_of options.now)) result }
    ensures range { IsInRange result }
{
    match name {
        "show" => Job::Show,
        "create" => create_job(options),
        "recover" => recover_job(options),
        "drill" => drill_job(options),
        "status" => Job::Status,
        "reissue" => reissue_job(options),
        "repair" => Job::Repair,
        "resplit" => resplit_job(options),
        _ => unreachable!(),
    }
}

/// Whether the word after the program's name is `help`.
fn says_help(words: &[&str]) -> bool
    ensures said { IsTrue result → SaysHelp (map (λ word. word.now) words.now) }
    ensures unsaid { IsFalse result → SaysHelp (map (λ word. word.now) words.now) → ⊥ }
{
    match words.get(1) {
        Some(word) => *word == "help",
        None => false,
    }
}

/// The text of `--help`.
fn help_of_program(alloc: Global) -> NoJob
    ensures { IsHelp result }
{
    let Ok(mut command) = shamir(alloc) else {
        return NoJob::Memory;
    };
    match command.render_help() {
        Ok(help) => NoJob::Help(help),
        Err(_) => NoJob::Memory,
    }
}

/// The text of `--help` of the command with this name, if there is one.
fn help_of_command(alloc: Global, program: &str, name: &str) -> NoJob
    ensures { AnswersHelp result
        (fault_of shamir_app (program.now ∷ name.now ∷ codes "--help" ∷ [])) }
{
    let Ok(command) = shamir(alloc) else {
        return NoJob::Memory;
    };
    let words = [program, name, "--help"];
    match command.try_get_matches_from(&words) {
        Ok(_) => too_many(alloc),
        Err(error) => no_job(alloc, &error, words.len()),
    }
}

/// What words get that say `help`: the text of `--help`, of the command that follows if one does.
fn help(alloc: Global, words: &[&str]) -> NoJob
    requires { SaysHelp (map (λ word. word.now) words.now) }
    ensures { AnswersWords result (map (λ word. word.now) words.now) }
{
    let count = words.len();
    if count == 2 {
        return help_of_program(alloc);
    }
    if count != 3 {
        return too_many(alloc);
    }
    help_of_command(alloc, words[0], words[2])
}

/// Reads the words of a command line, and returns the command with its values. The first word is the program's name. `help` after it
/// is read as `--help`, and `help NAME` as `NAME --help`. A value that begins with a dash is joined to its option, as in
/// `--passphrase=TEXT`. `clap` writes the texts of help and of the version, and those that refuse words.
pub fn read_words<'a>(alloc: Global, words: &'a [&'a str]) -> Result<Call<'a>, NoJob>
    // The command, its values and the files of values are those that the words give, by `clap`'s definition of a simple
    // command.
    ensures call { IfOk result (GivesCall (map (λ word. word.now) words.now)) }
    ensures range { IfOk result (λ call. IsInRange call.job) }
    // If that definition takes the words, an error means that memory ran out, or that a value is missing or given twice.
    ensures memory { takes shamir_app (map (λ word. word.now) words.now) ≡ true
        → IfErr result (λ error. (error ≡ NoJob.Memory) ⊎ ((bad : BadValues) × (error ≡ NoJob.Values bad))) }
    // Words that it doesn't take are no job.
    ensures taken { OnOk result (takes shamir_app (map (λ word. word.now) words.now) ≡ true) }
    // No step of the reading of words that are one fails.
    ensures faultless { OnOk result (fault_of shamir_app (map (λ word. word.now) words.now) ≡ []) }
    // Help and the version go only to words that ask for them, and a refusal only to words that don't and that the
    // definition doesn't take.
    ensures answer { IfErr result (λ error. AnswersWords error (map (λ word. word.now) words.now)) }
{
    if says_help(words) {
        return Err(help(alloc, words));
    }
    let command = shamir(alloc)?;
    let matches = match command.try_get_matches_from(words) {
        Ok(matches) => matches,
        Err(error) => return Err(no_job(alloc, &error, words.len())),
    };
    match matches.subcommand() {
        Some((name, options)) => {
            if let Some(bad) = bad_values(name, options) {
                return Err(NoJob::Values(bad));
            }
            Ok(Call {
                job: job_of(name, options),
                given: texts_of(options, "master-secret", "passphrase"),
                files: texts_of(options, "master-secret-file", "passphrase-file"),
            })
        }
        None => unreachable!(),
    }
}
