//! The definition of the command line, as `clap` takes it.
ghost use Rattle.std.specs.Prelude.{◌≡◌, [], codes, false, IfOk};
ghost use Rattle.clap.specs.Words.{app_of, new_app, rule_of, with_rule, with_subcommand};
ghost use Rattle.clap.specs.declared.builder.Command.TheViews.{out-Command};
ghost use Rattle.s39_command.specs.Command.{flag_rule, option_rule, plan_rule, secret_rule, secret_file_rule, exponent_rule, extendable_rule};
ghost use Rattle.s39_command.specs.Command.{passphrase_rule, passphrase_file_rule};
ghost use Rattle.s39_command.specs.Command.{after_rule, expect_rule, fingerprint_rule, limit_rule, names_rule, random_file_rule};
ghost use Rattle.s39_command.specs.Command.{show_app, create_app, recover_app, drill_app, status_app, reissue_app, repair_app, resplit_app, shamir_top, shamir_app};

use clap::builder::ValueParser;
use clap::{Arg, ArgAction, Command};
use s39_kdf::MAX_EXPONENT;
use std::alloc::{AllocError, Global};

/// The version that `--version` answers.
const VERSION: &str = "1.0.0";

/// The help on a passphrase's file, if no other value is read from standard input.
const PASSPHRASE_FILE: &str =
    "Read the passphrase from FILE; - means the first line of standard input";

fn plan<'a>(alloc: Global) -> Arg<'a>
    ensures rule { rule_of result ≡ plan_rule }
    ensures local { result.global ≡ false }
{
    Arg::new(alloc, "plan")
        .value_name("PLAN")
        .required(true)
        .help("The plan of the backup: TofN for one group, GT/T1ofN1,T2ofN2,.. for several")
}

/// An option without a default, whose value help calls as `value` says.
fn option<'a>(alloc: Global, name: &'a str, value: &'a str) -> Arg<'a>
    ensures rule { rule_of result ≡ option_rule name.now }
    ensures local { result.global ≡ false }
{
    Arg::new(alloc, name).long(name).value_name(value)
}

/// A flag.
fn flag<'a>(alloc: Global, name: &'a str) -> Arg<'a>
    ensures rule { rule_of result ≡ flag_rule name.now }
    ensures local { result.global ≡ false }
{
    Arg::new(alloc, name).long(name).action(ArgAction::SetTrue)
}

fn master_secret<'a>(alloc: Global) -> Arg<'a>
    ensures rule { rule_of result ≡ secret_rule }
    ensures local { result.global ≡ false }
{
    option(alloc, "master-secret", "HEX").help(
        "Back up this secret, in hexadecimal: an even number of bytes, 16 to 128 (other users can see it)",
    )
}

fn master_secret_file<'a>(alloc: Global) -> Arg<'a>
    ensures rule { rule_of result ≡ secret_file_rule }
    ensures local { result.global ≡ false }
{
    option(alloc, "master-secret-file", "FILE").help(
        "Read the secret, in hexadecimal, from FILE; - means the first line of standard input",
    )
}

fn passphrase<'a>(alloc: Global) -> Arg<'a>
    ensures rule { rule_of result ≡ passphrase_rule }
    ensures local { result.global ≡ false }
{
    option(alloc, "passphrase", "TEXT").help(
        "Use this passphrase instead of the empty one (other users can see it)",
    )
}

/// The option of a passphrase's file, with this help.
fn passphrase_file<'a>(alloc: Global, help: &'a str) -> Arg<'a>
    ensures rule { rule_of result ≡ passphrase_file_rule }
    ensures local { result.global ≡ false }
{
    option(alloc, "passphrase-file", "FILE").help(help)
}

fn exponent<'a>(alloc: Global) -> Arg<'a>
    ensures rule { rule_of result ≡ exponent_rule }
    ensures local { result.global ≡ false }
{
    option(alloc, "exponent", "E")
        .default_value("0")
        .value_parser(ValueParser::signed(0, i64::from(MAX_EXPONENT)))
        .help(
            "Set the iteration exponent, 0 to 15; a recovery takes 10,000 * 2^E iterations, or twice that for a secret of more than 64 bytes",
        )
}

fn extendable<'a>(alloc: Global) -> Arg<'a>
    ensures rule { rule_of result ≡ extendable_rule }
    ensures local { result.global ≡ false }
{
    flag(alloc, "extendable").help(
        "Set the extendable flag: two backups of one secret that have it, the same passphrase and the same exponent then agree with each other for any other passphrase too",
    )
}

/// The command with the options of a passphrase, and this help on its file.
fn with_passphrase<'a>(
    alloc: Global,
    command: Command<'a>,
    help: &'a str,
) -> Result<Command<'a>, AllocError>
    requires { (out-Command command).has_globals ≡ false }
    ensures app { IfOk result (λ with_passphrase. app_of with_passphrase
        ≡ with_rule (with_rule (app_of command.entry) passphrase_rule) passphrase_file_rule) }
    ensures local { IfOk result (λ with_passphrase. (out-Command with_passphrase).has_globals ≡ false) }
{
    command
        .arg(passphrase(alloc))?
        .arg(passphrase_file(alloc, help))
}

/// The command `create` without its arguments.
fn creation<'a>(alloc: Global) -> Command<'a>
    ensures app { app_of result ≡ new_app (codes "create") }
    ensures local { (out-Command result).has_globals ≡ false }
{
    Command::new(alloc, "create")
        .about("Create a backup of a secret, using random bytes from standard input")
        .after_help(
            "Example: head -c 14 /dev/urandom | shamir create 2of3 --master-secret-file secret.txt",
        )
}

fn create<'a>(alloc: Global) -> Result<Command<'a>, AllocError>
    ensures app { IfOk result (λ command. app_of command ≡ create_app) }
    ensures local { IfOk result (λ command. (out-Command command).has_globals ≡ false) }
{
    let command = creation(alloc)
        .arg(plan(alloc))?
        .arg(master_secret(alloc))?
        .arg(master_secret_file(alloc))?;
    let command = with_passphrase(
        alloc,
        command,
        "Read the passphrase from FILE; - means the first line of standard input (the second if --master-secret-file is also -)",
    )?;
    with_options(alloc, command)
}

/// The command with the options of a creation.
fn with_options<'a>(alloc: Global, command: Command<'a>) -> Result<Command<'a>, AllocError>
    requires { (out-Command command).has_globals ≡ false }
    ensures app { IfOk result (λ with_options. app_of with_options
        ≡ with_rule (with_rule (app_of command.entry) exponent_rule) extendable_rule) }
    ensures local { IfOk result (λ with_options. (out-Command with_options).has_globals ≡ false) }
{
    command.arg(exponent(alloc))?.arg(extendable(alloc))
}

fn fingerprint<'a>(alloc: Global) -> Arg<'a>
    ensures rule { rule_of result ≡ fingerprint_rule }
    ensures local { result.global ≡ false }
{
    flag(alloc, "fingerprint").help(
        "Print the secret's fingerprint (eight hexadecimal digits) instead of the secret",
    )
}

/// The option of a fingerprint that is expected, with this help.
fn expect<'a>(alloc: Global, help: &'a str) -> Arg<'a>
    ensures rule { rule_of result ≡ expect_rule }
    ensures local { result.global ≡ false }
{
    option(alloc, "expect", "FINGERPRINT").help(help)
}

/// The command with the options of the form in which it tells secrets, and this help on an expected fingerprint.
fn with_form<'a>(
    alloc: Global,
    command: Command<'a>,
    help: &'a str,
) -> Result<Command<'a>, AllocError>
    requires { (out-Command command).has_globals ≡ false }
    ensures app { IfOk result (λ with_form. app_of with_form
        ≡ with_rule (with_rule (app_of command.entry) fingerprint_rule) expect_rule) }
    ensures local { IfOk result (λ with_form. (out-Command with_form).has_globals ≡ false) }
{
    command.arg(fingerprint(alloc))?.arg(expect(alloc, help))
}

fn recover<'a>(alloc: Global) -> Result<Command<'a>, AllocError>
    ensures app { IfOk result (λ command. app_of command ≡ recover_app) }
    ensures local { IfOk result (λ command. (out-Command command).has_globals ≡ false) }
{
    let command = Command::new(alloc, "recover")
        .about("Recover the secret from mnemonics on standard input")
        .after_help(
            "Standard input has one mnemonic in each line. At a terminal, end with Ctrl-D on an empty line.

Example: shamir recover --fingerprint < mnemonics.txt",
        );
    let command = with_passphrase(alloc, command, PASSPHRASE_FILE)?;
    with_form(
        alloc,
        command,
        "Print nothing unless the secret has this fingerprint (other users can see it)",
    )
}

fn after<'a>(alloc: Global) -> Arg<'a>
    ensures rule { rule_of result ≡ after_rule }
    ensures local { result.global ≡ false }
{
    option(alloc, "after", "Q").help("Start after quorum Q instead of at the first quorum")
}

fn limit<'a>(alloc: Global) -> Arg<'a>
    ensures rule { rule_of result ≡ limit_rule }
    ensures local { result.global ≡ false }
{
    option(alloc, "limit", "N")
        .default_value("1000")
        .value_parser(ValueParser::signed(1, i64::from(u32::MAX)))
        .help("Try at most N quorums")
}

fn drill<'a>(alloc: Global) -> Result<Command<'a>, AllocError>
    ensures app { IfOk result (λ command. app_of command ≡ drill_app) }
    ensures local { IfOk result (λ command. (out-Command command).has_globals ≡ false) }
{
    let command = Command::new(alloc, "drill")
        .about(
            "Try each quorum (minimal sufficient set) of the mnemonics on standard input and print what it recovers",
        )
        .after_help(
            "Standard input has one mnemonic in each line. At a terminal, end with Ctrl-D on an empty line.

Example: shamir drill --fingerprint < mnemonics.txt",
        );
    let command = with_passphrase(alloc, command, PASSPHRASE_FILE)?
        .arg(after(alloc))?
        .arg(limit(alloc))?;
    with_form(
        alloc,
        command,
        "Print whether each secret has this fingerprint instead of the secret (other users can see it)",
    )
}

fn show<'a>(alloc: Global) -> Command<'a>
    ensures app { app_of result ≡ show_app }
    ensures local { (out-Command result).has_globals ≡ false }
{
    Command::new(alloc, "show")
        .about("Show the fields of each mnemonic on standard input")
        .after_help(
            "Standard input has one mnemonic in each line. At a terminal, end with Ctrl-D on an empty line.

Example: shamir show < mnemonics.txt",
        )
}

fn status<'a>(alloc: Global) -> Command<'a>
    ensures app { app_of result ≡ status_app }
    ensures local { (out-Command result).has_globals ≡ false }
{
    Command::new(alloc, "status")
        .about(
            "Show which members of each group are on standard input, and whether enough groups are complete",
        )
        .after_help(
            "Standard input has one mnemonic in each line. At a terminal, end with Ctrl-D on an empty line.

Example: shamir status < mnemonics.txt",
        )
}

fn names<'a>(alloc: Global) -> Arg<'a>
    ensures rule { rule_of result ≡ names_rule }
    ensures local { result.global ≡ false }
{
    Arg::new(alloc, "names")
        .value_name("NAMES")
        .required(true)
        .help("The mnemonics to write, named by group and member in ascending order: G.M+G.M+..")
}

fn reissue<'a>(alloc: Global) -> Result<Command<'a>, AllocError>
    ensures app { IfOk result (λ command. app_of command ≡ reissue_app) }
    ensures local { IfOk result (λ command. (out-Command command).has_globals ≡ false) }
{
    Command::new(alloc, "reissue")
        .about("Recompute lost mnemonics from others of the same backup on standard input")
        .after_help(
            "Standard input has one mnemonic in each line. At a terminal, end with Ctrl-D on an empty line.

Example: shamir reissue 2of3 0.1 < mnemonics.txt",
        )
        .arg(plan(alloc))?
        .arg(names(alloc))
}

fn repair<'a>(alloc: Global) -> Command<'a>
    ensures app { app_of result ≡ repair_app }
    ensures local { (out-Command result).has_globals ≡ false }
{
    Command::new(alloc, "repair")
        .about(
            "Find the mnemonics that fit each line on standard input, in which up to three words can't be read",
        )
        .after_help(
            "Standard input has one mnemonic in each line. For a word that can't be read, type its first letters and ?, as em?, or ? alone. At a terminal, end with Ctrl-D on an empty line.

Example: shamir repair < damaged.txt",
        )
}

fn random_file<'a>(alloc: Global) -> Arg<'a>
    ensures rule { rule_of result ≡ random_file_rule }
    ensures local { result.global ≡ false }
{
    option(alloc, "random-file", "FILE").required(true).help(
        "Read the random bytes from FILE: exactly as many as create takes for this plan and secret",
    )
}

fn resplit<'a>(alloc: Global) -> Result<Command<'a>, AllocError>
    ensures app { IfOk result (λ command. app_of command ≡ resplit_app) }
    ensures local { IfOk result (λ command. (out-Command command).has_globals ≡ false) }
{
    Command::new(alloc, "resplit")
        .about("Create another backup of the same secret from mnemonics of an extendable one")
        .after_help(
            "Standard input has one mnemonic in each line. At a terminal, end with Ctrl-D on an empty line.

Example: shamir resplit 2of3 --random-file random.bin < mnemonics.txt",
        )
        .arg(plan(alloc))?
        .arg(random_file(alloc))
}

/// The program without its commands.
fn top<'a>(alloc: Global) -> Command<'a>
    ensures app { app_of result ≡ record { top = shamir_top; subs = [] } }
    ensures local { (out-Command result).has_globals ≡ false }
{
    Command::new(alloc, "shamir")
        .about("Create and check SLIP-0039 backups, and recover secrets from them")
        .version(VERSION)
        .after_help("Example: shamir recover --help")
        .subcommand_required(true)
        .arg_required_else_help(true)
        .disable_help_subcommand(true)
}

/// The command with `recover` and `drill`.
fn with_recovery<'a>(alloc: Global, command: Command<'a>) -> Result<Command<'a>, AllocError>
    requires { (out-Command command).has_globals ≡ false }
    ensures app { IfOk result (λ whole. app_of whole ≡ with_subcommand
        (with_subcommand (app_of command.entry) recover_app.top) drill_app.top) }
    ensures local { IfOk result (λ whole. (out-Command whole).has_globals ≡ false) }
{
    command
        .subcommand(recover(alloc)?)?
        .subcommand(drill(alloc)?)
}

/// The command with `status` and `reissue`.
fn with_missing<'a>(alloc: Global, command: Command<'a>) -> Result<Command<'a>, AllocError>
    requires { (out-Command command).has_globals ≡ false }
    ensures app { IfOk result (λ whole. app_of whole ≡ with_subcommand
        (with_subcommand (app_of command.entry) status_app.top) reissue_app.top) }
    ensures local { IfOk result (λ whole. (out-Command whole).has_globals ≡ false) }
{
    command
        .subcommand(status(alloc))?
        .subcommand(reissue(alloc)?)
}

/// The command with `repair` and `resplit`.
fn with_others<'a>(alloc: Global, command: Command<'a>) -> Result<Command<'a>, AllocError>
    requires { (out-Command command).has_globals ≡ false }
    ensures { IfOk result (λ whole. app_of whole ≡ with_subcommand
        (with_subcommand (app_of command.entry) repair_app.top) resplit_app.top) }
{
    command
        .subcommand(repair(alloc))?
        .subcommand(resplit(alloc)?)
}

/// The program with its commands.
#[tactic(auto, unfolding(crate::specs::Command::shamir_app))]
pub(crate) fn shamir<'a>(alloc: Global) -> Result<Command<'a>, AllocError>
    ensures { IfOk result (λ command. app_of command ≡ shamir_app) }
{
    let command = top(alloc)
        .subcommand(show(alloc))?
        .subcommand(create(alloc)?)?;
    let command = with_recovery(alloc, command)?;
    let command = with_missing(alloc, command)?;
    with_others(alloc, command)
}
