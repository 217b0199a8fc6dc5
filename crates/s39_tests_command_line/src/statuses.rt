//! Exit statuses: help, the version, refused command lines, flushing, a failing standard error, and no memory.

use crate::expect::equal;
use s39_cli::{Person, no_words};
use s39_fixtures::devices::Full;
use s39_fixtures::{
    NO_TERMINAL, ONE_OF_ONE, ONE_OF_ONE_BAD_CHECKSUM, SHOW, SHOWN, WRITE_FAILED_LINE,
    expect_flushed, expect_run, program,
};
use std::alloc::Global;
use std::io;
use std::io::{ErrorKind, Write};
use std::test::Fail;

const HELP: &str = "Create and check SLIP-0039 backups, and recover secrets from them

Usage: shamir <COMMAND>

Commands:
  show     Show the fields of each mnemonic on standard input
  create   Create a backup of a secret, using random bytes from standard input
  recover  Recover the secret from mnemonics on standard input
  drill    Try each quorum (minimal sufficient set) of the mnemonics on standard input and print what it recovers
  status   Show which members of each group are on standard input, and whether enough groups are complete
  reissue  Recompute lost mnemonics from others of the same backup on standard input
  repair   Find the mnemonics that fit each line on standard input, in which up to three words can't be read
  resplit  Create another backup of the same secret from mnemonics of an extendable one

Options:
  -h, --help     Print help
  -V, --version  Print version

Example: shamir recover --help
";

const HELP_OF_CREATE: &str = "Create a backup of a secret, using random bytes from standard input

Usage: shamir create [OPTIONS] <PLAN>

Arguments:
  <PLAN>  The plan of the backup: TofN for one group, GT/T1ofN1,T2ofN2,.. for several

Options:
      --master-secret <HEX>        Back up this secret, in hexadecimal: an even number of bytes, 16 to 128 (other users can see it)
      --master-secret-file <FILE>  Read the secret, in hexadecimal, from FILE; - means the first line of standard input
      --passphrase <TEXT>          Use this passphrase instead of the empty one (other users can see it)
      --passphrase-file <FILE>     Read the passphrase from FILE; - means the first line of standard input (the second if --master-secret-file is also -)
      --exponent <E>               Set the iteration exponent, 0 to 15; a recovery takes 10,000 * 2^E iterations, or twice that for a secret of more than 64 bytes [default: 0]
      --extendable                 Set the extendable flag: two backups of one secret that have it, the same passphrase and the same exponent then agree with each other for any other passphrase too
  -h, --help                       Print help

Example: head -c 14 /dev/urandom | shamir create 2of3 --master-secret-file secret.txt
";

const HELP_OF_RECOVER: &str = "Recover the secret from mnemonics on standard input

Usage: shamir recover [OPTIONS]

Options:
      --passphrase <TEXT>       Use this passphrase instead of the empty one (other users can see it)
      --passphrase-file <FILE>  Read the passphrase from FILE; - means the first line of standard input
      --fingerprint             Print the secret's fingerprint (eight hexadecimal digits) instead of the secret
      --expect <FINGERPRINT>    Print nothing unless the secret has this fingerprint (other users can see it)
  -h, --help                    Print help

Standard input has one mnemonic in each line. At a terminal, end with Ctrl-D on an empty line.

Example: shamir recover --fingerprint < mnemonics.txt
";

const HELP_OF_DRILL: &str =
    "Try each quorum (minimal sufficient set) of the mnemonics on standard input and print what it recovers

Usage: shamir drill [OPTIONS]

Options:
      --passphrase <TEXT>       Use this passphrase instead of the empty one (other users can see it)
      --passphrase-file <FILE>  Read the passphrase from FILE; - means the first line of standard input
      --after <Q>               Start after quorum Q instead of at the first quorum
      --limit <N>               Try at most N quorums [default: 1000]
      --fingerprint             Print the secret's fingerprint (eight hexadecimal digits) instead of the secret
      --expect <FINGERPRINT>    Print whether each secret has this fingerprint instead of the secret (other users can see it)
  -h, --help                    Print help

Standard input has one mnemonic in each line. At a terminal, end with Ctrl-D on an empty line.

Example: shamir drill --fingerprint < mnemonics.txt
";

const HELP_OF_REISSUE: &str =
    "Recompute lost mnemonics from others of the same backup on standard input

Usage: shamir reissue <PLAN> <NAMES>

Arguments:
  <PLAN>   The plan of the backup: TofN for one group, GT/T1ofN1,T2ofN2,.. for several
  <NAMES>  The mnemonics to write, named by group and member in ascending order: G.M+G.M+..

Options:
  -h, --help  Print help

Standard input has one mnemonic in each line. At a terminal, end with Ctrl-D on an empty line.

Example: shamir reissue 2of3 0.1 < mnemonics.txt
";

const HELP_OF_REPAIR: &str =
    "Find the mnemonics that fit each line on standard input, in which up to three words can't be read

Usage: shamir repair

Options:
  -h, --help  Print help

Standard input has one mnemonic in each line. For a word that can't be read, type its first letters and ?, as em?, or ? alone. At a terminal, end with Ctrl-D on an empty line.

Example: shamir repair < damaged.txt
";

const HELP_OF_RESPLIT: &str =
    "Create another backup of the same secret from mnemonics of an extendable one

Usage: shamir resplit --random-file <FILE> <PLAN>

Arguments:
  <PLAN>  The plan of the backup: TofN for one group, GT/T1ofN1,T2ofN2,.. for several

Options:
      --random-file <FILE>  Read the random bytes from FILE: exactly as many as create takes for this plan and secret
  -h, --help                Print help

Standard input has one mnemonic in each line. At a terminal, end with Ctrl-D on an empty line.

Example: shamir resplit 2of3 --random-file random.bin < mnemonics.txt
";

const HELP_OF_SHOW: &str = "Show the fields of each mnemonic on standard input

Usage: shamir show

Options:
  -h, --help  Print help

Standard input has one mnemonic in each line. At a terminal, end with Ctrl-D on an empty line.

Example: shamir show < mnemonics.txt
";

const HELP_OF_STATUS: &str =
    "Show which members of each group are on standard input, and whether enough groups are complete

Usage: shamir status

Options:
  -h, --help  Print help

Standard input has one mnemonic in each line. At a terminal, end with Ctrl-D on an empty line.

Example: shamir status < mnemonics.txt
";

#[test]
fn answers_help_and_the_version(rt: HostRuntime) -> Result<(), Fail> {
    let alloc = rt.alloc();
    let cases: [(&[&str], &str); 15] = [
        (&["shamir", "create", "--help"], HELP_OF_CREATE),
        (&["shamir", "drill", "--help"], HELP_OF_DRILL),
        (&["shamir", "--help"], HELP),
        (&["shamir", "-h"], HELP),
        (&["shamir", "help"], HELP),
        (&["shamir", "help", "create"], HELP_OF_CREATE),
        (&["shamir", "help", "--help"], HELP),
        (&["shamir", "recover", "--help"], HELP_OF_RECOVER),
        (&["shamir", "reissue", "--help"], HELP_OF_REISSUE),
        (&["shamir", "repair", "--help"], HELP_OF_REPAIR),
        (&["shamir", "resplit", "--help"], HELP_OF_RESPLIT),
        (&["shamir", "show", "--help"], HELP_OF_SHOW),
        (&["shamir", "status", "--help"], HELP_OF_STATUS),
        (&["shamir", "--version"], "shamir 1.0.0\n"),
        (&["shamir", "-V"], "shamir 1.0.0\n"),
    ];
    for (words, text) in cases {
        expect_run(words, "", alloc, (text, "", 0))?;
        expect_flushed(words, b"", alloc, false, (text, "", 0, 1))?;
        expect_flushed(words, b"", alloc, true, (text, WRITE_FAILED_LINE, 3, 1))?;
    }
    Ok(())
}

const WRONG_EXPONENT: [&str; 7] = [
    "shamir",
    "create",
    "1of1",
    "--master-secret",
    "00",
    "--exponent",
    "16",
];

#[test]
fn says_why_words_are_refused(rt: HostRuntime) -> Result<(), Fail> {
    let alloc = rt.alloc();
    let two_forms =
        "error: --expect <FINGERPRINT> and --fingerprint can't be given together\n\nFor more information, try '--help'.\n";
    let two_passphrases =
        "error: --passphrase <TEXT> and --passphrase-file <FILE> can't be given together\n\nFor more information, try '--help'.\n";
    let too_many =
        "error: --version takes no other argument, and help at most one command\n\nFor more information, try '--help'.\n";
    let no_command =
        "error: unrecognized subcommand 'list'\n\nUsage: shamir <COMMAND>\n\nFor more information, try '--help'.\n";
    let cases: [(&[&str], &str); 18] = [
        (&["shamir", "-V", "x"], too_many),
        (&["shamir", "--version", "show"], too_many),
        (&["shamir", "help", "create", "2of3"], too_many),
        (&["shamir", "help", "-V"], too_many),
        (&["shamir", "help", "list"], no_command),
        (
            &["shamir", "drill", "--expect=", "--fingerprint"],
            two_forms,
        ),
        (
            &["shamir", "resplit", "2of3", "--random-file=-"],
            "error: --random-file <FILE> can't be -: standard input has the mnemonics\n\nFor more information, try '--help'.\n",
        ),
        (
            &["shamir", "resplit", "2of3"],
            "error: the following required arguments were not provided:\n  --random-file <FILE>\n\nUsage: shamir resplit --random-file <FILE> <PLAN>\n\nFor more information, try '--help'.\n",
        ),
        // Two passphrases come before two forms.
        (
            &[
                "shamir",
                "drill",
                "--expect=df41d8fe",
                "--fingerprint",
                "--passphrase=",
                "--passphrase-file=-",
            ],
            two_passphrases,
        ),
        (
            &["shamir", "create", "1of1"],
            "error: one of --master-secret <HEX> and --master-secret-file <FILE> is required\n\nFor more information, try '--help'.\n",
        ),
        (
            &[
                "shamir",
                "create",
                "1of1",
                "--master-secret=00",
                "--master-secret-file=-",
            ],
            "error: --master-secret <HEX> and --master-secret-file <FILE> can't be given together\n\nFor more information, try '--help'.\n",
        ),
        (
            &["shamir", "drill", "--passphrase=", "--passphrase-file=-"],
            two_passphrases,
        ),
        (
            &["shamir", "create", "--master-secret=00"],
            "error: the following required arguments were not provided:\n  <PLAN>\n\nUsage: shamir create --master-secret <HEX> <PLAN>\n\nFor more information, try '--help'.\n",
        ),
        (
            &WRONG_EXPONENT,
            "error: invalid value '16' for '--exponent <E>': 16 is not in 0..=15\n\nFor more information, try '--help'.\n",
        ),
        (&["shamir"], HELP),
        (&["shamir", "list"], no_command),
        (
            &["shamir", "show", "file"],
            "error: unexpected argument 'file' found\n\nUsage: shamir show\n\nFor more information, try '--help'.\n",
        ),
        (
            &["shamir", "recover", "--passphrase"],
            "error: a value is required for '--passphrase <TEXT>' but none was supplied\n\nFor more information, try '--help'.\n",
        ),
    ];
    for (words, text) in cases {
        expect_run(words, ONE_OF_ONE, alloc, ("", text, 2))?;
    }
    Ok(())
}

#[test]
fn flushes_what_it_wrote(rt: HostRuntime) -> Result<(), Fail> {
    let bad_checksum = "shamir: line 1: 13 bad checksum\n";
    let cases = [
        (ONE_OF_ONE, false, (SHOWN, "", 0, 1)),
        // A flush that fails after a run without a fault is a failed write.
        (ONE_OF_ONE, true, (SHOWN, WRITE_FAILED_LINE, 3, 1)),
        // After a fault before which nothing was written it isn't asked.
        (ONE_OF_ONE_BAD_CHECKSUM, true, ("", bad_checksum, 1, 0)),
    ];
    for (input, fails, wanted) in cases {
        expect_flushed(&SHOW, input.as_bytes(), rt.alloc(), fails, wanted)?;
    }
    Ok(())
}

/// The status where nothing can be said on standard error.
fn untold<W: Write + Drop>(alloc: Global, words: &[&str], input: &str, output: W) -> u8 {
    program(alloc, words, input.as_bytes(), output, Full)
}

#[test]
fn keeps_its_status_where_the_errors_fail(rt: HostRuntime) {
    let alloc = rt.alloc();
    let no_job = untold(alloc, &["shamir", "reveal"], "", Vec::new(alloc));
    let refused = untold(alloc, &SHOW, ONE_OF_ONE_BAD_CHECKSUM, Vec::new(alloc));
    let unwritten = untold(alloc, &SHOW, ONE_OF_ONE, Full);
    equal(&rt, [no_job, refused, unwritten], [2, 1, 3]);
}

#[test]
fn says_why_there_are_no_words(rt: HostRuntime) {
    let alloc = rt.alloc();
    let cases: [(ErrorKind, u8, &[u8]); 2] = [
        (ErrorKind::OutOfMemory, 4, b"shamir: out of memory\n"),
        (
            ErrorKind::InvalidData,
            2,
            b"shamir: the arguments aren't UTF-8\n",
        ),
    ];
    for (kind, status, message) in cases {
        let mut told = Vec::new(alloc);
        equal(
            &rt,
            no_words(
                &io::Error::from(kind),
                &mut Person::new(&mut told, NO_TERMINAL),
            ),
            status,
        );
        equal(&rt, told.as_slice(), message);
    }
}
