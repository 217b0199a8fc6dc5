//! The file of random bytes in the words of `resplit`.

use crate::command_line::{NONE, call, expect_calls, expect_refusals};
use crate::expect::equal;
use crate::value_files::expect_bad_values;
use s39_cli::{Person, program};
use s39_command::{BadValues, Call, Job};
use s39_fixtures::NO_TERMINAL;
use s39_fixtures::shelves::Halted;
use std::io::ErrorKind;

#[test]
fn reads_resplit(rt: HostRuntime) {
    let drawn = Job::Resplit {
        plan: "2of3",
        random_file: "random.bin",
    };
    let dashed = Job::Resplit {
        plan: "2of3",
        random_file: "-x",
    };
    let empty = Job::Resplit {
        plan: "",
        random_file: "",
    };
    let cases: [(&[&str], Call); 4] = [
        (
            &["shamir", "resplit", "2of3", "--random-file", "random.bin"],
            call(drawn, NONE),
        ),
        (
            &["shamir", "resplit", "--random-file=random.bin", "2of3"],
            call(drawn, NONE),
        ),
        (
            &["shamir", "resplit", "2of3", "--random-file=-x"],
            call(dashed, NONE),
        ),
        (
            &["shamir", "resplit", "", "--random-file="],
            call(empty, NONE),
        ),
    ];
    expect_calls(&rt, rt.alloc(), &cases);
    let refused: [&[&str]; 14] = [
        &["shamir", "resplits"],
        &["shamir", "resplit"],
        &["shamir", "resplit", "2of3"],
        &["shamir", "resplit", "--random-file=x"],
        &["shamir", "resplit", "2of3", "--random-file"],
        &["shamir", "resplit", "2of3", "--random-file", "-x"],
        &["shamir", "resplit", "2of3", "x", "--random-file=x"],
        &["shamir", "resplit", "-2of3", "--random-file=x"],
        &[
            "shamir",
            "resplit",
            "2of3",
            "--random-file=x",
            "--random-file=x",
        ],
        &[
            "shamir",
            "resplit",
            "2of3",
            "--random-file=x",
            "--passphrase=x",
        ],
        &[
            "shamir",
            "resplit",
            "2of3",
            "--random-file=x",
            "--extendable",
        ],
        &[
            "shamir",
            "resplit",
            "2of3",
            "--random-file=x",
            "--exponent=0",
        ],
        &["shamir", "reissue", "2of3", "0.1", "--random-file=x"],
        &[
            "shamir",
            "create",
            "1of1",
            "--master-secret=00",
            "--random-file=x",
        ],
    ];
    expect_refusals(&rt, rt.alloc(), &refused);
}

#[test]
fn refuses_random_bytes_from_the_input(rt: HostRuntime) {
    let cases: [(&[&str], BadValues); 3] = [
        (
            &["shamir", "resplit", "2of3", "--random-file=-"],
            BadValues::RandomInput,
        ),
        (
            &["shamir", "resplit", "--random-file", "-", "2of3"],
            BadValues::RandomInput,
        ),
        // This comes before a refused plan.
        (
            &["shamir", "resplit", "1of3", "--random-file=-"],
            BadValues::RandomInput,
        ),
    ];
    expect_bad_values(&rt, rt.alloc(), &cases);
}

/// The share of an extendable backup with the identifier 0x1620.
const SHARE: &str =
    "crush again academic academic device visitor diminish clogs chemical prospect expect python adequate clogs enlarge extend flexible aircraft smoking staff";

/// The share of the new backup with the identifier 0x120A. Another program computes it.
const NEW_SHARE: &str =
    "clay favorite academic academic device visitor diminish clogs chemical prospect expect python adequate clogs enlarge extend flexible bracelet slice dining\n";

#[test]
fn tries_only_an_interrupted_read_again(rt: HostRuntime) {
    let alloc = rt.alloc();
    let cases = [
        (ErrorKind::Interrupted, 1, 0, NEW_SHARE),
        (ErrorKind::Interrupted, 1000, 0, NEW_SHARE),
        (ErrorKind::WouldBlock, 1, 3, ""),
        (ErrorKind::TimedOut, 1, 3, ""),
        (ErrorKind::BrokenPipe, 1, 3, ""),
        (ErrorKind::Other, 1, 3, ""),
    ];
    for (kind, failures, wanted, output) in cases {
        let shelf = Halted {
            alloc,
            kind,
            failures,
            bytes: b"\x12\n",
        };
        let mut written = Vec::new(alloc);
        let status = program(
            &shelf,
            alloc,
            &["shamir", "resplit", "1of1", "--random-file", "f"],
            SHARE.as_bytes(),
            &mut written,
            &mut Person::new(Vec::new(alloc), NO_TERMINAL),
        )
        .status();
        equal(&rt, status, wanted);
        equal(&rt, written.as_slice(), output.as_bytes());
    }
}
