//! The worked examples, and the runs of theirs that stand below the program.
ghost use Rattle.std.specs.Prelude.{◌<◌};

use s39_kdf::check_secret;
use s39_set::parse_names;
use s39_tool::{
    Counting, Fault, Options, Plan, SecretForm, run_create, run_drill, run_recover, run_reissue,
    run_repair, run_resplit, run_show, run_status,
};
use std::io::{Read, Write};

/// A vector of SLIP-0039, whose passphrase is `TREZOR`.
const ONE_OF_ONE: &[u8] =
    b"duckling enlarge academic academic agency result length solution fridge kidney coal piece deal husband erode duke ajar critical decision keyboard\n";

/// The mnemonics of `2/2of3,1of1,1of1` from the random bytes 0 to 25; another program computes them.
const FIVE: &[u8] =
    b"academic aluminum acrobat leaf buyer drink heat negative damage union purchase photo inmate training amazing yield bucket wrote mule cluster\nacademic aluminum acrobat lily august piece column laser headset unusual blimp nuclear sweater criminal credit eyebrow trouble silent axis skin\nacademic aluminum acrobat lungs dive behavior mobile ting perfect ultimate weapon join paper involve clinic acrobat jerky preach gross usual\nacademic aluminum beard leader chest elite grant group club deploy increase divorce puny cylinder romp frequent crush ruler erode bucket\nacademic aluminum ceramic leader cylinder decorate mobile devote echo finger program firm starting dwarf grumpy harvest enforce raisin sprinkle phantom\n";

/// The quorums of these, each with the secret.
const DRILLED: &[u8] =
    b"0.0+0.1+1.0 bb54aac4b89dc868ba37d9cc21b2cece\n0.0+0.1+2.0 bb54aac4b89dc868ba37d9cc21b2cece\n0.0+0.2+1.0 bb54aac4b89dc868ba37d9cc21b2cece\n0.0+0.2+2.0 bb54aac4b89dc868ba37d9cc21b2cece\n0.1+0.2+1.0 bb54aac4b89dc868ba37d9cc21b2cece\n0.1+0.2+2.0 bb54aac4b89dc868ba37d9cc21b2cece\n1.0+2.0 bb54aac4b89dc868ba37d9cc21b2cece\nend\n";

const SECRET: &str = "bb54aac4b89dc868ba37d9cc21b2cece";

/// A command line, its input, and how it ends.
#[derive(Clone, Copy)]
pub struct Example {
    pub words: &'static [&'static str],
    pub input: &'static [u8],
    pub output: &'static [u8],
    pub errors: &'static [u8],
    pub status: u8,
}

const SHOW: Example = Example {
    words: &["shamir", "show"],
    input: ONE_OF_ONE,
    output: b"identifier 7945 extendable 0 exponent 0 group 0 group-threshold 1 group-count 1 member 0 member-threshold 1 value 11bc609d21747c49ba78c0701293e417\n",
    errors: b"",
    status: 0,
};

const RECOVER: Example = Example {
    words: &["shamir", "recover", "--passphrase", "TREZOR"],
    input: ONE_OF_ONE,
    output: b"bb54aac4b89dc868ba37d9cc21b2cece\n",
    errors: b"",
    status: 0,
};

const CREATE: Example = Example {
    words: &[
        "shamir",
        "create",
        "1of1",
        "--master-secret",
        SECRET,
        "--passphrase",
        "TREZOR",
    ],
    input: b"\x1f\x09",
    output: ONE_OF_ONE,
    errors: b"",
    status: 0,
};

const DRILL: Example = Example {
    words: &["shamir", "drill", "--passphrase", "TREZOR"],
    input: FIVE,
    output: DRILLED,
    errors: b"",
    status: 0,
};

const STATUS: Example = Example {
    words: &["shamir", "status"],
    input: FIVE,
    output: b"groups 3 of 2\ngroup 0 members 3 of 2 0.0+0.1+0.2\ngroup 1 members 1 of 1 1.0\ngroup 2 members 1 of 1 2.0\n",
    errors: b"",
    status: 0,
};

const REISSUE: Example = Example {
    words: &["shamir", "reissue", "2/2of4,1of1,1of1", "0.3"],
    input: FIVE,
    output: b"academic aluminum acrobat marathon crisis luxury step activity teammate unfair fumes endorse always ranked alto problem mailman ounce teacher bumpy\n",
    errors: b"",
    status: 0,
};

const REPAIR: Example = Example {
    words: &["shamir", "repair"],
    input: b"? ? ? academic agency result length solution fridge kidney coal piece deal husband erode duke ajar critical decision keyboard\n",
    output: b"duckling enlarge academic academic agency result length solution fridge kidney coal piece deal husband erode duke ajar critical decision keyboard\ntherapy heat device academic agency result length solution fridge kidney coal piece deal husband erode duke ajar critical decision keyboard\n",
    errors: b"",
    status: 1,
};

/// The random bytes of `RESPLIT`, which stand in a file.
pub const RANDOM: &[u8] = b"\x12\n";

/// Another program computes the mnemonics.
const RESPLIT: Example = Example {
    words: &["shamir", "resplit", "1of1", "--random-file", "random.bin"],
    input: b"crush again academic academic device visitor diminish clogs chemical prospect expect python adequate clogs enlarge extend flexible aircraft smoking staff\n",
    output: b"clay favorite academic academic device visitor diminish clogs chemical prospect expect python adequate clogs enlarge extend flexible bracelet slice dining\n",
    errors: b"",
    status: 0,
};

const REFUSED_PLAN: Example = Example {
    words: &["shamir", "create", "1of3", "--master-secret", SECRET],
    input: b"",
    output: b"",
    errors: b"shamir: 34 one of many in plan group 0\n",
    status: 1,
};

const REFUSED_WORDS: Example = Example {
    words: &["shamir", "show", "file"],
    input: ONE_OF_ONE,
    output: b"",
    errors: b"error: unexpected argument 'file' found\n\nUsage: shamir show\n\nFor more information, try '--help'.\n",
    status: 2,
};

/// The example of a letter.
pub fn example_of(letter: u8) -> Option<Example> {
    match letter {
        b's' => Some(SHOW),
        b'r' => Some(RECOVER),
        b'c' => Some(CREATE),
        b'd' => Some(DRILL),
        b't' => Some(STATUS),
        b'i' => Some(REISSUE),
        b'm' => Some(REPAIR),
        b'n' => Some(RESPLIT),
        b'p' => Some(REFUSED_PLAN),
        b'w' => Some(REFUSED_WORDS),
        _ => None,
    }
}

fn create_one<R: Read, W: Write>(
    input: &mut Counting<R>,
    output: &mut Counting<W>,
) -> Result<(), Fault>
    requires readable { input.old.failures < u64.MAX }
    requires writable { output.old.failures < u64.MAX }
{
    let (Ok(plan), Ok(secret)) = (
        Plan::parse("1of1"),
        check_secret(b"\xbb\x54\xaa\xc4\xb8\x9d\xc8\x68\xba\x37\xd9\xcc\x21\xb2\xce\xce"),
    ) else {
        return Ok(());
    };
    let options = Options {
        exponent: 0,
        extendable: false,
    };
    run_create(&plan, &secret, b"TREZOR", options, input, output)
}

fn reissue_one<R: Read, W: Write>(
    input: &mut Counting<R>,
    output: &mut Counting<W>,
) -> Result<(), Fault>
    requires readable { input.old.failures < u64.MAX }
    requires writable { output.old.failures < u64.MAX }
{
    let (Ok(plan), Ok(names)) = (Plan::parse("2/2of4,1of1,1of1"), parse_names(b"0.3")) else {
        return Ok(());
    };
    run_reissue(&plan, &names, input, output)
}

fn resplit_one<R: Read, W: Write>(
    input: &mut Counting<R>,
    output: &mut Counting<W>,
) -> Result<(), Fault>
    requires readable { input.old.failures < u64.MAX }
    requires writable { output.old.failures < u64.MAX }
{
    let Ok(plan) = Plan::parse("1of1") else {
        return Ok(());
    };
    run_resplit(&plan, RANDOM, input, output)
}

/// Runs the command of a letter; whether it ends without a fault.
pub fn run_of<R: Read + Drop, W: Write + Drop>(letter: u8, input: R, output: W) -> bool {
    let mut input = Counting::new(input);
    let mut output = Counting::new(output);
    match letter {
        b'S' => run_show(&mut input, &mut output).is_ok(),
        b'R' => run_recover(
            SecretForm::Digits,
            None,
            b"TREZOR",
            &mut input,
            &mut output,
            &mut (),
        )
        .is_ok(),
        b'C' => create_one(&mut input, &mut output).is_ok(),
        b'D' => run_drill(
            SecretForm::Digits,
            b"TREZOR",
            None,
            1000,
            &mut input,
            &mut output,
            &mut (),
        )
        .is_ok(),
        b'T' => run_status(&mut input, &mut output).is_ok(),
        b'I' => reissue_one(&mut input, &mut output).is_ok(),
        b'M' => run_repair(&mut input, &mut output).is_ok(),
        b'N' => resplit_one(&mut input, &mut output).is_ok(),
        _ => false,
    }
}
