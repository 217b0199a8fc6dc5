//! A backup of three groups, and what the program writes for its mnemonics.

use std::alloc::{AllocError, Global};

pub const SECRET: &str = "bb54aac4b89dc868ba37d9cc21b2cece";

/// The words of the command `create` with the passphrase of the vectors.
pub fn create<'a>(plan: &'a str, secret: &'a str) -> [&'a str; 7] {
    [
        "shamir",
        "create",
        plan,
        "--master-secret",
        secret,
        "--passphrase",
        "TREZOR",
    ]
}

/// The mnemonics of the plan `2/2of3,1of1,1of1` from the random bytes 0 to 25. Another program computed them.
pub const FIVE: [&str; 5] = [
    "academic aluminum acrobat leaf buyer drink heat negative damage union purchase photo inmate training amazing yield bucket wrote mule cluster",
    "academic aluminum acrobat lily august piece column laser headset unusual blimp nuclear sweater criminal credit eyebrow trouble silent axis skin",
    "academic aluminum acrobat lungs dive behavior mobile ting perfect ultimate weapon join paper involve clinic acrobat jerky preach gross usual",
    "academic aluminum beard leader chest elite grant group club deploy increase divorce puny cylinder romp frequent crush ruler erode bucket",
    "academic aluminum ceramic leader cylinder decorate mobile devote echo finger program firm starting dwarf grumpy harvest enforce raisin sprinkle phantom",
];

pub const RANDOM: [u8; 26] = [
    0, 1, 2, 3, 4, 5, 6, 7, 8, 9, 10, 11, 12, 13, 14, 15, 16, 17, 18, 19, 20, 21, 22, 23, 24, 25,
];

/// The quorums of the five mnemonics.
pub const QUORUMS_OF_FIVE: [&str; 7] = [
    "0.0+0.1+1.0",
    "0.0+0.1+2.0",
    "0.0+0.2+1.0",
    "0.0+0.2+2.0",
    "0.1+0.2+1.0",
    "0.1+0.2+2.0",
    "1.0+2.0",
];

/// Returns what a drill of the five mnemonics writes.
///
/// # Errors
/// The allocation fails.
pub fn drilled(alloc: Global) -> Result<String, AllocError> {
    let mut all = String::new(alloc);
    for quorum in QUORUMS_OF_FIVE {
        all.push_str(format!(in alloc; "{quorum} {SECRET}\n")?.as_str())?;
    }
    all.push_str("end\n")?;
    Ok(all)
}

/// Returns a text in which each of these texts is a line.
///
/// # Errors
/// The allocation fails.
pub fn lines(alloc: Global, texts: &[&str]) -> Result<String, AllocError> {
    let mut all = String::new(alloc);
    for text in texts {
        all.push_str(text)?;
        all.push('\n')?;
    }
    Ok(all)
}
