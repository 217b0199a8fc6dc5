//! What tests of several commands expect of a run: lines that are given, and lines or a refusal that come of them.

use s39_fixtures::{expect_run, lines};
use std::alloc::Global;
use std::test::Fail;

/// Nothing is written but this refusal, with status 1.
pub fn expect_refusal(
    alloc: Global,
    words: &[&str],
    input: &str,
    refusal: &str,
) -> Result<(), Fail> {
    let message = format!(in alloc; "shamir: {refusal}\n")?;
    expect_run(words, input, alloc, ("", message.as_str(), 1))
}

/// Of these lines comes nothing but this refusal.
pub fn expect_refused_lines(
    alloc: Global,
    words: &[&str],
    given: &[&str],
    refusal: &str,
) -> Result<(), Fail> {
    let input = lines(alloc, given)?;
    expect_refusal(alloc, words, input.as_str(), refusal)
}

/// Of these lines come those lines, with status 0.
pub fn expect_lines(
    alloc: Global,
    words: &[&str],
    given: &[&str],
    written: &[&str],
) -> Result<(), Fail> {
    let input = lines(alloc, given)?;
    let output = lines(alloc, written)?;
    expect_run(words, input.as_str(), alloc, (output.as_str(), "", 0))
}
