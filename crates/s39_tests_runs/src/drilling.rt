//! The examples of the doc comments of `s39_drilling`, line for line. The values come from published vectors, or from a plain reading of
//! the standard in Python.
use crate::expect::equal;
use s39_drilling::{drill_set, run_drill};
use s39_input::{Counting, SecretForm, checked_set_in};
use std::alloc::AllocGlobal;
use std::process::Abort;
use std::test::Fail;

#[test]
fn examples(rt: HostRuntime) -> Result<(), Fail> {
    drills(&rt)
}

fn drills(rt: &(impl Abort + AllocGlobal)) -> Result<(), Fail> {
    let mut input = Counting::new(
        b"duckling enlarge academic academic agency result length solution fridge kidney coal \
        piece deal husband erode duke ajar critical decision keyboard\n"
            .as_slice(),
    );
    let mut text = Vec::new(rt.alloc());
    let mut output = Counting::new(&mut text);
    let form = SecretForm::Fingerprint;
    let done = run_drill(
        form,
        b"TREZOR",
        None,
        1000,
        &mut input,
        &mut output,
        &mut (),
    )?;
    equal(rt, done.mismatches, 0);
    equal(rt, text.as_slice(), b"0.0 df41d8fe\nend\n".as_slice());

    let line =
        b"duckling enlarge academic academic agency result length solution fridge kidney coal \
        piece deal husband erode duke ajar critical decision keyboard\n";
    let set = checked_set_in(b"TREZOR", line)?;
    let mut text = [7; 17];
    let listing = drill_set(
        SecretForm::Fingerprint,
        b"TREZOR",
        None,
        1000,
        &set,
        &mut text,
    )?;
    equal(rt, (listing.last, listing.written), (13, 17));
    equal(rt, text, *b"0.0 df41d8fe\nend\n");
    Ok(())
}
