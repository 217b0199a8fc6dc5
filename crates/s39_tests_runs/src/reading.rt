//! The examples of the doc comments of `s39_reading`, line for line. The values come from published vectors, or from a plain reading of
//! the standard in Python.
use crate::expect::{equal, holds};
use s39_input::{Counting, SecretForm, checked_set_in};
use s39_kdf::{Params, parse_fingerprint};
use s39_reading::{
    decrypt_secret, encrypted_in, exponent_of, recover_set, run_recover, run_status, set_status,
    status_lines,
};
use std::alloc::AllocGlobal;
use std::process::Abort;
use std::test::Fail;

#[test]
fn examples(rt: HostRuntime) -> Result<(), Fail> {
    recoveries(&rt)?;
    encrypted_secrets(&rt)?;
    statuses(&rt)?;
    sets(&rt)
}

fn recoveries(rt: &(impl Abort + AllocGlobal)) -> Result<(), Fail> {
    let mut input = Counting::new(
        b"duckling enlarge academic academic agency result length solution fridge kidney coal \
        piece deal husband erode duke ajar critical decision keyboard\n"
            .as_slice(),
    );
    let mut text = Vec::new(rt.alloc());
    let mut output = Counting::new(&mut text);
    run_recover(
        SecretForm::Digits,
        None,
        b"TREZOR",
        &mut input,
        &mut output,
        &mut (),
    )?;
    holds(rt, text.starts_with(b"bb54aac4b89dc868ba37d9cc21b2cece\n"));
    Ok(())
}

fn encrypted_secrets(rt: &impl Abort) -> Result<(), Fail> {
    let line =
        b"duckling enlarge academic academic agency result length solution fridge kidney coal \
        piece deal husband erode duke ajar critical decision keyboard\n";
    let encrypted = encrypted_in(line)?;
    equal(
        rt,
        (encrypted.params.id, encrypted.params.exponent),
        (7945, 0),
    );
    holds(
        rt,
        encrypted
            .bytes
            .starts_with(b"\x11\xbc\x60\x9d\x21\x74\x7c\x49"),
    );

    let params = Params {
        id: 7945,
        extendable: false,
        exponent: 0,
    };
    let encrypted = b"\x11\xbc\x60\x9d\x21\x74\x7c\x49\xba\x78\xc0\x70\x12\x93\xe4\x17";
    let secret = decrypt_secret(None, b"TREZOR", params, encrypted)?;
    holds(rt, secret.starts_with(b"\xbb\x54\xaa\xc4\xb8\x9d\xc8\x68"));
    let fault = decrypt_secret(None, b"TREZOR", params, &encrypted[1..]).err();
    equal(rt, fault.map(|fault| fault.refusal.cause().code), Some(42));
    Ok(())
}

fn statuses(rt: &(impl Abort + AllocGlobal)) -> Result<(), Fail> {
    let mut input = Counting::new(
        b"academic aluminum beard leader chest elite grant group club deploy increase divorce \
        puny cylinder romp frequent crush ruler erode bucket\n"
            .as_slice(),
    );
    let mut text = Vec::new(rt.alloc());
    let status = run_status(&mut input, &mut Counting::new(&mut text))?;
    holds(rt, !status.is_enough());
    let lines = b"groups 1 of 2\ngroup 1 members 1 of 1 1.0\n";
    equal(rt, text.as_slice(), lines.as_slice());

    let line =
        b"academic aluminum beard leader chest elite grant group club deploy increase divorce \
        puny cylinder romp frequent crush ruler erode bucket\n";
    let mut text = [0; 100];
    let answer = status_lines(line, &mut text)?;
    equal(rt, (answer.written, answer.status.is_enough()), (41, false));
    holds(
        rt,
        text.starts_with(b"groups 1 of 2\ngroup 1 members 1 of 1 1.0\n"),
    );

    let set = checked_set_in(b"", line)?;
    let mut text = [0; 100];
    equal(rt, set_status(&set, &mut text)?.written, 41);
    holds(
        rt,
        text.starts_with(b"groups 1 of 2\ngroup 1 members 1 of 1 1.0\n"),
    );
    Ok(())
}

fn sets(rt: &impl Abort) -> Result<(), Fail> {
    let line =
        b"duckling enlarge academic academic agency result length solution fridge kidney coal \
        piece deal husband erode duke ajar critical decision keyboard\n";
    let set = checked_set_in(b"TREZOR", line)?;
    let secret = recover_set(None, b"TREZOR", &set)?;
    holds(rt, secret.starts_with(b"\xbb\x54\xaa\xc4\xb8\x9d\xc8\x68"));
    let expected = Some(parse_fingerprint(b"df41d8fe")?);
    let fault = recover_set(expected, b"trezor", &set).err();
    equal(rt, fault.map(|fault| fault.refusal.cause().code), Some(52));

    let line =
        b"duckling enlarge academic academic agency result length solution fridge kidney coal \
        piece deal husband erode duke ajar critical decision keyboard\n";
    let set = checked_set_in(b"TREZOR", line)?;
    equal(rt, exponent_of(&set)?, 0);
    let none = exponent_of(&checked_set_in(b"", b"")?).err();
    equal(rt, none.map(|fault| fault.refusal.cause().code), Some(29));
    Ok(())
}
