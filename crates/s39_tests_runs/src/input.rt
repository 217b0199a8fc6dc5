//! Tests of `s39_input`: repairs, and the examples of its doc comments, line for line. The values come from published vectors,
//! or from a plain reading of the standard in Python; an independent program computed what fits.
use crate::expect::{equal, holds};
use s39_input::{Counting, Fault, put, read_hex, run_repair, run_show, write_hex};
use std::alloc::AllocGlobal;
use std::process::Abort;
use std::test::Fail;

const V1: &[u8] =
    b"duckling enlarge academic academic agency result length solution fridge kidney coal \
    piece deal husband erode duke ajar critical decision keyboard\n";

const BOTH: &[u8] =
    b"duckling enlarge academic academic agency result length solution fridge kidney coal \
    piece deal husband erode duke ajar critical decision keyboard\n\
    therapy heat device academic agency result length solution fridge kidney coal \
    piece deal husband erode duke ajar critical decision keyboard\n";

/// The number of a refusal and of its line, and the details of its cause.
type Told = (u64, u8, u64, u64);

fn told(fault: Fault) -> Told {
    let cause = fault.refusal.cause();
    (
        fault.line.unwrap_or(0),
        cause.code,
        cause.first,
        cause.second,
    )
}

fn expect(
    rt: &(impl Abort + AllocGlobal),
    input: &[u8],
    output: &[u8],
    answer: Result<bool, Told>,
) {
    let mut text = Vec::new(rt.alloc());
    let answered = run_repair(&mut Counting::new(input), &mut Counting::new(&mut text));
    equal(rt, answered.map_err(told), answer);
    equal(rt, text.as_slice(), output);
}

#[test]
fn lines_are_repaired(rt: HostRuntime) {
    let lines: [&[u8]; 4] = [
        b"duckling ? academic academic agency result length solution fridge kidney coal \
        ? deal husband erode duke ajar critical decision keyboard",
        b"duckling enlarge academic academic agency result length solution fridge kidney coal \
        piece deal husband erode duke ajar ? ? ?\n",
        b"# worn\n\nduckling enlarge academic academic agency result le? so? fridge kidney coal \
        piece deal husband erode duke ajar critical decision keyboard\n \t\n",
        b"DUCK? enla? acad? acad? agen? resu? leng? solu? frid? kidn? coal? \
        piec? deal? husb? erod? duke? ajar? crit? deci? keyb?\r\n",
    ];
    for line in lines {
        expect(&rt, line, V1, Ok(true));
    }
    expect(&rt, b"# ? ? ?\n\n", b"", Ok(true));
}

#[test]
fn two_mnemonics_are_told(rt: HostRuntime) -> Result<(), Fail> {
    let alloc = rt.alloc();
    let two: &[u8] = b"? ? ? academic agency result length solution fridge kidney coal \
        piece deal husband erode duke ajar critical decision keyboard\n";
    expect(&rt, two, BOTH, Ok(false));
    let mut input = Vec::from_slice(alloc, two)?;
    input.extend_from_slice(V1)?;
    let mut output = Vec::from_slice(alloc, BOTH)?;
    output.extend_from_slice(V1)?;
    expect(&rt, input.as_slice(), output.as_slice(), Ok(false));
    Ok(())
}

#[test]
fn lines_are_refused(rt: HostRuntime) -> Result<(), Fail> {
    let alloc = rt.alloc();
    let cases: [(&[u8], Told); 8] = [
        (
            b"duckling enlarge academic academic agency result length solution fridge kidney coal \
            piece deal husband erode duke ? ? ? ?",
            (3, 19, 4, 0),
        ),
        (
            b"duckling enlarge academic academic agency result lend solution fridge kidney coal \
            piece deal husband erode duke ajar critical decision keyboard",
            (3, 18, 7, 0),
        ),
        (
            b"duckling enlarge academic academic agency result length solution fridge kidney coal \
            piece deal husband erode duke ajar critical decision kidney",
            (3, 18, 20, 0),
        ),
        (
            b"duckling enlarge academic academic agency result solution length fridge kidney coal \
            piece deal husband erode duke ajar critical decision keyboard",
            (3, 13, 0, 0),
        ),
        (
            b"duckling enlarge academic academic agency result ze? solution fridge kidney coal \
            piece deal husband erode duke ajar critical decision keyboard",
            (3, 18, 7, 0),
        ),
        (
            b"duckling enlarge academic academic agency result zz? solution fridge kidney coal \
            piece deal husband erode duke ajar critical decision keyboard",
            (3, 11, 7, 0),
        ),
        (b"duckling enlarge aca?", (3, 12, 3, 0)),
        (
            b"duckling enlarge academic academic ? result solution length fridge kidney coal \
            piece deal husband erode duke ajar critical decision keyboard",
            (3, 17, 0, 0),
        ),
    ];
    for (line, refused) in cases {
        let mut input = Vec::from_slice(alloc, V1)?;
        input.extend_from_slice(b"# the next one\n")?;
        input.extend_from_slice(line)?;
        input.extend_from_slice(b"\n")?;
        input.extend_from_slice(V1)?;
        expect(&rt, input.as_slice(), V1, Err(refused));
    }
    let long = [b' '; 1025];
    expect(&rt, &long, b"", Err((1, 71, 0, 0)));
    Ok(())
}

#[test]
fn examples(rt: HostRuntime) -> Result<(), Fail> {
    devices(&rt)?;
    digits(&rt);
    shown(&rt)?;
    repaired(&rt)
}

fn devices(rt: &impl Abort) -> Result<(), Fail> {
    let mut input = Counting::new(b"shamir".as_slice());
    let mut piece = [0; 4];
    equal(rt, input.read(&mut piece)?, 4);
    equal(rt, (piece, input.failures()), (*b"sham", 0));

    let mut slice = *b"recover";
    put(&mut slice, 2, b"..");
    equal(rt, slice, *b"re..ver");
    Ok(())
}

fn digits(rt: &impl Abort) {
    let mut digits = [0; 4];
    write_hex(b"\x07\xbf", &mut digits);
    equal(rt, digits, *b"07bf");

    let mut bytes = [0; 2];
    holds(rt, read_hex(b"07bF", &mut bytes));
    equal(rt, bytes, *b"\x07\xbf");
    holds(rt, !read_hex(b"07bg", &mut bytes));
}

fn shown(rt: &(impl Abort + AllocGlobal)) -> Result<(), Fail> {
    let mut input = Counting::new(
        b"duckling enlarge academic academic agency result length solution fridge kidney coal \
        piece deal husband erode duke ajar critical decision keyboard\n"
            .as_slice(),
    );
    let mut text = Vec::new(rt.alloc());
    run_show(&mut input, &mut Counting::new(&mut text))?;
    holds(
        rt,
        text.starts_with(b"identifier 7945 extendable 0 exponent 0 group 0 "),
    );
    Ok(())
}

fn repaired(rt: &(impl Abort + AllocGlobal)) -> Result<(), Fail> {
    let mut input = Counting::new(
        b"duckling enlarge academic academic ? result length solution fridge kidney coal \
        ? deal husband erode duke ajar critical decision keyb?\n"
            .as_slice(),
    );
    let mut text = Vec::new(rt.alloc());
    holds(rt, run_repair(&mut input, &mut Counting::new(&mut text))?);
    holds(
        rt,
        text.starts_with(b"duckling enlarge academic academic agency result length "),
    );
    Ok(())
}
