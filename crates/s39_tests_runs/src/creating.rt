//! The examples of the doc comments of `s39_creating`, line for line. The values come from published vectors, or from a plain reading of
//! the standard in Python.
use crate::expect::{equal, holds};
use s39_backup::{Options, Plan};
use s39_creating::{
    create_lines, lines_from_encrypted, reissue_lines, resplit_lines, run_create, run_reissue,
    run_resplit,
};
use s39_input::Counting;
use s39_kdf::Params;
use s39_set::parse_names;
use std::alloc::AllocGlobal;
use std::process::Abort;
use std::test::Fail;

#[test]
fn examples(rt: HostRuntime) -> Result<(), Fail> {
    creations(&rt)?;
    reissues(&rt)?;
    splits(&rt)?;
    splits_encrypted(&rt)
}

fn creations(rt: &(impl Abort + AllocGlobal)) -> Result<(), Fail> {
    let plan = Plan::parse("1of1")?;
    let secret = *b"\xbb\x54\xaa\xc4\xb8\x9d\xc8\x68\xba\x37\xd9\xcc\x21\xb2\xce\xce";
    let options = Options {
        exponent: 0,
        extendable: false,
    };
    let mut input = Counting::new(b"\x1f\x09".as_slice());
    let mut text = Vec::new(rt.alloc());
    let mut output = Counting::new(&mut text);
    run_create(&plan, &secret, b"TREZOR", options, &mut input, &mut output)?;
    holds(
        rt,
        text.starts_with(b"duckling enlarge academic academic agency "),
    );

    let random = b"\x1f\x09";
    let mut text = [0; 200];
    let put = create_lines(&plan, &secret, b"TREZOR", options, random, &mut text)?;
    equal(rt, (put.written, put.lines), (146, 1));
    holds(
        rt,
        text.starts_with(b"duckling enlarge academic academic agency "),
    );
    Ok(())
}

fn reissues(rt: &(impl Abort + AllocGlobal)) -> Result<(), Fail> {
    let plan = Plan::parse("2of3")?;
    let names = parse_names(b"0.1")?;
    let mut input = Counting::new(
        b"shadow pistol academic always adequate wildlife fancy gross oasis cylinder mustang \
        wrist rescue view short owner flip making coding armed\n\
        shadow pistol academic acid actress prayer class unknown daughter sweater depict flip \
        twice unkind craft early superior advocate guest smoking\n"
            .as_slice(),
    );
    let mut text = Vec::new(rt.alloc());
    run_reissue(&plan, &names, &mut input, &mut Counting::new(&mut text))?;
    holds(
        rt,
        text.starts_with(b"shadow pistol academic agency acid license obtain "),
    );

    let lines =
        b"shadow pistol academic always adequate wildlife fancy gross oasis cylinder mustang \
        wrist rescue view short owner flip making coding armed\n\
        shadow pistol academic acid actress prayer class unknown daughter sweater depict flip \
        twice unkind craft early superior advocate guest smoking\n";
    let mut text = [0; 200];
    let put = reissue_lines(&plan, &names, lines, &mut text)?;
    equal(rt, (put.written, put.lines), (145, 1));
    holds(
        rt,
        text.starts_with(b"shadow pistol academic agency acid license obtain "),
    );
    Ok(())
}

fn splits(rt: &(impl Abort + AllocGlobal)) -> Result<(), Fail> {
    let plan = Plan::parse("1of1")?;
    let mut input = Counting::new(
        b"enemy favorite academic acid cowboy phrase havoc level response walnut budget painting \
        inside trash adjust froth kitchen learn tidy punish\n\
        enemy favorite academic always academic sniff script carpet romp kind promise scatter \
        center unfair training emphasis evening belong fake enforce\n"
            .as_slice(),
    );
    let mut text = Vec::new(rt.alloc());
    run_resplit(
        &plan,
        b"\x12\x34",
        &mut input,
        &mut Counting::new(&mut text),
    )?;
    holds(
        rt,
        text.starts_with(b"cleanup pecan academic academic broken "),
    );

    let lines =
        b"enemy favorite academic acid cowboy phrase havoc level response walnut budget painting \
        inside trash adjust froth kitchen learn tidy punish\n\
        enemy favorite academic always academic sniff script carpet romp kind promise scatter \
        center unfair training emphasis evening belong fake enforce\n";
    let mut text = [0; 200];
    let put = resplit_lines(&plan, lines, b"\x12\x34", &mut text)?;
    equal(rt, put.lines, 1);
    holds(
        rt,
        text.starts_with(b"cleanup pecan academic academic broken "),
    );
    Ok(())
}

fn splits_encrypted(rt: &impl Abort) -> Result<(), Fail> {
    let plan = Plan::parse("1of1")?;
    let params = Params {
        id: 7945,
        extendable: true,
        exponent: 2,
    };
    let encrypted = b"\x14\xd7\x86\xbd\xb0\x0a\x6f\xef\x14\x16\x3f\x4e\xc9\x9b\xf2\x60";
    let mut text = [0; 200];
    let put = lines_from_encrypted(&plan, params, encrypted, b"\x5a\x17", &mut text)?;
    equal(rt, put.lines, 1);
    holds(
        rt,
        text.starts_with(b"race retailer academic academic aircraft "),
    );
    Ok(())
}
