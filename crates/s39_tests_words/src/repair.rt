//! Tests of `s39_repair`: lines that can't be read whole, and the examples of its doc comments in the order of the files. An
//! independent program computed which mnemonics fit; the examples' mnemonics are published vectors.
use s39_repair::{RepairError, repair};
use s39_words::print;
use std::test::Fail;

const ONE_OF_ONE: &str =
    "duckling enlarge academic academic agency result length solution fridge kidney coal piece deal husband erode duke ajar critical decision keyboard";

#[test]
fn lost_words_come_back(rt: HostRuntime) -> Result<(), Fail> {
    let lines: &[&str] = &[
        "duckling enlarge academic academic ? result length solution fridge kidney coal ? deal husband erode duke ajar critical decision keyboard",
        "duckling enlarge academic academic agency result length solution fridge kidney coal piece deal husband erode duke ajar ? ? ?",
        "duckling enlarge academic academic agency result le? so? fridge kidney coal piece deal husband erode duke ajar critical decision keyboard",
        "duck? enla? acad? acad? agen? resu? leng? solu? frid? kidn? coal? piec? deal? husb? erod? duke? ajar? crit? deci? keyb?",
    ];
    for line in lines {
        let repaired = repair(line.as_bytes())?;
        assert_eq!(rt; print(&repaired.first).as_slice(), ONE_OF_ONE.as_bytes());
        assert!(rt; repaired.second.is_none());
    }
    Ok(())
}

#[test]
fn two_mnemonics_fit(rt: HostRuntime) -> Result<(), Fail> {
    let line =
        "? ? ? academic agency result length solution fridge kidney coal piece deal husband erode duke ajar critical decision keyboard";
    let other =
        "therapy heat device academic agency result length solution fridge kidney coal piece deal husband erode duke ajar critical decision keyboard";
    let repaired = repair(line.as_bytes())?;
    assert_eq!(rt; print(&repaired.first).as_slice(), ONE_OF_ONE.as_bytes());
    let second = repaired.second.ok_or("one")?;
    assert_eq!(rt; print(&second).as_slice(), other.as_bytes());
    Ok(())
}

#[test]
fn refused_lines(rt: HostRuntime) {
    let cases: &[(&str, RepairError)] = &[
        (
            "duckling enlarge academic academic agency result length solution fridge kidney coal piece deal husband erode duke ? ? ? ?",
            RepairError::UnreadableWords { places: 4 },
        ),
        (
            "duckling enlarge academic academic agency result lend solution fridge kidney coal piece deal husband erode duke ajar critical decision keyboard",
            RepairError::WrongWord { position: 7 },
        ),
        (
            "duckling enlarge academic academic agency result length solution fridge kidney coal piece deal husband erode duke ajar critical decision kidney",
            RepairError::WrongWord { position: 20 },
        ),
        (
            "duckling enlarge academic academic agency result solution length fridge kidney coal piece deal husband erode duke ajar critical decision keyboard",
            RepairError::BadChecksum,
        ),
        (
            "duckling enlarge academic academic agency result ze? solution fridge kidney coal piece deal husband erode duke ajar critical decision keyboard",
            RepairError::WrongWord { position: 7 },
        ),
        (
            "duckling enlarge academic academic agency result zz? solution fridge kidney coal piece deal husband erode duke ajar critical decision keyboard",
            RepairError::UnknownWord { position: 7 },
        ),
        (
            "duckling enlarge academic academic agency result lengt solution fridge kidney coal piece deal husband erode duke ajar critical decision keyboard",
            RepairError::UnknownWord { position: 7 },
        ),
        (
            "duckling evil academic academic agency result length solution fridge kidney coal piece deal husband erode duke ajar critical decision keyboard",
            RepairError::WrongWord { position: 2 },
        ),
        (
            "duckling enlarge academic academic agency result ?? solution fridge kidney coal piece deal husband erode duke ajar critical decision keyboard",
            RepairError::UnknownWord { position: 7 },
        ),
        (
            "duckling enlarge academic academic agency result l?ngth solution fridge kidney coal piece deal husband erode duke ajar critical decision keyboard",
            RepairError::UnknownWord { position: 7 },
        ),
        (
            "duckling enlarge academic academic agency result ?ength solution fridge kidney coal piece deal husband erode duke ajar critical decision keyboard",
            RepairError::UnknownWord { position: 7 },
        ),
        (
            "duckling enlarge academic academic agency result length solution fridge kidney coal piece deal husband erode duke ajar critical decision",
            RepairError::WordCount { words: 19 },
        ),
        (
            "duckling enlarge academic academic ? result lend solution fridge kidney coal piece deal husband erode duke ajar critical decision keyboard",
            RepairError::NoMnemonic,
        ),
        (
            "duckling enlarge academic academic ? result lend solution fridge kidney coal ? deal husband erode duke ajar critical decision keyboard",
            RepairError::NoMnemonic,
        ),
        (
            "duckling enlarge academic academic ? result lend solution fridge kidney coal piece deal husband erode duke ajar critical decision kidney",
            RepairError::NoMnemonic,
        ),
    ];
    for (line, error) in cases {
        assert_eq!(rt; repair(line.as_bytes()).err(), Some(*error));
    }
}

#[test]
fn examples_of_answer(rt: HostRuntime) -> Result<(), Fail> {
    let line = b"duckling enlarge academic academic ? result le? so? fridge kidney \
                 coal piece deal husband erode duke ajar critical decision keyboard";
    let repaired = repair(line)?;
    assert_eq!(rt; repaired.first.id(), 7945);
    assert!(rt; repaired.second.is_none());
    let refusal = repair(b"duckling enlarge zz?").err();
    assert_eq!(rt; refusal, Some(RepairError::UnknownWord { position: 3 }));
    Ok(())
}

#[test]
fn examples_of_repair_error(rt: HostRuntime) {
    let cause = RepairError::WrongWord { position: 7 }.cause();
    assert_eq!(rt; (cause.code, cause.first, cause.second), (18, 7, 0));
}
