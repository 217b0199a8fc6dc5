//! What each byte stands for: every one of the 256 in the place of a byte of a text.

use crate::expect::equal_for;
use s39_backup::Plan;
use s39_fixtures::{ONE_OF_ONE, SHOW, create, run_on};
use s39_kdf::{BadPassphrase, check_passphrase};
use s39_set::parse_quorum;
use s39_words::{WordError, parse};
use std::alloc::{AllocError, Global};
use std::test::Fail;

/// A text with a byte between its two parts.
fn joined(alloc: Global, front: &[u8], byte: u8, back: &[u8]) -> Result<Vec<u8>, AllocError> {
    let mut text = Vec::new(alloc);
    text.extend_from_slice(front)?;
    text.push(byte)?;
    text.extend_from_slice(back)?;
    Ok(text)
}

/// The number of the refusal that `show` tells of an input, or 0.
fn told_of(alloc: Global, input: &[u8]) -> u32 {
    let run = run_on(alloc, &SHOW, input);
    if run.status == 0 {
        return 0;
    }
    let told = run.told.as_slice();
    if told.starts_with(b"shamir: line 1: 11 ") || told.starts_with(b"shamir: line 2: 11 ") {
        11
    } else if told.starts_with(b"shamir: line 1: 12 ") {
        12
    } else {
        1
    }
}

// A tab, a carriage return and a space separate words; each other byte is one of a word.
#[test]
fn separators(rt: HostRuntime) -> Result<(), Fail> {
    let alloc = rt.alloc();
    let back =
        b"enlarge academic academic agency result length solution fridge kidney coal piece deal husband erode duke ajar critical decision keyboard";
    for byte in 0..=255u8 {
        let text = joined(alloc, b"duckling", byte, back)?;
        let separates = matches!(byte, 9 | 13 | 32);
        let unknown = Some(WordError::UnknownWord { position: 1 });
        let refusal = if separates { None } else { unknown };
        equal_for(&rt, byte, parse(text.as_slice()).err(), refusal);
    }
    Ok(())
}

// For each letter a word that no other letter completes.
const WORDS: [(&[u8], u8, &[u8]); 26] = [
    (b"", b'a', b"cid"),
    (b"", b'b', b"eam"),
    (b"a", b'c', b"id"),
    (b"aci", b'd', b""),
    (b"acn", b'e', b""),
    (b"", b'f', b"act"),
    (b"ca", b'g', b"e"),
    (b"bot", b'h', b""),
    (b"ac", b'i', b"d"),
    (b"a", b'j', b"ar"),
    (b"bi", b'k', b"e"),
    (b"a", b'l', b"to"),
    (b"bea", b'm', b""),
    (b"ac", b'n', b"e"),
    (b"alt", b'o', b""),
    (b"fli", b'p', b""),
    (b"e", b'q', b"uip"),
    (b"aja", b'r', b""),
    (b"axi", b's', b""),
    (b"al", b't', b"o"),
    (b"a", b'u', b"nt"),
    (b"di", b'v', b"e"),
    (b"a", b'w', b"ay"),
    (b"a", b'x', b"is"),
    (b"awa", b'y', b""),
    (b"", b'z', b"ero"),
];

// A known word alone is refused for the number of words.
#[test]
fn letters(rt: HostRuntime) -> Result<(), Fail> {
    let alloc = rt.alloc();
    for (front, letter, back) in WORDS {
        for byte in 0..=255u8 {
            let text = joined(alloc, front, byte, back)?;
            let known = byte == letter || byte == letter.to_ascii_uppercase();
            let one = Some(WordError::WordCount { words: 1 });
            let unknown = Some(WordError::UnknownWord { position: 1 });
            let refusal = if known { one } else { unknown };
            equal_for(&rt, byte, parse(text.as_slice()).err(), refusal);
        }
    }
    Ok(())
}

// A line feed ends a line, a number sign begins a comment, and separators stand apart.
#[test]
fn lines(rt: HostRuntime) -> Result<(), Fail> {
    let alloc = rt.alloc();
    let mnemonic = ONE_OF_ONE.as_bytes();
    for byte in 0..=255u8 {
        let two = joined(alloc, mnemonic, byte, mnemonic)?;
        let refusal = match byte {
            10 => 0,
            9 | 13 | 32 => 12,
            _ => 11,
        };
        equal_for(&rt, byte, told_of(alloc, two.as_slice()), refusal);
        let alone = joined(alloc, b"", byte, b"\n")?;
        let refusal = if matches!(byte, 9 | 10 | 13 | 32 | 35) {
            0
        } else {
            11
        };
        equal_for(&rt, byte, told_of(alloc, alone.as_slice()), refusal);
        let comment = joined(alloc, b" ", byte, b" comment")?;
        let refusal = if byte == 35 { 0 } else { 11 };
        equal_for(&rt, byte, told_of(alloc, comment.as_slice()), refusal);
    }
    Ok(())
}

#[test]
fn printable_bytes(rt: HostRuntime) {
    for byte in 0..=255u8 {
        let refusal = check_passphrase(&[b'a', byte]).err();
        let bad = Some(BadPassphrase { position: 2 });
        let printable = 32 <= byte && byte <= 126;
        equal_for(&rt, byte, refusal, if printable { None } else { bad });
    }
}

// A secret whose digits are no digits is refused with the status of a command line, and else too few random bytes.
#[test]
fn hexadecimal_digits(rt: HostRuntime) -> Result<(), Fail> {
    let alloc = rt.alloc();
    for byte in 0..=127u8 {
        let digit = char::from(byte);
        let secret = format!(in alloc; "bb54aac4b89dc868{digit}a37d9cc21b2cece")?;
        let run = run_on(alloc, &create("1of1", secret.as_str()), b"");
        let is_digit = matches!(byte, b'0'..=b'9' | b'A'..=b'F' | b'a'..=b'f');
        let lacks_bytes = run.told.as_slice().starts_with(b"shamir: 43 ");
        equal_for(
            &rt,
            byte,
            (run.status == 2, lacks_bytes),
            (!is_digit, is_digit),
        );
    }
    Ok(())
}

// The bytes of plans and of names: digits and what stands between them.
#[test]
fn bytes_of_plans_and_names(rt: HostRuntime) -> Result<(), Fail> {
    let alloc = rt.alloc();
    let plans: [(&[u8], u8, &[u8]); 4] = [
        (b"1", b'o', b"f1"),
        (b"1o", b'f', b"1"),
        (b"1", b'/', b"1of1"),
        (b"1/1of1", b',', b"1of1"),
    ];
    let names: [(&[u8], u8, &[u8]); 2] = [(b"0", b'.', b"0"), (b"0.0", b'+', b"1.0")];
    for byte in 0..=255u8 {
        for (front, between, back) in plans {
            let text = joined(alloc, front, byte, back)?;
            let taken = Plan::parse_bytes(text.as_slice()).is_ok();
            equal_for(&rt, byte, taken, byte == between);
        }
        for (front, between, back) in names {
            let text = joined(alloc, front, byte, back)?;
            let taken = parse_quorum(text.as_slice()).is_ok();
            equal_for(&rt, byte, taken, byte == between);
        }
        let code = match Plan::parse_bytes(&[b'1', b'o', b'f', byte]) {
            Ok(_) => 0,
            Err(error) => error.cause().code,
        };
        let expected = match byte {
            b'1' => 0,
            b'2'..=b'9' => 34,
            _ => 31,
        };
        equal_for(&rt, byte, code, expected);
        let taken = parse_quorum(&[b'0', b'.', byte]).is_ok();
        equal_for(&rt, byte, taken, matches!(byte, b'0'..=b'9'));
    }
    Ok(())
}
