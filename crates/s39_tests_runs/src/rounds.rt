//! Rounds that are undone one by one.
use s39_kdf::{Params, Round, check_secret, undo_round};
use s39_reading::decrypt_round;
use std::process::Abort;
use std::test::Fail;

#[derive(Clone, Copy)]
struct Case<'a> {
    params: Params,
    passphrase: &'a [u8],
    /// The encrypted secret, and what the rounds 3, 2, 1 and 0 give.
    texts: [&'a [u8]; 5],
}

#[test]
fn rounds(rt: HostRuntime) -> Result<(), Fail> {
    examples(&rt)?;
    // Two published vectors, and a secret of 66 bytes, whose keys have two blocks.
    let cases = [
        Case {
            params: Params {
                id: 7945,
                extendable: false,
                exponent: 0,
            },
            passphrase: b"TREZOR",
            texts: [
                b"\x11\xbc\x60\x9d\x21\x74\x7c\x49\xba\x78\xc0\x70\x12\x93\xe4\x17",
                b"\xba\x78\xc0\x70\x12\x93\xe4\x17\xdb\xda\xa6\xdf\x35\x14\xc7\xa6",
                b"\xdb\xda\xa6\xdf\x35\x14\xc7\xa6\xc5\x64\x4e\xf3\xeb\x05\x3d\xe2",
                b"\xc5\x64\x4e\xf3\xeb\x05\x3d\xe2\xba\x37\xd9\xcc\x21\xb2\xce\xce",
                b"\xbb\x54\xaa\xc4\xb8\x9d\xc8\x68\xba\x37\xd9\xcc\x21\xb2\xce\xce",
            ],
        },
        Case {
            params: Params {
                id: 29019,
                extendable: true,
                exponent: 3,
            },
            passphrase: b"TREZOR",
            texts: [
                b"\x9e\x87\x73\xc7\x31\x3b\x11\xd3\xbf\xe2\x19\x29\x19\x76\x43\x3b",
                b"\xbf\xe2\x19\x29\x19\x76\x43\x3b\x3b\x28\xda\xde\xd8\x9e\xb0\xab",
                b"\x3b\x28\xda\xde\xd8\x9e\xb0\xab\xfc\xc8\x4b\x57\x3a\xa1\x36\x84",
                b"\xfc\xc8\x4b\x57\x3a\xa1\x36\x84\x43\x51\xd2\x88\xa8\x38\xf4\x5e",
                b"\x16\x79\xb4\x51\x6e\x0e\xe5\x95\x43\x51\xd2\x88\xa8\x38\xf4\x5e",
            ],
        },
        Case {
            params: Params {
                id: 4660,
                extendable: false,
                exponent: 0,
            },
            passphrase: b"correct horse",
            texts: [
                b"\xb2\xa8\x4b\x8c\x2f\x37\x9b\x22\x90\xdf\x8a\x0a\x13\x77\x6f\xb0\
                  \xfb\x41\x73\xbe\xbd\x29\x75\xc5\xe8\x1e\xae\x18\x02\x2b\xf6\x80\
                  \x3e\x0e\x0b\xe6\x21\x16\x4c\x57\xd5\xb7\xc7\x47\x1a\xc7\x2f\xa8\
                  \x35\x52\x21\x7a\x13\xd4\xce\xae\x70\x5c\x17\xd7\xaa\xcf\xa6\x66\
                  \xe2\xaf",
                b"\x0e\x0b\xe6\x21\x16\x4c\x57\xd5\xb7\xc7\x47\x1a\xc7\x2f\xa8\x35\
                  \x52\x21\x7a\x13\xd4\xce\xae\x70\x5c\x17\xd7\xaa\xcf\xa6\x66\xe2\
                  \xaf\xef\x06\x39\x48\x75\xac\x2a\x4b\xc6\x75\xec\x32\xa5\xd4\xe1\
                  \x77\x5f\x71\x5f\x28\x92\x4d\x56\x49\x15\x9e\xe5\xb2\x7f\xb7\xa3\
                  \x66\x4f",
                b"\xef\x06\x39\x48\x75\xac\x2a\x4b\xc6\x75\xec\x32\xa5\xd4\xe1\x77\
                  \x5f\x71\x5f\x28\x92\x4d\x56\x49\x15\x9e\xe5\xb2\x7f\xb7\xa3\x66\
                  \x4f\x67\xfc\x86\x9b\x32\x5e\x77\xdc\xa9\x07\x7d\x43\x82\x6f\x2f\
                  \xa3\x6c\x01\x85\xc2\x36\xf4\xdf\xde\x07\xa9\xf1\x21\xd9\xc5\x45\
                  \x5f\xec",
                b"\x67\xfc\x86\x9b\x32\x5e\x77\xdc\xa9\x07\x7d\x43\x82\x6f\x2f\xa3\
                  \x6c\x01\x85\xc2\x36\xf4\xdf\xde\x07\xa9\xf1\x21\xd9\xc5\x45\x5f\
                  \xec\x21\x22\x23\x24\x25\x26\x27\x28\x29\x2a\x2b\x2c\x2d\x2e\x2f\
                  \x30\x31\x32\x33\x34\x35\x36\x37\x38\x39\x3a\x3b\x3c\x3d\x3e\x3f\
                  \x40\x41",
                b"\x00\x01\x02\x03\x04\x05\x06\x07\x08\x09\x0a\x0b\x0c\x0d\x0e\x0f\
                  \x10\x11\x12\x13\x14\x15\x16\x17\x18\x19\x1a\x1b\x1c\x1d\x1e\x1f\
                  \x20\x21\x22\x23\x24\x25\x26\x27\x28\x29\x2a\x2b\x2c\x2d\x2e\x2f\
                  \x30\x31\x32\x33\x34\x35\x36\x37\x38\x39\x3a\x3b\x3c\x3d\x3e\x3f\
                  \x40\x41",
            ],
        },
    ];
    check_cases(&rt, &cases)
}

/// Checks that each round gives the next text.
fn check_cases(rt: &impl Abort, cases: &[Case]) -> Result<(), Fail> {
    for case in cases {
        for i in 0..4u8 {
            let round = Round::new(3 - i).expect(rt, "a round");
            let text = case.texts[i as usize];
            let undone = decrypt_round(round, case.passphrase, case.params, text)?;
            assert_eq!(rt; undone.as_slice(), case.texts[i as usize + 1]);
        }
    }
    Ok(())
}

fn examples(rt: &impl Abort) -> Result<(), Fail> {
    let last = Round::new(3).unwrap();
    assert_eq!(rt; last.number, 3);
    assert_eq!(rt; Round::new(4), None);

    let params = Params {
        id: 7945,
        extendable: false,
        exponent: 0,
    };
    let encrypted = check_secret(
        b"\x11\xbc\x60\x9d\x21\x74\x7c\x49\xba\x78\xc0\x70\x12\x93\xe4\x17",
    )?;
    let third = undo_round(Round::new(3).unwrap(), &encrypted, b"TREZOR", params);
    assert_eq!(rt; &third[..8], b"\xba\x78\xc0\x70\x12\x93\xe4\x17".as_slice());
    assert_eq!(rt; &third[8..], b"\xdb\xda\xa6\xdf\x35\x14\xc7\xa6".as_slice());

    let params = Params {
        id: 7945,
        extendable: false,
        exponent: 0,
    };
    let first = b"\xc5\x64\x4e\xf3\xeb\x05\x3d\xe2\xba\x37\xd9\xcc\x21\xb2\xce\xce";
    let round = Round::new(0).unwrap();
    let secret = decrypt_round(round, b"TREZOR", params, first)?;
    assert!(rt; secret.starts_with(b"\xbb\x54\xaa\xc4\xb8\x9d\xc8\x68"));
    let fault = decrypt_round(round, b"TREZOR", params, &first[1..]).err();
    assert_eq!(rt; fault.map(|fault| fault.refusal.cause().code), Some(42));
    Ok(())
}
