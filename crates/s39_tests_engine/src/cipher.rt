//! Tests of the cipher of `s39_kdf`, and the examples of its doc comments. Their values come from outside: published vectors,
//! and what Python's hashlib computes.
use s39_kdf::{MAX_SECRET_BYTES, Params, check_secret, decrypt, encrypt};
use std::process::Abort;
use std::test::Fail;

#[derive(Clone, Copy)]
struct Case<'a> {
    params: Params,
    passphrase: &'a [u8],
    secret: &'a [u8],
    encrypted: &'a [u8],
}

/// Checks that the secret of each case encrypts to the bytes that it states, and that these decrypt to the secret.
fn check_cases(rt: &impl Abort, cases: &[Case]) -> Result<(), Fail> {
    for case in cases {
        let secret = check_secret(case.secret).expect(rt, "a secret");
        let encrypted = encrypt(&secret, case.passphrase, case.params);
        assert_eq!(rt; encrypted.as_slice(), case.encrypted);
        let decrypted = decrypt(&encrypted, case.passphrase, case.params);
        assert_eq!(rt; decrypted.as_slice(), case.secret);
    }
    Ok(())
}

// Vectors of SLIP-0039 with a single share, whose value is the encrypted secret.
#[test]
fn cipher_vectors(rt: HostRuntime) -> Result<(), Fail> {
    let cases = [
        Case {
            params: Params {
                id: 7945,
                extendable: false,
                exponent: 0,
            },
            passphrase: b"TREZOR",
            secret: b"\xbb\x54\xaa\xc4\xb8\x9d\xc8\x68\xba\x37\xd9\xcc\x21\xb2\xce\xce",
            encrypted: b"\x11\xbc\x60\x9d\x21\x74\x7c\x49\xba\x78\xc0\x70\x12\x93\xe4\x17",
        },
        Case {
            params: Params {
                id: 29172,
                extendable: false,
                exponent: 0,
            },
            passphrase: b"TREZOR",
            secret: b"\x98\x9b\xaf\x9d\xca\xad\x5b\x10\xca\x33\xdf\xd8\xcc\x75\xe4\x24\
              \x77\x02\x5d\xce\x88\xae\x83\xe7\x5a\x23\x00\x86\xa0\xe0\x0e\x92",
            encrypted: b"\xd7\x72\xfe\xe4\x64\x24\xe1\x00\xbe\xc1\x6d\x16\x5f\x1f\xcc\x34\
              \x6d\x1e\x8d\x90\x9d\xa5\x80\xf9\xf9\xf0\x4e\xa5\xc7\x88\xd2\x12",
        },
        Case {
            params: Params {
                id: 29019,
                extendable: true,
                exponent: 3,
            },
            passphrase: b"TREZOR",
            secret: b"\x16\x79\xb4\x51\x6e\x0e\xe5\x95\x43\x51\xd2\x88\xa8\x38\xf4\x5e",
            encrypted: b"\x9e\x87\x73\xc7\x31\x3b\x11\xd3\xbf\xe2\x19\x29\x19\x76\x43\x3b",
        },
    ];
    check_cases(&rt, &cases)
}

// Secrets of 64, 66 and 128 bytes under a passphrase of 64, as Python's hashlib computes them.
#[test]
fn cipher_of_long_secrets(rt: HostRuntime) -> Result<(), Fail> {
    let mut ascending = [0; MAX_SECRET_BYTES];
    for i in 0..128u8 {
        ascending[i as usize] = i;
    }
    let cases = [
        Case {
            params: Params {
                id: 4660,
                extendable: false,
                exponent: 0,
            },
            passphrase: b" !\"#$%&'()*+,-./0123456789:;<=>?@ABCDEFGHIJKLMNOPQRSTUVWXYZ[\\]^_",
            secret: &ascending[..64],
            encrypted: b"\x42\xc4\xe8\x24\x6c\x07\xc9\xc8\xcd\x51\xc2\x98\x62\x36\x37\xe4\
              \x82\x4c\xf9\xff\xb4\xd8\x6e\x16\x4f\xdb\xa4\xeb\x20\xd6\xee\xab\
              \xab\x17\x5e\x21\x99\xc8\xc5\xec\x30\x53\xd6\x79\xda\x17\xee\xcf\
              \x18\x4a\xc0\x5f\x9a\x38\x8b\x3b\xde\xc8\x44\xee\xc9\xb6\x75\xcb",
        },
        Case {
            params: Params {
                id: 4660,
                extendable: true,
                exponent: 0,
            },
            passphrase: b" !\"#$%&'()*+,-./0123456789:;<=>?@ABCDEFGHIJKLMNOPQRSTUVWXYZ[\\]^_",
            secret: &ascending[..64],
            encrypted: b"\x9d\x1a\x0d\x2d\xbd\x3e\xd7\x37\x64\x9a\xc1\x14\x5c\xdb\xdb\xd4\
              \x08\x55\x76\xca\x65\x44\x6a\x83\xa6\x62\x35\xb1\xf8\xa6\x0d\x00\
              \xb3\x50\x25\xf4\xde\xd0\x98\xca\xbf\xb5\x59\x4b\x9f\x31\xa7\x6f\
              \x88\x2a\xcb\x3e\x2e\x75\xa7\xea\x62\xbd\x71\xac\xb7\xb6\x1b\x48",
        },
        Case {
            params: Params {
                id: 4660,
                extendable: false,
                exponent: 0,
            },
            passphrase: b" !\"#$%&'()*+,-./0123456789:;<=>?@ABCDEFGHIJKLMNOPQRSTUVWXYZ[\\]^_",
            secret: &ascending[..66],
            encrypted: b"\x5a\xae\x32\x10\x62\xf3\xfc\x5f\x71\x10\x42\x23\xbe\x45\xf1\x4f\
              \xae\x85\xaa\x00\x2f\x26\x60\x94\xa0\xe2\x76\xe8\x1c\xf8\x94\xc2\
              \xac\x88\xc3\xc7\xe7\x6f\x58\x61\xff\x98\xc6\xd7\xf0\x5e\xa4\x9f\
              \x66\x87\x9b\xdd\xeb\x51\x7e\xd6\xe8\xe6\x4d\x5d\xb7\x6c\xba\xdd\
              \x9b\x6f",
        },
        Case {
            params: Params {
                id: 4660,
                extendable: true,
                exponent: 0,
            },
            passphrase: b" !\"#$%&'()*+,-./0123456789:;<=>?@ABCDEFGHIJKLMNOPQRSTUVWXYZ[\\]^_",
            secret: &ascending[..128],
            encrypted: b"\xd0\xb1\xb9\xfa\x80\x09\xd5\x9a\xe3\xe5\xc0\x2b\x43\xe5\xff\x14\
              \x55\xa9\x79\x79\x55\x1c\x36\xf3\x7e\xec\xf7\x2b\xef\x3b\x41\x3f\
              \x58\xc1\x8e\xf0\x71\xef\x53\xef\x43\xa9\xd3\x42\xc0\x8a\xed\xbc\
              \x96\x34\x45\x3b\x83\xac\x65\x51\xbf\x1d\x56\x6e\x8b\xe3\x45\x68\
              \xbd\x14\xaf\xb1\x0c\x3d\xbe\x7f\x67\x2b\xb3\x53\x90\xb4\x35\x30\
              \x9e\x4e\xaf\x09\xb8\x7e\xa6\x82\x5e\x4b\x10\x62\x75\xdb\xbb\x88\
              \x25\x41\x57\x34\xd2\xb1\x4b\xd0\x52\xa2\xd2\x8e\x3d\x16\x8f\xd0\
              \xe7\xc2\xab\xe8\x8b\xb7\xe3\x63\x60\xcb\x4d\x18\xfe\xba\x8f\x79",
        },
    ];
    check_cases(&rt, &cases)
}

#[test]
fn examples_of_cipher(rt: HostRuntime) -> Result<(), Fail> {
    let params = Params {
        id: 7945,
        extendable: false,
        exponent: 0,
    };
    let secret = check_secret(b"\xbb\x54\xaa\xc4\xb8\x9d\xc8\x68\xba\x37\xd9\xcc\x21\xb2\xce\xce")?;
    let encrypted = encrypt(&secret, b"TREZOR", params);
    assert_eq!(rt; &encrypted[..4], b"\x11\xbc\x60\x9d".as_slice());

    let params = Params {
        id: 7945,
        extendable: false,
        exponent: 0,
    };
    let bytes = check_secret(b"\x11\xbc\x60\x9d\x21\x74\x7c\x49\xba\x78\xc0\x70\x12\x93\xe4\x17")?;
    let secret = decrypt(&bytes, b"TREZOR", params);
    assert_eq!(rt; &secret[..4], b"\xbb\x54\xaa\xc4".as_slice());
    Ok(())
}

#[test]
fn examples_of_the_crate(rt: HostRuntime) -> Result<(), Fail> {
    let params = Params {
        id: 4660,
        extendable: true,
        exponent: 0,
    };
    let secret = check_secret(&[7; 16])?;
    let encrypted = encrypt(&secret, b"correct horse", params);
    assert_eq!(rt; decrypt(&encrypted, b"correct horse", params), secret);
    Ok(())
}

#[test]
fn examples_of_params(rt: HostRuntime) {
    let params = Params {
        id: 7945,
        extendable: false,
        exponent: 2,
    };
    assert_eq!(rt; params.round_iterations(), 10_000);
}
