//! Tests of `s39_kdf` without its cipher, and examples of its doc comments in the order of the files. Their values come from
//! outside: published vectors, RFC 4231, RFC 7914, and what Python's hashlib and hmac compute.
use s39_kdf::{
    BadFingerprint, BadPassphrase, BadSecretLength, MAC_BYTES, MAX_DERIVED_BYTES, check_passphrase,
    check_secret, check_secret_length, fingerprint, hmac, parse_fingerprint, pbkdf2,
};
use sha2::{Digest, Sha256};
use std::test::Fail;

// The test cases of RFC 4231, section 4, except the one with a truncated digest.
#[test]
fn hmac_vectors(rt: HostRuntime) {
    let mut ascending = [0; 25];
    for i in 0..25u8 {
        ascending[i as usize] = i + 1;
    }
    let cases: [(&[u8], &[u8], &[u8; 32]); 6] = [
        (
            &[0x0b; 20],
            b"Hi There",
            b"\xb0\x34\x4c\x61\xd8\xdb\x38\x53\x5c\xa8\xaf\xce\xaf\x0b\xf1\x2b\
              \x88\x1d\xc2\x00\xc9\x83\x3d\xa7\x26\xe9\x37\x6c\x2e\x32\xcf\xf7",
        ),
        (
            b"Jefe",
            b"what do ya want for nothing?",
            b"\x5b\xdc\xc1\x46\xbf\x60\x75\x4e\x6a\x04\x24\x26\x08\x95\x75\xc7\
              \x5a\x00\x3f\x08\x9d\x27\x39\x83\x9d\xec\x58\xb9\x64\xec\x38\x43",
        ),
        (
            &[0xaa; 20],
            &[0xdd; 50],
            b"\x77\x3e\xa9\x1e\x36\x80\x0e\x46\x85\x4d\xb8\xeb\xd0\x91\x81\xa7\
              \x29\x59\x09\x8b\x3e\xf8\xc1\x22\xd9\x63\x55\x14\xce\xd5\x65\xfe",
        ),
        (
            &ascending,
            &[0xcd; 50],
            b"\x82\x55\x8a\x38\x9a\x44\x3c\x0e\xa4\xcc\x81\x98\x99\xf2\x08\x3a\
              \x85\xf0\xfa\xa3\xe5\x78\xf8\x07\x7a\x2e\x3f\xf4\x67\x29\x66\x5b",
        ),
        (
            &[0xaa; 131],
            b"Test Using Larger Than Block-Size Key - Hash Key First",
            b"\x60\xe4\x31\x59\x1e\xe0\xb6\x7f\x0d\x8a\x26\xaa\xcb\xf5\xb7\x7f\
              \x8e\x0b\xc6\x21\x37\x28\xc5\x14\x05\x46\x04\x0f\x0e\xe3\x7f\x54",
        ),
        (
            &[0xaa; 131],
            b"This is a test using a larger than block-size key and a larger than block-size data. \
              The key needs to be hashed before being used by the HMAC algorithm.",
            b"\x9b\x09\xff\xa7\x1b\x94\x2f\xcb\x27\x63\x5f\xbc\xd5\xb0\xe9\x44\
              \xbf\xdc\x63\x64\x4f\x07\x13\x93\x8a\x7f\x51\x53\x5c\x3a\x35\xe2",
        ),
    ];
    for (key, message, digest) in cases {
        assert_eq!(rt; &hmac(&[key], &[message]), digest);
    }
}

// A key of exactly one block isn't hashed, and a longer one is. Python's hmac computes the values.
#[test]
fn hmac_of_long_keys(rt: HostRuntime) {
    let mut ascending = [0; 124];
    for i in 0..124u8 {
        ascending[i as usize] = i;
    }
    let cases: [(&[u8], &[u8], &[u8; MAC_BYTES]); 3] = [
        (
            &ascending[..64],
            b"A key of exactly one block",
            b"\x6b\x12\xc8\x73\x12\xa4\xbd\x6d\x6d\x06\xfa\x1c\x01\x4a\x40\xd3\
              \xe7\x43\x60\x82\x62\x1e\xde\x5e\x3d\x74\x57\x3f\xa1\xf1\xe8\xea",
        ),
        (
            &[0xaa; 65],
            b"text",
            b"\xc1\x5e\x09\x99\x4f\x48\xe7\x74\x0d\x16\x8a\x8a\xa0\xe0\x25\x38\
              \xf7\x9e\x28\x0c\x75\x6f\x3d\x79\x58\x47\x2c\xef\x86\x04\x4f\x98",
        ),
        (
            &ascending,
            b"A digest key of 124 bytes",
            b"\x7d\x79\xf9\x67\x33\xec\x70\x5d\xe1\xaf\xb1\xd0\x3c\x9f\xcf\xf9\
              \x89\xb0\xe8\x78\xbd\x55\xc0\x52\x74\x99\x6b\x57\x67\x53\x77\x7d",
        ),
    ];
    for (key, message, digest) in cases {
        assert_eq!(rt; &hmac(&[key], &[message]), digest);
    }
    let digest = Sha256::digest(&[0xaa; 65]);
    assert_eq!(rt; &hmac(&[&digest], &[b"text"]), cases[1].2);
}

#[test]
fn hmac_joins_parts(rt: HostRuntime) {
    let parts = hmac(
        &[b"Je", b"", b"fe"],
        &[b"what do ya want ", b"for nothing?"],
    );
    assert_eq!(rt;
        &parts,
        b"\x5b\xdc\xc1\x46\xbf\x60\x75\x4e\x6a\x04\x24\x26\x08\x95\x75\xc7\
              \x5a\x00\x3f\x08\x9d\x27\x39\x83\x9d\xec\x58\xb9\x64\xec\x38\x43"
    );
}

// Keys of 64 bytes from the password `password` and the salt `salt`, as Python's hashlib computes them. A
// shorter key is the beginning of a longer one.
#[test]
fn pbkdf2_vectors(rt: HostRuntime) {
    let cases: [(u32, &[u8; MAX_DERIVED_BYTES]); 3] = [
        (
            1,
            b"\x12\x0f\xb6\xcf\xfc\xf8\xb3\x2c\x43\xe7\x22\x52\x56\xc4\xf8\x37\
              \xa8\x65\x48\xc9\x2c\xcc\x35\x48\x08\x05\x98\x7c\xb7\x0b\xe1\x7b\
              \x4d\xbf\x3a\x2f\x3d\xad\x33\x77\x26\x4b\xb7\xb8\xe8\x33\x0d\x4e\
              \xfc\x74\x51\x41\x86\x17\xda\xbe\xf6\x83\x73\x53\x61\xcd\xc1\x8c",
        ),
        (
            2,
            b"\xae\x4d\x0c\x95\xaf\x6b\x46\xd3\x2d\x0a\xdf\xf9\x28\xf0\x6d\xd0\
              \x2a\x30\x3f\x8e\xf3\xc2\x51\xdf\xd6\xe2\xd8\x5a\x95\x47\x4c\x43\
              \x83\x06\x51\xaf\xcb\x5c\x86\x2f\x0b\x24\x9b\xd0\x31\xf7\xa6\x75\
              \x20\xd1\x36\x47\x0f\x5e\xc2\x71\xec\xe9\x1c\x07\x77\x32\x53\xd9",
        ),
        (
            4096,
            b"\xc5\xe4\x78\xd5\x92\x88\xc8\x41\xaa\x53\x0d\xb6\x84\x5c\x4c\x8d\
              \x96\x28\x93\xa0\x01\xce\x4e\x11\xa4\x96\x38\x73\xaa\x98\x13\x4a\
              \xf7\xad\x98\xc1\xb4\x58\xce\x3f\xd7\x4c\xa3\x5b\xeb\xa3\xcd\xa7\
              \xb8\xd1\x03\x8d\x6a\x87\x07\x1b\x91\x8f\x83\x74\x05\xf3\xfe\x77",
        ),
    ];
    for (iterations, key) in cases {
        assert!(rt; iterations > 0);
        for len in [0, 1, 20, 32, 33, 63, 64] {
            assert!(rt; len <= key.len());
            let mut derived = [0; MAX_DERIVED_BYTES];
            let derived = &mut derived[..len];
            pbkdf2(&[b"pass", b"word"], &[b"sa", b"lt"], iterations, derived);
            assert_eq!(rt; &*derived, &key[..len]);
        }
    }
}

#[test]
fn passphrases(rt: HostRuntime) {
    let cases: [(&[u8], Option<usize>); 6] = [
        (b"a\x07", Some(2)),
        (b"\x1f", Some(1)),
        (b"\x7f", Some(1)),
        (b" ~", None),
        (b"", None),
        (b"correct horse\n", Some(14)),
    ];
    for (passphrase, position) in cases {
        let refusal = check_passphrase(passphrase).err();
        assert_eq!(rt;
            refusal,
            position.map(|position| BadPassphrase { position })
        );
    }
    assert_eq!(rt; BadPassphrase { position: 1 }.cause().code, 41);
}

#[test]
fn secret_lengths(rt: HostRuntime) {
    let bytes = [7; 130];
    for (len, is_accepted) in [
        (0, false),
        (14, false),
        (15, false),
        (16, true),
        (17, false),
        (18, true),
        (64, true),
        (65, false),
        (66, true),
        (126, true),
        (127, false),
        (128, true),
        (129, false),
        (130, false),
    ] {
        assert!(rt; len <= bytes.len());
        match check_secret(&bytes[..len]) {
            Ok(secret) => assert!(rt; is_accepted && secret.as_slice() == &bytes[..len]),
            Err(refusal) => assert!(rt; !is_accepted && refusal.bytes == len),
        }
    }
    assert_eq!(rt; BadSecretLength { bytes: 14 }.cause().code, 42);
}

// Python's hmac computes the values.
#[test]
fn fingerprints(rt: HostRuntime) {
    let cases: [(&[u8], &[u8; 4]); 3] = [
        (
            b"\xbb\x54\xaa\xc4\xb8\x9d\xc8\x68\xba\x37\xd9\xcc\x21\xb2\xce\xce",
            b"\xdf\x41\xd8\xfe",
        ),
        (&[], b"\x8a\x2f\x50\x6b"),
        (&[0; 128], b"\x08\xfe\x16\xb5"),
    ];
    for (secret, expected) in cases {
        assert_eq!(rt; &fingerprint(secret), expected);
    }
}

// The secret is that of a published vector; Python's hmac computes its fingerprint.
#[test]
fn noted_fingerprints(rt: HostRuntime) {
    let secret = b"\xee\x8a\xbf\x3a\x09\xf0\x61\xde\x63\x9c\xc3\xc3\x6f\x41\xf9\xce";
    for text in [b"deae74ed", b"DEAE74ED", b"dEAe74eD"] {
        let noted = parse_fingerprint(text);
        assert_eq!(rt; noted.map(|noted| noted.bytes), Ok(*b"\xde\xae\x74\xed"));
        assert_eq!(rt; noted.map(|noted| noted.is_of(secret)), Ok(true));
        assert_eq!(rt; noted.map(|noted| noted.is_of(&secret[1..])), Ok(false));
    }
    for other in [b"dfae74ed", b"deaf74ed", b"deae75ed", b"deae74ec"] {
        let noted = parse_fingerprint(other);
        assert_eq!(rt; noted.map(|noted| noted.is_of(secret)), Ok(false));
    }
    let texts: [&[u8]; 10] = [
        b"",
        b"deae74e",
        b"deae74ed0",
        b"deae74ed00",
        b"deae74eg",
        b"deae74e\xff",
        b"deae 74ed",
        b" deae74e",
        b"deae74e\n",
        b"0xdeae74",
    ];
    for text in texts {
        assert_eq!(rt; parse_fingerprint(text), Err(BadFingerprint));
    }
    assert_eq!(rt; BadFingerprint.cause().code, 44);
}

#[test]
fn examples_of_fingerprinting(rt: HostRuntime) {
    let secret = b"\xbb\x54\xaa\xc4\xb8\x9d\xc8\x68\xba\x37\xd9\xcc\x21\xb2\xce\xce";
    assert_eq!(rt; fingerprint(secret), *b"\xdf\x41\xd8\xfe");
}

#[test]
fn examples_of_key_derivation(rt: HostRuntime) {
    let mut key = [0; 8];
    pbkdf2(&[b"pass", b"wd"], &[b"salt"], 1, &mut key);
    assert_eq!(rt; key, *b"\x55\xac\x04\x6e\x56\xe3\x08\x9f");
}

#[test]
fn examples_of_keyed_hash(rt: HostRuntime) {
    let mac = hmac(&[b"Jefe"], &[b"what do ya want ", b"for nothing?"]);
    assert_eq!(rt; &mac[..4], b"\x5b\xdc\xc1\x46".as_slice());
}

#[test]
fn examples_of_limits(rt: HostRuntime) -> Result<(), Fail> {
    let cause = BadPassphrase { position: 2 }.cause();
    assert_eq!(rt; (cause.code, cause.first), (41, 2));

    let cause = BadSecretLength { bytes: 14 }.cause();
    assert_eq!(rt; (cause.code, cause.first), (42, 14));

    assert_eq!(rt; check_passphrase(b"correct horse"), Ok(()));
    let refusal = check_passphrase(b"a\x07").err();
    assert_eq!(rt; refusal, Some(BadPassphrase { position: 2 }));

    assert_eq!(rt; check_secret_length(16), Ok(()));
    assert_eq!(rt; check_secret_length(17), Err(BadSecretLength { bytes: 17 }));

    let secret = check_secret(&[7; 16])?;
    assert_eq!(rt; secret.as_slice(), &[7; 16][..]);
    let refusal = check_secret(&[7; 14]).err();
    assert_eq!(rt; refusal, Some(BadSecretLength { bytes: 14 }));
    Ok(())
}

#[test]
fn examples_of_noted(rt: HostRuntime) -> Result<(), Fail> {
    let noted = parse_fingerprint(b"df41d8fe")?;
    let secret = b"\xbb\x54\xaa\xc4\xb8\x9d\xc8\x68\xba\x37\xd9\xcc\x21\xb2\xce\xce";
    assert!(rt; noted.is_of(secret));
    assert!(rt; !noted.is_of(&[7; 16]));

    let noted = parse_fingerprint(b"DF41d8fe")?;
    assert_eq!(rt; noted.bytes, *b"\xdf\x41\xd8\xfe");
    assert_eq!(rt; parse_fingerprint(b"df41d8f"), Err(BadFingerprint));
    Ok(())
}
