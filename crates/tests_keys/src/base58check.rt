//! Tests of `base58`. Their values come from outside: the examples of BIP-32, BIP-44, BIP-49 and BIP-84, and what a plain program in Python
//! computes.
use base58::{Base58Error, base58check, read_base58check};

#[test]
fn texts_and_bytes(rt: HostRuntime) {
    let cases: [(&[u8], &[u8]); 7] = [
        (
            b"1LqBGSKuX5yYUonjxT5qGfpUsXKYYWeabA",
            b"\x00\xd9\x86\xed\x01\xb7\xa2\x22\x25\xa7\x0e\xdb\xf2\xba\x7c\xfb\x63\xa1\x5c\xb3\
              \xaa",
        ),
        (
            b"37VucYSaXLCAsxYyAPfbSi9eh4iEcbShgf",
            b"\x05\x3f\xb6\xe9\x58\x12\xe5\x7b\xb4\x69\x1f\x9a\x4a\x62\x88\x62\xa6\x1a\x4f\x76\
              \x9b",
        ),
        (
            b"xpub661MyMwAqRbcFtXgS5sYJABqqG9YLmC4Q1Rdap9gSE8NqtwybGhePY2gZ29ESFjqJoCu1Rupje8Y\
              tGqsefD265TMg7usUDFdp6W1EGMcet8",
            b"\x04\x88\xb2\x1e\x00\x00\x00\x00\x00\x00\x00\x00\x00\x87\x3d\xff\x81\xc0\x2f\x52\
              \x56\x23\xfd\x1f\xe5\x16\x7e\xac\x3a\x55\xa0\x49\xde\x3d\x31\x4b\xb4\x2e\xe2\x27\
              \xff\xed\x37\xd5\x08\x03\x39\xa3\x60\x13\x30\x15\x97\xda\xef\x41\xfb\xe5\x93\xa0\
              \x2c\xc5\x13\xd0\xb5\x55\x27\xec\x2d\xf1\x05\x0e\x2e\x8f\xf4\x9c\x85\xc2",
        ),
        (
            b"xprv9s21ZrQH143K3QTDL4LXw2F7HEK3wJUD2nW2nRk4stbPy6cq3jPPqjiChkVvvNKmPGJxWUtg6LnF\
              5kejMRNNU3TGtRBeJgk33yuGBxrMPHi",
            b"\x04\x88\xad\xe4\x00\x00\x00\x00\x00\x00\x00\x00\x00\x87\x3d\xff\x81\xc0\x2f\x52\
              \x56\x23\xfd\x1f\xe5\x16\x7e\xac\x3a\x55\xa0\x49\xde\x3d\x31\x4b\xb4\x2e\xe2\x27\
              \xff\xed\x37\xd5\x08\x00\xe8\xf3\x2e\x72\x3d\xec\xf4\x05\x1a\xef\xac\x8e\x2c\x93\
              \xc9\xc5\xb2\x14\x31\x38\x17\xcd\xb0\x1a\x14\x94\xb9\x17\xc8\x43\x6b\x35",
        ),
        (
            b"zpub6rFR7y4Q2AijBEqTUquhVz398htDFrtymD9xYYfG1m4wAcvPhXNfE3EfH1r1ADqtfSdVCToUG868\
              RvUUkgDKf31mGDtKsAYz2oz2AGutZYs",
            b"\x04\xb2\x47\x46\x03\x7e\xf3\x2b\xdb\x80\x00\x00\x00\x4a\x53\xa0\xab\x21\xb9\xdc\
              \x95\x86\x9c\x4e\x92\xa1\x61\x19\x4e\x03\xc0\xef\x3f\xf5\x01\x4a\xc6\x92\xf4\x33\
              \xc4\x76\x54\x90\xfc\x02\x70\x7a\x62\xfd\xac\xc2\x6e\xa9\xb6\x3b\x1c\x19\x79\x06\
              \xf5\x6e\xe0\x18\x0d\x0b\xcf\x19\x66\xe1\xa2\xda\x34\xf5\xf3\xa0\x9a\x9b",
        ),
        (b"3QJmnh", b""),
        (b"11146EAsf", b"\x00\x00\x00"),
    ];
    for (text, payload) in cases {
        assert!(rt; base58check(payload).as_slice() == text);
        let read = read_base58check(text).expect(&rt, "a text is read");
        assert!(rt; read.as_slice() == payload);
    }
}

#[test]
fn refused_texts(rt: HostRuntime) {
    let cases: [(&[u8], Base58Error); 13] = [
        (
            b"1LqBG0KuX5yYUonjxT5qGfpUsXKYYWeabA",
            Base58Error::BadLetter { position: 5 },
        ),
        (
            b"lLqBGSKuX5yYUonjxT5qGfpUsXKYYWeabA",
            Base58Error::BadLetter { position: 0 },
        ),
        (
            b"1LqBGSKuX5yYUonjxT5qGfpUsXKYYWeabA ",
            Base58Error::BadLetter { position: 34 },
        ),
        (b"\xc3\xa9", Base58Error::BadLetter { position: 0 }),
        (b"", Base58Error::BadLength),
        (b"111", Base58Error::BadLength),
        (
            b"4mssEnnsamrNWtbdubTWJLzUUAmxD6nsYPyRRx7f4dm64YaBu2JNRAzPdfnUxZ9UH45pQQTgKqTDgrQi\
              SneM8k1h7XqHizSNnyUgMNYPZsbSLNhRz",
            Base58Error::BadLength,
        ),
        (&[b'z'; 200], Base58Error::BadLength),
        (&[b'1'; 113], Base58Error::BadLength),
        (
            b"1LqBGSKuX5yYUonjxT5qGfpUsXKYYWeabB",
            Base58Error::BadChecksum,
        ),
        (
            b"1LqBGSKuX5YyUonjxT5qGfpUsXKYYWeabA",
            Base58Error::BadChecksum,
        ),
        (
            b"11LqBGSKuX5yYUonjxT5qGfpUsXKYYWeabA",
            Base58Error::BadChecksum,
        ),
        (b"1111", Base58Error::BadChecksum),
    ];
    for (text, error) in cases {
        match read_base58check(text) {
            Ok(_) => panic!(&rt; "a text is read"),
            Err(found) => assert_eq!(rt; found, error),
        }
    }
}
