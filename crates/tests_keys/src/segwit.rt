//! Tests of `bech32`. Their values are the valid and invalid addresses of BIP-350, which replace those of BIP-173, and a text of 91
//! letters.
use bech32::{AddressError, read_segwit_address, segwit_address};

#[test]
fn valid_addresses(rt: HostRuntime) {
    let cases: [(&[u8], &[u8], &[u8], u8, &[u8]); 8] = [
        (
            b"bc",
            b"BC1QW508D6QEJXTDG4Y5R3ZARVARY0C5XW7KV8F3T4",
            b"bc1qw508d6qejxtdg4y5r3zarvary0c5xw7kv8f3t4",
            0,
            b"\x75\x1e\x76\xe8\x19\x91\x96\xd4\x54\x94\x1c\x45\xd1\xb3\xa3\x23\xf1\x43\x3b\xd6",
        ),
        (
            b"tb",
            b"tb1qrp33g0q5c5txsp9arysrx4k6zdkfs4nce4xj0gdcccefvpysxf3q0sl5k7",
            b"tb1qrp33g0q5c5txsp9arysrx4k6zdkfs4nce4xj0gdcccefvpysxf3q0sl5k7",
            0,
            b"\x18\x63\x14\x3c\x14\xc5\x16\x68\x04\xbd\x19\x20\x33\x56\xda\x13\x6c\x98\x56\x78\
              \xcd\x4d\x27\xa1\xb8\xc6\x32\x96\x04\x90\x32\x62",
        ),
        (
            b"bc",
            b"bc1pw508d6qejxtdg4y5r3zarvary0c5xw7kw508d6qejxtdg4y5r3zarvary0c5xw7kt5nd6y",
            b"bc1pw508d6qejxtdg4y5r3zarvary0c5xw7kw508d6qejxtdg4y5r3zarvary0c5xw7kt5nd6y",
            1,
            b"\x75\x1e\x76\xe8\x19\x91\x96\xd4\x54\x94\x1c\x45\xd1\xb3\xa3\x23\xf1\x43\x3b\xd6\
              \x75\x1e\x76\xe8\x19\x91\x96\xd4\x54\x94\x1c\x45\xd1\xb3\xa3\x23\xf1\x43\x3b\xd6",
        ),
        (b"bc", b"BC1SW50QGDZ25J", b"bc1sw50qgdz25j", 16, b"\x75\x1e"),
        (
            b"bc",
            b"bc1zw508d6qejxtdg4y5r3zarvaryvaxxpcs",
            b"bc1zw508d6qejxtdg4y5r3zarvaryvaxxpcs",
            2,
            b"\x75\x1e\x76\xe8\x19\x91\x96\xd4\x54\x94\x1c\x45\xd1\xb3\xa3\x23",
        ),
        (
            b"tb",
            b"tb1qqqqqp399et2xygdj5xreqhjjvcmzhxw4aywxecjdzew6hylgvsesrxh6hy",
            b"tb1qqqqqp399et2xygdj5xreqhjjvcmzhxw4aywxecjdzew6hylgvsesrxh6hy",
            0,
            b"\x00\x00\x00\xc4\xa5\xca\xd4\x62\x21\xb2\xa1\x87\x90\x5e\x52\x66\x36\x2b\x99\xd5\
              \xe9\x1c\x6c\xe2\x4d\x16\x5d\xab\x93\xe8\x64\x33",
        ),
        (
            b"tb",
            b"tb1pqqqqp399et2xygdj5xreqhjjvcmzhxw4aywxecjdzew6hylgvsesf3hn0c",
            b"tb1pqqqqp399et2xygdj5xreqhjjvcmzhxw4aywxecjdzew6hylgvsesf3hn0c",
            1,
            b"\x00\x00\x00\xc4\xa5\xca\xd4\x62\x21\xb2\xa1\x87\x90\x5e\x52\x66\x36\x2b\x99\xd5\
              \xe9\x1c\x6c\xe2\x4d\x16\x5d\xab\x93\xe8\x64\x33",
        ),
        (
            b"bc",
            b"bc1p0xlxvlhemja6c4dqv22uapctqupfhlxm9h8z3k2e72q4k9hcz7vqzk5jj0",
            b"bc1p0xlxvlhemja6c4dqv22uapctqupfhlxm9h8z3k2e72q4k9hcz7vqzk5jj0",
            1,
            b"\x79\xbe\x66\x7e\xf9\xdc\xbb\xac\x55\xa0\x62\x95\xce\x87\x0b\x07\x02\x9b\xfc\xdb\
              \x2d\xce\x28\xd9\x59\xf2\x81\x5b\x16\xf8\x17\x98",
        ),
    ];
    for (prefix, text, lower, version, program) in cases {
        let read = read_segwit_address(prefix, text).expect(&rt, "an address is read");
        assert!(rt; read.version == version);
        assert!(rt; read.program.as_slice() == program);
        assert!(rt; prefix.len() <= 18);
        assert!(rt; version <= 16);
        assert!(rt; program.len() <= 40);
        assert!(rt; segwit_address(prefix, version, program).as_slice() == lower);
    }
}

#[test]
fn invalid_addresses(rt: HostRuntime) {
    let cases: [(&[u8], &[u8], AddressError); 16] = [
        (
            b"bc",
            b"tc1p0xlxvlhemja6c4dqv22uapctqupfhlxm9h8z3k2e72q4k9hcz7vq5zuyut",
            AddressError::BadPrefix,
        ),
        (
            b"bc",
            b"bc1p0xlxvlhemja6c4dqv22uapctqupfhlxm9h8z3k2e72q4k9hcz7vqh2y7hd",
            AddressError::BadChecksum,
        ),
        (
            b"tb",
            b"tb1z0xlxvlhemja6c4dqv22uapctqupfhlxm9h8z3k2e72q4k9hcz7vqglt7rf",
            AddressError::BadChecksum,
        ),
        (
            b"bc",
            b"BC1S0XLXVLHEMJA6C4DQV22UAPCTQUPFHLXM9H8Z3K2E72Q4K9HCZ7VQ54WELL",
            AddressError::BadChecksum,
        ),
        (
            b"bc",
            b"bc1qw508d6qejxtdg4y5r3zarvary0c5xw7kemeawh",
            AddressError::BadChecksum,
        ),
        (
            b"tb",
            b"tb1q0xlxvlhemja6c4dqv22uapctqupfhlxm9h8z3k2e72q4k9hcz7vq24jc47",
            AddressError::BadChecksum,
        ),
        (
            b"bc",
            b"bc1p38j9r5y49hruaue7wxjce0updqjuyyx0kh56v8s25huc6995vvpql3jow4",
            AddressError::BadLetter { position: 59 },
        ),
        (
            b"bc",
            b"BC130XLXVLHEMJA6C4DQV22UAPCTQUPFHLXM9H8Z3K2E72Q4K9HCZ7VQ7ZWS8R",
            AddressError::BadVersion,
        ),
        (b"bc", b"bc1pw5dgrnzv", AddressError::BadProgram),
        (
            b"bc",
            b"bc1p0xlxvlhemja6c4dqv22uapctqupfhlxm9h8z3k2e72q4k9hcz7v8n0nx0muaewav253zgeav",
            AddressError::BadProgram,
        ),
        (
            b"bc",
            b"BC1QR508D6QEJXTDG4Y5R3ZARVARYV98GJ9P",
            AddressError::BadProgram,
        ),
        (
            b"tb",
            b"tb1p0xlxvlhemja6c4dqv22uapctqupfhlxm9h8z3k2e72q4k9hcz7vq47Zagq",
            AddressError::MixedCase,
        ),
        (
            b"bc",
            b"bc1p0xlxvlhemja6c4dqv22uapctqupfhlxm9h8z3k2e72q4k9hcz7v07qwwzcrf",
            AddressError::BadPadding,
        ),
        (
            b"tb",
            b"tb1p0xlxvlhemja6c4dqv22uapctqupfhlxm9h8z3k2e72q4k9hcz7vpggkg4j",
            AddressError::BadPadding,
        ),
        (b"bc", b"bc1gmk9yu", AddressError::BadLength),
        (b"bc", &[b'q'; 91], AddressError::BadLength),
    ];
    for (prefix, text, error) in cases {
        match read_segwit_address(prefix, text) {
            Ok(_) => panic!(&rt; "an address is read"),
            Err(found) => assert_eq!(rt; found, error),
        }
    }
}
