//! Tests of `addresses`. Their values come from outside: accounts of the seed of BIP-84's example, whose public keys a plain program in
//! Python computes, BIP-341's vector of a key with no script, BIP-86's examples,
//! those of ERC-55, and the well-known addresses of the private key 1.
use addresses::{
    Address, Kind, erc55, ethereum_address, output_key, p2pkh, p2sh_p2wpkh, p2tr, p2wpkh,
};
use curve_points::{Point, generator};

#[test]
fn hashes_of_keys(rt: HostRuntime) {
    let cases: [(&[u8; 33], &[u8]); 4] = [
        (
            b"\x03\xaa\xeb\x52\xdd\x74\x94\xc3\x61\x04\x9d\xe6\x7c\xc6\x80\xe8\x3e\
              \xbc\xbb\xbd\xbe\xb1\x36\x37\xd9\x2c\xd8\x45\xf7\x03\x08\xaf\x5e",
            b"1LqBGSKuX5yYUonjxT5qGfpUsXKYYWeabA",
        ),
        (
            b"\x02\xdf\xca\xec\x53\x20\x10\xd7\x04\x86\x0e\x20\xad\x6a\xff\x8c\xf3\
              \x47\x71\x64\xff\xb0\x2f\x93\xd4\x5c\x55\x2d\xad\xc7\x0e\xd2\x4f",
            b"1Ak8PffB2meyfYnbXZR9EGfLfFZVpzJvQP",
        ),
        (
            b"\x03\x49\x8b\x3a\xc8\xe8\x82\xc5\xd6\x93\x54\x0c\x49\xad\xf2\x2b\x7a\
              \x1b\x99\xc1\xbb\x80\x47\x96\x67\x39\xbf\xe8\xcd\xeb\x27\x2e\x64",
            b"1J3J6EvPrv8q6AC3VCjWV45Uf3nssNMRtH",
        ),
        (
            b"\x03\xf2\x6f\x24\x2c\x48\x51\xfb\xc7\x4c\x81\x7d\xbb\x1c\xd3\xc9\x99\
              \x93\xcd\x07\x84\x70\x11\x7d\x8d\x04\x73\xde\x32\x73\xad\x1c\x92",
            b"13vKxXzHXXd8HquAYdpkJoi9ULVXUgfpS5",
        ),
    ];
    for (key, address) in cases {
        assert!(rt; p2pkh(key).as_slice() == address);
    }
}

#[test]
fn nested_programs(rt: HostRuntime) {
    let cases: [(&[u8; 33], &[u8]); 4] = [
        (
            b"\x03\x9b\x3b\x69\x4b\x8f\xc5\xb5\xe0\x7f\xb0\x69\xc7\x83\xca\xc7\x54\
              \xf5\xd3\x8c\x3e\x08\xbe\xd1\x96\x0e\x31\xfd\xb1\xdd\xa3\x5c\x24",
            b"37VucYSaXLCAsxYyAPfbSi9eh4iEcbShgf",
        ),
        (
            b"\x02\x2a\x42\x1f\xa4\xa6\x5a\x87\xd1\xc3\xe4\x23\x81\x55\xd8\x5f\x7b\
              \xd2\xc5\xbb\x87\x63\x2f\x33\x1b\x57\x22\xf1\x10\x58\x6a\xa1\x98",
            b"3LtMnn87fqUeHBUG414p9CWwnoV6E2pNKS",
        ),
        (
            b"\x02\xb4\x01\x9c\x64\xbb\x13\x47\xbd\x72\x9a\x6a\xfa\x11\x34\x8b\xd8\
              \x0b\xe4\xeb\xc3\x14\xdf\x03\xf6\x54\xf7\x86\xbf\xe2\xb4\xa7\x28",
            b"34K56kSjgUCUSD8GTtuF7c9Zzwokbs6uZ7",
        ),
        (
            b"\x02\xfc\x27\x95\x64\xcb\x56\xcf\xe4\xa9\xff\x24\x73\x72\x74\x76\xad\
              \x6a\xd5\xf6\xb4\xc5\xbb\x01\x2f\xfb\xf4\xa4\xfb\xb0\xf7\x13\xc2",
            b"3516F2wmK51jVRrggEJsTUBNWMSLLjzvJ2",
        ),
    ];
    for (key, address) in cases {
        assert!(rt; p2sh_p2wpkh(key).as_slice() == address);
    }
}

#[test]
fn programs(rt: HostRuntime) {
    let cases: [(&[u8; 33], &[u8]); 4] = [
        (
            b"\x03\x30\xd5\x4f\xd0\xdd\x42\x0a\x6e\x5f\x8d\x36\x24\xf5\xf3\x48\x2c\
              \xae\x35\x0f\x79\xd5\xf0\x75\x3b\xf5\xbe\xef\x9c\x2d\x91\xaf\x3c",
            b"bc1qcr8te4kr609gcawutmrza0j4xv80jy8z306fyu",
        ),
        (
            b"\x03\xe7\x75\xfd\x51\xf0\xdf\xb8\xcd\x86\x5d\x9f\xf1\xcc\xa2\xa1\x58\
              \xcf\x65\x1f\xe9\x97\xfd\xc9\xfe\xe9\xc1\xd3\xb5\xe9\x95\xea\x77",
            b"bc1qnjg0jd8228aq7egyzacy8cys3knf9xvrerkf9g",
        ),
        (
            b"\x03\x02\x53\x24\x88\x8e\x42\x9a\xb8\xe3\xdb\xaf\x1f\x78\x02\x64\x8b\
              \x9c\xd0\x1e\x9b\x41\x84\x85\xc5\xfa\x4c\x1b\x9b\x57\x00\xe1\xa6",
            b"bc1q8c6fshw2dlwun7ekn9qwf37cu2rn755upcp6el",
        ),
        (
            b"\x03\xdc\xf7\x1d\xf7\x1c\x75\x5b\x3a\xf4\x6f\x7e\x84\xb4\x18\x2e\x62\
              \x91\xce\xc5\xa8\xc6\x30\xf7\x75\x63\x8a\x73\x9d\xa2\x9a\xdc\xb6",
            b"bc1qggnasd834t54yulsep6fta8lpjekv4zj6gv5rf",
        ),
    ];
    for (key, address) in cases {
        assert!(rt; p2wpkh(key).as_slice() == address);
    }
}

#[test]
fn output_keys(rt: HostRuntime) {
    let cases: [(&[u8; 32], &[u8; 32], &[u8]); 4] = [
        (
            b"\xd6\x88\x9c\xb0\x81\x03\x6e\x0f\xae\xfa\x3a\x35\x15\x7a\xd7\x10\
              \x86\xb1\x23\xb2\xb1\x44\xb6\x49\x79\x8b\x49\x4c\x30\x0a\x96\x1d",
            b"\x53\xa1\xf6\xe4\x54\xdf\x1a\xa2\x77\x6a\x28\x14\xa7\x21\x37\x2d\
              \x62\x58\x05\x0d\xe3\x30\xb3\xc6\xd1\x0e\xe8\xf4\xe0\xdd\xa3\x43",
            b"bc1p2wsldez5mud2yam29q22wgfh9439spgduvct83k3pm50fcxa5dps59h4z5",
        ),
        (
            b"\xcc\x8a\x4b\xc6\x4d\x89\x7b\xdd\xc5\xfb\xc2\xf6\x70\xf7\xa8\xba\
              \x0b\x38\x67\x79\x10\x6c\xf1\x22\x3c\x6f\xc5\xd7\xcd\x6f\xc1\x15",
            b"\xa6\x08\x69\xf0\xdb\xcf\x1d\xc6\x59\xc9\xce\xcb\xaf\x80\x50\x13\
              \x5e\xa9\xe8\xcd\xc4\x87\x05\x3f\x1d\xc6\x88\x09\x49\xdc\x68\x4c",
            b"bc1p5cyxnuxmeuwuvkwfem96lqzszd02n6xdcjrs20cac6yqjjwudpxqkedrcr",
        ),
        (
            b"\x83\xdf\xe8\x5a\x31\x51\xd2\x51\x72\x90\xda\x46\x1f\xe2\x81\x55\
              \x91\xef\x69\xf2\xb1\x8a\x2c\xe6\x3f\x01\x69\x7a\x8b\x31\x31\x45",
            b"\xa8\x2f\x29\x94\x4d\x65\xb8\x6a\xe6\xb5\xe5\xcc\x75\xe2\x94\xea\
              \xd6\xc5\x93\x91\xa1\xed\xc5\xe0\x16\xe3\x49\x8c\x67\xfc\x7b\xbb",
            b"bc1p4qhjn9zdvkux4e44uhx8tc55attvtyu358kutcqkudyccelu0was9fqzwh",
        ),
        (
            b"\x39\x9f\x1b\x2f\x43\x93\xf2\x9a\x18\xc9\x37\x85\x9c\x5d\xd8\xa7\
              \x73\x50\x10\x31\x57\xeb\x88\x0f\x02\xe8\xc0\x82\x14\x27\x7c\xef",
            b"\x88\x2d\x74\xe5\xd0\x57\x2d\x5a\x81\x6c\xef\x00\x41\xa9\x6b\x6c\
              \x1d\xe8\x32\xf6\xf9\x67\x6d\x96\x05\xc4\x4d\x5e\x9a\x97\xd3\xdc",
            b"bc1p3qkhfews2uk44qtvauqyr2ttdsw7svhkl9nkm9s9c3x4ax5h60wqwruhk7",
        ),
    ];
    for (internal, output, address) in cases {
        assert!(rt; output_key(internal) == Some(*output));
        let text = p2tr(internal).expect(&rt, "an address");
        assert!(rt; text.as_slice() == address);
    }
    assert!(rt; output_key(&[0; 32]).is_none());
    assert!(rt; p2tr(&[255; 32]).is_none());
}

#[test]
fn addresses_of_the_generator(rt: HostRuntime) {
    let address = Address::P2wpkh(
        *b"\x75\x1e\x76\xe8\x19\x91\x96\xd4\x54\x94\x1c\x45\xd1\xb3\xa3\x23\xf1\x43\x3b\xd6",
    );
    assert!(rt;
        address.text().as_slice() == b"bc1qw508d6qejxtdg4y5r3zarvary0c5xw7kv8f3t4".as_slice()
    );
    let key = Point::Finite(generator());
    assert!(rt; Address::of(Kind::P2wpkh, &key) == Some(address));
    let cases: [(Kind, &[u8]); 4] = [
        (Kind::P2pkh, b"1BgGZ9tcN4rm9KBzDn7KprQz87SZ26SAMH"),
        (Kind::P2shP2wpkh, b"3JvL6Ymt8MVWiCNHC7oWU6nLeHNJKLZGLN"),
        (
            Kind::P2tr,
            b"bc1pmfr3p9j00pfxjh0zmgp99y8zftmd3s5pmedqhyptwy6lm87hf5sspknck9",
        ),
        (
            Kind::Ethereum,
            b"0x7E5F4552091A69125d5DfCb7b8C2659029395Bdf",
        ),
    ];
    for (kind, text) in cases {
        let address = Address::of(kind, &key).expect(&rt, "the generator has an address");
        assert!(rt; address.text().as_slice() == text);
    }
    assert!(rt; Address::of(Kind::P2pkh, &Point::Infinity).is_none());
}

#[test]
fn ethereum_addresses(rt: HostRuntime) {
    let coordinates = b"\x37\xb0\xbb\x7a\x82\x88\xd3\x8e\xd4\x9a\x52\x4b\x5d\xc9\x8c\xff\
              \x3e\xb5\xca\x82\x4c\x9f\x9d\xc0\xdf\xdb\x3d\x9c\xd6\x00\xf2\x99\
              \xa6\x17\x99\x12\xb7\x45\x1c\x09\x89\x6c\x40\x98\xec\xa7\xce\x6b\
              \x2e\x58\x33\x06\x72\x79\x5e\x84\x7c\x4d\x6a\xf4\x4e\x02\x42\x30";
    assert!(rt;
        ethereum_address(coordinates).as_slice()
            == b"0x9858EfFD232B4033E47d90003D41EC34EcaEda94".as_slice()
    );
    let cases: [(&[u8; 20], &[u8]); 8] = [
        (
            b"\x5a\xae\xb6\x05\x3f\x3e\x94\xc9\xb9\xa0\
              \x9f\x33\x66\x94\x35\xe7\xef\x1b\xea\xed",
            b"0x5aAeb6053F3E94C9b9A09f33669435E7Ef1BeAed",
        ),
        (
            b"\xfb\x69\x16\x09\x5c\xa1\xdf\x60\xbb\x79\
              \xce\x92\xce\x3e\xa7\x4c\x37\xc5\xd3\x59",
            b"0xfB6916095ca1df60bB79Ce92cE3Ea74c37c5d359",
        ),
        (
            b"\xdb\xf0\x3b\x40\x7c\x01\xe7\xcd\x3c\xbe\
              \xa9\x95\x09\xd9\x3f\x8d\xdd\xc8\xc6\xfb",
            b"0xdbF03B407c01E7cD3CBea99509d93f8DDDC8C6FB",
        ),
        (
            b"\xd1\x22\x0a\x0c\xf4\x7c\x7b\x9b\xe7\xa2\
              \xe6\xba\x89\xf4\x29\x76\x2e\x7b\x9a\xdb",
            b"0xD1220A0cf47c7B9Be7A2E6BA89F429762e7b9aDb",
        ),
        (
            b"\x52\x90\x84\x00\x09\x85\x27\x88\x6e\x0f\
              \x70\x30\x06\x98\x57\xd2\xe4\x16\x9e\xe7",
            b"0x52908400098527886E0F7030069857D2E4169EE7",
        ),
        (
            b"\x86\x17\xe3\x40\xb3\xd0\x1f\xa5\xf1\x1f\
              \x30\x6f\x40\x90\xfd\x50\xe2\x38\x07\x0d",
            b"0x8617E340B3D01FA5F11F306F4090FD50E238070D",
        ),
        (
            b"\xde\x70\x9f\x21\x02\x30\x62\x20\x92\x10\
              \x60\x31\x47\x15\x62\x90\x80\xe2\xfb\x77",
            b"0xde709f2102306220921060314715629080e2fb77",
        ),
        (
            b"\x27\xb1\xfd\xb0\x47\x52\xbb\xc5\x36\x00\
              \x7a\x92\x0d\x24\xac\xb0\x45\x56\x1c\x26",
            b"0x27b1fdb04752bbc536007a920d24acb045561c26",
        ),
    ];
    for (account, address) in cases {
        assert!(rt; erc55(account).as_slice() == address);
    }
}
