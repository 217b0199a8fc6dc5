//! Tests of `accounts`, and the examples of its doc comments. The values come from outside: the account of the seed of BIP-84's and
//! BIP-86's examples, which a plain program in Python computes, as it computes those that the BIPs print; BIP-32's test vector 5;
//! BIP-350's addresses; ERC-55's; and the same keys and hashes behind other versions, which that program writes too.
use accounts::{
    Chain, NoKey, Shown, ShownError, account, address, chain_key, master_text, public_text,
    read_shown,
};
use addresses::{Address, Kind};
use bip32::ExtendedKey;
use std::test::Fail;

const SEED: &[u8; 64] = b"\x5e\xb0\x0b\xbd\xdc\xf0\x69\x08\x48\x89\xa8\xab\x91\x55\x56\x81\
      \x65\xf5\xc4\x53\xcc\xb8\x5e\x70\x81\x1a\xae\xd6\xf6\xda\x5f\xc1\
      \x9a\x5a\xc4\x0b\x38\x9c\xd3\x70\xd0\x86\x20\x6d\xec\x8a\xa6\xc4\
      \x3d\xae\xa6\x69\x0f\x20\xad\x3d\x8d\x48\xb2\xd2\xce\x9e\x38\xe4";

/// A kind of address, the text of its first account, and addresses of this.
type Row = (Kind, &'static [u8], [(Chain, u32, &'static [u8]); 4]);

const ACCOUNTS: [Row; 4] = [
    (
        Kind::P2pkh,
        b"xpub6BosfCnifzxcFwrSzQiqu2DBVTshkCXacvNsWGYJVVhhawA7d4R5WSWGFNbi8Aw6ZRc1brxMyWMz\
              G3DSSSSoekkudhUd9yLb6qx39T9nMdj",
        [
            (Chain::Receive, 0, b"1LqBGSKuX5yYUonjxT5qGfpUsXKYYWeabA"),
            (Chain::Receive, 1, b"1Ak8PffB2meyfYnbXZR9EGfLfFZVpzJvQP"),
            (Chain::Change, 0, b"1J3J6EvPrv8q6AC3VCjWV45Uf3nssNMRtH"),
            (Chain::Change, 1, b"13vKxXzHXXd8HquAYdpkJoi9ULVXUgfpS5"),
        ],
    ),
    (
        Kind::P2shP2wpkh,
        b"ypub6Ww3ibxVfGzLrAH1PNcjyAWenMTbbAosGNB6VvmSEgytSER9azLDWCxoJwW7Ke7icmizBMXrzBx9\
              979FfaHxHcrArf3zbeJJJUZPf663zsP",
        [
            (Chain::Receive, 0, b"37VucYSaXLCAsxYyAPfbSi9eh4iEcbShgf"),
            (Chain::Receive, 1, b"3LtMnn87fqUeHBUG414p9CWwnoV6E2pNKS"),
            (Chain::Change, 0, b"34K56kSjgUCUSD8GTtuF7c9Zzwokbs6uZ7"),
            (Chain::Change, 1, b"3516F2wmK51jVRrggEJsTUBNWMSLLjzvJ2"),
        ],
    ),
    (
        Kind::P2wpkh,
        b"zpub6rFR7y4Q2AijBEqTUquhVz398htDFrtymD9xYYfG1m4wAcvPhXNfE3EfH1r1ADqtfSdVCToUG868\
              RvUUkgDKf31mGDtKsAYz2oz2AGutZYs",
        [
            (
                Chain::Receive,
                0,
                b"bc1qcr8te4kr609gcawutmrza0j4xv80jy8z306fyu",
            ),
            (
                Chain::Receive,
                1,
                b"bc1qnjg0jd8228aq7egyzacy8cys3knf9xvrerkf9g",
            ),
            (
                Chain::Change,
                0,
                b"bc1q8c6fshw2dlwun7ekn9qwf37cu2rn755upcp6el",
            ),
            (
                Chain::Change,
                1,
                b"bc1qggnasd834t54yulsep6fta8lpjekv4zj6gv5rf",
            ),
        ],
    ),
    (
        Kind::P2tr,
        b"xpub6BgBgsespWvERF3LHQu6CnqdvfEvtMcQjYrcRzx53QJjSxarj2afYWcLteoGVky7D3UKDP9QyrLp\
              rQ3VCECoY49yfdDEHGCtMMj92pReUsQ",
        [
            (
                Chain::Receive,
                0,
                b"bc1p5cyxnuxmeuwuvkwfem96lqzszd02n6xdcjrs20cac6yqjjwudpxqkedrcr",
            ),
            (
                Chain::Receive,
                1,
                b"bc1p4qhjn9zdvkux4e44uhx8tc55attvtyu358kutcqkudyccelu0was9fqzwh",
            ),
            (
                Chain::Change,
                0,
                b"bc1p3qkhfews2uk44qtvauqyr2ttdsw7svhkl9nkm9s9c3x4ax5h60wqwruhk7",
            ),
            (
                Chain::Change,
                1,
                b"bc1ptdg60grjk9t3qqcqczp4tlyy3z47yrx9nhlrjsmw36q5a72lhdrs9f00nj",
            ),
        ],
    ),
];

fn found<T>(value: Result<T, NoKey>) -> Result<T, Fail> {
    match value {
        Ok(value) => Ok(value),
        Err(_) => Err(Fail::new("there is no such key")),
    }
}

fn master_of(seed: &[u8]) -> Result<ExtendedKey, Fail> {
    match ExtendedKey::master(seed) {
        Some(master) => Ok(master),
        None => Err(Fail::new("the seed has no master key")),
    }
}

#[test]
fn examples(rt: HostRuntime) -> Result<(), Fail> {
    let master = master_of(SEED)?;
    let first = found(account(&master, Kind::P2wpkh, 0))?;
    let text = public_text(Kind::P2wpkh, &first);
    assert!(rt;
        text.as_slice()
            .starts_with(b"zpub6rFR7y4Q2AijBEqTUquhVz398htDFrtymD9xYYfG1m4wA")
    );
    let receive = found(chain_key(&first.key, Chain::Receive))?;
    let address = found(address(Kind::P2wpkh, &receive, 0))?;
    assert!(rt;
        address.text().as_slice() == b"bc1qcr8te4kr609gcawutmrza0j4xv80jy8z306fyu".as_slice()
    );
    let shown = read_shown(b"bc1qcr8te4kr609gcawutmrza0j4xv80jy8z306fyu");
    assert_eq!(rt; shown, Ok(Shown::Address(address)));
    assert_eq!(rt;
        read_shown(b"BC1QCR8TE4KR609GCAWUTMRZA0J4XV80JY8Z306FYU"),
        shown
    );
    assert_eq!(rt;
        read_shown(b"73C5DA0A"),
        Ok(Shown::Fingerprint(*b"\x73\xc5\xda\x0a"))
    );
    Ok(())
}

#[test]
fn accounts_and_addresses(rt: HostRuntime) -> Result<(), Fail> {
    let master = master_of(SEED)?;
    assert!(rt; master_text(&master).as_slice() == XPRV);
    for (kind, text, addresses) in ACCOUNTS {
        let account = found(account(&master, kind, 0))?;
        assert!(rt; public_text(kind, &account).as_slice() == text);
        match read_shown(text) {
            Ok(Shown::PublicKey(key)) => assert!(rt;
                key.bytes.ends_with(&account.key.public_key())
            ),
            _ => panic!(&rt; "the key isn't read"),
        }
        for (chain, index, text) in addresses {
            assert!(rt; index < 2);
            let below = found(chain_key(&account.key, chain))?;
            let address = found(address(kind, &below, index))?;
            assert!(rt; address.text().as_slice() == text);
            assert!(rt; read_shown(text) == Ok(Shown::Address(address)));
        }
    }
    Ok(())
}

const XPRV: &[u8] =
    b"xprv9s21ZrQH143K3GJpoapnV8SFfukcVBSfeCficPSGfubmSFDxo1kuHnLisriDvSnRRuL2Qrg5ggqH\
              KNVpxR86QEC8w35uxmGoggxtQTPvfUu";

#[test]
fn ethereum(rt: HostRuntime) -> Result<(), Fail> {
    let account = found(account(&master_of(SEED)?, Kind::Ethereum, 0))?;
    let below = found(chain_key(&account.key, Chain::Receive))?;
    let address = found(address(Kind::Ethereum, &below, 0))?;
    let text = b"0x9858EfFD232B4033E47d90003D41EC34EcaEda94";
    assert!(rt; address.text().as_slice() == text.as_slice());
    assert!(rt; read_shown(text) == Ok(Shown::Address(address)));
    Ok(())
}

#[test]
fn refused_texts(rt: HostRuntime) {
    for (text, error) in REFUSED {
        match read_shown(text) {
            Ok(_) => panic!(&rt; "a text is read"),
            Err(found) => assert_eq!(rt; found, error),
        }
    }
}

const REFUSED: [(&[u8], ShownError); 43] = [
    (b"", ShownError::BadLength),
    (b"73c5da0", ShownError::BadLetter { position: 6 }),
    (b"73c5da0g", ShownError::BadLetter { position: 6 }),
    (
        b"1LqBGSKuX5yYUonjxT5qGfpUsXKYYWeabB",
        ShownError::BadChecksum,
    ),
    (
        b"1LqBG0KuX5yYUonjxT5qGfpUsXKYYWeabA",
        ShownError::BadLetter { position: 5 },
    ),
    (
        b"BC1qw508d6qejxtdg4y5r3zarvary0c5xw7kv8f3t4",
        ShownError::MixedCase,
    ),
    (
        b"bc1qw508d6qejxtdg4y5r3zarvary0c5xw7kv8f3t5",
        ShownError::BadChecksum,
    ),
    (
        b"bc1p38j9r5y49hruaue7wxjce0updqjuyyx0kh56v8s25huc6995vvpql3jow4",
        ShownError::BadLetter { position: 59 },
    ),
    (b"bc1gmk9yu", ShownError::BadLength),
    (
        b"bc1pw508d6qejxtdg4y5r3zarvary0c5xw7kw508d6qejxtdg4y5r3zarvary0c5xw7kt5nd6y",
        ShownError::UnknownKind,
    ),
    (b"BC1SW50QGDZ25J", ShownError::UnknownKind),
    (
        b"BC130XLXVLHEMJA6C4DQV22UAPCTQUPFHLXM9H8Z3K2E72Q4K9HCZ7VQ7ZWS8R",
        ShownError::UnknownKind,
    ),
    (
        b"bc1p0xlxvlhemja6c4dqv22uapctqupfhlxm9h8z3k2e72q4k9hcz7v07qwwzcrf",
        ShownError::UnknownKind,
    ),
    (
        b"tb1qrp33g0q5c5txsp9arysrx4k6zdkfs4nce4xj0gdcccefvpysxf3q0sl5k7",
        ShownError::OtherNetwork,
    ),
    (
        b"tb1qqqqqp399et2xygdj5xreqhjjvcmzhxw4aywxecjdzew6hylgvsesrxh6hy",
        ShownError::OtherNetwork,
    ),
    (
        b"tb1q0xlxvlhemja6c4dqv22uapctqupfhlxm9h8z3k2e72q4k9hcz7vq24jc47",
        ShownError::BadChecksum,
    ),
    (
        b"n1M8ZVQtL7QoFvGMg24D6b2ojWvFXCGpoS",
        ShownError::OtherNetwork,
    ),
    (
        b"2ND5QFikNgSoGmm7ikgNJKFAgEPpRxdJ6uE",
        ShownError::OtherNetwork,
    ),
    (
        b"Lf48XedjbkDbjcUu8b58YgtF5jgpff6imo",
        ShownError::UnknownKind,
    ),
    (
        b"LqBGSKuX5yYUonjxT5qGfpUsXKYY596e8",
        ShownError::UnknownKind,
    ),
    (
        b"0x5aAeb6053F3E94C9b9A09f33669435E7Ef1BeAeD",
        ShownError::BadChecksum,
    ),
    (
        b"0x5aaeb6053f3e94c9b9a09f33669435e7ef1beaed",
        ShownError::BadChecksum,
    ),
    (
        b"0x5aAeb6053F3E94C9b9A09f33669435E7Ef1BeAe",
        ShownError::BadLength,
    ),
    (
        b"0x5aAeb6053F3E94C9b9A09f33669435E7Ef1BeAeg",
        ShownError::BadLetter { position: 41 },
    ),
    (
        b"xprv9s21ZrQH143K24Mfq5zL5MhWK9hUhhGbd45hLXo2Pq2oqzMMo63oStZzFGTQQD3dC4H2D5GBj7vW\
              vSQaaBv5cxi9gafk7NF3pnBju6dwKvH",
        ShownError::PrivateKey,
    ),
    (
        b"xprv9s21ZrQH143K3GJpoapnV8SFfukcVBSfeCficPSGfubmSFDxo1kuHnLisriDvSnRRuL2Qrg5ggqH\
              KNVpxR86QEC8w35uxmGoggxtQTPvfUu",
        ShownError::PrivateKey,
    ),
    (
        b"yprvAHenZMvjzJwntky6ijyTjyMx7QBfHMoEAoyVVH2aKAYbmEeCLBGPahqvRJcHJddDWRLYFjuE1oS4\
              qUapFCAEkXDTiEmU67EmFYogHRVWq5x",
        ShownError::PrivateKey,
    ),
    (
        b"zprvAcV3s2bf8zVGk4ADZ6m5x4TTHNL7Dynj5vViGfvThAvUpLTRaqRxCmW4SWZsJYH8v4TM1DVnUTnc\
              imCNxtaFYku4aaTtg24FXGsKg4Tm5fR",
        ShownError::PrivateKey,
    ),
    (
        b"tprv8fVU32aAEuEPeH1WYx3LhXtSFZTRaFqjbFNPaJZ9R8fCVja44tSaUPZEKGpMK6McUDkWWMvRiVfK\
              R3Wzei6AmLoTNYHMAZ9KtvVTLZZdhvA",
        ShownError::PrivateKey,
    ),
    (
        b"uprv8zKjLhF5PamsVaCdPJpxucywRXbsWsqEWMtcMhT2o935YqPHKYc96TDNLUmwK11XsrsKFqWzBA1s\
              JL8ZNQWBZaV4EsymkTxpAeZ6j9DtT8t",
        ShownError::PrivateKey,
    ),
    (
        b"vprv9K9zeMuzYGKMLsPkDfcb7i5SbVkKTVpjRUQq96LvB9QxbwCWaCmhiWsWMgjXJufTHVz81K7YdpNR\
              Bck866vCMpAf7DgCLNnJSNck7jE7NEi",
        ShownError::PrivateKey,
    ),
    (
        b"tpubDCBWBScQPGv4Xk3JSbhw6wYYpayMjb2eAYyArpbSqQTbLDpphHGAetB6VQgVeftLML8vDSUEWcC2\
              xDi3qJJ3YCDChJDvqVzpgoYSuT52MhJ",
        ShownError::OtherNetwork,
    ),
    (
        b"upub5DK5kCmyDxLAi4H6VLMyGkvfyZSMvLZ5sapDA5reMUa4RdiRs5vPeFXrBkix8SyLLWFbMSAgbXJL\
              cBNkHMCmG3i72gPMQEt8Hfm6ydxa9N4",
        ShownError::OtherNetwork,
    ),
    (
        b"vpub5Y9M3sStNdseZMUDKh9bUr2B9XaorxYanhLRwUkXjUwwUjXf7k5xGKBzCxgY8MdFk9NQ6umF4Bet\
              VTzK13cn4HPhu25mz9hcZPpkNEQ4Gjp",
        ShownError::OtherNetwork,
    ),
    (
        b"Ypub6hYE67C5Pe4TXpCwmRySwBeVPE4QuBCfrJYmCvhjFGuzGDYFe7xvDd2L5HWmgWovCXnoDvZ3KP73\
              GVSmTN1mbUZBLWHT9Hd5GJHZ7uXrYU8",
        ShownError::UnknownKind,
    ),
    (
        b"DMwo58pR1QLEFihHiXPVykYB6fJmsTeHvyTp7hRThAtCX8CvYzgPcn8XnmdfHGMQzT7ayAmfo4z3gY5K\
              fbrZWZ6St24UVf2Qgo6oujFktLHdHY4",
        ShownError::UnknownKind,
    ),
    (
        b"xpub661MyMwAqRbcEYS8w7XLSVeEsBXy79zSzH1J8vCdxAZningWLdN3zgtU6LBpB85b3D2yc8sfvZU5\
              21AAwdZafEz7mnzBBsz4wKY5fTtTQBm",
        ShownError::BadKey,
    ),
    (
        b"xpub661MyMwAqRbcEYS8w7XLSVeEsBXy79zSzH1J8vCdxAZningWLdN3zgtU6Txnt3siSujt9RCVYsx4\
              qHZGc62TG4McvMGcAUjeuwZdduYEvFn",
        ShownError::BadKey,
    ),
    (
        b"xpub661MyMwAqRbcEYS8w7XLSVeEsBXy79zSzH1J8vCdxAZningWLdN3zgtU6N8ZMMXctdiCjxTNq964\
              yKkwrkBJJwpzZS4HS2fxvyYUA4q2Xe4",
        ShownError::BadKey,
    ),
    (
        b"xpub661no6RGEX3uJkY4bNnPcw4URcQTrSibUZ4NqJEw5eBkv7ovTwgiT91XX27VbEXGENhYRCf7hyEb\
              WrR3FewATdCEebj6znwMfQkhRYHRLpJ",
        ShownError::BadKey,
    ),
    (
        b"xpub661MyMwAuDcm6CRQ5N4qiHKrJ39Xe1R1NyfouMKTTWcguwVcfrZJaNvhpebzGerh7gucBvzEQWRu\
              gZDuDXjNDRmXzSZe4c7mnTK97pTvGS8",
        ShownError::BadKey,
    ),
    (
        b"xpub661MyMwAqRbcEYS8w7XLSVeEsBXy79zSzH1J8vCdxAZningWLdN3zgtU6Q5JXayek4PRsn35jii4\
              veMimro1xefsM58PgBMrvdYre8QyULY",
        ShownError::BadKey,
    ),
    (
        b"xprv9s21ZrQH143K3QTDL4LXw2F7HEK3wJUD2nW2nRk4stbPy6cq3jPPqjiChkVvvNKmPGJxWUtg6LnF\
              5kejMRNNU3TGtRBeJgk33yuGBxrMPHL",
        ShownError::BadChecksum,
    ),
];
