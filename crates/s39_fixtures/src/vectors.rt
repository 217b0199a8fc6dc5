//! Mnemonics of published vectors, and what the program writes for them.

// Vectors of SLIP-0039; their passphrase is `TREZOR`.
pub const ONE_OF_ONE: &str =
    "duckling enlarge academic academic agency result length solution fridge kidney coal piece deal husband erode duke ajar critical decision keyboard";

pub const ONE_OF_ONE_BAD_CHECKSUM: &str =
    "duckling enlarge academic academic agency result length solution fridge kidney coal piece deal husband erode duke ajar critical decision kidney";

pub const ONE_OF_ONE_BAD_PADDING: &str =
    "duckling enlarge academic academic email result length solution fridge kidney coal piece deal husband erode duke ajar music cargo fitness";

/// `ONE_OF_ONE`, of which the words 5 and 12 can't be read.
pub const ONE_OF_ONE_TWO_WORDS_LOST: &str =
    "duckling enlarge academic academic ? result length solution fridge kidney coal ? deal husband erode duke ajar critical decision keyboard";

/// `ONE_OF_ONE`, of which the first three words can't be read; the second holds the extendable flag.
pub const ONE_OF_ONE_WITHOUT_THE_FLAG: &str =
    "? ? ? academic agency result length solution fridge kidney coal piece deal husband erode duke ajar critical decision keyboard";

/// The other mnemonic with these words; another program computes the first three.
pub const ONE_OF_ONE_OF_THE_OTHER_FLAG: &str =
    "therapy heat device academic agency result length solution fridge kidney coal piece deal husband erode duke ajar critical decision keyboard";

pub const EXTENDABLE_ONE_OF_ONE: &str =
    "testify swimming academic academic column loyalty smear include exotic bedroom exotic wrist lobe cover grief golden smart junior estimate learn";

pub const EXTENDABLE_ONE_OF_ONE_SHOWN: &str =
    "identifier 29019 extendable 1 exponent 3 group 0 group-threshold 1 group-count 1 member 0 member-threshold 1 value 9e8773c7313b11d3bfe219291976433b\n";

// The fields of `ONE_OF_ONE`, but extendable and member 1; another program computes its words.
pub const ONE_OF_ONE_EXTENDABLE_MEMBER_1: &str =
    "duckling evil academic again agency result length solution fridge kidney coal piece deal husband erode duke ajar primary flash threaten";

pub const EXTENDABLE_TWO_WORDS_EXCHANGED: &str =
    "learn swimming academic academic column loyalty smear include exotic bedroom exotic wrist lobe cover grief golden smart junior estimate testify";

pub const TWO_NEEDED_MEMBER_2: &str =
    "shadow pistol academic always adequate wildlife fancy gross oasis cylinder mustang wrist rescue view short owner flip making coding armed";

pub const ONE_OF_ONE_SECRET: &str = "bb54aac4b89dc868ba37d9cc21b2cece\n";

pub const ONE_OF_ONE_256_BITS: &str =
    "theory painting academic academic armed sweater year military elder discuss acne wildlife boring employer fused large satoshi bundle carbon diagnose anatomy hamster leaves tracks paces beyond phantom capital marvel lips brave detect luck";

pub const TWO_NEEDED_MEMBER_0: &str =
    "shadow pistol academic acid actress prayer class unknown daughter sweater depict flip twice unkind craft early superior advocate guest smoking";

// A mnemonic of the greatest length, of the secret 00 to 7F; another program computes its words and its value.
pub const LONGEST_ONE_OF_ONE: &str =
    "duckling enlarge academic academic advocate index replace guilt civil edge spill vexed uncover anxiety level scroll ruin decrease often dress tension repeat cradle inside muscle elite voice voter mule erode faint race thank remember antenna science rapids rebuild aircraft being stadium ancestor universe holy champion obesity solution clock therapy carpet bolt unwrap kind ambition cage briefing robin starting judicial emphasis detect calcium modify universe company heat purple lunch grill source rumor family union inside stick puny junction gesture repeat dining evaluate divorce example belong detailed realize alcohol syndrome maiden corner sprinkle dominant tracks airport alive observe smith academic work climate spray eyebrow mailman usual flash indicate clock cinema forecast senior";

pub const LONGEST_ONE_OF_ONE_SHOWN: &str =
    "identifier 7945 extendable 0 exponent 0 group 0 group-threshold 1 group-count 1 member 0 member-threshold 1 value e73eeb6848e41353f47b50be0ac6b0431e6f3cb88ba8a67625a43fdcf7a584a546b438cb942ec56d8b74141275b0a3bb6dc859ab48257901f85aefdf208c7218efdd79e7454d61ce4eeec9f6c2ca88198d2b06527ba76363b1dea626ea3792d3a13312cd5b6c1ade227283583b39f0581c9b33f003f524f5750a28f115e74095\n";

pub const LONGEST_ONE_OF_ONE_SECRET: &str =
    "000102030405060708090a0b0c0d0e0f101112131415161718191a1b1c1d1e1f202122232425262728292a2b2c2d2e2f303132333435363738393a3b3c3d3e3f404142434445464748494a4b4c4d4e4f505152535455565758595a5b5c5d5e5f606162636465666768696a6b6c6d6e6f707172737475767778797a7b7c7d7e7f\n";

pub const ONE_OF_ONE_256_BITS_SHOWN: &str =
    "identifier 29172 extendable 0 exponent 0 group 0 group-threshold 1 group-count 1 member 0 member-threshold 1 value d772fee46424e100bec16d165f1fcc346d1e8d909da580f9f9f04ea5c788d212\n";

/// What `show` writes for `ONE_OF_ONE`.
pub const SHOWN: &str =
    "identifier 7945 extendable 0 exponent 0 group 0 group-threshold 1 group-count 1 member 0 member-threshold 1 value 11bc609d21747c49ba78c0701293e417\n";
