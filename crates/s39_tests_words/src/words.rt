//! Tests of `s39_words`: the longest mnemonic, texts that aren't mnemonics, the word list, and the examples of its doc comments
//! in the order of the files, whose mnemonics are published vectors. Most vectors of SLIP-0039 are tests of the whole program.
use arrayvec::ArrayVec;
use s39_kdf::Bytes;
use s39_words::laws::read_back;
use s39_words::{
    MAX_TEXT_BYTES, Share, ShareFields, WordError, after_separators, is_separator, is_word_count,
    parse, print, text_of, word_at, words_beginning,
};
use sha2::{Digest, Sha256};
use std::process::Abort;
use std::test::Fail;

// Each field has its greatest value, and the share value is 00 01 02 .. 7f. A plain reading of the standard in Python
// spells it.
const LONGEST_VALUE: &str =
    "zero zero zero zero academic academic eclipse adult away extra legs aluminum clay pancake satisfy argue disaster usual agency behavior evoke \
     editor employer born garlic military losing busy industry tendency senior ceramic luxury demand amuse clothes oral level escape crisis prune \
     space mansion deal scene chubby slap destroy stick increase auction divorce ultimate says explain early acrobat biology metric email blanket \
     graduate solution episode cover railroad best exercise drove aircraft fiber fantasy failure finance much flexible gray petition staff \
     friendly jewelry visitor brave gesture material endless focus grownup parcel muscle object helpful random together surprise identify sheriff \
     diminish campus install sympathy luck funding jury vampire station paid typical kernel task";

const GROUP_THRESHOLD_ABOVE_COUNT: &str =
    "music husband acrobat acid artist finance center either graduate swimming object bike medical clothes station aspect spider maiden bulb welcome";

/// The index of a word of the list, or `None` for another text.
fn index_of_word(text: &[u8]) -> Option<u16> {
    for index in 0..1024 {
        if word_at(index) == text {
            return Some(index);
        }
    }
    None
}

#[test]
fn fields_of_the_longest_value(rt: HostRuntime) -> Result<(), Fail> {
    let share = parse(LONGEST_VALUE.as_bytes())?;
    assert_eq!(rt;
        (share.id(), share.extendable(), share.exponent()),
        (32767, true, 15)
    );
    let numbers = [
        share.group_index(),
        share.group_threshold(),
        share.group_count(),
        share.member_index(),
        share.member_threshold(),
    ];
    assert_eq!(rt; numbers, [15, 16, 16, 15, 16]);
    assert_eq!(rt; share.value().len(), 128);
    for (i, byte) in share.value().iter().enumerate() {
        assert_eq!(rt; usize::from(*byte), i);
    }
    for share in [&share, &read_back(&share)?] {
        assert_eq!(rt; print(share).as_slice(), LONGEST_VALUE.as_bytes());
    }
    Ok(())
}

#[test]
fn refused_texts(rt: HostRuntime) {
    for (text, error) in [
        (GROUP_THRESHOLD_ABOVE_COUNT, WordError::GroupThreshold),
        ("academic acadmic", WordError::UnknownWord { position: 2 }),
        ("", WordError::WordCount { words: 0 }),
    ] {
        assert_eq!(rt; parse(text.as_bytes()).err(), Some(error), "{text}");
    }
    let codes = [
        WordError::UnknownWord { position: 1 }.cause().code,
        WordError::WordCount { words: 19 }.cause().code,
        WordError::BadChecksum.cause().code,
        WordError::BadPadding.cause().code,
        WordError::GroupThreshold.cause().code,
    ];
    assert_eq!(rt; codes, [11, 12, 13, 14, 15]);
    assert_eq!(rt;
        parse(&[b'a'; 1024]).err(),
        Some(WordError::UnknownWord { position: 1 })
    );
}

// `academic` encodes zero bits, and lines of it aren't valid mnemonics. The first refusal tells whether a mnemonic may
// have that many words.
#[test]
fn word_counts(rt: HostRuntime) {
    let accepted = [
        20, 22, 23, 25, 27, 28, 30, 31, 33, 35, 36, 38, 39, 41, 43, 44, 46, 47, 49, 51, 52, 54, 55,
        57, 59, 60, 62, 63, 65, 67, 68, 70, 71, 73, 75, 76, 78, 79, 81, 83, 84, 86, 87, 89, 91, 92,
        94, 95, 97, 99, 100, 102, 103, 105, 107, 108, 110,
    ];
    let line = [*b"academic "; 130];
    for words in 0..=130 {
        let text = line[..words].as_flattened();
        let count = WordError::WordCount { words };
        assert_eq!(rt;
            parse(text).err() == Some(count),
            !accepted.contains(&words),
            "{words} words"
        );
    }
}

/// Returns the mnemonic with another word at this place.
fn with_word(mnemonic: &[u8], place: usize, word: &[u8]) -> ArrayVec<u8, MAX_TEXT_BYTES> {
    let mut changed = ArrayVec::new();
    for (i, kept) in mnemonic.split(|byte| *byte == b' ').enumerate() {
        if i > 0 {
            let _ = changed.try_push(b' ');
        }
        let _ = changed.try_extend_from_slice(if i == place { word } else { kept });
    }
    changed
}

// The flag is the sixth bit of the second word.
fn leaves_the_flag(place: usize, kept: u16, index: u16) -> bool {
    place != 1 || kept >> 4 & 1 == index >> 4 & 1
}

/// Returns how many texts differ from this mnemonic in one word, and not in the flag. Each has a bad checksum.
fn tried_wrong_words(rt: &impl Abort, mnemonic: &[u8]) -> u32 {
    let mut tried = 0_u32;
    for (place, word) in mnemonic.split(|byte| *byte == b' ').enumerate() {
        let kept = index_of_word(word).unwrap_or(0);
        for index in 0..1024 {
            if index != kept && leaves_the_flag(place, kept, index) {
                let changed = with_word(mnemonic, place, word_at(index));
                assert_eq!(rt; parse(&changed).err(), Some(WordError::BadChecksum));
                tried = tried.saturating_add(1);
            }
        }
    }
    tried
}

// Every word of the list replaces every word of the first vector, which is printed from its fields.
#[test]
fn one_wrong_word(rt: HostRuntime) -> Result<(), Fail> {
    let value = b"\x11\xbc\x60\x9d\x21\x74\x7c\x49\xba\x78\xc0\x70\x12\x93\xe4\x17";
    let Some(share) = Share::new(ShareFields {
        id: 7945,
        extendable: false,
        exponent: 0,
        group_index: 0,
        group_threshold: 1,
        group_count: 1,
        member_index: 0,
        member_threshold: 1,
        value: Bytes::try_from(&value[..])?,
    }) else {
        rt.abort();
    };
    assert_eq!(rt; tried_wrong_words(&rt, &print(&share)), 19_948);
    Ok(())
}

#[test]
fn three_wrong_words(rt: HostRuntime) {
    let one = with_word(LONGEST_VALUE.as_bytes(), 4, b"zero");
    let two = with_word(&one, 19, b"zero");
    let three = with_word(&two, 109, b"academic");
    for text in [&one, &two, &three] {
        assert_eq!(rt; parse(text).err(), Some(WordError::BadChecksum));
    }
}

// A text of one word of the list has too few words. Of another text, the first word is unknown.
#[test]
fn finds_words(rt: HostRuntime) {
    let one = WordError::WordCount { words: 1 };
    let unknown = WordError::UnknownWord { position: 1 };
    let cases: [(&[u8], Option<u16>, WordError); 9] = [
        (b"academic", Some(0), one),
        (b"agency", Some(17), one),
        (b"duckling", Some(248), one),
        (b"email", Some(273), one),
        (b"tactics", Some(891), one),
        (b"zero", Some(1023), one),
        (b"acid    ", None, one),
        (b"DuckLing", None, one),
        (b"ducklin", None, unknown),
    ];
    for (text, index, error) in cases {
        assert_eq!(rt; index_of_word(text), index);
        assert_eq!(rt; parse(text).err(), Some(error));
    }
    assert_eq!(rt; words_beginning(b"DuckLing").first, 248);
}

// The digest is that of the standard's list, in which a line feed follows each word.
#[test]
fn word_list_is_the_standards(rt: HostRuntime) {
    let mut hasher = Sha256::new();
    for index in 0..1024 {
        hasher.update(word_at(index));
        hasher.update(b"\n");
    }
    let digest =
        b"\xbc\xc4\x55\x53\x40\x33\x2d\x16\x97\x18\xae\xd8\xbf\x31\xdd\x9d\x52\x48\xcb\x7d\xa6\xe5\xd3\x55\x14\x0e\xf4\xf1\xe6\x01\xee\xc3";
    assert_eq!(rt; hasher.finalize(), *digest);
}

#[test]
fn first_four_letters_tell_words_apart(rt: HostRuntime) {
    // The words ascend, so words that begin alike would be adjacent.
    let mut before = b"".as_slice();
    for index in 0..1024 {
        let front = word_at(index).get(..4);
        assert!(rt; front.is_some_and(|front| front != before));
        before = front.unwrap_or(before);
    }
}

// Where these words stand in the list of the standard, whose first line has the index 0.
#[test]
fn words_that_begin_with_letters(rt: HostRuntime) {
    let cases: &[(&[u8], u16, u16)] = &[
        (b"", 0, 1024),
        (b"a", 0, 67),
        (b"ACADEMIC", 0, 1),
        (b"le", 512, 523),
        (b"So", 837, 843),
        (b"yo", 1022, 1023),
        (b"ze", 1023, 1024),
    ];
    for (letters, first, end) in cases {
        let range = words_beginning(letters);
        assert_eq!(rt; (range.first, range.end), (*first, *end));
    }
    let none: &[&[u8]] = &[b"zz", b"em?", b"acid ", b"academics", b"?", b"-", b"e\xC3"];
    for letters in none {
        let range = words_beginning(letters);
        assert_eq!(rt; range.first, range.end);
    }
}

#[test]
fn examples_of_the_crate(rt: HostRuntime) -> Result<(), Fail> {
    let line = b"eraser senior decision roster beard treat identify grumpy salt index fake \
                 aviation theater cubic bike cause research dragon emphasis counter";
    let share = parse(line)?;
    assert_eq!(rt; (share.group_index(), share.member_index()), (3, 0));
    assert_eq!(rt; print(&share).as_slice(), line.as_slice());
    Ok(())
}

#[test]
fn examples_of_prefix(rt: HostRuntime) {
    let range = words_beginning(b"em");
    assert_eq!(rt; (range.first, range.end), (273, 280));
    let emerald = words_beginning(b"EMER");
    assert_eq!(rt; (emerald.first, emerald.end), (274, 275));
    let none = words_beginning(b"zz");
    assert_eq!(rt; none.first, none.end);
}

#[test]
fn examples_of_printing(rt: HostRuntime) -> Result<(), Fail> {
    let line = b"duckling enlarge academic academic agency result length solution fridge kidney \
                 coal piece deal husband erode duke ajar critical decision keyboard";
    let share = parse(line)?;
    assert_eq!(rt; print(&share).as_slice(), line.as_slice());
    assert_eq!(rt; word_at(1023), b"zero".as_slice());
    assert_eq!(rt; text_of(&[0, 1023]).as_slice(), b"academic zero".as_slice());
    Ok(())
}

#[test]
fn examples_of_share(rt: HostRuntime) -> Result<(), Fail> {
    let line = b"testify swimming academic academic column loyalty smear include exotic bedroom \
                 exotic wrist lobe cover grief golden smart junior estimate learn";
    let share = parse(line)?;
    assert_eq!(rt; (share.id(), share.extendable()), (29019, true));
    assert_eq!(rt; share.exponent(), 3);
    assert_eq!(rt; (share.group_threshold(), share.group_count()), (1, 1));

    let fields = ShareFields {
        id: 7945,
        extendable: false,
        exponent: 0,
        group_index: 0,
        group_threshold: 1,
        group_count: 1,
        member_index: 0,
        member_threshold: 1,
        value: Bytes::try_from([7; 16].as_slice())?,
    };
    assert!(rt; Share::new(fields).is_some());
    Ok(())
}

#[test]
fn examples_of_spelling(rt: HostRuntime) {
    let line = b"duckling enlarge academic academic agency result length solution fridge kidney \
                 coal piece deal husband erode duke ajar critical decision kidney";
    assert_eq!(rt; parse(line).err(), Some(WordError::BadChecksum));
    let refusal = parse(b"Academic\tacadmic").err();
    assert_eq!(rt; refusal, Some(WordError::UnknownWord { position: 2 }));
    assert!(rt; is_word_count(20) && is_word_count(110));
    assert!(rt; !is_word_count(21));
}

#[test]
fn examples_of_word_error(rt: HostRuntime) {
    let cause = WordError::UnknownWord { position: 2 }.cause();
    assert_eq!(rt; (cause.code, cause.first), (11, 2));
}

#[test]
fn examples_of_word_reader(rt: HostRuntime) {
    assert!(rt; is_separator(b' ') && is_separator(b'\t'));
    assert!(rt; !is_separator(b'\n'));
    assert_eq!(rt; after_separators(b" \tzero "), b"zero ".as_slice());
}
