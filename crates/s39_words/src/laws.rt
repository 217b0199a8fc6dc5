//! Facts about the definitions. Each is the contract of a function that does nothing, except that of `read_back`.
ghost use Rattle.std.specs.Prelude.{◌≡◌, ◌≢◌, ◌↔◌, ℕ, ◌^◌, ◌<◌, ◌≤◌, Bool, List, [], ◌∷◌, ◌++◌, All, AllPairs, Contains, IsTrue, Result, length};
ghost use Rattle.std.specs.Prelude.{◌⊎◌, slice_index, take};
ghost use Rattle.s39_field.specs.FieldProduct.{word_field};
ghost use Rattle.s39_field.specs.Polynomial.{power, product_of};
ghost use Rattle.s39_kdf.specs.Limits.{id_bits, exponent_bits};
ghost use Rattle.s39_words.specs.Layout.{IsIndex, word_list_length, shortest_word, longest_word, telling_letters, word_bits};
ghost use Rattle.s39_words.specs.Layout.{header_length, count_bits, byte_pair_bits, flag_place, exponent_place, group_index_place};
ghost use Rattle.s39_words.specs.Layout.{group_threshold_place, group_count_place, member_index_place, member_threshold_place};
ghost use Rattle.s39_words.specs.Layout.{most_groups, most_members, most_padding, checksum_length, fewest_words, most_words, longest_text};
ghost use Rattle.s39_words.specs.declared.share.ShareFields.{ShareFields};
ghost use Rattle.s39_words.specs.declared.word_error.WordError.{WordError as Cause};
ghost use Rattle.s39_words.specs.Checksum.{generator, IsValidChecksum};
ghost use Rattle.s39_words.specs.Division.{packed, generator_times, has_valid_checksum};
ghost use Rattle.s39_words.specs.Mistyping.{count_of_differences, most_wrong_words, IsMnemonic, IsMistyped};
ghost use Rattle.s39_words.specs.Printing.{IsPrinted};
ghost use Rattle.s39_words.specs.Reading.{IsWordCount, has_word_count, flag_of, reading, Reads};
ghost use Rattle.s39_words.specs.Share.{IsShare};
ghost use Rattle.s39_words.specs.Spelling.{words_of, HaveIndices, Spells};
ghost use Rattle.s39_words.specs.WordList.{word_list, IsLetter, ComesBefore};

use crate::checksum::GENERATOR_TIMES;
use crate::printing::print;
use crate::share::Share;
use crate::size::{
    BYTE_PAIR_BITS, CHECKSUM_WORDS, COUNT_BITS, EXPONENT_BITS, EXPONENT_PLACE, FLAG_PLACE,
    GROUP_COUNT_PLACE, GROUP_INDEX_PLACE, GROUP_THRESHOLD_PLACE, HEADER_BITS, ID_BITS, MAX_GROUPS,
    MAX_LETTERS, MAX_MEMBERS, MAX_PADDING_BITS, MAX_TEXT_BYTES, MAX_WORDS, MEMBER_INDEX_PLACE,
    MEMBER_THRESHOLD_PLACE, MIN_WORDS, WORD_BITS,
};
use crate::spelling::parse;
use crate::word_error::WordError;

/// The constants of the code equal the numbers of the definitions, and the definition `most_wrong_words` is 3.
pub fn numbers()
    ensures letters { MAX_LETTERS ≡ longest_word }
    ensures bits { WORD_BITS ≡ word_bits }
    ensures header { HEADER_BITS ≡ header_length }
    ensures id { ID_BITS ≡ id_bits }
    ensures exponent { EXPONENT_BITS ≡ exponent_bits }
    ensures count { COUNT_BITS ≡ count_bits }
    ensures flag_at { FLAG_PLACE ≡ flag_place }
    ensures exponent_at { EXPONENT_PLACE ≡ exponent_place }
    ensures group_index_at { GROUP_INDEX_PLACE ≡ group_index_place }
    ensures group_threshold_at { GROUP_THRESHOLD_PLACE ≡ group_threshold_place }
    ensures group_count_at { GROUP_COUNT_PLACE ≡ group_count_place }
    ensures member_index_at { MEMBER_INDEX_PLACE ≡ member_index_place }
    ensures member_threshold_at { MEMBER_THRESHOLD_PLACE ≡ member_threshold_place }
    ensures pair { BYTE_PAIR_BITS ≡ byte_pair_bits }
    ensures groups { MAX_GROUPS ≡ most_groups }
    ensures members { MAX_MEMBERS ≡ most_members }
    ensures padding { MAX_PADDING_BITS ≡ most_padding }
    ensures checksum { CHECKSUM_WORDS ≡ checksum_length }
    ensures fewest { MIN_WORDS ≡ fewest_words }
    ensures most { MAX_WORDS ≡ most_words }
    ensures text { MAX_TEXT_BYTES ≡ longest_text }
    ensures wrong { most_wrong_words ≡ 3 }
{}

/// A mnemonic has 20 to 110 words: 20 and 110 are allowed, and fewer or more are not. A reading tests this number.
pub fn word_counts()
    ensures least { IsWordCount fewest_words }
    ensures greatest { IsWordCount most_words }
    ensures between { (n : ℕ) → IsWordCount n → (fewest_words ≤ n) × (n ≤ most_words) }
    ensures tested { (n : ℕ) → IsTrue (has_word_count n) ↔ IsWordCount n }
{}

/// The word list has 1,024 words of four to eight lower-case letters, in alphabetical order.
pub fn word_list_ascends()
    ensures count { length word_list ≡ word_list_length }
    ensures lengths { All (λ word. (shortest_word ≤ length word) × (length word ≤ longest_word))
        word_list }
    ensures letters { All (λ word. All IsLetter word) word_list }
    ensures ascending { AllPairs ComesBefore word_list }
{}

/// The first four letters of a word of the list distinguish it from all others.
pub fn first_letters_tell_words_apart()
    ensures { AllPairs (λ v w. take telling_letters v ≢ take telling_letters w) word_list }
{}

/// No word of the list is the beginning of another.
pub fn no_word_begins_another()
    ensures { (word rest : List ℕ)
        → Contains word_list word → Contains word_list (word ++ rest) → rest ≡ [] }
{}

/// The generator is (x - a)(x - a^2)(x - a^3) with a = 2. In this field subtraction is addition.
pub fn generator_is_a_product()
    ensures { product_of word_field (product_of word_field (1 ∷ power word_field 2 1 ∷ [])
        (1 ∷ power word_field 2 2 ∷ [])) (1 ∷ power word_field 2 3 ∷ [])
        ≡ generator }
{}

/// The ten constants of the checksum's register are the lower coefficients of the generator, each times 2^i.
pub fn register_constants()
    ensures { (i : ℕ) → i < word_bits
        → slice_index GENERATOR_TIMES i ≡ packed (generator_times (2 ^ i)) }
{}

/// A text is read as a share exactly if it spells this share.
pub fn spelled_texts_are_read()
    ensures { (text : List ℕ) (share : ShareFields)
        → (reading text ≡ Ok share) ↔ Spells text share }
{}

/// The remainder by which a reading tests a checksum tells whether the checksum is valid.
pub fn remainders_test_checksums()
    ensures { (extendable : Bool) (words : List ℕ) → All IsIndex words
        → IsTrue (has_valid_checksum extendable words) ↔ IsValidChecksum extendable words }
{}

/// No text spells two shares.
pub fn one_share()
    ensures { (text : List ℕ) (f g : ShareFields) → Spells text f → Spells text g → f ≡ g }
{}

/// Every text has a reading: a share or a refusal.
pub fn every_text_has_a_reading()
    ensures { (text : List ℕ) → (reading : Result ShareFields Cause) × Reads text reading }
{}

/// No text has two readings.
pub fn one_reading()
    ensures { (text : List ℕ) (r s : Result ShareFields Cause)
        → Reads text r → Reads text s → r ≡ s }
{}

/// Any words of the word list, given as indices, have a checksum.
pub fn every_checksum_exists()
    ensures { (extendable : Bool) (words : List ℕ) → All IsIndex words
        → (checksum : List ℕ) × (length checksum ≡ checksum_length) × All IsIndex checksum
        × IsValidChecksum extendable (words ++ checksum) }
{}

/// No words have two checksums.
pub fn one_checksum()
    ensures { (extendable : Bool) (words checksum other : List ℕ)
        → All IsIndex words → All IsIndex checksum → All IsIndex other
        → length checksum ≡ checksum_length → length other ≡ checksum_length
        → IsValidChecksum extendable (words ++ checksum)
        → IsValidChecksum extendable (words ++ other)
        → checksum ≡ other }
{}

/// Every share has a spelling with lower-case letters and single spaces.
pub fn every_share_has_a_printed_form()
    ensures { (share : ShareFields) → IsShare share → (text : List ℕ) × IsPrinted text share }
{}

/// No share has two spellings with lower-case letters and single spaces.
pub fn one_printed_form()
    ensures { (share : ShareFields) (text other : List ℕ)
        → IsPrinted text share → IsPrinted other share → text ≡ other }
{}

/// A printed form begins with a letter, consists of lower-case letters and spaces, and has at most 989 bytes. So it is
/// one line and can't be taken for a comment.
pub fn printed_forms()
    ensures first { (share : ShareFields) (text : List ℕ) → IsPrinted text share
        → (letter : ℕ) × (rest : List ℕ) × (text ≡ letter ∷ rest) × IsLetter letter }
    ensures letters { (share : ShareFields) (text : List ℕ) → IsPrinted text share
        → All (λ byte. IsLetter byte ⊎ (byte ≡ 32)) text }
    ensures short { (share : ShareFields) (text : List ℕ) → IsPrinted text share
        → length text ≤ longest_text }
{}

/// Prints a share and reads the text again: returns the same share, and never an error.
pub fn read_back(share: &Share) -> Result<Share, WordError>
    ensures { result ≡ Ok share.now }
{
    parse(&print(share))
}

/// The words of a text that spells a share are a mnemonic.
pub fn spelled_words_are_a_mnemonic()
    ensures { (text : List ℕ) (share : ShareFields) → Spells text share
        → (indices : List ℕ) × HaveIndices (words_of text) indices × IsMnemonic indices }
{}

/// Every mnemonic has mistyped texts with one, two and three wrong words. A text counts as mistyped if it has the same
/// flag, and other words of the list in one, two or three places.
pub fn every_mnemonic_can_be_mistyped()
    ensures some { (mnemonic : List ℕ) (wrong : ℕ) → IsMnemonic mnemonic → 1 ≤ wrong → wrong ≤ 3
        → (text : List ℕ) × (mistyped : IsMistyped text mnemonic)
        × (count_of_differences mistyped.words mnemonic ≡ wrong) }
    ensures mistyped { (text mnemonic words : List ℕ) → HaveIndices (words_of text) words
        → length words ≡ length mnemonic → flag_of words ≡ flag_of mnemonic
        → 1 ≤ count_of_differences words mnemonic → count_of_differences words mnemonic ≤ 3
        → IsMistyped text mnemonic }
{}

/// A mistyped text, with one, two or three wrong words of the list and the same flag, is read as having a bad checksum.
pub fn three_wrong_words()
    ensures { (text mnemonic : List ℕ) → IsMnemonic mnemonic → IsMistyped text mnemonic
        → Reads text (Err WordError.BadChecksum) }
{}
