//! Facts about the definitions. Each is the contract of a function that does nothing.
ghost use Rattle.std.specs.Prelude.{◌≡◌, ◌≢◌, ◌+◌, ◌<◌, ◌≤◌, ◌⊎◌, ℕ, suc, false, List, [], All, Ok, Err, Option, None, Some, Result, length, slice_index, slice_index_or, slice_set};
ghost use Rattle.s39_words.specs.Layout.{IsIndex, most_words};
ghost use Rattle.s39_words.specs.Mistyping.{count_of_differences};
ghost use Rattle.s39_words.specs.Printing.{IsPrinted};
ghost use Rattle.s39_words.specs.Reading.{flag_of, Reads};
ghost use Rattle.s39_words.specs.declared.word_error.WordError.{WordError as Cause};
ghost use Rattle.s39_words.specs.Spelling.{words_of, HaveIndices, Spells};
ghost use Rattle.s39_words.specs.declared.share.ShareFields.{ShareFields};
ghost use Rattle.s39_repair.specs.Answer.{most_open, IsWrongWord, Repairs, WrongWordIsAt};
ghost use Rattle.s39_repair.specs.Marks.{is_open, open_count, spelling, Fits};
ghost use Rattle.s39_repair.specs.Misread.{HasWrongWords, IsMisreadLine};
ghost use Rattle.s39_repair.specs.Sums.{ArePlaces, AgreeElsewhere};
ghost use Rattle.s39_repair.specs.Unread.{unread_count, IsReadAs};
ghost use Rattle.s39_repair.specs.declared.repair_error.RepairError.{RepairError};
ghost use Rattle.s39_repair.specs.declared.repaired.Repaired.{Repaired};

/// No line has two answers.
pub fn one_answer()
    ensures { (line : List ℕ) (answer other : Result Repaired RepairError)
        → Repairs line answer → Repairs line other → answer ≡ other }
{}

/// Every line has an answer.
pub fn some_answer()
    ensures { (line : List ℕ) → (answer : Result Repaired RepairError) × Repairs line answer }
{}

/// What was lost comes back: if at most three places of a line are open, a mnemonic that fits is in the answer.
pub fn lost_words_come_back()
    ensures { (line mnemonic : List ℕ) (share : ShareFields) (answer : Result Repaired RepairError)
        → Fits line mnemonic share → open_count line ≤ most_open → Repairs line answer
        → (repaired : Repaired) × (answer ≡ Ok repaired)
        × ((share ≡ repaired.first) ⊎ (Some share ≡ repaired.second)) }
{}

/// The words of a text that spells a share are those of a mnemonic, given as indices in the list.
pub fn accepted_words()
    ensures { (text : List ℕ) (share : ShareFields) → Spells text share
        → (mnemonic : List ℕ) × All IsIndex mnemonic × HaveIndices (words_of text) mnemonic
        × Spells (spelling mnemonic) share }
{}

/// What was lost comes back, word for word. Take a mnemonic, and write letters and a question mark for up to three of its
/// words. Then its share is in the answer, and it's the only one if the second place isn't open. For any words and any
/// number of letters there is such a line.
pub fn unread_words_come_back()
    ensures some { (words : List ℕ) (read : List (Option ℕ)) → All IsIndex words
        → length read ≡ length words → (line : List ℕ) × IsReadAs line words read }
    ensures back { (line mnemonic : List ℕ) (read : List (Option ℕ)) (share : ShareFields)
        (answer : Result Repaired RepairError) → All IsIndex mnemonic → Spells (spelling mnemonic) share
        → IsReadAs line mnemonic read → unread_count read ≤ most_open → Repairs line answer
        → (repaired : Repaired) × (answer ≡ Ok repaired)
        × ((share ≡ repaired.first) ⊎ (Some share ≡ repaired.second)) }
    ensures alone { (line mnemonic : List ℕ) (read : List (Option ℕ)) (share : ShareFields)
        (answer : Result Repaired RepairError) → All IsIndex mnemonic → Spells (spelling mnemonic) share
        → IsReadAs line mnemonic read → unread_count read ≤ most_open
        → is_open (slice_index_or (words_of line) 1 []) ≡ false → Repairs line answer
        → answer ≡ Ok (record { first = share; second = None }) }
{}

/// The words of a mnemonic, with single spaces between them, are the printed form of its share. So the mnemonic that
/// comes back is written as its words.
pub fn mnemonics_are_printed()
    ensures { (mnemonic : List ℕ) (share : ShareFields) → All IsIndex mnemonic
        → Spells (spelling mnemonic) share → IsPrinted (spelling mnemonic) share }
{}

/// One mnemonic fits a line at most, if at most three places are open and the second isn't.
pub fn one_mnemonic_fits()
    ensures { (line mnemonic other : List ℕ) (share found : ShareFields) → open_count line ≤ most_open
        → is_open (slice_index_or (words_of line) 1 []) ≡ false
        → Fits line mnemonic share → Fits line other found → mnemonic ≡ other }
{}

/// Two mnemonics fit a line at most, if at most three places are open: of any three that fit, two are the same.
pub fn two_mnemonics_fit()
    ensures { (line mnemonic other third : List ℕ) (share found last : ShareFields)
        → open_count line ≤ most_open
        → Fits line mnemonic share → Fits line other found → Fits line third last
        → (mnemonic ≡ other) ⊎ ((mnemonic ≡ third) ⊎ (other ≡ third)) }
{}

/// Two mnemonics with the same flag that agree but at three places are the same. So if at most three places are open or
/// misread, no other mnemonic with this flag fits.
pub fn mnemonics_differ_in_four_places()
    ensures { (mnemonic other : List ℕ) (share found : ShareFields) (i j k : ℕ) → ArePlaces i j k
        → AgreeElsewhere mnemonic other i j k → All IsIndex mnemonic → All IsIndex other
        → Spells (spelling mnemonic) share → Spells (spelling other) found
        → share.extendable ≡ found.extendable → other ≡ mnemonic }
{}

/// Nothing false is written: if a word of a mnemonic is misread, and at most three are misread or open, but not the
/// second, no mnemonic fits. If no place is open, the checksum is bad.
pub fn nothing_false_is_written()
    ensures lost { (line mnemonic : List ℕ) (share : ShareFields) (answer : Result Repaired RepairError)
        → IsMisreadLine line mnemonic share → Repairs line answer
        → 1 ≤ open_count line → answer ≡ Err RepairError.NoMnemonic }
    ensures bad { (line mnemonic : List ℕ) (share : ShareFields) (answer : Result Repaired RepairError)
        → IsMisreadLine line mnemonic share → Repairs line answer → open_count line ≡ 0
        → (answer ≡ Err RepairError.BadChecksum)
        ⊎ ((at : ℕ) × (answer ≡ Err (RepairError.WrongWord at))) }
{}

/// Every mnemonic can be misread. Take one, and write other words of the list for some of its words. Of further words write
/// letters and a question mark, all together for up to three words, but not for the second. If one of the other words is
/// written out, such a line is misread.
pub fn every_mnemonic_can_be_misread()
    ensures { (line words mnemonic : List ℕ) (read : List (Option ℕ)) (share : ShareFields) (place : ℕ)
        → All IsIndex mnemonic → Spells (spelling mnemonic) share
        → All IsIndex words → length words ≡ length mnemonic → IsReadAs line words read
        → count_of_differences words mnemonic + unread_count read ≤ most_open
        → place < length words → slice_index_or read place None ≡ None
        → slice_index words place ≢ slice_index mnemonic place
        → slice_index_or read 1 None ≡ None → slice_index words 1 ≡ slice_index mnemonic 1
        → IsMisreadLine line mnemonic share }
{}

/// Every mnemonic can have wrong words: any two words of the list, in any two places or in one.
pub fn every_mnemonic_can_have_wrong_words()
    ensures { (mnemonic : List ℕ) (share : ShareFields) (place other first second : ℕ)
        → All IsIndex mnemonic → Spells (spelling mnemonic) share
        → place < length mnemonic → other < length mnemonic → IsIndex first → IsIndex second
        → HasWrongWords (spelling (slice_set (slice_set mnemonic place first) other second))
        (slice_set (slice_set mnemonic place first) other second) mnemonic share place other }
{}

/// One wrong word is found: if another word in one place gives a mnemonic, the position of the wrong word is that of this
/// place.
pub fn one_wrong_word_is_named()
    ensures { (words mnemonic : List ℕ) (share : ShareFields) (place : ℕ) (position : Option ℕ)
        → place < length words → length words ≡ length mnemonic → All IsIndex mnemonic
        → ((p : ℕ) → p ≢ place → slice_index words p ≡ slice_index mnemonic p)
        → Spells (spelling mnemonic) share → WrongWordIsAt words position
        → position ≡ Some (suc place) }
{}

/// If one word is wrong and the checksum is bad, the answer names the position of this word, and no other. The flag may be
/// another one, if the second word is wrong.
pub fn one_wrong_word_is_found()
    ensures { (line words mnemonic : List ℕ) (share : ShareFields) (place : ℕ)
        (answer : Result Repaired RepairError)
        → HasWrongWords line words mnemonic share place place → Repairs line answer
        → Reads (spelling words) (Err Cause.BadChecksum)
        → answer ≡ Err (RepairError.WrongWord (suc place)) }
{}

/// If one word is replaced by another one and the flag stays the same, the checksum is bad.
pub fn one_replaced_word()
    ensures { (line words mnemonic : List ℕ) (share : ShareFields) (place : ℕ)
        → HasWrongWords line words mnemonic share place place
        → slice_index words place ≢ slice_index mnemonic place → flag_of words ≡ flag_of mnemonic
        → Reads (spelling words) (Err Cause.BadChecksum) }
{}

/// If two words are replaced by others and the flag stays the same, the answer names no position but 2.
pub fn two_replaced_words()
    ensures { (line words mnemonic : List ℕ) (share : ShareFields) (place other : ℕ)
        (answer : Result Repaired RepairError)
        → HasWrongWords line words mnemonic share place other → place ≢ other
        → slice_index words place ≢ slice_index mnemonic place
        → slice_index words other ≢ slice_index mnemonic other → flag_of words ≡ flag_of mnemonic
        → Repairs line answer
        → (answer ≡ Err RepairError.BadChecksum) ⊎ (answer ≡ Err (RepairError.WrongWord 2)) }
{}

/// If words are no mnemonic, another word gives one at one position at most.
pub fn no_second_position()
    ensures { (words : List ℕ) (at other : ℕ) → All IsIndex words → length words ≤ most_words
        → ((share : ShareFields) → ¬ Spells (spelling words) share)
        → IsWrongWord words at → IsWrongWord words other → at ≡ other }
{}
