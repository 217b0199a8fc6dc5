//! The position of the wrong word, if just one word is wrong.
ghost use Rattle.std.specs.Prelude.{◌≡◌, ℕ, suc, true, false, ◌+◌, ◌<◌, ◌≤◌, ◌↔◌, List, All, IsTrue, bit_xor, length, slice_index, slice_set};
ghost use Rattle.s39_field.specs.FieldProduct.{word_field};
ghost use Rattle.s39_words.specs.Layout.{IsIndex, most_words};
ghost use Rattle.s39_words.specs.Spelling.{Spells};
ghost use Rattle.s39_words.specs.declared.share.ShareFields.{ShareFields};
ghost use Rattle.s39_repair.specs.Answer.{IsWrongWord, WrongWordIsAt};
ghost use Rattle.s39_repair.specs.Marks.{spelling};
ghost use Rattle.s39_repair.specs.Searching.{IsAt};

use crate::solving::{HALF, Indices, Sums, change, element, locator, sums_with};
use s39_field::{Field, Gf1024};
use s39_words::{parse, text_of};

/// A search for one wrong word, from place to place, for one value of the extendable flag.
#[derive(Clone, Copy)]
struct Search {
    extendable: bool,
    sums: Sums,
    /// The locator of the place.
    x: Gf1024,
}

/// The words with this change at a place.
fn changed(words: &[u16], place: usize, by: u16) -> Indices
    requires { length words.now ≤ most_words }
    ensures { result.items ≡ slice_set words.now place (bit_xor (slice_index words.now place) by) }
{
    let mut found = Indices::new();
    found.try_extend_from_slice(words).unwrap();
    change(&mut found, words, place, by);
    found
}

impl Search {
    /// The search at the first of these words.
    fn begin(extendable: bool, words: &[u16]) -> Search
        requires in_list { All IsIndex words.now }
        requires short { length words.now ≤ most_words }
        ensures at { IsAt words.now 0 result }
        ensures flag { result.extendable ≡ extendable }
    {
        Search {
            extendable,
            sums: sums_with(extendable, words),
            x: locator(extendable, 0),
        }
    }

    /// The search at the next place.
    fn step(self) -> Search
        ensures at { (words : List ℕ) (place : ℕ) → IsAt words place self → IsAt words (place + 1) result }
        ensures flag { result.extendable ≡ self.extendable }
    {
        Search {
            extendable: self.extendable,
            sums: self.sums,
            x: self.x.mul(element(HALF)),
        }
    }

    /// Whether one changed word, at the place of the search, has these sums.
    fn is_one_change(&self) -> bool
        ensures { IsTrue result
            ↔ ((self.now.sums.second ≡ word_field.mul self.now.sums.first self.now.x)
            × (self.now.sums.third ≡ word_field.mul self.now.sums.second self.now.x)) }
    {
        let second = self.sums.first.mul(self.x);
        let third = self.sums.second.mul(self.x);
        self.sums.second == second && self.sums.third == third
    }

    /// Whether another word at this place, and no other change, gives a mnemonic with the flag of the search.
    fn finds(&self, words: &[u16], place: usize) -> bool
        requires in_list { All IsIndex words.now }
        requires short { length words.now ≤ most_words }
        requires place { place < length words.now }
        requires at { IsAt words.now place self.now }
        ensures wrong { IsTrue result → IsWrongWord words.now (suc place) }
        ensures only { (wrong : IsWrongWord words.now (suc place))
            → wrong.share.extendable ≡ self.now.extendable → IsTrue result }
    {
        if !self.is_one_change() {
            return false;
        }
        let by = u16::from(self.sums.first.mul(self.x.inv()));
        let mended = changed(words, place, by);
        match parse(&text_of(&mended)) {
            Ok(share) => share.extendable() == self.extendable,
            Err(_) => false,
        }
    }
}

/// Whether another word at this place, and no other change, gives a mnemonic.
fn is_wrong_word(words: &[u16], place: usize, plain: &Search, extendable: &Search) -> bool
    requires in_list { All IsIndex words.now }
    requires short { length words.now ≤ most_words }
    requires place { place < length words.now }
    requires plain { IsAt words.now place plain.now }
    requires extendable { IsAt words.now place extendable.now }
    requires flags { (plain.now.extendable ≡ false) × (extendable.now.extendable ≡ true) }
    ensures { IsTrue result ↔ IsWrongWord words.now (suc place) }
{
    if plain.finds(words, place) {
        true
    } else {
        extendable.finds(words, place)
    }
}

/// The position of the wrong word, counted from 1, if just one word is wrong.
pub(crate) fn wrong_word(words: &[u16]) -> Option<usize>
    requires in_list { All IsIndex words.now }
    requires short { length words.now ≤ most_words }
    requires bad { (share : ShareFields) → ¬ Spells (spelling words.now) share }
    ensures { WrongWordIsAt words.now result }
{
    let mut plain = Search::begin(false, words);
    let mut extendable = Search::begin(true, words);
    for place in 0..words.len() {
        if is_wrong_word(words, place, &plain, &extendable) {
            return Some(place + 1);
        }
        plain = plain.step();
        extendable = extendable.step();
    }
    None
}
