//! Packing binary digits into words of ten digits.
ghost use Rattle.std.specs.Prelude.{◌≡◌, ◌+◌, ◌*◌, ◌/◌, ◌%◌, ◌^◌, ◌<◌, ◌≤◌};
ghost use Rattle.s39_lists.specs.Digits.{digits};
ghost use Rattle.s39_lists.specs.Written.{no_bits, bits_with};

use crate::size::{ID_BITS, MAX_DATA_WORDS, WORD_BITS};
use arrayvec::ArrayVec;
use std::marker::Model;

/// The binary digits written so far: whole words of ten digits, and the digits behind them that make no word yet.
pub(crate) struct WordWriter {
    words: ArrayVec<u16, MAX_DATA_WORDS>,
    /// The last digits, as a number.
    rest: u32,
    /// How many digits that number has, below ten.
    held: usize,
}

impl Model for WordWriter {
    ghost use Rattle.std.specs.Prelude.{ℕ, ◌+◌, ◌*◌, ◌^◌, ◌<◌, All, length};
    ghost use Rattle.s39_words.specs.Layout.{IsIndex, word_bits};
    ghost use Rattle.s39_lists.specs.Digits.{number_of};
    ghost use Rattle.s39_lists.specs.Written.{Bits, bits_with};

    ghost Value = { Bits };

    ghost view = { λ w. bits_with (record {
      count = word_bits * length w.words.items;
      number = number_of word_bits w.words.items;
    }) w.held w.rest };

    ghost invariant = { λ w. (w.held < word_bits) × (w.rest < 2 ^ w.held)
        × All IsIndex w.words.items };
}

impl WordWriter {
    /// A writer without digits.
    pub(crate) fn new() -> WordWriter
        ensures { result ≡ no_bits }
    {
        WordWriter {
            words: ArrayVec::new(),
            rest: 0,
            held: 0,
        }
    }

    /// Appends the lowest `width` digits of the number, which has no others.
    pub(crate) fn write(&mut self, number: u16, width: usize)
        requires width { width ≤ ID_BITS }
        requires digits { number < 2 ^ width }
        requires room { self.old.count + width ≤ WORD_BITS * MAX_DATA_WORDS }
        ensures { self.new ≡ bits_with self.old width number }
    {
        self.rest = self.rest << width | u32::from(number);
        self.held += width;
        while self.held >= WORD_BITS {
            self.held -= WORD_BITS;
            self.words.push((self.rest >> self.held) as u16);
            self.rest &= (1 << self.held) - 1;
        }
    }

    /// The words, provided that the digits make whole words.
    pub(crate) fn into_words(self) -> ArrayVec<u16, MAX_DATA_WORDS>
        requires { self.count % WORD_BITS ≡ 0 }
        ensures { result.items ≡ digits WORD_BITS (self.count / WORD_BITS) self.number }
    {
        let WordWriter {
            words,
            rest: _,
            held: _,
        } = self;
        words
    }
}
