//! Packing bits into digits of so many bits each.
ghost use Rattle.std.specs.Prelude.{◌≡◌, ◌+◌, ◌*◌, ◌/◌, ◌%◌, ◌^◌, ◌<◌, ◌≤◌};
ghost use Rattle.s39_lists.specs.Digits.{digits};
ghost use Rattle.s39_lists.specs.Written.{no_bits, bits_with};

use arrayvec::ArrayVec;
use std::marker::Model;

/// The most digits, which is more than a witness program has in groups.
pub(crate) const MAX_DIGITS: usize = 64;

/// The bits written so far: whole digits of `SIZE` bits each, and the bits behind them that make no digit yet.
#[derive(Drop)]
pub(crate) struct BitWriter<const SIZE: usize> {
    digits: ArrayVec<u8, MAX_DIGITS>,
    /// The last bits, as a number.
    rest: u32,
    /// How many bits that number has, fewer than a digit.
    held: usize,
}

impl<const SIZE: usize> Model for BitWriter<SIZE> {
    ghost use Rattle.std.specs.Prelude.{ℕ, ◌+◌, ◌*◌, ◌^◌, ◌<◌, ◌≤◌, All, length};
    ghost use Rattle.s39_lists.specs.Digits.{number_of};
    ghost use Rattle.s39_lists.specs.Written.{Bits, bits_with};

    ghost Value = { Bits };

    ghost view = { λ w. bits_with (record {
      count = SIZE * length w.digits.items;
      number = number_of SIZE w.digits.items;
    }) w.held w.rest };

    ghost invariant = { λ w. (w.held < SIZE) × (w.rest < 2 ^ w.held) × All (λ d. d < 2 ^ SIZE) w.digits.items };
}

impl<const SIZE: usize> BitWriter<SIZE> {
    /// A writer without bits.
    pub(crate) fn new() -> BitWriter<SIZE>
        requires { 0 < SIZE }
        ensures { result ≡ no_bits }
    {
        BitWriter {
            digits: ArrayVec::new(),
            rest: 0,
            held: 0,
        }
    }

    /// Appends the lowest `width` bits of the number, which has no others.
    pub(crate) fn write(&mut self, number: u8, width: usize)
        requires size { SIZE ≤ 8 }
        requires width { width ≤ 8 }
        requires bits { number < 2 ^ width }
        requires room { self.old.count + width ≤ SIZE * MAX_DIGITS }
        ensures { self.new ≡ bits_with self.old width number }
    {
        self.rest = self.rest << width | u32::from(number);
        self.held += width;
        while self.held >= SIZE {
            self.held -= SIZE;
            self.digits.push((self.rest >> self.held) as u8);
            self.rest &= (1 << self.held) - 1;
        }
    }

    /// The bits behind the whole digits, as a number.
    pub(crate) fn rest(&self) -> u32
        ensures { result ≡ self.now.number % 2 ^ (self.now.count % SIZE) }
    {
        self.rest
    }

    /// The whole digits.
    pub(crate) fn into_digits(self) -> ArrayVec<u8, MAX_DIGITS>
        ensures { result.items ≡ digits SIZE (self.entry.count / SIZE) (self.entry.number / 2 ^ (self.entry.count % SIZE)) }
    {
        let BitWriter {
            digits,
            rest: _,
            held: _,
        } = self;
        digits
    }
}
