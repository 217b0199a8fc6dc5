//! The shares of a created backup.
ghost use Rattle.std.specs.Prelude.{◌≡◌, ◌<◌, ◌≤◌, [], ◌∷◌, ◌++◌, length, All};
ghost use Rattle.s39_set.specs.Names.{most_names};
ghost use Rattle.s39_words.specs.Share.{IsShare};

use s39_kdf::{Bytes, MIN_SECRET_BYTES};
use s39_set::MAX_NAMES;
use s39_words::{Share, ShareFields};
use std::array;
use std::marker::Model;

/// The shares of a created backup, at most 256, in the order in which they were appended.
///
/// `create` replaces the shares that were there with those of a new backup, ordered by group and then by member. Its
/// example shows how to read them. The shares stand in fixed slots, so no memory is allocated.
#[derive(Drop)]
pub struct Created {
    slots: [Share; MAX_NAMES],
    len: usize,
}

impl Model for Created {
    ghost use Rattle.std.specs.Prelude.{List, ◌≤◌, take, All};
    ghost use Rattle.s39_words.specs.declared.share.ShareFields.{ShareFields};
    ghost use Rattle.s39_words.specs.Share.{IsShare};
    ghost use Rattle.s39_set.specs.Names.{most_names};

    ghost Value = { List ShareFields };

    ghost view = { λ created. take created.len created.slots };

    ghost invariant = { λ created.
        (created.len ≤ most_names) × All IsShare (take created.len created.slots) };
}

impl Created {
    /// Returns a list that has no shares yet.
    pub fn new() -> Created
        ensures { result ≡ [] }
    {
        Created {
            slots: array::from_fn(|_| blank()),
            len: 0,
        }
    }

    /// Returns the shares, at most 256.
    pub fn shares(&self) -> &[Share]
        ensures shares { result.now ≡ self.now }
        ensures few { length self.now ≤ most_names }
        ensures are_shares { All IsShare result.now }
    {
        &self.slots[..self.len]
    }

    /// Removes all shares.
    pub(crate) fn clear(&mut self)
        ensures { self.new ≡ [] }
    {
        self.len = 0;
    }

    /// Appends a share. The caller makes sure that there are fewer than 256 shares before the call.
    pub fn push(&mut self, share: Share)
        requires { length self.old < most_names }
        ensures { self.new ≡ self.old ++ share ∷ [] }
    {
        // `fields` tells a proof the ranges of the share's fields.
        let _ = share.fields();
        self.slots[self.len] = share;
        self.len += 1;
    }
}

/// The share that fills a slot that isn't in use.
fn blank() -> Share {
    let fields = ShareFields {
        id: 0,
        extendable: false,
        exponent: 0,
        group_index: 0,
        group_threshold: 1,
        group_count: 1,
        member_index: 0,
        member_threshold: 1,
        value: Bytes::try_from([0; MIN_SECRET_BYTES].as_slice()).unwrap(),
    };
    Share::new(fields).unwrap()
}
