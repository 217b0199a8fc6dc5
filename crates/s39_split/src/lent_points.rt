//! Points of one level, which borrow their byte strings.
ghost use Rattle.std.specs.Prelude.{◌≡◌, ◌==◌, ◌<◌, [], ◌∷◌, ◌++◌, length};
ghost use Rattle.s39_split.specs.Sharing.{most_shares};
ghost use Rattle.s39_split.specs.Shares.{indexed_bytes};

use crate::places::MAX_SHARES;
use s39_kdf::Bytes;
use std::marker::Model;

/// A list of at most 16 points, in the order in which they were added. Each point is a place, such as the index of a
/// share, and the byte string there, which is borrowed and not copied. Contracts see the list of places and byte
/// strings.
///
/// ```rust
/// let share = Bytes::try_from([7; 16].as_slice())?;
/// let mut points = Points::new();
/// assert!(rt; points.is_empty());
/// points.push(0, &share);
/// assert_eq!(rt; points.len(), 1);
/// assert_eq!(rt; combine(1, points.as_slice())?, share);
/// ```
#[derive(Drop)]
pub struct Points<'a> {
    row: Option<Row<'a>>,
    len: usize,
}

/// Room for as many points as there may be. An array has no empty places, so unused ones hold the first point.
#[derive(Clone, Copy)]
struct Row<'a> {
    points: [(u8, &'a Bytes); MAX_SHARES],
}

impl<'a> Model for Points<'a> {
    ghost use Rattle.std.specs.Prelude.{◌≡◌, ◌≤◌, List, ℕ, [], take, length};
    ghost use Rattle.std.specs.Option.{option_map_or, ForSome, ForNone};
    ghost use Rattle.s39_split.specs.Sharing.{most_shares};
    ghost use Rattle.s39_split.specs.Shares.{indexed_bytes};

    ghost Value = { List (ℕ × List ℕ) };

    ghost view = { λ p. indexed_bytes (take p.len (option_map_or (λ row. row.points) p.row [])) };

    ghost invariant = { λ p. (p.len ≤ most_shares)
        × ForSome p.row (λ row. length row.points ≡ most_shares)
        × ForNone p.row (p.len ≡ 0) };
}

impl<'a> Points<'a> {
    /// Makes an empty list.
    pub fn new() -> Points<'a>
        ensures { result ≡ [] }
    {
        Points { row: None, len: 0 }
    }

    /// Appends a point. The list must have fewer than 16 points.
    pub fn push(&mut self, place: u8, value: &'a Bytes)
        requires { length self.old < most_shares }
        ensures { self.new ≡ self.old ++ (place, value.now.items) ∷ [] }
    {
        match &mut self.row {
            Some(row) => {
                let points = &mut row.points[..];
                points[self.len] = (place, value);
            }
            None => {
                let points = [(place, value); MAX_SHARES];
                self.row = Some(Row { points });
            }
        }
        self.len += 1;
    }

    /// Returns the number of points.
    pub fn len(&self) -> usize
        ensures { result ≡ length self.now }
    {
        self.len
    }

    /// Returns whether there are no points.
    pub fn is_empty(&self) -> bool
        ensures { result ≡ (length self.now == 0) }
    {
        self.len == 0
    }

    /// Returns the points as a slice, in the form in which [`combine`](crate::combine) takes shares.
    pub fn as_slice(&self) -> &[(u8, &'a Bytes)]
        ensures { indexed_bytes result.now ≡ self.now }
    {
        match &self.row {
            Some(row) => &row.points[..self.len],
            None => &[],
        }
    }
}
