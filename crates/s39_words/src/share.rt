//! A share, and the ranges of its fields.
ghost use Rattle.std.specs.Prelude.{◌≡◌, ◌↔◌, IsTrue, IsSome, IfSome};
ghost use Rattle.s39_words.specs.Share.{IsValue};

use crate::size::{EXPONENT_BITS, ID_BITS, MAX_GROUPS, MAX_MEMBERS};
use s39_kdf::{Bytes, check_secret_length};
use std::marker::Model;

/// The fields of a mnemonic, without its checksum (SLIP-0039, "Format of the share mnemonic").
///
/// The ranges named below are those of a share. A `ShareFields` may hold other values; [`Share::new`] checks the
/// ranges.
#[derive(Debug, Drop)]
pub struct ShareFields {
    /// The identifier of the backup, 0 to 32,767.
    pub id: u16,
    /// The extendable flag: if it is set, the encryption doesn't depend on the identifier.
    pub extendable: bool,
    /// The iteration exponent, 0 to 15.
    pub exponent: u8,
    /// The group index, 0 to 15.
    pub group_index: u8,
    /// The group threshold, from 1 to the group count.
    pub group_threshold: u8,
    /// The group count, 1 to 16.
    pub group_count: u8,
    /// The member index, 0 to 15.
    pub member_index: u8,
    /// The member threshold, 1 to 16.
    pub member_threshold: u8,
    /// The share value: an even number of bytes, from 16 to 128.
    pub value: Bytes,
}

/// A share of a backup: the fields of a mnemonic, without its checksum, all in their ranges (SLIP-0039, "Format of the
/// share mnemonic"). [`parse`](crate::parse) reads one from a text, and [`print`](crate::print) prints it. Contracts see
/// a share as its [`ShareFields`].
///
/// ```rust
/// let line = b"testify swimming academic academic column loyalty smear include exotic bedroom \
///              exotic wrist lobe cover grief golden smart junior estimate learn";
/// let share = parse(line)?;
/// assert_eq!(rt; (share.id(), share.extendable()), (29019, true));
/// assert_eq!(rt; share.exponent(), 3);
/// assert_eq!(rt; (share.group_threshold(), share.group_count()), (1, 1));
/// ```
#[derive(Debug, Drop)]
pub struct Share {
    fields: ShareFields,
}

impl Model for Share {
    ghost use Rattle.s39_words.specs.declared.share.ShareFields.{ShareFields};

    ghost Value = { ShareFields };

    ghost use Rattle.s39_words.specs.Share.{IsShare};

    ghost view = { λ s. s.fields };

    ghost invariant = { λ s. IsShare s.fields };
}

impl Share {
    ghost use Rattle.s39_words.specs.Share.{IsShare};

    /// Makes a share of these fields, or returns `None` if a field is out of its range.
    ///
    /// The ranges are: an identifier up to 32,767; an exponent and indices up to 15; thresholds and a group count from
    /// 1 to 16; a group threshold of at most the group count; a value of an even number of bytes, from 16 to 128.
    ///
    /// ```rust
    /// let fields = ShareFields {
    ///     id: 7945,
    ///     extendable: false,
    ///     exponent: 0,
    ///     group_index: 0,
    ///     group_threshold: 1,
    ///     group_count: 1,
    ///     member_index: 0,
    ///     member_threshold: 1,
    ///     value: Bytes::try_from([7; 16].as_slice())?,
    /// };
    /// assert!(rt; Share::new(fields).is_some());
    /// ```
    pub fn new(fields: ShareFields) -> Option<Share>
        ensures in_range { IsSome result ↔ IsShare fields }
        ensures same { IfSome result (λ share. share ≡ fields) }
    {
        if fields.id < 1 << ID_BITS
            && fields.exponent < 1 << EXPONENT_BITS
            && fields.group_index < MAX_GROUPS
            && 1 <= fields.group_threshold
            && fields.group_threshold <= fields.group_count
            && fields.group_count <= MAX_GROUPS
            && fields.member_index < MAX_MEMBERS
            && 1 <= fields.member_threshold
            && fields.member_threshold <= MAX_MEMBERS
            && is_value(&fields.value)
        {
            Some(Share { fields })
        } else {
            None
        }
    }

    /// Returns the identifier of the backup, 0 to 32,767.
    pub fn id(&self) -> u16
        ensures { result ≡ self.now.id }
    {
        self.fields.id
    }

    /// Returns the extendable flag. If it is set, the encryption doesn't depend on the identifier, and the checksum
    /// uses the customization string `shamir_extendable`.
    pub fn extendable(&self) -> bool
        ensures { result ≡ self.now.extendable }
    {
        self.fields.extendable
    }

    /// Returns the iteration exponent, 0 to 15.
    pub fn exponent(&self) -> u8
        ensures { result ≡ self.now.exponent }
    {
        self.fields.exponent
    }

    /// Returns the group index, 0 to 15.
    pub fn group_index(&self) -> u8
        ensures { result ≡ self.now.group_index }
    {
        self.fields.group_index
    }

    /// Returns the group threshold, from 1 to the group count.
    pub fn group_threshold(&self) -> u8
        ensures { result ≡ self.now.group_threshold }
    {
        self.fields.group_threshold
    }

    /// Returns the group count, 1 to 16.
    pub fn group_count(&self) -> u8
        ensures { result ≡ self.now.group_count }
    {
        self.fields.group_count
    }

    /// Returns the member index, 0 to 15.
    pub fn member_index(&self) -> u8
        ensures { result ≡ self.now.member_index }
    {
        self.fields.member_index
    }

    /// Returns the member threshold, 1 to 16.
    pub fn member_threshold(&self) -> u8
        ensures { result ≡ self.now.member_threshold }
    {
        self.fields.member_threshold
    }

    /// Returns the share value: an even number of bytes, from 16 to 128.
    pub fn value(&self) -> &Bytes
        ensures { result.now ≡ self.now.value }
    {
        &self.fields.value
    }

    /// Returns all fields. They are in their ranges.
    pub fn fields(&self) -> &ShareFields
        ensures fields { result.now ≡ self.now }
        ensures in_range { IsShare self.now }
    {
        &self.fields
    }
}

/// Whether a share may have this value. Its length must be one that a master secret may have.
fn is_value(value: &[u8]) -> bool
    ensures { IsTrue result ↔ IsValue value.now }
{
    check_secret_length(value.len()).is_ok()
}
