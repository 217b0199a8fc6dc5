//! The numbers of refusals. The program and the library use the same numbers.

/// A word isn't in the word list. The first detail is its position, counted from 1.
pub const UNKNOWN_WORD: u8 = 11;

/// A mnemonic can't have this number of words. The first detail is the number.
pub const WORD_COUNT: u8 = 12;

/// The checksum of a mnemonic is wrong.
pub const BAD_CHECKSUM: u8 = 13;

/// A padding bit of a mnemonic isn't zero.
pub const BAD_PADDING: u8 = 14;

/// The group threshold of a mnemonic is above its group count.
pub const GROUP_THRESHOLD: u8 = 15;

/// No mnemonic fits what can be read of its words.
pub const NO_MNEMONIC: u8 = 17;

/// The checksum of a mnemonic is wrong, and if just one word is wrong, it is this one. The first detail is its
/// position, counted from 1.
pub const WRONG_WORD: u8 = 18;

/// More places of a line are open than a checksum determines. The first detail is their number.
pub const UNREADABLE_WORDS: u8 = 19;

/// A share has another identifier than those before it.
pub const OTHER_IDENTIFIER: u8 = 21;

/// A share has another extendable flag than those before it.
pub const OTHER_EXTENDABLE: u8 = 22;

/// A share has another iteration exponent than those before it.
pub const OTHER_EXPONENT: u8 = 23;

/// A share has another group threshold than those before it.
pub const OTHER_GROUP_THRESHOLD: u8 = 24;

/// A share has another group count than those before it.
pub const OTHER_GROUP_COUNT: u8 = 25;

/// The value of a share has another length than those of the shares before it.
pub const OTHER_LENGTH: u8 = 26;

/// A share has another member threshold than those of its group before it. The first detail is the group, counted from
/// 0.
pub const OTHER_MEMBER_THRESHOLD: u8 = 27;

/// A share has another value than a share with the same name before it. The details are the group and the member,
/// counted from 0.
pub const CONFLICTING_SHARE: u8 = 28;

/// There are no shares.
pub const NO_SHARES: u8 = 29;

/// There are too few shares. The details are the number of complete groups, and the group threshold.
pub const INCOMPLETE: u8 = 30;

/// A text isn't a plan.
pub const BAD_PLAN: u8 = 31;

/// The group threshold of a plan is above its number of groups, or it has more than 16 groups.
pub const PLAN_GROUPS: u8 = 32;

/// The member threshold of a group of a plan is above its number of members, or it has more than 16 members. The first
/// detail is the group, counted from 0.
pub const PLAN_MEMBERS: u8 = 33;

/// A group of a plan has a member threshold of 1 and several members. The first detail is the group, counted from 0.
pub const ONE_OF_MANY: u8 = 34;

/// A byte of a passphrase isn't printable. The first detail is its position, counted from 1.
pub const PASSPHRASE: u8 = 41;

/// A secret can't have this number of bytes. The first detail is the number.
pub const SECRET_LENGTH: u8 = 42;

/// The number of random bytes isn't the one that the backup takes. The first detail is the number that it takes.
pub const RANDOM_LENGTH: u8 = 43;

/// A text isn't a fingerprint.
pub const BAD_FINGERPRINT: u8 = 44;

/// A digest doesn't match. The first detail is the group, counted from 0, or `OF_GROUPS`.
pub const DIGEST_MISMATCH: u8 = 51;

/// The first detail of `DIGEST_MISMATCH` if it is the digest of the group shares that doesn't match.
pub const OF_GROUPS: u64 = 16;

/// A secret has another fingerprint than the expected one.
pub const OTHER_SECRET: u8 = 52;

/// A cursor isn't a list of names.
pub const BAD_CURSOR: u8 = 61;

/// Names aren't those of a quorum.
pub const NOT_A_QUORUM: u8 = 62;

/// A text isn't a list of names.
pub const BAD_NAMES: u8 = 63;

/// A plan doesn't have a name. The details are the group and the member, counted from 0.
pub const NOT_IN_PLAN: u8 = 64;

/// A share can't be of a backup with this plan.
pub const OTHER_PLAN: u8 = 65;

/// The given shares don't determine a share. The first detail is its name, `256 * group + member`, each counted from 0.
/// The second detail holds four numbers, one a byte, the highest byte first: the members of the group that are given,
/// its member threshold, the other groups that are complete, and the group threshold.
pub const UNDETERMINED: u8 = 66;

/// A backup isn't extendable, so that its encrypted secret can't be split anew.
pub const NOT_EXTENDABLE: u8 = 67;

/// A new backup has the identifier of the one from which it is split anew.
pub const SAME_IDENTIFIER: u8 = 68;

/// A line has more than 1,024 bytes.
pub const LINE_TOO_LONG: u8 = 71;

/// A read failed.
pub const READ_FAILED: u8 = 72;

/// A write failed.
pub const WRITE_FAILED: u8 = 73;
