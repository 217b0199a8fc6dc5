//! The engine by one name, for callers that name one crate: plans, creation, recovery, random bytes that fit known shares, the test
//! of a quorum, the memo of a drill, and the commands over any devices. This crate has no code of its own.
#![tactic(auto)]

pub use s39_backup::{
    CreateError, Created, Members, Memo, Mismatch, Options, Plan, PlanError, RecoverError,
    ResplitError, create, create_from_encrypted, recover_by, refit, resplit,
};
pub use s39_creating::{run_create, run_reissue, run_resplit};
pub use s39_drilling::{Done, run_drill};
pub use s39_input::{
    Counting, DeviceFailure, Fault, Refusal, SecretForm, Watch, run_repair, run_show,
};
pub use s39_reading::{run_recover, run_status};
pub use s39_set::is_quorum;
pub use s39_split::fit;
