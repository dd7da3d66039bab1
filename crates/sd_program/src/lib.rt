//! What all programs share: how they are called, the folder of a store, and what stands on the standard error: causes,
//! the progress of long readings, and a log.
#![tactic(auto)]

mod beside;
mod called;
mod cause;
mod few_slots;
mod folders;
mod lacks;
mod logging;
mod pace;
mod scripts;
mod shown;
mod slots;
mod verbose;

pub use beside::{BESIDE, may_change, read_until_steady};
pub use called::Called;
pub use cause::{Advised, Causes, tell};
pub use few_slots::FewSlots;
pub use lacks::{NOT_THERE, print_not_there};
pub use pace::{CLEAR, Done, Pace};
pub use scripts::{Inputs, STANDARD_INPUT, read_script, unread};
pub use slots::{has_slot_files, is_same_file, is_slot_file, open_beside_slots, slot_error};
pub use verbose::{Logger, Seen, SeenDisk, log_info, unseen};
