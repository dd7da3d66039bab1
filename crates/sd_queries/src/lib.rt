//! The programs that read the image files of a store: `restore`, `list`, `verify`, `history` and `diff`, by a query;
//! `show`; and `drop`, which closes one. What they report after their last line.
#![tactic(auto)]

mod difference;
mod drop;
mod ends;
mod queries;
mod reading;
mod show;

pub use difference::Compared;
pub use drop::drop_program;
pub use ends::{report_damage, report_empty};
pub use queries::Query;
pub use reading::reader_program;
pub use show::show_program;
