//! The language of scripts: what each line asks for, and how it is answered.
#![tactic(auto)]

mod answer;
mod blame;
mod digits;
mod field_values;
mod forms;
mod line;
mod line_error;
mod line_fault;
mod print;
mod script;
mod script_error;
mod unfit;

pub use answer::Answer;
pub use blame::{Blame, Blank, QuotedLine, blame_line};
pub use forms::{Field, LINE_FORMS, LineForm, form_of};
pub use line::Line;
pub use line_fault::{FieldKind, LineFault};
pub use print::{SHORT_LINE, print_answer, put_short_line};
pub use script::Script;
pub use script_error::ScriptError;
pub use unfit::unfit_line;
