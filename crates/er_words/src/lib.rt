//! The words of command lines and the lines of scripts: reads what each asks for, and says which word is at fault if it asks for
//! nothing.
#![tactic(auto)]

mod fields;
mod line;
mod paths;
mod usage;
mod values;
mod words;

pub use fields::read_line;
pub use line::{Line, LineFault, read_words};
pub use paths::FilePath;
pub use usage::UsageFault;
pub use values::ExportKind;
