//! Lines of a file, shown with marks below what a message is about.
//!
//! A line is shown as it is written, except for control characters; a long one is cut at words (`windows`). Its marks stand in as few rows as they fit in
//! (`rows`). Nothing is proved about what is shown: the code has to be safe and to end, and tests check its output.
#![tactic(auto)]

mod columns;
mod excerpt;
mod marks;
mod places;
mod rows;
mod text_lines;
mod windows;

pub use columns::{is_shown, push_shown};
pub use excerpt::push_excerpt;
pub use marks::Mark;
pub use places::positions;
