//! What is printed of tried cases.
//!
//! For people a line for each case, and where it failed the lines that differ (`lines`), with the sum of all (`sum`). For scripts a line of JSON for each case
//! (`json`). And the corpus again, with what came in the place of what was wanted (`update`). Nothing is claimed here but that the code is safe and ends.
#![tactic(auto)]

mod json;
mod lines;
mod sum;
mod told;
mod update;

pub use json::push_json;
pub use lines::push_lines;
pub use sum::Sum;
pub use told::Told;
pub use update::updated_page;
