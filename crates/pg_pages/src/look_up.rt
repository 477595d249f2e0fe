//! The look-up of a code's page.

use crate::pages::page_of;

/// The page of a code, whose letter may be in lower case: what it means, how it comes about and what to do about it, as plain text (ours). `None` if there is
/// no such code.
pub fn page(code: &str) -> Option<&'static str> {
    page_of(code)
}
