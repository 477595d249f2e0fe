//! From the bytes of a grammar file to a Haskell module over Text.Parsec.
#![tactic(auto)]

mod haskell;

pub use haskell::haskell_bytes;
pub use pg_haskell::is_module_name;
