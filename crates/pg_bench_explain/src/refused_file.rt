//! The file of a refused grammar.

use pg_bench_grammar::LoadedFile;
use pg_pred::Registry;
use pg_predict::Refused;

/// A loaded file whose grammar is refused.
#[derive(Clone, Copy)]
pub(crate) struct RefusedFile<'f> {
    pub(crate) loaded: &'f LoadedFile<'f>,
    /// Its grammar, with its findings.
    pub(crate) refused: &'f Refused,
    /// The predicates and builders that the file may name.
    pub(crate) registry: &'f Registry,
}
