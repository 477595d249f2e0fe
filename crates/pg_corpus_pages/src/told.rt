//! A case of a corpus file, and what its trial shows.

use pg_corpus::Case;
use pg_corpus_judging::Trial;

/// A case in a file with this name, and its trial (ours).
#[derive(Clone, Copy)]
pub struct Told<'a> {
    pub file: &'a str,
    pub case: Case<'a>,
    pub trial: &'a Trial,
}
