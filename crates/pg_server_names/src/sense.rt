//! What a name of a grammar file is.

ghost use Rattle.std.specs.Prelude.{◌≡◌};
ghost use Rattle.pg_server_names.specs.Asked as asked;

use pg_file_items::Span;

/// What is looked up in one place. Rules, classes and words may share their names.
#[derive(Clone, Copy, Debug, PartialEq, Eq)]
pub enum NameKind {
    Rule,
    /// A class of the file, or a predicate.
    Class,
    /// A kind of words.
    Word,
}

/// What a name is where it stands.
#[derive(Clone, Copy, Debug, PartialEq, Eq)]
pub enum Sense {
    /// An item begins with it, and defines it.
    Defines(NameKind),
    /// It is used. There may be no such name.
    Uses(NameKind),
    /// A builder's name.
    Builder,
    /// A word of grammar files.
    Keyword,
    /// No name belongs there.
    Stray,
}

/// Which names are asked for.
#[derive(Clone, Copy, Debug, PartialEq, Eq)]
pub enum Which {
    Definitions,
    Uses,
    Both,
}

/// A name where it stands.
#[derive(Clone, Copy)]
pub struct Occurrence {
    /// Its characters.
    pub span: Span,
    pub sense: Sense,
}

/// Whether two kinds are the same.
fn is_same(one: NameKind, other: NameKind) -> bool
    ensures { result ≡ asked.is_same one other }
{
    match one {
        NameKind::Rule => matches!(other, NameKind::Rule),
        NameKind::Class => matches!(other, NameKind::Class),
        NameKind::Word => matches!(other, NameKind::Word),
    }
}

impl Which {
    fn has_definitions(self) -> bool
        ensures { result ≡ asked.has_definitions self }
    {
        match self {
            Which::Definitions | Which::Both => true,
            Which::Uses => false,
        }
    }

    fn has_uses(self) -> bool
        ensures { result ≡ asked.has_uses self }
    {
        match self {
            Which::Uses | Which::Both => true,
            Which::Definitions => false,
        }
    }
}

impl Sense {
    /// The kind of a name that the file defines or uses.
    pub fn kind(self) -> Option<NameKind>
        ensures { result ≡ asked.kind_of self }
    {
        match self {
            Sense::Defines(kind) | Sense::Uses(kind) => Some(kind),
            Sense::Builder | Sense::Keyword | Sense::Stray => None,
        }
    }

    /// Whether a name is asked for that is this.
    pub(crate) fn is_asked(self, which: Which, kind: NameKind) -> bool
        ensures { result ≡ asked.is_asked which kind self }
    {
        match self {
            Sense::Defines(other) => is_same(other, kind) && which.has_definitions(),
            Sense::Uses(other) => is_same(other, kind) && which.has_uses(),
            Sense::Builder | Sense::Keyword | Sense::Stray => false,
        }
    }
}
