//! The type of a start, and its constructors.
//!
//! Callers see a start as its kind with the parts. The invariant is that a key isn't empty. An empty key would match anywhere, so it wouldn't be apart from
//! the end of the text.
ghost use Rattle.std.specs.Prelude.{◌≡◌, ◌<◌, length, IfOk};
ghost use Rattle.pg_start.specs.Starts.{IsStart};

use crate::kind::StartKind;
use pg_class::Class;
use pg_text::{Characters, Texts};
use std::alloc::{AllocError, Global};
use std::marker::Model;

/// A start, in memory of its own, seen as its kind.
#[derive(Debug, Drop)]
pub struct Start {
    kind: StartKind,
}

impl Model for Start {
    ghost use Rattle.pg_start.specs.declared.kind.StartKind.{StartKind};
    ghost use Rattle.pg_start.specs.Starts.{IsStart};

    ghost Value = { StartKind };

    ghost view = { λ start. start.kind };

    ghost invariant = { λ start. IsStart start.kind };
}

impl Start {
    /// The start of a character of this class.
    pub fn class(class: &Class) -> Result<Start, AllocError>
        ensures { IfOk result (λ start. start ≡ StartKind.Class class.now) }
    {
        let class = class.share()?;
        Ok(Start {
            kind: StartKind::Class(class),
        })
    }

    /// The start of this key, with no excluded character after it.
    pub fn key(alloc: Global, key: &[char], excluded: &Class) -> Result<Start, AllocError>
        requires { 0 < length key.now }
        ensures { IfOk result (λ start. start ≡ StartKind.Key key.now excluded.now) }
    {
        let key = Characters::new(Vec::from_slice(alloc, key)?);
        let excluded = excluded.share()?;
        Ok(Start {
            kind: StartKind::Key(key, excluded),
        })
    }

    /// The start of a word: one of the heads and all of the rest that follow, unless that is one of the reserved texts. It shares these and takes no memory.
    /// The only error, reported as out of memory, is that they are shared as often as can be counted.
    pub fn word(heads: &Class, rest: &Class, reserved: &Texts) -> Result<Start, AllocError>
        ensures { IfOk result (λ start. start ≡ StartKind.Word heads.now rest.now reserved.now) }
    {
        let heads = heads.share()?;
        let rest = rest.share()?;
        let reserved = reserved.share()?;
        Ok(Start {
            kind: StartKind::Word(heads, rest, reserved),
        })
    }

    /// The start of the end of the text. It takes no memory.
    pub fn end() -> Start
        ensures { result ≡ StartKind.End }
    {
        Start {
            kind: StartKind::End,
        }
    }

    /// The kind, with its parts. It takes no memory.
    pub fn view(&self) -> &StartKind
        ensures same { result.now ≡ self.now }
        ensures start { IsStart self.now }
    {
        &self.kind
    }
}
