//! The rest of a file when the items with faults are skipped.

use crate::item::item_around;
use crate::names::{Word, definitions, has_equals, is_among, word_at, words};
use pg_file::{FaultKind, FileError, FileFault, read};
use pg_file_tokens::{is_word, lex};
use pg_pred::Registry;
use pg_text::{characters_of, utf8};
use pg_text_excerpt::positions;
use std::alloc::{AllocError, Global};

/// A file with blanks in place of the skipped items.
#[derive(Drop)]
pub(crate) struct Remains {
    /// Its characters.
    text: Vec<char>,
    /// The definitions added after it in place of those that were skipped.
    behind: Vec<char>,
    /// The definitions added after that for unknown names.
    unknown: Vec<char>,
    /// The characters that were skipped.
    passed: Vec<char>,
    /// Whether an item was skipped whose kind isn't known.
    has_riddle: bool,
}

impl Remains {
    /// A whole file.
    pub(crate) fn of(alloc: Global, text: &str) -> Result<Remains, AllocError> {
        let text = characters_of(alloc, text)?;
        Ok(Remains {
            text,
            behind: Vec::new(alloc),
            unknown: Vec::new(alloc),
            passed: Vec::new(alloc),
            has_riddle: false,
        })
    }

    /// The bytes of the rest of the file, with the added definitions.
    pub(crate) fn file(&self, alloc: Global) -> Result<Vec<u8>, AllocError> {
        let mut text = utf8(alloc, self.text.as_slice())?;
        push_all(&mut text, self.behind.as_slice())?;
        Ok(text.into_bytes())
    }

    /// The word at a fault, or an empty one if there is none. A fault after the end of the file is taken as one at its end.
    pub(crate) fn word_of(&self, alloc: Global, fault: &FileFault) -> Result<Word, AllocError> {
        let positions = positions(alloc, self.text.as_slice())?;
        let found = positions
            .iter()
            .position(|position| *position == fault.position);
        let place = found.unwrap_or(self.text.len());
        Ok(word_at(self.text.as_slice(), place))
    }

    /// The first fault of the rest of the file, in which reported names are known. A fault after the end of the file counts only as that the last item
    /// doesn't end or that there is no start.
    pub(crate) fn fault(
        &self,
        alloc: Global,
        registry: &Registry,
    ) -> Result<Option<FileFault>, AllocError> {
        let mut text = utf8(alloc, self.text.as_slice())?;
        push_all(&mut text, self.behind.as_slice())?;
        push_all(&mut text, self.unknown.as_slice())?;
        self.fault_of(alloc, text.as_bytes(), registry)
    }

    /// The first fault of the rest of the file, given its bytes.
    fn fault_of(
        &self,
        alloc: Global,
        bytes: &[u8],
        registry: &Registry,
    ) -> Result<Option<FileFault>, AllocError> {
        match read(alloc, bytes, registry) {
            Ok(grammar) => {
                drop(grammar);
                Ok(None)
            }
            Err(FileError::Fault(fault)) => self.in_file(alloc, fault),
            Err(FileError::Memory) => Err(AllocError),
        }
    }

    /// A fault of the rest as one of the file, if it is one. That the rest is too long isn't, since the added definitions may have made it so.
    fn in_file(&self, alloc: Global, fault: FileFault) -> Result<Option<FileFault>, AllocError> {
        let positions = positions(alloc, self.text.as_slice())?;
        let Some(end) = positions.last().copied() else {
            return Ok(None);
        };
        let is_of_length = matches!(fault.kind, FaultKind::LimitPassed) && fault.position == end;
        if !is_of_length && positions.iter().any(|position| *position == fault.position) {
            return Ok(Some(fault));
        }
        let is_of_end = matches!(fault.kind, FaultKind::NoStart)
            || matches!(fault.kind, FaultKind::UnexpectedToken) && self.has_open_end(alloc)?;
        if is_of_end {
            return Ok(Some(FileFault {
                kind: fault.kind,
                position: end,
            }));
        }
        Ok(None)
    }

    /// Whether the last item of the file doesn't end.
    fn has_open_end(&self, alloc: Global) -> Result<bool, AllocError> {
        let text = self.text.as_slice();
        let lexemes = lex(alloc, text)?;
        Ok(item_around(text, lexemes.as_slice(), text.len()).has_token)
    }

    /// Whether this was skipped or is defined after the file: the definition of a word or, for forms that need it, the `operators` item.
    pub(crate) fn has_defined(&self, alloc: Global, word: Word) -> Result<bool, AllocError> {
        let name = word.of(self.text.as_slice());
        if is_word("expr", name) || is_word("declare", name) {
            return self.has_passed(alloc, "operators");
        }
        Ok(is_among(alloc, self.passed.as_slice(), name)? || self.is_behind(alloc, name)?)
    }

    /// Whether this name is defined after the file.
    fn is_behind(&self, alloc: Global, name: &[char]) -> Result<bool, AllocError> {
        Ok(
            is_among(alloc, self.behind.as_slice(), name)?
                || is_among(alloc, self.unknown.as_slice(), name)?,
        )
    }

    /// Whether the skipped items may contain the `start` item: one of them is, or one of them defines nothing.
    pub(crate) fn may_have_passed_start(&self, alloc: Global) -> Result<bool, AllocError> {
        if self.has_riddle {
            return Ok(true);
        }
        self.has_passed(alloc, "start")
    }

    /// Whether this word is in the skipped items.
    pub(crate) fn has_passed(&self, alloc: Global, word: &str) -> Result<bool, AllocError> {
        let passed = self.passed.as_slice();
        let words = words(alloc, passed)?;
        Ok(words.iter().any(|one| is_word(word, one.of(passed))))
    }

    /// Skips what has a fault: an unknown name is defined; if that doesn't help, and for any other fault, the item is replaced by blanks. Returns whether
    /// there was something to skip.
    pub(crate) fn pass(
        &mut self,
        alloc: Global,
        registry: &Registry,
        fault: &FileFault,
    ) -> Result<bool, AllocError> {
        let word = self.word_of(alloc, fault)?;
        if matches!(fault.kind, FaultKind::UnknownName)
            && !self.has_defined(alloc, word)?
            && self.define_word(alloc, registry, word)?
        {
            return Ok(true);
        }
        self.pass_item(alloc, registry, word.first)
    }

    /// Defines an unknown word of the file after its end. Returns whether that was possible.
    fn define_word(
        &mut self,
        alloc: Global,
        registry: &Registry,
        word: Word,
    ) -> Result<bool, AllocError> {
        let name = Vec::from_slice(alloc, word.of(self.text.as_slice()))?;
        if !self.can_define(alloc, registry, name.as_slice())? {
            return Ok(false);
        }
        push_rule(&mut self.unknown, name.as_slice())?;
        Ok(true)
    }

    /// Replaces the item at a place by blanks, and defines its names after the file. Returns whether there was one.
    fn pass_item(
        &mut self,
        alloc: Global,
        registry: &Registry,
        place: usize,
    ) -> Result<bool, AllocError> {
        let text = self.text.as_slice();
        let lexemes = lex(alloc, text)?;
        let item = item_around(text, lexemes.as_slice(), place);
        drop(lexemes);
        if !item.has_token {
            return Ok(false);
        }
        let written = Vec::from_slice(alloc, text.get(item.first..item.after).unwrap_or(&[]))?;
        self.blank(item.first, item.after);
        self.passed.extend_from_slice(written.as_slice())?;
        self.passed.push(' ')?;
        if !has_equals(alloc, written.as_slice())? {
            self.has_riddle = true;
        }
        self.define_all(alloc, registry, written.as_slice())?;
        Ok(true)
    }

    /// Replaces these characters by blanks, except for those that determine lines and columns.
    fn blank(&mut self, first: usize, after: usize) {
        for place in first..after {
            if let Some(c) = self.text.get_mut(place) {
                if *c != '\n' && *c != '\t' {
                    *c = ' ';
                }
            }
        }
    }

    /// Defines the names of a text after the file, as rules that consume nothing.
    fn define_all(
        &mut self,
        alloc: Global,
        registry: &Registry,
        written: &[char],
    ) -> Result<(), AllocError> {
        let defined = definitions(alloc, written)?;
        for word in defined.iter() {
            let name = word.of(written);
            if self.can_define(alloc, registry, name)? {
                push_rule(&mut self.behind, name)?;
            }
        }
        Ok(())
    }

    /// Whether a name can be defined after the file: it isn't there yet, and a rule may have it.
    fn can_define(
        &self,
        alloc: Global,
        registry: &Registry,
        name: &[char],
    ) -> Result<bool, AllocError> {
        Ok(
            !is_among(alloc, self.text.as_slice(), name)?
                && !self.is_behind(alloc, name)?
                && is_free(alloc, registry, name)?,
        )
    }
}

/// Pushes these characters.
fn push_all(text: &mut String, characters: &[char]) -> Result<(), AllocError> {
    for c in characters {
        text.push(*c)?;
    }
    Ok(())
}

/// Whether a rule may have this name.
fn is_free(alloc: Global, registry: &Registry, name: &[char]) -> Result<bool, AllocError> {
    let mut text = characters_of(alloc, "start ")?;
    text.extend_from_slice(name)?;
    text.push(';')?;
    push_rule(&mut text, name)?;
    let bytes = utf8(alloc, text.as_slice())?;
    match read(alloc, bytes.as_bytes(), registry) {
        Ok(grammar) => {
            drop(grammar);
            Ok(true)
        }
        Err(FileError::Fault(_)) => Ok(false),
        Err(FileError::Memory) => Err(AllocError),
    }
}

/// Pushes a rule with this name.
fn push_rule(text: &mut Vec<char>, name: &[char]) -> Result<(), AllocError> {
    text.push('\n')?;
    text.extend_from_slice(name)?;
    for c in [' ', '=', ' ', 'e', 'o', 'f', ';'] {
        text.push(c)?;
    }
    Ok(())
}
