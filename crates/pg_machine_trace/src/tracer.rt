//! A watcher of runs that writes their traces.

ghost use Rattle.std.specs.Prelude.{◌≡◌, position, IfOk};
ghost use Rattle.std.specs.Str.{bytes_eq, chars};

use crate::teller::Teller;
use pg_grammar_form::RuleId;
use pg_grammar_value::Grammar;
use pg_machine::Watcher;
use pg_machine_turns::{Machine, Mode};
use pg_text::{Text, characters_of};
use std::alloc::{AllocError, Global};
use std::io::Write;

/// How many bytes of lines are collected before they are written.
const GATHERED: usize = 16_384;

/// Writes a line for each rule that is entered and for each that is left, with its place, the text that it read and which of
/// Parsec's four answers it gives, and for each choice that loses alternatives; if rules are still open at the end, a line says why (ours).
/// Lines are written some thousands of bytes at a time, each whole, in UTF-8. Once the writer has failed, nothing more is written, and the run goes on.
#[derive(Drop)]
pub struct Tracer<'a, W: Write> {
    teller: Teller<'a>,
    writer: &'a mut W,
}

impl<'a, W: Write> Tracer<'a, W> {
    /// A tracer for a run of the grammar's start rule at the beginning of the text. It reports on the rule `only`, or on all rules if there is none.
    pub fn new(
        alloc: Global,
        grammar: &'a Grammar,
        text: &'a Text,
        only: Option<RuleId>,
        writer: &'a mut W,
    ) -> Result<Tracer<'a, W>, AllocError> {
        let teller = Teller::begun(alloc, grammar, text, only)?;
        Ok(Tracer { teller, writer })
    }

    /// Whether every write has succeeded so far.
    pub fn writes(&self) -> bool {
        self.teller.writes
    }

    /// Writes the lines and clears them, if they have more than `most` bytes.
    fn put(&mut self, most: usize) {
        if self.teller.page.len() > most {
            self.teller.writes = self.writer.write_all(self.teller.page.as_bytes()).is_ok();
            self.teller.page.clear();
        }
    }
}

impl<W: Write> Watcher for Tracer<'_, W> {
    fn see(&mut self, machine: &Machine<'_>, mode: &Mode) -> Result<(), AllocError> {
        if self.teller.writes {
            self.teller.tell(machine, mode)?;
        }
        Ok(())
    }

    fn follow(&mut self, after: &Mode) -> Result<(), AllocError> {
        if self.teller.writes {
            self.teller.follow(after);
            self.put(GATHERED);
        }
        Ok(())
    }

    fn end(&mut self, machine: &Machine<'_>, mode: &Mode, steps: u64) -> Result<(), AllocError> {
        if self.teller.writes {
            self.teller.finish(machine, mode, steps)?;
            self.put(0);
        }
        Ok(())
    }
}

/// The number of the rule with this name, if there is one.
pub fn rule_named(
    alloc: Global,
    grammar: &Grammar,
    name: &str,
) -> Result<Option<RuleId>, AllocError>
    ensures { IfOk result (λ rule. rule ≡ position (λ rule. bytes_eq rule.name (chars name.now)) grammar.now.rules) }
{
    let name = characters_of(alloc, name)?;
    Ok(grammar.rule(name.as_slice()))
}
