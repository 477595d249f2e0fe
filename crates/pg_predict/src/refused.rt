//! A grammar that isn't accepted, and everything that is wrong with it.
//!
//! There can be very many findings, such as one for every two alternatives of a choice. So they are found one by one on demand
//! (`findings.rt`), and never stand in memory together.
ghost use Rattle.std.specs.Prelude.{◌≡◌, ◌<◌, false, true, length, map, OnOk, IsErrOf};
ghost use Rattle.std.specs.Io.KnownBytes.{Appends};
ghost use Rattle.pg_tree.specs.Bytes.{AppendsPrefix};
ghost use Rattle.pg_predict.specs.Findings.{lines_of};
ghost use Rattle.pg_predict.specs.Found.{findings_of, violations_of};
ghost use Rattle.pg_predict.specs.Refusals.{violations_at, kinds_at, found_of};
ghost use Rattle.pg_predict_conditions.specs.Violations.{counted};

use crate::at_node::{FindingsAt, count_kinds};
use crate::finding_lines::write_lines;
use crate::findings::Findings;
use crate::source::Source;
use pg_grammar_form::NodeId;
use pg_grammar_value::Grammar;
use pg_sets::Sets;
use pg_tree::{Meter, WriteFault};
use std::alloc::Global;
use std::fmt;
use std::io::Write;
use std::marker::Model;

/// The size of the buffer for lines, in bytes.
const BUFFER: usize = 65_536;

/// A grammar that isn't predictive. Contracts see it with all its findings, at least one, in the order of nodes, numbers and alternatives.
pub struct Refused {
    source: Source,
}

// Written out, so that the crates above needn't prove again how each part is dropped.
impl Drop for Refused {
    fn drop(self) {
        let Refused { source } = self;
        drop(source);
    }
}

impl Model for Refused {
    ghost use Rattle.pg_predict.specs.Refusals.{RefusedGrammar, IsRefusal, refused_by};

    ghost Value = { RefusedGrammar };

    ghost view = { λ refused. refused_by refused.source };

    ghost invariant = { λ refused. IsRefusal refused.source };
}

impl Refused {
    ghost use Rattle.pg_predict.specs.Refusals.{IsRefusal, IsRefused, refused_by};

    /// The refused grammar of this source, in which something must be wrong.
    pub(crate) fn new(source: Source) -> Refused
        requires { IsRefusal source }
        ensures { result ≡ refused_by source }
    {
        Refused { source }
    }

    /// The grammar. It allocates no memory.
    pub fn grammar(&self) -> &Grammar
        ensures grammar { result.now ≡ self.now.grammar }
        ensures refused { IsRefused self.now.grammar self.now }
    {
        &self.source.grammar
    }

    /// Its sets. It allocates no memory.
    pub fn sets(&self) -> &Sets
        ensures sets { result.now ≡ self.now.sets }
        ensures refused { IsRefused self.now.grammar self.now }
    {
        self.source.judge.sets()
    }

    /// All findings, from the first on (ours). It allocates no memory.
    pub fn findings(&self) -> Findings<'_>
        ensures violations { violations_of result ≡ self.now.violations }
        ensures findings { findings_of result ≡ self.now.findings }
    {
        Findings::of(&self.source)
    }

    /// The findings at a node, in the order of conditions and alternatives (ours). It allocates no memory.
    pub fn findings_at(&self, node: NodeId) -> FindingsAt<'_>
        requires { node < length self.now.grammar.nodes }
        ensures { result ≡ map (found_of self.now) (violations_at node self.now.violations) }
    {
        FindingsAt::of(&self.source, node)
    }

    /// The number of findings at a node, or the greatest number if there are more. It allocates no memory.
    pub fn count_at(&self, node: NodeId) -> usize
        requires { node < length self.now.grammar.nodes }
        ensures { result ≡ counted (kinds_at node self.now.violations) }
    {
        count_kinds(&self.source, node)
    }

    /// Writes a line for each finding, with the rule's name, the node's number in it and the text of what is wrong, in as many
    /// calls as the writer needs. It doesn't flush the writer.
    ///
    /// Its memory doesn't grow with the findings, and is allocated before the first byte is written.
    pub fn write_findings<W: Write>(
        &self,
        alloc: Global,
        writer: &mut Meter<W>,
    ) -> Result<(), WriteFault>
        requires { writer.old.failed ≡ false }

        // The writer took exactly the lines.
        ensures ok { OnOk result (Appends (W.contents writer.old.inner) (W.contents writer.new.inner) (lines_of self.now.findings)) }
        ensures stays { OnOk result (writer.new.failed ≡ false) }

        // The writer failed, after a prefix of the lines.
        ensures failed { IsErrOf result WriteFault.Writer → writer.new.failed ≡ true }
        ensures prefix { IsErrOf result WriteFault.Writer →
            AppendsPrefix (W.contents writer.old.inner) (W.contents writer.new.inner) (lines_of self.now.findings) }

        // Memory ran out before the first byte.
        ensures memory { IsErrOf result WriteFault.Memory → writer.new ≡ writer.old }
    {
        let Ok(mut buffer) = Vec::with_capacity(alloc, BUFFER) else {
            return Err(WriteFault::Memory);
        };
        match write_lines(&mut self.findings(), &mut buffer, writer) {
            Ok(()) => Ok(()),
            Err(_) => Err(WriteFault::Writer),
        }
    }
}

impl fmt::Debug for Refused {
    fn fmt<W: fmt::Write>(&self, f: &mut fmt::Formatter<W>) -> fmt::Result {
        f.write_str("Refused")
    }
}
