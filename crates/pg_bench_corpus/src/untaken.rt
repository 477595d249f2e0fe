//! What no case takes of a grammar, told for people: with its place in the file, and in the words of the file.
//!
//! A short form stands for several nodes, and a part of it for the same nodes twice. So turns are told by the characters that were written for their nodes, each once.

use crate::words::{push_operator, push_turn};
use pg_file_making::PlacedGrammar;
use pg_file_tokens::lex;
use pg_grammar_value::Grammar;
use pg_text::{Pos, characters_of};
use pg_text_excerpt::positions;
use pg_trail_coverage::{Coverage, Turn, What};
use std::alloc::{AllocError, Global};

/// A turn by what was written for it. Turns stand in the order of the file.
#[derive(Clone, Copy, PartialEq, Eq, PartialOrd, Ord)]
struct Written {
    first: usize,
    after: usize,
    /// Rounds, and then alternatives.
    rank: usize,
    node: usize,
    is_taken: bool,
}

impl Written {
    /// Whether another turn is the same, by what was written for it.
    fn is_same(self, other: Written) -> bool {
        self.first == other.first && self.after == other.after && self.rank == other.rank
    }

    /// The turn, taken if another one was.
    fn with(self, other: Written) -> Written {
        Written {
            is_taken: self.is_taken || other.is_taken,
            ..self
        }
    }
}

/// The lines of what no trail took of the grammar in a file with this name and these bytes, and how many of how many were taken (ours). The only error is that
/// memory runs out.
pub fn coverage_page(
    alloc: Global,
    name: &str,
    bytes: &[u8],
    placed: &PlacedGrammar,
    coverage: &Coverage,
) -> Result<String, AllocError> {
    let text = str::from_utf8(bytes).unwrap_or("");
    let characters = characters_of(alloc, text)?;
    let positions = positions(alloc, characters.as_slice())?;
    let written = written_turns(alloc, placed, coverage)?;
    let mut page = Page {
        lines: String::new(alloc),
        name,
        characters: characters.as_slice(),
        positions: positions.as_slice(),
        taken: 0,
        all: 0,
    };
    page.push_written(alloc, &placed.grammar, written.as_slice())?;
    page.push_operators(alloc, &placed.grammar, coverage)?;
    page.end(alloc)
}

/// The turns of nodes that are possible, sorted by what was written for them.
fn written_turns(
    alloc: Global,
    placed: &PlacedGrammar,
    coverage: &Coverage,
) -> Result<Vec<Written>, AllocError> {
    let mut found = Vec::new(alloc);
    for turn in coverage.turns() {
        if let Some(written) = written_for(placed, *turn) {
            found.push(written)?;
        }
    }
    found.sort_unstable();
    Ok(found)
}

/// A possible turn of a node by what was written for it.
fn written_for(placed: &PlacedGrammar, turn: Turn) -> Option<Written> {
    if !turn.is_possible {
        return None;
    }
    let span = placed.spans.get(turn.node)?;
    Some(Written {
        first: span.first,
        after: span.after,
        rank: rank_of(turn.what)?,
        node: turn.node,
        is_taken: turn.is_taken,
    })
}

/// The rank of a turn; an operator has none.
fn rank_of(what: What) -> Option<usize> {
    match what {
        What::NoRound => Some(0),
        What::OneRound => Some(1),
        What::MoreRounds => Some(2),
        What::Alternative(number) => Some(number.saturating_add(2)),
        What::Operator(_) => None,
    }
}

/// A page as it is written.
#[derive(Drop)]
struct Page<'a> {
    lines: String,
    name: &'a str,
    characters: &'a [char],
    /// The position of each character, and of the end.
    positions: &'a [Pos],
    taken: usize,
    all: usize,
}

impl Page<'_> {
    /// Appends the turns of nodes that aren't taken.
    fn push_written(
        &mut self,
        alloc: Global,
        grammar: &Grammar,
        written: &[Written],
    ) -> Result<(), AllocError> {
        let mut last: Option<Written> = None;
        for turn in written {
            last = match last {
                Some(group) if group.is_same(*turn) => Some(group.with(*turn)),
                Some(group) => {
                    self.push_one(alloc, grammar, group)?;
                    Some(*turn)
                }
                None => Some(*turn),
            };
        }
        match last {
            Some(group) => self.push_one(alloc, grammar, group),
            None => Ok(()),
        }
    }

    /// Counts a turn, and appends its line if it isn't taken.
    fn push_one(
        &mut self,
        alloc: Global,
        grammar: &Grammar,
        written: Written,
    ) -> Result<(), AllocError> {
        self.count(written.is_taken);
        if written.is_taken {
            return Ok(());
        }
        self.push_place(alloc, written.first)?;
        self.push_rule(grammar, written.node)?;
        self.lines.push_str("not tried: ")?;
        push_turn(
            alloc,
            &mut self.lines,
            self.characters,
            written.first,
            written.rank,
        )?;
        self.lines.push_str("\n")
    }

    /// Counts the operators, and appends a line for each that isn't taken.
    fn push_operators(
        &mut self,
        alloc: Global,
        grammar: &Grammar,
        coverage: &Coverage,
    ) -> Result<(), AllocError> {
        let places = table_places(alloc, self.characters)?;
        for turn in coverage.turns() {
            if let What::Operator(index) = turn.what
                && turn.is_possible
            {
                self.count(turn.is_taken);
                if !turn.is_taken {
                    self.push_unread(alloc, grammar, places.as_slice(), index)?;
                }
            }
        }
        Ok(())
    }

    /// Appends the line of an operator.
    fn push_unread(
        &mut self,
        alloc: Global,
        grammar: &Grammar,
        places: &[usize],
        index: usize,
    ) -> Result<(), AllocError> {
        self.push_place(alloc, places.get(index).copied().unwrap_or(0))?;
        self.lines.push_str("not tried: ")?;
        if let Some(initial) = grammar.initials().get(index) {
            push_operator(alloc, &mut self.lines, initial)?;
        }
        self.lines.push_str("\n")
    }

    /// Counts a turn.
    fn count(&mut self, is_taken: bool) {
        self.all = self.all.saturating_add(1);
        if is_taken {
            self.taken = self.taken.saturating_add(1);
        }
    }

    /// Appends a place of the file.
    fn push_place(&mut self, alloc: Global, place: usize) -> Result<(), AllocError> {
        let Some(Pos { line, column }) = self.positions.get(place) else {
            return Ok(());
        };
        let name = self.name;
        let front = format!(in alloc; "{name}:{line}:{column}: ")?;
        self.lines.push_str(front.as_str())
    }

    /// Appends the name of a node's rule.
    fn push_rule(&mut self, grammar: &Grammar, node: usize) -> Result<(), AllocError> {
        for rule in grammar.rules().iter().rev() {
            if rule.body.index() <= node {
                for c in rule.name.as_slice() {
                    self.lines.push(*c)?;
                }
                break;
            }
        }
        self.lines.push_str(": ")
    }

    /// The page, with the sum at its end.
    fn end(self, alloc: Global) -> Result<String, AllocError> {
        let Page {
            mut lines,
            taken,
            all,
            ..
        } = self;
        let sum = format!(in alloc; "{taken} of {all} tried\n")?;
        lines.push_str(sum.as_str())?;
        Ok(lines)
    }
}

/// Where the table items of a file begin.
fn table_places(alloc: Global, characters: &[char]) -> Result<Vec<usize>, AllocError> {
    let lexemes = lex(alloc, characters)?;
    let mut places = Vec::new(alloc);
    for lexeme in &lexemes {
        if lexeme.token.is_word("table") {
            places.push(lexeme.place)?;
        }
    }
    Ok(places)
}
