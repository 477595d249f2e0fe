//! Operators and declarations in drafts.

use crate::basis::Basis;
use crate::characters::character_of;
use crate::drafting::Draft;
use pg_class::Class;
use pg_start::StartKind;
use pg_table::Table;
use pg_text::Texts;

/// How many symbols are tried for a declaration.
const TRIED: usize = 94;

impl<'g> Draft<'g> {
    /// Adds the symbol of the operator with this number in the table.
    pub(crate) fn symbol(&mut self, number: usize) {
        let table = self.field.table;
        match table.operators().get(number) {
            Some(operator) => self.put_all(operator.symbol()),
            None => self.give_up(),
        }
        self.avoid_operators();
    }

    /// Adds a declaration of an operator that isn't in the table.
    pub(crate) fn declaration(&mut self) {
        if self.next_wish() == Some('p') {
            self.put_all(&['p', 'r', 'e', 'f', 'i', 'x']);
        } else {
            self.put_all(&['i', 'n', 'f', 'i', 'x', 'l']);
        }
        if let Some(c) = gap_character(self.field.basis) {
            self.put(c);
        }
        self.put('6');
        match self.declared_symbol() {
            Some(c) => self.put(c),
            None => self.give_up(),
        }
        self.avoid_operators();
    }

    /// The character of a symbol to declare. It is a character of operators, begins no operator of the table and isn't reserved.
    fn declared_symbol(&mut self) -> Option<char> {
        let number = self.random.below(TRIED);
        let passed = if self.plan.seed == 0 { 0 } else { number };
        let (class, reserved) = symbols_of(self.field.basis)?;
        free_symbol(self.field.table, class, reserved, passed)
    }

    /// Asks that no operator character come next.
    fn avoid_operators(&mut self) {
        self.excluded = match symbols_of(self.field.basis) {
            Some((class, _)) => Some(class),
            None => None,
        };
    }
}

/// The characters of operators and the reserved symbols, if the grammar has operators.
fn symbols_of<'g>(basis: &'g Basis<'g>) -> Option<(&'g Class, &'g Texts)> {
    match &basis.operators {
        Some(operators) => match operators.operator.start.view() {
            StartKind::Word(class, _, reserved) => Some((class, reserved)),
            StartKind::Class(_) | StartKind::Key(_, _) | StartKind::End => None,
        },
        None => None,
    }
}

/// A character of the gap, if there is one: the space, or the least printable one.
fn gap_character(basis: &Basis<'_>) -> Option<char> {
    match &basis.operators {
        Some(operators) => match operators.gap.view() {
            StartKind::Class(class) => {
                if class.has(' ') {
                    Some(' ')
                } else {
                    character_of(class, None, 0)
                }
            }
            StartKind::Key(_, _) | StartKind::Word(_, _, _) | StartKind::End => None,
        },
        None => None,
    }
}

/// A character of the class that begins no operator of the table and isn't reserved. The search begins after the first `passed` printable ones.
fn free_symbol(table: &Table, class: &Class, reserved: &Texts, passed: usize) -> Option<char> {
    for number in 0..TRIED {
        let c = character_of(class, None, passed.saturating_add(number))?;
        if !reserved.contains(&[c]) && !is_operator(table, c) {
            return Some(c);
        }
    }
    None
}

/// Whether the symbol of an operator of the table begins with this character.
fn is_operator(table: &Table, c: char) -> bool {
    for operator in table.operators() {
        if operator.symbol().first() == Some(&c) {
            return true;
        }
    }
    false
}
