//! Declarations: they add an operator to the table.

ghost use Rattle.std.specs.Prelude.{◌≡◌, ◌∷◌, [], Some, IfOk, OnOk};
ghost use Rattle.pg_grammar_form.specs.Operators.{IsOperator};
ghost use Rattle.pg_grammar_value.specs.Sites.{class_at};
ghost use Rattle.pg_table.specs.Tables.{admit_fault};
ghost use Rattle.pg_language.specs.Declarations.{declare_outcome, unless_refused};
ghost use Rattle.pg_language.specs.Leaves.{some_declare_outcome};
ghost use Rattle.pg_language_declarations.specs.Views.{operator_of};
ghost use Rattle.pg_language.specs.Derives.{declaration_tree};
ghost use Rattle.pg_machine_lists.specs.RunTrees.{with_trees};
ghost use Rattle.pg_machine_turns.specs.Spots.{spot_at};
ghost use Rattle.pg_machine_turns.specs.Tape.{tape_leaf, tape_told};
ghost use Rattle.pg_machine_turns.specs.View.{on_lists, tape_of};

use crate::frame::{Mode, Reply};
use crate::machine::Machine;
use pg_grammar_classes::ClassSite;
use pg_grammar_form::{ClassExpression, NodeId, OperatorsItem};
use pg_language_declarations::{Declaration, Declared, declaration_at};
use pg_machine_lists::{Context, RunForest};
use pg_message_tape::Message;
use std::alloc::{AllocError, Global};

impl<'a> Machine<'a> {
    /// Declares an operator by the operators item, if there is one.
    #[inline(never)]
    pub(crate) fn declare(
        &mut self,
        context: Context<'_, 'a>,
        node: NodeId,
        class: &ClassExpression,
        place: usize,
    ) -> Result<Mode, AllocError>
        requires { class_at context.given.grammar.now (ClassSite.Node node) ≡ class.now }
        ensures { IfOk result (λ mode. tape_of mode self.new ≡
            on_lists (tape_told (some_declare_outcome context.entry.given.grammar.now context.entry.given.text.now class.now (spot_at self.old.table place)
            context.entry.given.grammar.now.operators)) self.old) }
    {
        match context.given.grammar.operators_item() {
            Some(item) => self.declare_by(context, item, node, class, place),
            None => Ok(Mode::Endless),
        }
    }

    /// Appends the operator that is read to the table, unless the table refuses it.
    fn declare_by(
        &mut self,
        context: Context<'_, 'a>,
        item: &OperatorsItem,
        node: NodeId,
        class: &ClassExpression,
        place: usize,
    ) -> Result<Mode, AllocError>
        requires item { context.given.grammar.now.operators ≡ Some item.now }
        requires class { class_at context.given.grammar.now (ClassSite.Node node) ≡ class.now }
        ensures { IfOk result (λ mode. tape_of mode self.new ≡
            on_lists (tape_leaf (declare_outcome context.entry.given.grammar.now context.entry.given.text.now item.now class.now (spot_at self.old.table place))) self.old) }
    {
        let (grammar, text) = (context.given.grammar, context.given.text);
        match declaration_at(grammar, text, item, ClassSite::Node(node), place) {
            Declaration::NoKeyword => {
                let next = text.char_at(place);
                self.fail_wanting(
                    false,
                    place,
                    Message::Stopped(next),
                    Message::WantedDeclaration,
                )
            }
            Declaration::NoDigit(digit) => {
                let next = text.char_at(digit);
                self.fail_wanting(
                    true,
                    digit,
                    Message::Stopped(next),
                    Message::WantedPrecedence,
                )
            }
            Declaration::NoSymbol(symbol) => {
                let next = text.char_at(symbol);
                self.fail_wanting(true, symbol, Message::Stopped(next), Message::WantedSymbol)
            }
            Declaration::Declared(declared) => self.admit(context.alloc, declared),
        }
    }

    /// Appends the operator to the table, or refuses it.
    fn admit(&mut self, alloc: Global, declared: Declared<'a>) -> Result<Mode, AllocError>
        requires { IsOperator (operator_of declared) }
        ensures { IfOk result (λ mode. tape_of mode self.new ≡
            on_lists (tape_leaf (unless_refused (operator_of declared.entry) self.old.table declared.entry.place declared.entry.end
            (admit_fault self.old.table (operator_of declared.entry)))) self.old) }
    {
        let operator = declared.operator(alloc)?;
        if let Err(fault) = self.table.admit(&operator) {
            let message = Message::NotAdmitted(fault, declared.symbol);
            return self.fail(true, declared.place, message);
        }
        put_tree(alloc, &declared, &mut self.lists.forest)?;
        self.table.extend(operator)?;
        let (consumed, end) = (true, declared.end);
        let error = self.lists.no_messages_at(end);
        Ok(Mode::With(Reply::Succeeded {
            consumed,
            end,
            error,
        }))
    }
}

/// Appends the declaration's tree, if trees are kept.
fn put_tree(
    alloc: Global,
    declared: &Declared<'_>,
    forest: &mut RunForest,
) -> Result<(), AllocError>
    requires { IsOperator (operator_of declared.now) }
    ensures { OnOk result (forest.new ≡ with_trees (declaration_tree (operator_of declared.now) ∷ []) forest.old) }
{
    if !forest.keeps() {
        return forest.count_one();
    }
    forest.push(declared.tree(alloc)?)
}
