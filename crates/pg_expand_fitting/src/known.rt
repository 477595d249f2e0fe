//! Operators that were read and found in a table, and the operands that they may have on each side.

ghost use Rattle.std.specs.Prelude.{◌≡◌, option_map, is_some};
ghost use Rattle.pg_table.specs.Tables.{is_prefix};
ghost use Rattle.pg_expand.specs.Rows.{is_left, is_right, is_postfix};
ghost use Rattle.pg_expand_fitting.specs.Judge.{known_of, known_by, first_known, is_infix, stands_on, is_unary, goes_under, root_row, beside, goes_left, is_prefixed, takes_postfix};

use pg_expand::{Lookup, RowOperator};
use pg_grammar_form::Role;
use pg_grammar_value::{AppliedOperator, Fixity};

/// An operator that was read, with the number of its row and its role in the table.
#[derive(Clone, Copy)]
pub struct Known<'a> {
    pub row: usize,
    pub role: Role,
    pub applied: &'a AppliedOperator,
}

/// The operator of the table that was read, if there is one.
pub fn known_in<'a>(lookup: &Lookup, applied: &'a AppliedOperator) -> Option<Known<'a>>
    ensures { option_map known_of result ≡ known_by lookup.now applied.now }
{
    first_known(applied, lookup.find(applied.symbol.as_slice()))
}

/// The first operator found that stands on the side on which this one was read.
fn first_known<'a>(applied: &'a AppliedOperator, found: &[RowOperator]) -> Option<Known<'a>>
    ensures { option_map known_of result ≡ first_known applied.now found.now }
{
    for operator in found {
        let role = operator.operator.role();
        if stands_on(applied.fixity, role) {
            return Some(Known {
                row: operator.row,
                role,
                applied,
            });
        }
    }
    None
}

/// Whether a role stands on this side of its operands.
fn stands_on(fixity: Fixity, role: Role) -> bool
    ensures { result ≡ stands_on fixity role }
{
    match fixity {
        Fixity::Prefix => is_prefix(role),
        Fixity::Infix => is_infix(role),
        Fixity::Postfix => is_postfix(role),
    }
}

/// Whether a role is infix.
fn is_infix(role: Role) -> bool
    ensures { result ≡ is_infix role }
{
    match role {
        Role::InfixLeft | Role::InfixRight | Role::InfixNone => true,
        Role::Prefix | Role::Postfix => false,
    }
}

/// Whether a role is prefix.
fn is_prefix(role: Role) -> bool
    ensures { result ≡ is_prefix role }
{
    match role {
        Role::Prefix => true,
        Role::InfixLeft | Role::InfixRight | Role::InfixNone | Role::Postfix => false,
    }
}

/// Whether a role is postfix.
fn is_postfix(role: Role) -> bool
    ensures { result ≡ is_postfix role }
{
    match role {
        Role::Postfix => true,
        Role::InfixLeft | Role::InfixRight | Role::InfixNone | Role::Prefix => false,
    }
}

/// Whether a role is prefix or postfix.
fn is_unary(role: Role) -> bool
    ensures { result ≡ is_unary role }
{
    match role {
        Role::Prefix | Role::Postfix => true,
        Role::InfixLeft | Role::InfixRight | Role::InfixNone => false,
    }
}

/// Whether a role associates to the left.
fn is_left(role: Role) -> bool
    ensures { result ≡ is_left role }
{
    match role {
        Role::InfixLeft => true,
        Role::InfixRight | Role::InfixNone | Role::Prefix | Role::Postfix => false,
    }
}

/// Whether a role associates to the right.
fn is_right(role: Role) -> bool
    ensures { result ≡ is_right role }
{
    match role {
        Role::InfixRight => true,
        Role::InfixLeft | Role::InfixNone | Role::Prefix | Role::Postfix => false,
    }
}

/// Whether a tree with the second operator at its root may be the last operand of the first.
pub fn goes_under(waiting: Known<'_>, operator: Known<'_>) -> bool
    ensures { result ≡ goes_under (known_of waiting.entry) (known_of operator.entry) }
{
    operator.row < waiting.row
        || (!is_prefix(waiting.role)
            && operator.row == waiting.row
            && (is_unary(operator.role) || (is_right(waiting.role) && is_right(operator.role))))
}

/// The row of an operand's root operator, 0 for a term.
fn root_row(root: Option<Known<'_>>) -> usize
    ensures { result ≡ root_row (option_map known_of root.entry) }
{
    match root {
        Some(operator) => operator.row,
        None => 0,
    }
}

/// Whether an operand with this root may stand on the left of this infix operator.
pub fn goes_left(operator: Known<'_>, root: Option<Known<'_>>) -> bool
    ensures { result ≡ goes_left (known_of operator.entry) (option_map known_of root.entry) }
{
    root_row(root) < operator.row || is_beside(operator, root)
}

/// Whether the operand's root is of the same row and may stand there all the same.
fn is_beside(operator: Known<'_>, root: Option<Known<'_>>) -> bool
    ensures { result ≡ beside (known_of operator.entry) (option_map known_of root.entry) }
{
    match root {
        Some(made) => {
            made.row == operator.row
                && (is_unary(made.role) || (is_left(operator.role) && is_left(made.role)))
        }
        None => false,
    }
}

/// Whether an operand with this root may stand before this postfix operator.
pub fn takes_postfix(operator: Known<'_>, root: Option<Known<'_>>) -> bool
    ensures { result ≡ takes_postfix (known_of operator.entry) (option_map known_of root.entry) }
{
    root_row(root) < operator.row || is_prefixed(operator, root)
}

/// Whether the operand's root is a prefix operator of the same row.
fn is_prefixed(operator: Known<'_>, root: Option<Known<'_>>) -> bool
    ensures { result ≡ is_prefixed (known_of operator.entry) (option_map known_of root.entry) }
{
    match root {
        Some(made) => made.row == operator.row && is_prefix(made.role),
        None => false,
    }
}
