//! Questions about answers and forms, for the reports.

use pg_grammar_form::{Node, RuleId};
use pg_machine_turns::Reply;

/// Whether the report of an answer shows the text that was read.
pub(crate) fn has_taken(reply: Reply) -> bool {
    match reply {
        Reply::Succeeded { consumed, .. } | Reply::Failed { consumed, .. } => consumed,
        Reply::EmptyRound => false,
    }
}

/// Whether this failure of an alternative keeps a choice from trying the next one.
pub(crate) fn loses(reply: Reply) -> bool {
    match reply {
        Reply::Failed { consumed, .. } => consumed,
        Reply::Succeeded { .. } | Reply::EmptyRound => false,
    }
}

/// The rule that a node uses, if it uses one.
pub(crate) fn rule_used(form: Option<&Node>) -> Option<RuleId> {
    form?.named_rule().copied()
}
