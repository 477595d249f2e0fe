//! The printed form of the faults of certificates.

ghost use Rattle.std.specs.Prelude.{◌≡◌, [], string_bytes, IfOk};
ghost use Rattle.pg_predict.specs.Findings.{name_of, name_text};
ghost use Rattle.pg_certificate_verify.specs.Refuted.{FitsFault};
ghost use Rattle.pg_certificate_verify.specs.Texts.{claim_text, fault_text, key_text};

use crate::verify_fault::{Condition, NotClosed, VerifyFault};
use pg_grammar_value::{Grammar, Rule};
use pg_predict::broken_text;
use std::alloc::{AllocError, Global};

/// The printed form of a fault, without a line end: `V1 not JSON`, `V2 not a certificate`, `V3 RULE CONDITION` with the key of the claim that fails,
/// or `V4 Cn RULE:NODE`; also `out of memory`. The rule or the node must be the grammar's.
pub fn fault_text(
    alloc: Global,
    grammar: &Grammar,
    fault: &VerifyFault,
) -> Result<String, AllocError>
    requires { FitsFault grammar.now fault.now }
    ensures { IfOk result (λ text. string_bytes text ≡ fault_text grammar.now fault.now) }
{
    match fault {
        VerifyFault::NotJson => format!(in alloc; "V1 not JSON"),
        VerifyFault::NotACertificate => format!(in alloc; "V2 not a certificate"),
        VerifyFault::NotClosed(failing) => closed_text(alloc, grammar.rules(), failing),
        VerifyFault::Broken(broken) => {
            let text = broken_text(alloc, grammar, broken)?;
            format!(in alloc; "V4 {text}")
        }
        VerifyFault::Memory => format!(in alloc; "out of memory"),
    }
}

/// The printed form of a claim that doesn't hold.
fn closed_text(alloc: Global, rules: &[Rule], failing: &NotClosed) -> Result<String, AllocError>
    ensures { IfOk result (λ text. string_bytes text ≡ claim_text (name_of rules.now failing.now.rule) failing.now.condition) }
{
    match rules.get(failing.rule.index()) {
        Some(rule) => text_in_rule(alloc, rule, failing.condition),
        None => text_in_none(alloc, failing.condition),
    }
}

/// The text of a claim about a rule.
fn text_in_rule(alloc: Global, rule: &Rule, condition: Condition) -> Result<String, AllocError>
    ensures { IfOk result (λ text. string_bytes text ≡ claim_text (name_text rule.now) condition) }
{
    format!(in alloc; "V3 {} {}", rule.name, key_of(condition))
}

/// The text of a claim about a rule that doesn't exist.
fn text_in_none(alloc: Global, condition: Condition) -> Result<String, AllocError>
    ensures { IfOk result (λ text. string_bytes text ≡ claim_text [] condition) }
{
    format!(in alloc; "V3  {}", key_of(condition))
}

/// The key under which a certificate has the claim.
fn key_of(condition: Condition) -> &'static str
    ensures { result.now ≡ key_text condition }
{
    match condition {
        Condition::Nullable => "nullable",
        Condition::First => "first",
        Condition::Follow => "follow",
        Condition::Rank => "rank",
        Condition::Cost => "h",
    }
}
