//! The removal of rules that nothing uses once their names were replaced by their bodies.

use crate::draft::Draft;
use crate::forms::Forms;
use crate::rules::WrittenRule;
use pg_file_items::Span;

/// Removes the rules whose only use is among these. The rule that a form stands in stays, and so does the start rule.
pub fn take_out(forms: &Forms, opened: &[usize], inside: usize, draft: &mut Draft) {
    for name in opened {
        if let Some(rule) = forms.rule_of(*name)
            && forms.use_count(rule.name) == 1
            && !is_kept(forms, rule, inside)
        {
            take_out_rule(forms, rule, draft);
        }
    }
}

/// Whether a rule has to stay.
fn is_kept(forms: &Forms, rule: WrittenRule, inside: usize) -> bool {
    match (forms.rule_around(inside), forms.start()) {
        (Some(around), Some(start)) => around.body == rule.body || start.body == rule.body,
        (None, Some(start)) => start.body == rule.body,
        (_, None) => true,
    }
}

/// Removes a rule, with the line feed after it.
fn take_out_rule(forms: &Forms, rule: WrittenRule, draft: &mut Draft) {
    let Some(item) = forms.item_at(rule.place) else {
        return;
    };
    let after = match forms.text.get(item.after) {
        Some('\n') => item.after.saturating_add(1),
        Some(_) | None => item.after,
    };
    draft.push_taken_out(rule.body);
    draft.replace(Span {
        first: item.first,
        after,
    });
}
