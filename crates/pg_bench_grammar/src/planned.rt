//! A checked grammar with the plan by which its texts are parsed first.

ghost use Rattle.std.specs.Prelude.{◌≡◌, IfOk, IfSome};

use pg_machine_plan::{Plan, prepare};
use pg_predict::Checked;
use std::alloc::{AllocError, Global};
use std::marker::Model;

/// A checked grammar, and a plan that is right for it, if there is one. It is seen as the checked grammar.
pub struct PlannedGrammar {
    checked: Checked,
    plan: Option<Plan>,
}

// Written out, so that the crates above needn't prove again how each part is dropped.
impl Drop for PlannedGrammar {
    fn drop(self) {
        let PlannedGrammar { checked, plan } = self;
        drop(checked);
        drop(plan);
    }
}

impl Model for PlannedGrammar {
    ghost use Rattle.std.specs.Prelude.{IfSome};
    ghost use Rattle.pg_predict.specs.Checked.{GrammarWithSets};
    ghost use Rattle.pg_machine_plan.specs.Judged.{IsRightFor};

    ghost Value = { GrammarWithSets };

    ghost view = { λ planned. planned.checked };

    ghost invariant = { λ planned. IfSome planned.plan (IsRightFor planned.checked.grammar) };
}

impl PlannedGrammar {
    ghost use Rattle.pg_machine_plan.specs.Judged.{IsRightFor};

    /// The checked grammar with a plan, if one can be made of it (`prepare` of `pg_machine_plan`). The only error is running out of memory.
    pub(crate) fn of(alloc: Global, checked: Checked) -> Result<PlannedGrammar, AllocError>
        ensures { IfOk result (λ planned. planned ≡ checked) }
    {
        let plan = prepare(alloc, checked.grammar())?;
        Ok(PlannedGrammar { checked, plan })
    }

    /// The checked grammar.
    pub fn as_checked(&self) -> &Checked
        ensures { result.now ≡ self.now }
    {
        &self.checked
    }

    /// The plan, if there is one.
    pub fn plan(&self) -> Option<&Plan>
        ensures { IfSome result (λ plan. IsRightFor self.now.grammar plan.now) }
    {
        self.plan.as_ref()
    }
}
