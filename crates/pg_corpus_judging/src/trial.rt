//! What the trial of a case shows.

ghost use Rattle.std.specs.Prelude.{IfOk};
ghost use Rattle.std.specs.Option.{option_map};
ghost use Rattle.pg_corpus.specs.Wanted.{kind_of};
ghost use Rattle.pg_corpus_judging.specs.Judging.{IsTrialFor, IsUntried, came_instead};

use crate::came::Came;
use crate::judging::came_instead;
use std::alloc::{AllocError, Global};

/// What a trial of a case shows (ours).
#[derive(Drop)]
pub enum Trial {
    /// What the text comes to is what is wanted.
    Passed,
    /// It isn't. This came instead, as a case would want it.
    Failed(Vec<u8>),
    /// The text can't be tried. This is the reason.
    Untried(Vec<u8>),
}

/// A case that can't be tried, for this reason.
pub fn untried(alloc: Global, why: &[u8]) -> Result<Trial, AllocError>
    ensures { IfOk result IsUntried }
{
    let why = Vec::from_slice(alloc, why)?;
    Ok(Trial::Untried(why))
}

/// Whether what a text comes to is what is wanted. The only error is that memory runs out.
pub fn trial_of(alloc: Global, wanted: &[u8], came: Came) -> Result<Trial, AllocError>
    ensures { IfOk result (IsTrialFor (came_instead (kind_of wanted.now) came)) }
{
    let other = came_instead(alloc, wanted, &came);
    drop(came);
    match other {
        Ok(other) => Ok(trial_for(other)),
        Err(error) => Err(error),
    }
}

/// The trial of a case, where this came instead of what is wanted.
pub fn trial_for(other: Option<Vec<u8>>) -> Trial
    ensures { IsTrialFor (option_map (λ page. page.items) other) result }
{
    match other {
        None => Trial::Passed,
        Some(page) => Trial::Failed(page),
    }
}
