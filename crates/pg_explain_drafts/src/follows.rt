//! The forms that can follow a form.

use crate::forms::{Forms, after_part};
use crate::kinds::Kind;
use crate::met::Met;
use std::alloc::{AllocError, Global};

/// The forms that can come next after a form: after the uses of its rule too, and in the next round. Fails where memory runs out.
pub fn following(alloc: Global, forms: &Forms, form: usize) -> Result<Vec<usize>, AllocError> {
    let mut next = Met::new(alloc, forms.count())?;
    let mut ended = Met::new(alloc, forms.count())?;
    ended.meet(form)?;
    for number in 0..forms.count() {
        let Some(form) = ended.get(number) else {
            break;
        };
        go_on(forms, form, &mut ended, &mut next)?;
    }
    Ok(next.into_forms())
}

/// Adds what can come after a form to `next`, and the forms that end where it does to `ended`.
fn go_on(forms: &Forms, form: usize, ended: &mut Met, next: &mut Met) -> Result<(), AllocError> {
    let Some(parent) = forms.parent(form) else {
        return ended.meet_uses(forms, form);
    };
    let parts = forms.parts(parent);
    if forms.is_among(parent, &[Kind::Seq, Kind::Try, Kind::Local]) {
        if next.meet_front(forms, after_part(parts, form))? {
            ended.meet(parent)?;
        }
        return Ok(());
    }
    if let Some(kind) = forms.kind(parent)
        && is_repeated(kind)
    {
        next.meet_all(parts)?;
    }
    ended.meet(parent)
}

/// Whether any part of such a form can come after any part of it.
fn is_repeated(kind: Kind) -> bool {
    match kind {
        Kind::Many
        | Kind::Many1
        | Kind::SepBy
        | Kind::SepBy1
        | Kind::EndBy
        | Kind::Between
        | Kind::Chain => true,
        Kind::Satisfy
        | Kind::NotFollowedBy
        | Kind::Declare
        | Kind::String
        | Kind::Word
        | Kind::EndOfText
        | Kind::Rule
        | Kind::Seq
        | Kind::Choice
        | Kind::Try
        | Kind::Local
        | Kind::Option
        | Kind::Text
        | Kind::Skip
        | Kind::Expression
        | Kind::Build
        | Kind::Label => false,
    }
}
