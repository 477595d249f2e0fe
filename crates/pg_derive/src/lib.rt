//! Laws of the language: what holds for every derivation and every answer (`pg_language`).
//!
//! `laws` has those of every grammar. `predictive` and `whole_texts` have those of grammars on which a parser never has to
//! backtrack, by any sets that show them to be so. `accepted` says which grammars these are.
#![tactic(auto)]

mod accepted;
mod laws;
mod predictive;
mod whole_texts;

pub use accepted::{
    accepted_grammars_answer, accepted_grammars_answer_what_they_derive,
    accepted_grammars_are_predictive, accepted_grammars_derive_once,
    accepted_grammars_lose_no_alternative, accepted_grammars_refuse_rightly,
    accepted_links_consume, accepted_rounds_consume,
};
pub use laws::{
    chains_are_operands_and_rests, errors_stand_in_text, ok_answers_are_derivations,
    outcomes_are_unique,
};
pub use predictive::{
    answers_exist, derivations_are_answers, derivations_are_unique, links_consume,
    no_alternative_is_lost, readings_agree, rounds_consume,
};
pub use whole_texts::{
    answered_texts_are_derived, derived_texts_are_answered, refused_texts_are_not_derived,
    texts_are_answered, texts_have_one_derivation,
};
