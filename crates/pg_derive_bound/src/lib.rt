//! The bound on the steps of a run: a grammar on which a parser never has to backtrack answers each text of n characters within
//! n + 1 times its step cost (`pg_predict_costs`), with `try` around any parser.
#![tactic(auto)]

mod bound;

pub use bound::{
    accepted_grammars_have_a_step_cost, accepted_runs_take_few_steps,
    accepted_starts_are_answered_in_time, accepted_starts_come_to_answers,
    accepted_texts_are_answered_in_time, predictive_starts_are_answered_in_time,
    predictive_texts_are_answered_in_time,
};
