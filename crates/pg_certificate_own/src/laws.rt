//! Laws on every least certificate.

ghost use Rattle.std.specs.Prelude.{◌≡◌, ℕ, List, Some, length, slice_get};
ghost use Rattle.pg_certificate.specs.Fitting.{FitsGrammar};
ghost use Rattle.pg_certificate.specs.declared.certificate.RuleClaim.{RuleClaim};
ghost use Rattle.pg_certificate_own.specs.Claimed.{ClaimsTheSets};
ghost use Rattle.pg_certificate_own.specs.Least.{AreLeast};
ghost use Rattle.pg_sets.specs.Sets.{Sets, AreSets};
ghost use Rattle.pg_grammar_value.specs.Follows.{BodiesAreNodes};
ghost use Rattle.pg_grammar_value.specs.Grammar.{Grammar, IsGrammar};
ghost use Rattle.pg_grammar_value.specs.declared.grammar.Rule.{Rule};

/// The law that a certificate with the claims of a grammar's sets can be the grammar's, so it is read again where it was
/// written. `Grammar::rules` ensures that bodies are nodes.
pub fn least_certificates_fit()
    ensures { (grammar : Grammar) (sets : Sets) (costs : List ℕ) (claims : List RuleClaim) → IsGrammar grammar →
        BodiesAreNodes (length grammar.nodes) grammar.rules → AreSets grammar sets → AreLeast grammar sets costs 0 grammar.rules claims →
        FitsGrammar grammar claims }
{}

/// The law that the claims about each rule are exact: whether it is nullable, its rank, and the starts of its first and its
/// follow set, all of them and no others.
pub fn least_claims_are_the_sets()
    ensures { (grammar : Grammar) (sets : Sets) (costs : List ℕ) (claims : List RuleClaim) → BodiesAreNodes (length grammar.nodes) grammar.rules →
        AreSets grammar sets → AreLeast grammar sets costs 0 grammar.rules claims →
        (r : ℕ) (rule : Rule) (claim : RuleClaim) → slice_get grammar.rules r ≡ Some rule → slice_get claims r ≡ Some claim →
        ClaimsTheSets grammar r rule claim }
{}
