//! Laws on claims that hold, and on covered starts.

ghost use Rattle.std.specs.Prelude.{◌≡◌, ◌↔◌, ◌<◌, ◌≤◌, ℕ, Bool, List, true};
ghost use Rattle.std.specs.Str.{all_scalars};
ghost use Rattle.pg_certificate.specs.declared.certificate.RuleClaim.{RuleClaim};
ghost use Rattle.pg_predict_costs.specs.Costs.{AreCosts};
ghost use Rattle.pg_predict_costs.specs.FoundCost.{IsCostByCosts};
ghost use Rattle.pg_predict_costs.specs.StepCost.{IsStepCost};
ghost use Rattle.pg_predict_costs.specs.Steps.{number_at, cut_off};
ghost use Rattle.pg_graph.specs.Marks.{is_marked};
ghost use Rattle.pg_sets_nullable.specs.Nullable.{Nullable};
ghost use Rattle.pg_sets_nullable.specs.Ranks.{ReachesCycle};
ghost use Rattle.pg_sets_nullable.specs.Reached.{Heads};
ghost use Rattle.pg_sets_own.specs.declared.listed.ListedStart.{ListedStart};
ghost use Rattle.pg_sets.specs.First.{IsFirst};
ghost use Rattle.pg_sets.specs.Follow.{IsFollow};
ghost use Rattle.pg_start.specs.Starts.{MatchesAt};
ghost use Rattle.pg_start.specs.declared.kind.StartKind.{StartKind};
ghost use Rattle.pg_grammar_value.specs.Grammar.{Grammar};
ghost use Rattle.pg_certificate_verify.specs.Claimed.{claimed_rank};
ghost use Rattle.pg_certificate_verify.specs.Cost.{AreCostsBy};
ghost use Rattle.pg_certificate_verify.specs.Covering.{IsCovered, SomeMatchesAt};
ghost use Rattle.pg_certificate_verify.specs.Enough.{HasCovering};
ghost use Rattle.pg_certificate_verify.specs.First.{IsFirstBy};
ghost use Rattle.pg_certificate_verify.specs.Follow.{IsFollowBy};
ghost use Rattle.pg_certificate_verify.specs.Holding.{NullableHolds, RankHolds, CostHolds};
ghost use Rattle.pg_certificate_verify.specs.Judged.{Said, IsSaid, AllHold};
ghost use Rattle.pg_certificate_verify.specs.Nullable.{AreNullableBy};
ghost use Rattle.pg_certificate_verify.specs.Rank.{AreRanksBy};

/// The law that each node that can succeed on nothing is nullable by the claims, if the claims on nullable rules hold.
pub fn nullable_claims_are_enough()
    ensures { (grammar : Grammar) (claims : List RuleClaim) (marks : List Bool) → AreNullableBy grammar claims marks → NullableHolds grammar claims marks →
        (p : ℕ) → Nullable grammar p → is_marked marks p ≡ true }
{}

/// The law that each rule has a higher claimed rank than its heads, if the claims on ranks hold too. So no rule leads back to itself
/// before anything is consumed.
pub fn claimed_ranks_fall()
    ensures falls { (grammar : Grammar) (claims : List RuleClaim) (marks : List Bool) (ranks : List ℕ) → AreNullableBy grammar claims marks →
        NullableHolds grammar claims marks → AreRanksBy grammar claims marks ranks → RankHolds grammar claims ranks →
        (a b : ℕ) → Heads grammar a b → claimed_rank claims b < claimed_rank claims a }
    ensures no_cycle { (grammar : Grammar) (claims : List RuleClaim) (marks : List Bool) (ranks : List ℕ) → AreNullableBy grammar claims marks →
        NullableHolds grammar claims marks → AreRanksBy grammar claims marks ranks → RankHolds grammar claims ranks →
        (a : ℕ) → ReachesCycle grammar a → ⊥ }
{}

/// The law that no node costs more than it costs by the claims, if the claims on costs hold too, up to the greatest number
/// of 64 bits.
pub fn claimed_costs_are_enough()
    ensures { (grammar : Grammar) (claims : List RuleClaim) (marks : List Bool) (numbers : List ℕ) → AreNullableBy grammar claims marks →
        NullableHolds grammar claims marks → AreCostsBy grammar claims marks numbers → CostHolds grammar claims numbers →
        (least : List Bool) → ((p : ℕ) → (is_marked least p ≡ true) ↔ Nullable grammar p) → (costs : List ℕ) → AreCosts grammar least costs →
        (p : ℕ) → cut_off (number_at costs p) ≤ number_at numbers p }
{}

/// The law that wherever a covered start matches in a text of characters, a claimed start matches. The laws of
/// accepted grammars require nothing else of the sets that are claimed for a node.
pub fn covered_starts_are_met()
    ensures { (claimed : List ListedStart) (listed : ListedStart) → IsCovered claimed listed → (text : List ℕ) → all_scalars text ≡ true →
        (place : ℕ) → MatchesAt listed.start text place → SomeMatchesAt claimed text place }
{}

/// The law that each start that can begin or follow a node is covered by one that can by the claims, if all claims hold.
pub fn claimed_sets_are_enough()
    ensures first { (grammar : Grammar) (claims : List RuleClaim) (said : Said) → IsSaid grammar claims said → AllHold grammar claims said →
        (start : StartKind) (p : ℕ) → IsFirst grammar start p → HasCovering (λ listed. IsFirstBy grammar claims said.nullable listed p) start }
    ensures follow { (grammar : Grammar) (claims : List RuleClaim) (said : Said) → IsSaid grammar claims said → AllHold grammar claims said →
        (start : StartKind) (p : ℕ) → IsFollow grammar start p → HasCovering (λ listed. IsFollowBy grammar claims said.nullable listed p) start }
{}

/// The law that the step cost of the grammar is at most what it is by the claimed costs of nodes, if all claims
/// hold, up to the greatest number of 64 bits.
pub fn claimed_step_cost_is_enough()
    ensures { (grammar : Grammar) (claims : List RuleClaim) (said : Said) → IsSaid grammar claims said → AllHold grammar claims said →
        (least : List Bool) → ((p : ℕ) → (is_marked least p ≡ true) ↔ Nullable grammar p) → (cost : ℕ) → IsCostByCosts grammar said.costs cost →
        (k : ℕ) → IsStepCost grammar least k → cut_off k ≤ cost }
{}
