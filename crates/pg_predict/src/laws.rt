//! A law on every grammar that isn't accepted.
//!
//! A law is a function that does nothing when it runs: its clause is the law, and a caller gets the clause.

ghost use Rattle.pg_predict.specs.Places.{FindingsSpeakOfNodes};

/// The law that the rule, the node and the number of a finding belong to a broken condition: it is broken at the node with
/// that number, in preorder, of that rule's body.
pub fn findings_speak_of_nodes()
    ensures { FindingsSpeakOfNodes }
{}
