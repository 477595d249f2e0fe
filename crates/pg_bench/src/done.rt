//! The cost of a parse.

/// How many steps a successful parse took, and the bound on them.
#[derive(Clone, Copy, Debug, Drop)]
pub struct Done {
    /// The steps of the run, in turns of the machine's loop, including those for the end of the text. The greatest number of 64 bits if there were more.
    pub steps: u64,
    /// The grammar's step cost K(G), at most 4,294,967,296. The run takes at most this many steps for each character of the text, and for its end (ours).
    pub cost: u64,
    /// The most steps that a run on this text takes: the step cost for each character and for the end. The greatest number of 64 bits if that is more.
    pub most: u64,
    /// Whether the text went along a plan of the grammar (ours, `pg_machine_plan`). If not, the machine ran: there is no plan, the plan gave up, or a trail was wanted.
    pub planned: bool,
}
