//! What the next character tells of a node, and how such verdicts follow from others.

ghost use Rattle.std.specs.Prelude.{◌≡◌, ◌+◌, nat_le};
ghost use Rattle.pg_machine_plan.specs.Verdicts.{chained, enclosed, if_counted, in_order, more, or_else, repeated};

/// The most nodes that a verdict counts. Of more nothing is told, so that no sum is too great.
pub const MOST_NODES: usize = 0xffff_ffff;

/// What the next character tells of a node.
#[derive(Clone, Copy, PartialEq, Eq)]
pub enum Verdict {
    /// Nothing.
    Unknown,
    /// It fails with nothing consumed, and enters so many nodes.
    Fails(usize),
    /// It is ok with nothing consumed, and enters so many nodes.
    Empty(usize),
    /// It consumes something, whether it is ok or fails in the end.
    Takes,
}

impl Verdict {
    /// The same, and so many nodes more.
    pub(crate) fn more(self, nodes: usize) -> Verdict
        ensures { result ≡ more nodes self }
    {
        match self {
            Verdict::Unknown => Verdict::Unknown,
            Verdict::Fails(own) => fails(nodes, own),
            Verdict::Empty(own) => empty(nodes, own),
            Verdict::Takes => Verdict::Takes,
        }
    }

    /// That on one part, and then on the others.
    pub(crate) fn in_order(self, others: Verdict) -> Verdict
        ensures { result ≡ in_order self others }
    {
        match self {
            Verdict::Unknown => Verdict::Unknown,
            Verdict::Fails(nodes) => Verdict::Fails(nodes),
            Verdict::Empty(nodes) => others.more(nodes),
            Verdict::Takes => Verdict::Takes,
        }
    }

    /// That on one alternative, and otherwise on the others.
    pub(crate) fn or_else(self, others: Verdict) -> Verdict
        ensures { result ≡ or_else self others }
    {
        match self {
            Verdict::Unknown => Verdict::Unknown,
            Verdict::Fails(nodes) => others.more(nodes),
            Verdict::Empty(nodes) => Verdict::Empty(nodes),
            Verdict::Takes => Verdict::Takes,
        }
    }

    /// That on rounds of it.
    pub(crate) fn repeated(self) -> Verdict
        ensures { result ≡ repeated self }
    {
        match self {
            Verdict::Unknown | Verdict::Empty(_) => Verdict::Unknown,
            Verdict::Fails(nodes) => Verdict::Empty(nodes),
            Verdict::Takes => Verdict::Takes,
        }
    }

    /// That on an operand with separators after it.
    pub(crate) fn chained(self, separator: Verdict) -> Verdict
        ensures { result ≡ chained self separator }
    {
        match self {
            Verdict::Unknown => Verdict::Unknown,
            Verdict::Fails(nodes) => Verdict::Fails(nodes),
            Verdict::Empty(nodes) => after_empty(nodes, separator),
            Verdict::Takes => Verdict::Takes,
        }
    }

    /// That on a form around it, which counts as consumed what the part has, or never.
    pub(crate) fn enclosed(self, counts: bool) -> Verdict
        ensures { result ≡ enclosed counts self }
    {
        match self {
            Verdict::Unknown => Verdict::Unknown,
            Verdict::Fails(nodes) => Verdict::Fails(nodes),
            Verdict::Empty(nodes) => Verdict::Empty(nodes),
            Verdict::Takes => {
                if counts {
                    Verdict::Takes
                } else {
                    Verdict::Unknown
                }
            }
        }
    }

    /// Whether it tells nothing.
    pub(crate) fn is_unknown(self) -> bool {
        match self {
            Verdict::Unknown => true,
            Verdict::Fails(_) | Verdict::Empty(_) | Verdict::Takes => false,
        }
    }
}

/// That on a chain whose operand is empty.
fn after_empty(nodes: usize, separator: Verdict) -> Verdict
    ensures { result ≡ chained (Verdict.Empty nodes) separator }
{
    match separator {
        Verdict::Fails(own) => empty(nodes, own),
        Verdict::Unknown | Verdict::Empty(_) | Verdict::Takes => Verdict::Unknown,
    }
}

/// It fails with so many nodes and others, if they can be counted.
fn fails(nodes: usize, others: usize) -> Verdict
    ensures { result ≡ if_counted (nodes + others) (Verdict.Fails (nodes + others)) }
{
    if can_count(nodes, others) {
        Verdict::Fails(nodes + others)
    } else {
        Verdict::Unknown
    }
}

/// It is empty with so many nodes and others, if they can be counted.
fn empty(nodes: usize, others: usize) -> Verdict
    ensures { result ≡ if_counted (nodes + others) (Verdict.Empty (nodes + others)) }
{
    if can_count(nodes, others) {
        Verdict::Empty(nodes + others)
    } else {
        Verdict::Unknown
    }
}

/// Whether a verdict counts so many nodes and others.
fn can_count(nodes: usize, others: usize) -> bool
    ensures { result ≡ nat_le (nodes + others) MOST_NODES }
{
    match nodes.checked_add(others) {
        Some(all) => all <= MOST_NODES,
        None => false,
    }
}
