//! Which starts meet: those that aren't apart.
//!
//! Each pair of starts is compared once, and a set for each start keeps the answers. After that a meeting of two
//! sets is found word by word.
ghost use Rattle.std.specs.Prelude.{◌≡◌};
ghost use Rattle.pg_predict_conditions.specs.Meetings.{first_met, least_met, first_meeting, earlier};

use pg_graph_bits::BitSet;

/// Two starts that aren't apart, by their numbers.
#[derive(Debug, Clone, Copy)]
pub struct Meeting {
    pub one: usize,
    pub other: usize,
}

/// The first start of `one` that meets a start of `other`, and the first start of `other` that it meets. For each start, `meetings`
/// has the starts that meet it.
pub(crate) fn first_meeting(meetings: &[BitSet], one: &BitSet, other: &BitSet) -> Option<Meeting>
    ensures { result ≡ first_meeting meetings.now one.now other.now }
{
    let mut from = 0;
    while let Some(start) = one.next(from) {
        if start >= meetings.len() {
            return None;
        }
        match least_met(meetings, other, start) {
            Some(met) => {
                return Some(Meeting {
                    one: start,
                    other: met,
                });
            }
            None => from = start + 1,
        }
    }
    None
}

/// The first start in the set that meets the given one.
#[tactic(auto, using(crate::proofs::FirstMeetings::past_least))]
fn least_met(meetings: &[BitSet], other: &BitSet, start: usize) -> Option<usize>
    ensures { result ≡ least_met meetings.now other.now start }
{
    match meetings.get(start) {
        Some(met) => first_met(met, other),
        None => None,
    }
}

/// The first start in the set that is also in `met`.
#[tactic(auto, using(crate::proofs::FirstMeetings::common_least))]
pub(crate) fn first_met(met: &BitSet, set: &BitSet) -> Option<usize>
    ensures { result ≡ first_met met.now set.now }
{
    met.first_common(set)
}

/// The meeting whose first start comes first.
pub(crate) fn earlier(meeting: Option<Meeting>, other: Option<Meeting>) -> Option<Meeting>
    ensures { result ≡ earlier meeting other }
{
    match (meeting, other) {
        (None, other) => other,
        (Some(meeting), None) => Some(meeting),
        (Some(meeting), Some(other)) => Some(if meeting.one <= other.one {
            meeting
        } else {
            other
        }),
    }
}
