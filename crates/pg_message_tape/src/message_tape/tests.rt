//! Tests beside the proof. A tape agrees with a plain list of messages under any order of pushes, cuts, merges and relabels, and repetitions by rows take the
//! room of one message.
use super::*;
use crate::texts::told;
use pg_message::render;
use std::test::Fail;

/// Pseudo-random numbers.
#[derive(Drop)]
struct Dice {
    state: u64,
}

impl Dice {
    fn throw(&mut self, below: usize) -> usize {
        self.state = self
            .state
            .wrapping_mul(6364136223846793005)
            .wrapping_add(1442695040888963407);
        if below == 0 {
            return 0;
        }
        ((self.state >> 33) as usize) % below
    }
}

/// A number for each message that the tests push.
fn number_of(message: &Message<'_>) -> usize {
    match message {
        Message::Stopped(None) => 1,
        Message::Stopped(Some(c)) => 1000 + *c as usize,
        Message::WantedNameless => 2,
        Message::WantedEnd => 3,
        Message::WantedOperator => 4,
        Message::Named(name) => 10 + name.len(),
        Message::Refused(_) => 5,
        Message::Reserved(_)
        | Message::Wanted(_)
        | Message::WantedDeclaration
        | Message::WantedPrecedence
        | Message::WantedSymbol
        | Message::NotAdmitted(_, _)
        | Message::Ambiguous(_) => 0,
    }
}

fn thrown<'a>(dice: &mut Dice) -> Message<'a> {
    match dice.throw(12) {
        0 => Message::Stopped(None),
        1 => Message::Stopped(Some('b')),
        2 => Message::WantedEnd,
        3 => Message::WantedOperator,
        4 => Message::Refused(Some('a')),
        5 | 6 | 7 => Message::Stopped(Some('a')),
        _ => Message::WantedNameless,
    }
}

/// The numbers of all messages on a tape.
fn numbers(alloc: Global, tape: &MessageTape<'_>) -> Result<Vec<usize>, AllocError> {
    let mut said = Vec::new(alloc);
    for entry in tape.entries.as_slice() {
        let mut turn = 0;
        while turn <= entry.more {
            let message = if turn % 2 == 0 {
                entry.first()
            } else {
                entry.second()
            };
            said.push(number_of(&message))?;
            turn += 1;
        }
    }
    Ok(said)
}

fn numbers_of(alloc: Global, list: &[Message<'_>]) -> Result<Vec<usize>, AllocError> {
    let mut said = Vec::new(alloc);
    for message in list {
        said.push(number_of(message))?;
    }
    Ok(said)
}

/// A list without the messages from one index up to another.
fn closed<'a>(
    alloc: Global,
    list: &[Message<'a>],
    from: usize,
    upto: usize,
) -> Result<Vec<Message<'a>>, AllocError> {
    let mut left = Vec::new(alloc);
    let mut at = 0;
    while at < list.len() {
        if at < from || at >= upto {
            left.push(list[at])?;
        }
        at += 1;
    }
    Ok(left)
}

/// What merging leaves of a plain list.
fn merged<'a>(
    alloc: Global,
    list: &[Message<'a>],
    kept: KeptError,
    error: TapeError,
) -> Result<Vec<Message<'a>>, AllocError> {
    let none_kept = kept.from == kept.upto;
    let none_last = error.from == list.len();
    let all = list.len();
    if none_kept && !none_last {
        return closed(alloc, list, all, all);
    }
    if none_last && !none_kept {
        return closed(alloc, list, kept.upto, all);
    }
    if kept.place < error.place {
        return closed(alloc, list, all, all);
    }
    if kept.place > error.place {
        return closed(alloc, list, kept.upto, all);
    }
    closed(alloc, list, kept.upto, error.from)
}

/// What relabelling leaves of a plain list.
fn renamed<'a>(
    alloc: Global,
    list: &[Message<'a>],
    from: usize,
    name: &'a Characters,
) -> Result<Vec<Message<'a>>, AllocError> {
    let mut left = Vec::new(alloc);
    let mut at = 0;
    while at < list.len() {
        if at < from || !list[at].is_expected() {
            left.push(list[at])?;
        }
        at += 1;
    }
    left.push(Message::Named(name.as_slice()))?;
    Ok(left)
}

/// An index to cut at: any up to `all`, or more often one near the end.
fn cut_at(dice: &mut Dice, all: usize) -> usize {
    if dice.throw(3) == 0 {
        return dice.throw(all + 1);
    }
    all.saturating_sub(dice.throw(6))
}

#[test]
fn does_what_a_list_does(rt: HostRuntime) -> Result<(), Fail> {
    let alloc = rt.alloc();
    let mut letters = Vec::new(alloc);
    letters.push('e')?;
    letters.push('x')?;
    let name = Characters::new(letters);
    let position = Pos { line: 1, column: 1 };
    let mut joined = 0;
    let mut counted = 0;
    let mut seed = 0;
    while seed < 300 {
        let mut dice = Dice { state: seed };
        let mut tape = MessageTape::new(alloc);
        let mut list: Vec<Message<'_>> = Vec::new(alloc);
        let mut step = 0;
        while step < 150 {
            let all = list.len();
            match dice.throw(20) {
                0 => {
                    let from = cut_at(&mut dice, all);
                    tape.cut(from);
                    list.truncate(from);
                }
                1 => {
                    let first = dice.throw(all + 1);
                    let upto = first + dice.throw(all - first + 1);
                    let from = upto + dice.throw(all - upto + 1);
                    let kept = KeptError {
                        place: dice.throw(2),
                        from: first,
                        upto,
                    };
                    let error = TapeError {
                        place: dice.throw(2),
                        from,
                    };
                    let after = merged(alloc, list.as_slice(), kept, error)?;
                    tape.merge(kept, error)?;
                    list = after;
                }
                2 => {
                    let from = cut_at(&mut dice, all);
                    let after = renamed(alloc, list.as_slice(), from, &name)?;
                    tape.relabel(from, &name)?;
                    list = after;
                }
                3 => {
                    let mut rows = 0;
                    while rows < 8 {
                        let pair = [Message::Stopped(Some('a')), Message::WantedNameless];
                        for message in &pair {
                            tape.push(*message)?;
                            list.push(*message)?;
                        }
                        rows += 1;
                    }
                }
                4 => {
                    let from = dice.throw(all + 1);
                    let error = tape.error(alloc, TapeError { place: 3, from }, position)?;
                    let plain = told(alloc, 3, position, &list[from..])?;
                    assert_eq!(rt;
                        render(alloc, &error, "t")?.as_str(),
                        render(alloc, &plain, "t")?.as_str()
                    );
                }
                _ => {
                    let message = thrown(&mut dice);
                    tape.push(message)?;
                    list.push(message)?;
                }
            }
            assert_eq!(rt; tape.len(), list.len(), "length, seed {seed}, step {step}");
            let says = numbers(alloc, &tape)?;
            let wants = numbers_of(alloc, list.as_slice())?;
            assert_eq!(rt;
                says.as_slice(),
                wants.as_slice(),
                "seed {seed}, step {step}"
            );
            joined += tape.more;
            counted += list.len();
            step += 1;
        }
        seed += 1;
    }
    assert!(rt; joined * 4 > counted);
    assert!(rt; joined < counted);
    Ok(())
}

#[test]
fn rows_take_the_room_of_one_message(rt: HostRuntime) -> Result<(), Fail> {
    let mut tape = MessageTape::new(rt.alloc());
    let mut depth = 0;
    while depth < 100 {
        let c = if depth % 2 == 0 { '(' } else { '[' };
        let mut row = 0;
        while row < 10 {
            tape.push(Message::Stopped(Some(c)))?;
            tape.push(Message::WantedNameless)?;
            row += 1;
        }
        depth += 1;
    }
    assert_eq!(rt; tape.len(), 2000);
    assert_eq!(rt; tape.entries.len(), 100);
    tape.cut(1999);
    tape.push(Message::WantedNameless)?;
    assert_eq!(rt; tape.entries.len(), 100);
    Ok(())
}
