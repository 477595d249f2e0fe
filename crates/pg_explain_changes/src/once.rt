//! The common beginning of several alternatives, read once.

use crate::listing::ALTERNATIVES;
use pg_explain_drafts::{Change, Draft, Forms, Kind, LEVELS, Level, Met, push_draft, take_out};
use pg_file_items::Span;
use std::alloc::{AllocError, Global};

/// A draft that reads the common beginnings of a choice's alternatives once, if some alternatives begin with the same spelling.
pub(crate) fn push_once(
    alloc: Global,
    forms: &Forms,
    choice: usize,
    is_loose: bool,
    drafts: &mut Vec<Draft>,
) -> Result<(), AllocError> {
    let parts = forms.parts(choice);
    if !forms.is(choice, Kind::Choice) || parts.len() > ALTERNATIVES {
        return Ok(());
    }
    let groups = groups(alloc, forms, parts, is_loose)?;
    if groups.len() < parts.len() {
        push_grouped(alloc, forms, choice, &groups, drafts)?;
    }
    Ok(())
}

/// A draft that reads the common beginning of each group once.
fn push_grouped(
    alloc: Global,
    forms: &Forms,
    choice: usize,
    groups: &[Vec<Level>],
    drafts: &mut Vec<Draft>,
) -> Result<(), AllocError> {
    let mut draft = Draft::new(alloc, Change::ReadOnce, are_changed(groups));
    let span = if groups.len() == 1 {
        forms.span(choice)
    } else {
        inside(forms, forms.parts(choice))
    };
    draft.replace(span);
    write_groups(forms, groups, &mut draft);
    take_out_all(forms, groups, choice, &mut draft);
    push_draft(drafts, draft)
}

/// The span from the first of these to the last.
fn inside(forms: &Forms, parts: &[usize]) -> Span {
    match (parts.first(), parts.last()) {
        (Some(first), Some(last)) => Span {
            first: forms.span(*first).first,
            after: forms.span(*last).after,
        },
        (None, _) | (_, None) => Span { first: 0, after: 0 },
    }
}

/// Whether a form was left out that makes something of trees.
fn are_changed(groups: &[Vec<Level>]) -> bool {
    for group in groups {
        for level in group {
            if level.tree_changes {
                return true;
            }
        }
    }
    false
}

/// Removes the rules that were opened for the groups, if nothing else uses them.
fn take_out_all(forms: &Forms, groups: &[Vec<Level>], choice: usize, draft: &mut Draft) {
    for group in groups {
        for level in group {
            take_out(forms, &level.opened, choice, draft);
        }
    }
}

/// The alternatives of a choice, as they are put into groups.
#[derive(Drop)]
struct Grouping<'g, 'f> {
    forms: &'g Forms<'f>,
    parts: &'g [usize],
    is_loose: bool,
    /// The alternatives that are in a group.
    grouped: Met,
}

/// The alternatives in groups with the same beginning, each opened until this shows.
fn groups(
    alloc: Global,
    forms: &Forms,
    parts: &[usize],
    is_loose: bool,
) -> Result<Vec<Vec<Level>>, AllocError> {
    let mut groups = Vec::new(alloc);
    let mut grouping = Grouping {
        forms,
        parts,
        is_loose,
        grouped: Met::new(alloc, forms.count())?,
    };
    for part in parts {
        if !grouping.grouped.has(*part) {
            groups.push(grouping.group(alloc, *part)?)?;
        }
    }
    Ok(groups)
}

impl<'g, 'f> Grouping<'g, 'f> {
    /// The group of an alternative: with it, all others that begin like it and are in no group yet.
    fn group(&mut self, alloc: Global, part: usize) -> Result<Vec<Level>, AllocError> {
        self.grouped.meet(part)?;
        let mut group = Vec::new(alloc);
        let first = self.first_of_group(alloc, part, &mut group)?;
        group.insert(0, first)?;
        Ok(group)
    }

    /// The alternative, opened until others begin like it, or unopened if none ever does. Adds the others to the group.
    fn first_of_group(
        &mut self,
        alloc: Global,
        part: usize,
        group: &mut Vec<Level>,
    ) -> Result<Level, AllocError> {
        let mut level = Level::new(alloc, part)?;
        if self.has_likes(alloc, &mut level, group)? {
            Ok(level)
        } else {
            Level::new(alloc, part)
        }
    }

    /// Opens an alternative until others begin like it, and adds those to the group. Answers whether there are any.
    fn has_likes(
        &mut self,
        alloc: Global,
        level: &mut Level,
        group: &mut Vec<Level>,
    ) -> Result<bool, AllocError> {
        for _ in 0..LEVELS {
            self.push_likes(alloc, level, group)?;
            if !group.is_empty() {
                return Ok(true);
            }
            if !level.open(self.forms, self.is_loose)? {
                return Ok(false);
            }
        }
        Ok(false)
    }

    /// Adds to the group every alternative that can be opened to the same first form and is in no group yet.
    fn push_likes(
        &mut self,
        alloc: Global,
        level: &Level,
        group: &mut Vec<Level>,
    ) -> Result<(), AllocError> {
        let Some(first) = level.parts.first() else {
            return Ok(());
        };
        let (forms, parts) = (self.forms, self.parts);
        let front = forms.spelling(*first);
        for other in parts {
            if !self.grouped.has(*other) {
                self.push_like(alloc, *other, front, group)?;
            }
        }
        Ok(())
    }

    /// Adds an alternative to the group if it can be opened to begin with this spelling.
    fn push_like(
        &mut self,
        alloc: Global,
        part: usize,
        front: &[char],
        group: &mut Vec<Level>,
    ) -> Result<(), AllocError> {
        match Level::begun_with(alloc, self.forms, part, front, self.is_loose)? {
            Some(like) => {
                group.push(like)?;
                self.grouped.meet(part)
            }
            None => Ok(()),
        }
    }
}

/// Writes the groups, each with its common beginning read once.
fn write_groups(forms: &Forms, groups: &[Vec<Level>], draft: &mut Draft) {
    let mut is_first = true;
    for group in groups {
        draft.write_comma(is_first);
        write_group(forms, group, draft);
        is_first = false;
    }
}

/// Writes the common beginning of a group, and then a choice of the rests. An empty rest comes last.
fn write_group(forms: &Forms, group: &[Level], draft: &mut Draft) {
    let [first, ..] = group else {
        return;
    };
    let common = common_count(forms, group);
    let rests = rest_count(group, common);
    let front = before(&first.parts, common);
    if rests == 0 {
        draft.write_group(forms, "seq(", front);
        return;
    }
    let count = front.len().saturating_add(1);
    draft.open_group("seq(", count);
    draft.write_list(forms, front);
    draft.write_comma(front.is_empty());
    write_rests(forms, group, common, rests, draft);
    draft.close_group(count);
}

/// Writes the choice of the rests; `count` of them aren't empty.
fn write_rests(forms: &Forms, group: &[Level], common: usize, count: usize, draft: &mut Draft) {
    let has_empty = count < group.len();
    let is_option = has_empty && count == 1;
    draft.write(if is_option { "option(" } else { "choice(" });
    let mut is_first = true;
    for level in group {
        let rest = behind(&level.parts, common);
        if !rest.is_empty() {
            draft.write_comma(is_first);
            draft.write_group(forms, "seq(", rest);
            is_first = false;
        }
    }
    draft.write(if has_empty && !is_option {
        ", seq())"
    } else {
        ")"
    });
}

/// How many alternatives of a group have more than `common` forms.
fn rest_count(group: &[Level], common: usize) -> usize {
    let mut count: usize = 0;
    for level in group {
        if level.parts.len() > common {
            count = count.saturating_add(1);
        }
    }
    count
}

/// The first `count` of these, or all if there are fewer.
fn before(parts: &[usize], count: usize) -> &[usize] {
    match parts.get(..count) {
        Some(front) => front,
        None => parts,
    }
}

/// All but the first `count` of these.
fn behind(parts: &[usize], count: usize) -> &[usize] {
    match parts.get(count..) {
        Some(rest) => rest,
        None => &[],
    }
}

/// How many forms at the beginning of all alternatives of a group have the same spelling.
fn common_count(forms: &Forms, group: &[Level]) -> usize {
    let [first, others @ ..] = group else {
        return 0;
    };
    let mut common = first.parts.len();
    for level in others {
        common = common.min(alike_count(forms, &first.parts, &level.parts));
    }
    common
}

/// How many forms at the beginning of two lists have the same spelling.
fn alike_count(forms: &Forms, one: &[usize], other: &[usize]) -> usize {
    let mut count: usize = 0;
    let mut rest = other;
    for part in one {
        match rest {
            [like, after @ ..] if forms.is_alike(*part, *like) => rest = after,
            _ => break,
        }
        count = count.saturating_add(1);
    }
    count
}
