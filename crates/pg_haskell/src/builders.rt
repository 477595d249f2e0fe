//! Builders as functions.

use crate::helpers::Helper;
use crate::literal::push_string;
use crate::page::Page;
use std::alloc::AllocError;

/// Puts a builder as a function of a symbol and the trees.
pub(crate) fn put_builder(page: &mut Page, name: &[char]) -> Result<(), AllocError> {
    if is(name, "node") {
        return page.put_helper(Helper::Node);
    }
    if is_made(name) {
        page.put("(const ")?;
        put_made(page, name)?;
    } else {
        page.put("(")?;
        page.put_helper(Helper::Labelled)?;
        page.put(" ")?;
        push_string(&mut page.text, name)?;
    }
    page.put(")")
}

/// Puts what a chain folds with as a function of the trees and of a symbol, in whose place the chain's own stands.
pub(crate) fn put_link(page: &mut Page, name: &[char], symbol: &[char]) -> Result<(), AllocError> {
    if symbol.is_empty() || !is(name, "node") {
        return put_builder(page, name);
    }
    page.put("(const (")?;
    put_built(page, name, symbol)?;
    page.put("))")
}

/// Puts what makes a tree of others by a builder with a symbol.
pub(crate) fn put_built(page: &mut Page, name: &[char], symbol: &[char]) -> Result<(), AllocError> {
    if is_made(name) {
        return put_made(page, name);
    }
    page.put_helper(Helper::Node)?;
    page.put(" ")?;
    push_string(&mut page.text, if is(name, "node") { symbol } else { name })
}

/// Whether a builder makes more of the trees than a node around them.
fn is_made(name: &[char]) -> bool {
    is(name, "flat") || is(name, "join")
}

/// Puts such a builder.
fn put_made(page: &mut Page, name: &[char]) -> Result<(), AllocError> {
    page.put_helper(if is(name, "flat") {
        Helper::Flat
    } else {
        Helper::Joined
    })
}

fn is(name: &[char], text: &str) -> bool {
    text.chars().eq(name.iter().copied())
}
