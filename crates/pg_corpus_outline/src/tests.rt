//! What no contract says: that calls succeed, and how labels look.
use super::*;
use pg_tree::{Forest, Label, Shape};
use std::alloc::Global;
use std::test::Fail;

/// A forest of a node with this label, in which a leaf and an empty node are.
fn forest_of(alloc: Global, label: &str) -> Result<Forest, Fail> {
    let mut forest = Forest::new(alloc);
    forest.push_leaf(&['x', '"'])?;
    let empty = Shape::Node(Label::new(String::from_str(alloc, "e")?));
    forest.build(&empty, "", 1)?;
    let node = Shape::Node(Label::new(String::from_str(alloc, label)?));
    forest.build(&node, "", 0)?;
    Ok(forest)
}

#[test]
fn writes_labels(rt: HostRuntime) -> Result<(), Fail> {
    let labels = [
        ("a", "a\n  \"x\\\"\"\n  e"),
        ("node", "node \"node\"\n  \"x\\\"\"\n  e"),
        ("#1", "node \"#1\"\n  \"x\\\"\"\n  e"),
        ("41>", "node \"41>\"\n  \"x\\\"\"\n  e"),
    ];
    for (label, wanted) in labels {
        let forest = forest_of(rt.alloc(), label)?;
        let found = outline(rt.alloc(), &forest)?;
        assert!(rt; found.as_slice() == wanted.as_bytes(), "{label}");
    }
    let none = outline(rt.alloc(), &Forest::new(rt.alloc()))?;
    assert!(rt; none.as_slice() == b"[]".as_slice());
    Ok(())
}
