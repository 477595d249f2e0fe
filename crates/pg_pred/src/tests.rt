//! What no contract says: that each call succeeds with ample memory, how long the lists are that a refusal hands back,
//! and the printed text of a refusal.
//!
//! Each test makes its boxes itself: if a function handed out a box, its caller wouldn't know what the box answers.

use super::*;
use pg_class::Class;
use pg_tree::{Forest, Meter, Shape, Tree, write_json};
use std::alloc::Global;
use std::test::Fail;

#[test]
fn tells_by_the_stored_function(rt: HostRuntime) -> Result<(), Fail> {
    let alloc = rt.alloc();
    let digits = Class::from_ranges(alloc, &[('0', '9')])?;
    let test = Box::new(alloc, |c: char| '0' <= c && c <= '9')?;
    let digit = Predicate::new(String::from_str(alloc, "digit")?, digits, test);
    assert!(rt; digit.holds('9') && !digit.holds(':'));
    assert_eq!(rt; digit.class().ranges(), [('0', '9')].as_slice());
    assert_eq!(rt; digit.name(), "digit");
    Ok(())
}

#[test]
fn makes_by_the_stored_function(rt: HostRuntime) -> Result<(), Fail> {
    let alloc = rt.alloc();
    let make = Box::new(
        alloc,
        |alloc: Global, symbol: &str, kids: Forest| Tree::node(alloc, symbol, kids),
    )?;
    let node = Builder::new(String::from_str(alloc, "node")?, Shape::Symbol, make);
    assert_eq!(rt; node.name(), "node");
    assert!(rt; matches!(node.shape(), Shape::Symbol));
    let mut forest = Forest::new(alloc);
    forest.push(node.make(alloc, "pair", Forest::new(alloc))?)?;
    let mut writer = Meter::new(Vec::new(alloc));
    write_json(alloc, &forest, &mut writer)?;
    let wanted = b"[{\"kids\":[],\"node\":\"pair\"}]".as_slice();
    assert_eq!(rt; writer.into_inner().as_slice(), wanted);
    Ok(())
}

#[test]
fn lends_by_name(rt: HostRuntime) -> Result<(), Fail> {
    let alloc = rt.alloc();
    let test = Box::new(alloc, |_: char| false)?;
    let class = Class::from_ranges(alloc, &[])?;
    let nothing = Predicate::new(String::from_str(alloc, "list")?, class, test);
    let make = Box::new(
        alloc,
        |alloc: Global, symbol: &str, kids: Forest| Tree::node(alloc, symbol, kids),
    )?;
    let list = Builder::new(String::from_str(alloc, "list")?, Shape::Symbol, make);
    let registry = Registry::new(vec![in alloc; nothing]?, vec![in alloc; list]?)?;
    assert!(rt; !registry.predicate("list").ok_or("no predicate")?.holds('a'));
    assert_eq!(rt;
        registry.builder("list").ok_or("no builder")?.name(),
        "list"
    );
    assert!(rt; registry.predicate("lis").is_none());
    assert!(rt; registry.builder("lists").is_none());
    Ok(())
}

#[test]
fn refuses_a_predicate_twice(rt: HostRuntime) -> Result<(), Fail> {
    let alloc = rt.alloc();
    let test = Box::new(alloc, |_: char| false)?;
    let class = Class::from_ranges(alloc, &[])?;
    let digit = Predicate::new(String::from_str(alloc, "digit")?, class, test);
    let test = Box::new(alloc, |c: char| c == '0')?;
    let class = Class::from_ranges(alloc, &[('0', '0')])?;
    let other = Predicate::new(String::from_str(alloc, "digit")?, class, test);
    let make = Box::new(
        alloc,
        |alloc: Global, symbol: &str, kids: Forest| Tree::node(alloc, symbol, kids),
    )?;
    let node = Builder::new(String::from_str(alloc, "node")?, Shape::Symbol, make);
    match Registry::new(vec![in alloc; digit, other]?, vec![in alloc; node]?) {
        Ok(_) => Err("a name stands twice")?,
        Err(fault) => {
            assert_eq!(rt;
                format!(in alloc; "{fault}")?.as_str(),
                "G1 name defined twice"
            );
            assert_eq!(rt; fault.predicates.len(), 2);
            assert!(rt; fault.predicates.iter().all(|p| p.name() == "digit"));
            assert_eq!(rt; fault.builders.len(), 1);
            assert!(rt; fault.builders.iter().all(|b| b.name() == "node"));
        }
    }
    Ok(())
}

#[test]
fn refuses_a_builder_twice(rt: HostRuntime) -> Result<(), Fail> {
    let alloc = rt.alloc();
    let make = Box::new(
        alloc,
        |alloc: Global, symbol: &str, kids: Forest| Tree::node(alloc, symbol, kids),
    )?;
    let node = Builder::new(String::from_str(alloc, "node")?, Shape::Symbol, make);
    let make = Box::new(
        alloc,
        |alloc: Global, symbol: &str, kids: Forest| Tree::node(alloc, symbol, kids),
    )?;
    let other = Builder::new(String::from_str(alloc, "node")?, Shape::Symbol, make);
    match Registry::new(Vec::new(alloc), vec![in alloc; node, other]?) {
        Ok(_) => Err("a name stands twice")?,
        Err(fault) => {
            assert_eq!(rt; fault.builders.len(), 2);
            assert!(rt; fault.builders.iter().all(|b| b.name() == "node"));
            assert!(rt; fault.predicates.is_empty());
        }
    }
    Ok(())
}
