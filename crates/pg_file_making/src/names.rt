//! The names of a file, looked up as its items are given to the maker.
//!
//! Nothing is refused here: the maker decides whether the items make a grammar. This keeps the first fault in file order, to be reported if the maker
//! refuses. That it is the first, and its place, are tested.

use crate::defined::Defined;
use crate::initials::{initial_fault, table_without_initials};
use crate::name_fault::{NameFault, NameFaultKind};
use crate::scope::Scope;
use pg_file_items::Item;
use pg_pred::Registry;
use pg_table::Table;
use std::alloc::{AllocError, Global};

/// The names of a file, as far as its items were read.
#[derive(Drop)]
pub struct Names<'a> {
    defined: Defined<'a>,
    /// The table of the initial operators so far, if there is an operators item.
    table: Option<Table>,
    /// The first fault so far.
    fault: Option<NameFault>,
}

impl<'a> Names<'a> {
    /// The names of these items, before any is looked up.
    pub fn of(alloc: Global, items: &'a [Item]) -> Result<Names<'a>, AllocError> {
        let table = table_without_initials(alloc, items)?;
        let defined = Defined::of(alloc, items)?;
        Ok(Names {
            defined,
            table,
            fault: None,
        })
    }

    /// Looks up the names of the next item, if there is no fault above it.
    pub fn look_up(
        &mut self,
        alloc: Global,
        registry: &Registry,
        item: &Item,
    ) -> Result<(), AllocError> {
        if self.fault.is_none() {
            self.fault = self.item_fault(alloc, registry, item)?;
        }
        Ok(())
    }

    /// The first fault, if all items were looked up and make no grammar. If no name is at fault, there is no start.
    pub fn first_fault(&self) -> NameFault {
        match self.fault {
            Some(fault) => fault,
            None => NameFault {
                kind: NameFaultKind::NoStart,
                place: None,
            },
        }
    }

    /// The first fault of an item.
    fn item_fault(
        &mut self,
        alloc: Global,
        registry: &Registry,
        item: &Item,
    ) -> Result<Option<NameFault>, AllocError> {
        match item {
            Item::Class {
                name,
                name_place,
                class,
            } => self
                .scope(registry, *name_place)
                .class_item_fault(alloc, name.as_slice(), class),
            Item::Word {
                name,
                name_place,
                head,
                rest,
                ..
            } => self
                .scope(registry, *name_place)
                .word_item_fault(alloc, name.as_slice(), head, rest),
            Item::Operators {
                class,
                gap,
                place,
                ..
            } => self
                .scope(registry, *place)
                .operators_fault(alloc, class, gap),
            Item::Table { .. } => initial_fault(alloc, &mut self.table, item),
            Item::Start {
                name,
                place,
                name_place,
            } => Ok(
                self.scope(registry, *place)
                    .start_fault(name.as_slice(), *name_place),
            ),
            Item::Rule { name, place, body } => self
                .scope(registry, *place)
                .rule_fault(alloc, name.as_slice(), body.as_slice()),
        }
    }

    /// The meanings that the names in an item at this place may have.
    fn scope<'s>(&'s self, registry: &'s Registry, place: usize) -> Scope<'s, 'a> {
        Scope {
            registry,
            defined: &self.defined,
            place,
        }
    }
}
