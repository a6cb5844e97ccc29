//! The rows of a report.

ghost use Rattle.std.specs.Prelude.{◌≡◌, is_some, IfOk};

use dependencies::Dependency;
use fronts::Fronts;
use std::alloc::Global;
use std::marker::Model;
use trace_model::{Cycle, Instance, NoMemory};

/// The least reached instance of a confirmed cycle, one place for each member, and the fronts of
/// its closure. Contracts see these as the witness: the places of the least reordering that reaches
/// the instance, ascending. They are found when the row is printed.
#[derive(Drop)]
pub struct Found {
    pub places: Instance,
    pub witness: Fronts,
}

impl Model for Found {
    ghost use Rattle.trace_model.specs.Theory.Rows as model;
    ghost use Rattle.fronts.specs.State.{included_places};

    ghost Value = { model.Evidence };

    ghost view = { λ f. record { places = f.places; witness = included_places f.witness } };
}

/// A cycle, and the instance if it is confirmed, which has memory of its own. A potential row takes
/// a fifth of the memory of a [`Row`]. Contracts see it as a row of the trace.
#[derive(Drop)]
pub struct BareRow {
    pub cycle: Cycle,
    found: Option<Box<Found, Global>>,
}

impl Model for BareRow {
    ghost use Rattle.trace_model.specs.Theory.Rows as model;
    ghost use Rattle.std.specs.Option.{option_map};

    ghost Value = { model.Row };

    ghost view = { λ r. record { cycle = r.cycle; found = option_map (λ b. b.value) r.found } };
}

impl BareRow {
    /// Returns whether the row is confirmed. Does not allocate.
    pub fn is_confirmed(&self) -> bool
        ensures { result ≡ is_some self.now.found }
    {
        self.found.is_some()
    }

    /// Returns the row with the dependencies of its members. Does not allocate.
    pub fn with(self, dependencies: Vec<Dependency>) -> Row
        ensures { result ≡ record { row = self; dependencies = dependencies.items } }
    {
        let BareRow { cycle, found } = self;
        let found = match found {
            Some(found) => Some(Box::into_inner(found)),
            None => None,
        };
        Row {
            cycle,
            dependencies,
            found,
        }
    }
}

/// A cycle, the dependencies of its members in its order, and the instance if it is confirmed.
pub struct Row {
    pub cycle: Cycle,
    pub dependencies: Vec<Dependency>,
    pub found: Option<Found>,
}

impl Drop for Row {
    fn drop(self) {
        let Row {
            cycle: _,
            dependencies: _,
            found: _,
        } = self;
    }
}

impl Model for Row {
    ghost use Rattle.reports.specs.Printed.{PrintedRow};

    ghost Value = { PrintedRow };

    ghost view = { λ r. record {
      row = record { cycle = r.cycle; found = r.found };
      dependencies = r.dependencies.items;
    } };
}

impl Row {
    /// Returns the row without the dependencies. Allocates only for a confirmed row.
    ///
    /// # Errors
    /// `NoMemory` if an allocation fails. The row is dropped.
    pub fn into_bare(self, alloc: Global) -> Result<BareRow, NoMemory>
        ensures { IfOk result (λ bare. bare ≡ self.row) }
    {
        let Row {
            cycle,
            dependencies: _,
            found,
        } = self;
        let found = match found {
            Some(found) => Some(Box::new(alloc, found)?),
            None => None,
        };
        Ok(BareRow { cycle, found })
    }

    /// Returns the list of the dependencies, and drops the rest. Does not allocate.
    pub fn into_dependencies(self) -> Vec<Dependency>
        ensures { result.items ≡ self.dependencies }
    {
        let Row {
            cycle: _,
            dependencies,
            found: _,
        } = self;
        dependencies
    }
}
