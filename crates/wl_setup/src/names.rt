//! The names of a plan's nodes.
ghost use Rattle.std.specs.Prelude.{◌≡◌, ◌<◌, ◌↔◌, [], ◌∷◌, ◌++◌, not, false, if◌then◌else◌, length, IsSome, IfOk, OnErr, option_map, slice_get};
ghost use Rattle.std.specs.List.{list_any};
ghost use Rattle.std.specs.Str.{bytes_eq};
ghost use Rattle.wl_setup.specs.declared.table_path.TablePath.TheVariants.{Node};
ghost use Rattle.wl_setup.specs.Names.{first_repeat, has_repeat, name_of, names_of, same_name_fault};
ghost use Rattle.wl_setup.specs.TablePaths.{fault_at};
ghost use Rattle.wl_setup.specs.Document.{Answers, AnswersAt};

use crate::fault::SetupFault;
use crate::plan_text::PlanText;
use crate::table_path::{PlacedFault, TablePath};
use indexmap::IndexSet;
use std::alloc::{AllocError, Global};
use std::marker::Model;

/// The names of a plan's nodes, seen as their list: the name of node i is at place i. No two are equal.
#[derive(Drop)]
pub struct Names {
    names: IndexSet<String>,
}

impl Model for Names {
    ghost use Rattle.std.specs.Prelude.{List, ℕ, map, string_bytes};

    ghost Value = { List (List ℕ) };

    ghost view = { λ n. map string_bytes n.names.keys };
}

impl Names {
    /// Returns the names of no node.
    fn new(alloc: Global) -> Names
        ensures { result ≡ [] }
    {
        Names {
            names: IndexSet::new(alloc),
        }
    }

    /// Adds a name. True if it is new. One that is there already changes nothing.
    fn add(&mut self, name: &str) -> Result<bool, AllocError>
        ensures added { IfOk result (λ new. new ≡ not (list_any (bytes_eq name.now) self.old)) }
        ensures names { IfOk result (λ new. self.new ≡ (if new then self.old ++ name.now ∷ [] else self.old)) }
        ensures err { OnErr result (self.new ≡ self.old) }
    {
        let name = String::from_str(*self.names.allocator(), name)?;
        Ok(self.names.insert(name)?)
    }

    /// Returns how many names there are.
    pub fn len(&self) -> usize
        ensures len { result ≡ length self.now }
        ensures distinct { has_repeat self.now ≡ false }
    {
        self.names.len()
    }

    /// Returns the name of a node, counted from 0.
    pub fn name(&self, node: usize) -> Option<&str>
        ensures { option_map (λ name. name.now) result ≡ slice_get self.now node }
    {
        match self.names.get_index(node) {
            Some(name) => Some(name.as_str()),
            None => None,
        }
    }

    /// Returns the name of a node, counted from 0; empty if there is no such node.
    pub fn name_of(&self, node: usize) -> &str
        ensures { result.now ≡ name_of self.now node }
    {
        self.name(node).unwrap_or("")
    }
}

impl PlanText {
    /// Returns the names of the nodes, or `SameName` if two have one.
    pub fn names(&self, alloc: Global) -> Result<Names, SetupFault>
        ensures { Answers (same_name_fault self.now) (names_of self.now) result }
    {
        match self.placed_names(alloc) {
            Ok(names) => Ok(names),
            Err(placed) => Err(placed.fault),
        }
    }

    /// Returns the names of the nodes, or `SameName` at the first node that has the name of an earlier one.
    pub(crate) fn placed_names(&self, alloc: Global) -> Result<Names, PlacedFault>
        ensures { AnswersAt (fault_at (Node (first_repeat [] (names_of self.now))) (same_name_fault self.now))
            (names_of self.now) result }
    {
        let mut names = Names::new(alloc);
        for node in self.node.as_slice() {
            if !names.add(node.name.as_str())? {
                return Err(PlacedFault {
                    path: TablePath::Node(names.len() as u64),
                    fault: SetupFault::SameName,
                });
            }
        }
        Ok(names)
    }
}
