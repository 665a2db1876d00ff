//! Declarations that clash with an earlier one.
ghost use Rattle.std.specs.Prelude.{◌≡◌, ◌||◌, ◌++◌, [], List, map, OnOk};
ghost use Rattle.std.specs.List.{list_any};
ghost use Rattle.ato_files.specs.declared.members.Declared.{Declared};
ghost use Rattle.ato_files.specs.Clashes.{AreDeclared, clash_of, clashes_with, clashing_of, declared_twice};
ghost use Rattle.ato_files.specs.Noted.{noted};

use crate::least::Least;
use crate::members::{Declared, Sort};
use crate::number_set::NumberSet;
use ato_base::{FaultKind, NoMemory};
use std::alloc::Global;

/// The names of declarations that were put in, to tell which others clash with one of them.
#[derive(Drop)]
pub(crate) struct Clashes {
    /// The names that are declared as something else than a signal.
    not_signals: NumberSet,
    /// The names that are declared as something else than a parameter.
    not_params: NumberSet,
}

impl Clashes {
    /// Those of no declaration. It takes no memory.
    pub(crate) fn new(alloc: Global) -> Clashes
        ensures { AreDeclared result [] }
    {
        Clashes {
            not_signals: NumberSet::new(alloc),
            not_params: NumberSet::new(alloc),
        }
    }

    /// Whether a declaration clashes with one that was put in.
    fn has(&self, d: &Declared) -> bool
        ensures { result ≡ clashes_with self.now d.now }
    {
        match d.sort {
            Sort::Signal => self.not_signals.contains(d.name.name.0),
            Sort::Instance => {
                self.not_signals.contains(d.name.name.0) || self.not_params.contains(d.name.name.0)
            }
            Sort::Param => self.not_params.contains(d.name.name.0),
        }
    }

    /// Puts a declaration in.
    fn add(&mut self, d: &Declared) -> Result<(), NoMemory>
        ensures { OnOk result ((e : Declared) → clashes_with self.new e ≡ (clash_of e d.now || clashes_with self.old e)) }
    {
        match d.sort {
            Sort::Signal => {
                self.not_params.insert(d.name.name.0)?;
            }
            Sort::Instance => {
                self.not_signals.insert(d.name.name.0)?;
                self.not_params.insert(d.name.name.0)?;
            }
            Sort::Param => {
                self.not_signals.insert(d.name.name.0)?;
            }
        }
        Ok(())
    }

    /// Puts declarations in.
    pub(crate) fn add_all(&mut self, decls: &[Declared]) -> Result<(), NoMemory>
        ensures { OnOk result ((seen : List Declared) → AreDeclared self.old seen → AreDeclared self.new (seen ++ decls.now)) }
    {
        for d in decls {
            self.add(d)?;
        }
        Ok(())
    }

    /// Puts declarations in, and notes those that clash with an earlier one.
    pub(crate) fn note_all(&mut self, decls: &[Declared], least: &mut Least) -> Result<(), NoMemory>
        ensures { OnOk result ((seen : List Declared) → AreDeclared self.old seen → least.new ≡ noted least.old (map declared_twice (clashing_of seen decls.now))) }
    {
        for d in decls {
            least.note_if(self.has(d), FaultKind::NameTwice, d.name.at);
            self.add(d)?;
        }
        Ok(())
    }
}
