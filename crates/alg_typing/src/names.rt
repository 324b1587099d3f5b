//! Names and what they are declared as.

ghost use Rattle.std.specs.Prelude.{◌≡◌, ◌+◌, ◌^◌, ◌<◌, ◌++◌, ◌∷◌, [], take, length, All, OnOk, OnErr, None};
ghost use Rattle.alg_reader.specs.WellRead.{IsNameAt, bytes_at};
ghost use Rattle.alg_typing.specs.Table.{find, var_entries, AreNew};

use crate::Declaration;
use alg_reader::Span;
use alg_terms::NoMemory;
use indexmap::IndexMap;
use std::alloc::Global;
use std::marker::Model;

/// Names with what they are declared as. Contracts see the list of both, in the order of addition.
#[derive(Drop)]
pub(crate) struct Names {
    map: IndexMap<String, Declaration>,
}

impl Model for Names {
    ghost use Rattle.alg_typing.specs.Table.{Table, entries_of};

    ghost Value = { Table };

    ghost view = { λ n. entries_of n.map.entries };
}

impl Names {
    pub(crate) fn new(alloc: Global) -> Names
        ensures { result ≡ [] }
    {
        Names {
            map: IndexMap::new(alloc),
        }
    }

    /// How many names there are.
    pub(crate) fn len(&self) -> usize
        ensures { result ≡ length self.now }
    {
        self.map.len()
    }

    /// What a name is declared as. One look-up by its hash.
    pub(crate) fn get(&self, name: &str) -> Option<Declaration>
        ensures { result ≡ find self.now name.now }
    {
        self.map.get(name).copied()
    }

    /// Adds a name that is not there.
    pub(crate) fn add(
        &mut self,
        alloc: Global,
        name: &str,
        declaration: Declaration,
    ) -> Result<(), NoMemory>
        requires { find self.old name.now ≡ None }
        ensures ok { OnOk result (self.new ≡ self.old ++ (name.now, declaration) ∷ []) }
        ensures err { OnErr result (self.new ≡ self.old) }
    {
        let name = String::from_str(alloc, name)?;
        self.map.insert(name, declaration)?;
        Ok(())
    }

    /// Adds the names of variables that are numbered from `first` on, or where there is no memory
    /// none of them.
    pub(crate) fn add_vars(
        &mut self,
        alloc: Global,
        text: &str,
        names: &[Span],
        first: u32,
    ) -> Result<(), NoMemory>
        requires spans { All (IsNameAt text.now) names.now }
        requires fresh { AreNew self.old text.now first names.now }
        requires fits { first + length names.now < 2 ^ 32 }
        ensures ok { OnOk result (self.new ≡ self.old ++ var_entries text.now first names.now) }
        ensures err { OnErr result (self.new ≡ self.old) }
    {
        let known = self.len();
        let mut number = first;
        for name in names {
            if let Err(error) = self.add(alloc, name_in(text, *name), Declaration::Var(number)) {
                self.truncate(known);
                return Err(error);
            }
            number += 1;
        }
        Ok(())
    }

    /// Hands on whether the members were added that the names behind the first `known` are of, and
    /// takes these names back where they were not.
    pub(crate) fn keep_if(
        &mut self,
        added: Result<(), NoMemory>,
        known: usize,
    ) -> Result<(), NoMemory>
        ensures result { result ≡ added }
        ensures ok { OnOk added (self.new ≡ self.old) }
        ensures err { OnErr added (self.new ≡ take known self.old) }
    {
        if added.is_err() {
            self.truncate(known);
        }
        added
    }

    /// Keeps the first names alone.
    pub(crate) fn truncate(&mut self, len: usize)
        ensures { self.new ≡ take len self.old }
    {
        self.map.truncate(len);
    }
}

/// The text of a name.
pub(crate) fn name_in(text: &str, name: Span) -> &str
    requires { IsNameAt text.now name }
    ensures { result.now ≡ bytes_at text.now name }
{
    &text[name.start as usize..name.stop as usize]
}
