//! The file so far, with the table of its names.

ghost use Rattle.std.specs.Prelude.{◌≡◌, [], map, length, All, IfOk, OnOk, OnErr, None};
ghost use Rattle.alg_reader.specs.WellRead.{IsNameAt, bytes_at};
ghost use Rattle.alg_terms.specs.Valid.{IsValid};
ghost use Rattle.alg_typing.specs.Additions.{with_hom, with_vars, with_hyp, with_goal};
ghost use Rattle.alg_typing.specs.NameFaults.{new_names};
ghost use Rattle.alg_typing.specs.Names.{declared_as};
ghost use Rattle.alg_typing.specs.Reading.{no_statements};
ghost use Rattle.alg_typing.specs.Resolved.{extended, vars_of};

use crate::Declaration;
use crate::lists::declare;
use crate::names::{Names, name_in};
use alg_reader::{RawKind, Span};
use alg_terms::{
    Equation, File, Goal, HomDecl, Hyp, Kind, Name, NoMemory, Seq, Sort, Statement, VarDecl,
};
use std::alloc::Global;
use std::marker::Model;

/// A valid file to which statements are added, with a table of its names. Contracts see the file.
#[derive(Drop)]
pub struct Declared {
    file: File,
    names: Names,
}

impl Model for Declared {
    ghost use Rattle.alg_terms.specs.contracts.term.Term as term;
    ghost use Rattle.alg_terms.specs.declared.file.File.{File};
    ghost use Rattle.alg_terms.specs.Valid.{IsValid};
    ghost use Rattle.alg_typing.specs.Table.{IsTableOf};
    ghost use Rattle.std.specs.Coded.{codes};

    ghost Value = { File };

    ghost coded = { Prim.hlevel (codes, term.the_row.coded) };

    ghost view = { λ d. d.file };

    ghost invariant = { λ d. IsTableOf d.file d.names × IsValid d.file };
}

impl Declared {
    /// The file without statements.
    pub fn new(alloc: Global) -> Declared
        ensures { result ≡ no_statements }
    {
        Declared {
            file: File {
                sorts: Seq::from_vec(Vec::new(alloc)),
                homs: Seq::from_vec(Vec::new(alloc)),
                vars: Seq::from_vec(Vec::new(alloc)),
                hyps: Seq::from_vec(Vec::new(alloc)),
                goals: Seq::from_vec(Vec::new(alloc)),
                order: Seq::from_vec(Vec::new(alloc)),
            },
            names: Names::new(alloc),
        }
    }

    /// The file so far.
    pub fn file(&self) -> &File
        ensures file { result.now ≡ self.now }
        ensures valid { IsValid result.now }
    {
        &self.file
    }

    /// The file.
    pub fn into_file(self) -> File
        ensures file { result ≡ self }
        ensures valid { IsValid result }
    {
        let Declared { file, names } = self;
        drop(names);
        file
    }

    /// What a name is declared as. One look-up by its hash.
    pub(crate) fn declared_as(&self, name: &str) -> Option<Declaration>
        ensures { result ≡ declared_as self.now name.now }
    {
        self.names.get(name)
    }

    /// Adds a sort.
    pub(crate) fn add_sort(
        &mut self,
        alloc: Global,
        text: &str,
        name: Span,
        kind: Kind,
        char0: bool,
    ) -> Result<(), NoMemory>
        requires span { IsNameAt text.now name }
        requires fresh { declared_as self.old (bytes_at text.now name) ≡ None }
        requires valid { IsValid (extended self.old text.now (RawKind.Sort kind name char0)) }
        ensures ok { OnOk result (self.new ≡ extended self.old text.now (RawKind.Sort kind name char0)) }
        ensures err { OnErr result (self.new ≡ self.old) }
    {
        let name = name_in(text, name);
        let number = self.file.sorts.items().len() as u32;
        let sort = Sort {
            name: Name::new(alloc, name)?,
            kind,
            char0,
        };
        let sorts = Vec::from_array(alloc, [sort])?;
        let known = self.names.len();
        self.names.add(alloc, name, Declaration::Sort(number))?;
        let file = &mut self.file;
        let declared = declare(
            alloc,
            &mut file.sorts,
            sorts,
            &mut file.order,
            Statement::Sort(number),
        );
        self.names.keep_if(declared, known)
    }

    /// Adds a morphism between two sorts.
    pub(crate) fn add_hom(
        &mut self,
        alloc: Global,
        text: &str,
        name: Span,
        from: u32,
        to: u32,
    ) -> Result<(), NoMemory>
        requires span { IsNameAt text.now name }
        requires fresh { declared_as self.old (bytes_at text.now name) ≡ None }
        requires valid { IsValid
            (with_hom self.old (record { name = bytes_at text.now name; from = from; to = to })) }
        ensures ok { OnOk result
            (self.new ≡ with_hom self.old (record { name = bytes_at text.now name; from = from; to = to })) }
        ensures err { OnErr result (self.new ≡ self.old) }
    {
        let name = name_in(text, name);
        let number = self.file.homs.items().len() as u32;
        let hom = HomDecl {
            name: Name::new(alloc, name)?,
            from,
            to,
        };
        let homs = Vec::from_array(alloc, [hom])?;
        let known = self.names.len();
        self.names.add(alloc, name, Declaration::Hom(number))?;
        let file = &mut self.file;
        let declared = declare(
            alloc,
            &mut file.homs,
            homs,
            &mut file.order,
            Statement::Hom(number),
        );
        self.names.keep_if(declared, known)
    }

    /// Adds variables of one sort.
    pub(crate) fn add_vars(
        &mut self,
        alloc: Global,
        text: &str,
        names: &[Span],
        sort: u32,
    ) -> Result<(), NoMemory>
        requires spans { All (IsNameAt text.now) names.now }
        requires fresh { new_names self.old text.now [] names.now ≡ [] }
        requires valid { IsValid
            (with_vars self.old (vars_of self.old text.now sort names.now) (length names.now)) }
        ensures ok { OnOk result
            (self.new ≡ with_vars self.old (vars_of self.old text.now sort names.now) (length names.now)) }
        ensures err { OnErr result (self.new ≡ self.old) }
    {
        let first = self.file.vars.items().len() as u32;
        let count = names.len() as u32;
        let vars = var_decls(alloc, text, names, sort)?;
        let known = self.names.len();
        self.names.add_vars(alloc, text, names, first)?;
        let file = &mut self.file;
        let declared = declare(
            alloc,
            &mut file.vars,
            vars,
            &mut file.order,
            Statement::Vars { first, count },
        );
        self.names.keep_if(declared, known)
    }

    /// Adds a hypothesis.
    pub(crate) fn add_hyp(
        &mut self,
        alloc: Global,
        text: &str,
        name: Span,
        equation: Equation,
        nonzero: bool,
    ) -> Result<(), NoMemory>
        requires span { IsNameAt text.now name }
        requires fresh { declared_as self.old (bytes_at text.now name) ≡ None }
        requires valid { IsValid (with_hyp self.old
            (record { name = bytes_at text.now name; equation = equation; nonzero = nonzero })) }
        ensures ok { OnOk result (self.new ≡ with_hyp self.old
            (record { name = bytes_at text.now name; equation = equation; nonzero = nonzero })) }
        ensures err { OnErr result (self.new ≡ self.old) }
    {
        let name = name_in(text, name);
        let number = self.file.hyps.items().len() as u32;
        let hyp = Hyp {
            name: Name::new(alloc, name)?,
            equation,
            nonzero,
        };
        let hyps = Vec::from_array(alloc, [hyp])?;
        let known = self.names.len();
        self.names.add(alloc, name, Declaration::Hyp(number))?;
        let file = &mut self.file;
        let declared = declare(
            alloc,
            &mut file.hyps,
            hyps,
            &mut file.order,
            Statement::Hyp(number),
        );
        self.names.keep_if(declared, known)
    }

    /// Adds a goal.
    pub(crate) fn add_goal(&mut self, alloc: Global, goal: Goal) -> Result<(), NoMemory>
        requires { IsValid (with_goal self.old goal) }
        ensures ok { OnOk result (self.new ≡ with_goal self.old goal) }
        ensures err { OnErr result (self.new ≡ self.old) }
    {
        let number = self.file.goals.items().len() as u32;
        let goals = Vec::from_array(alloc, [goal])?;
        let file = &mut self.file;
        declare(
            alloc,
            &mut file.goals,
            goals,
            &mut file.order,
            Statement::Goal(number),
        )
    }
}

/// Variables of one sort, by their names.
fn var_decls(alloc: Global, text: &str, names: &[Span], sort: u32) -> Result<Vec<VarDecl>, NoMemory>
    requires { All (IsNameAt text.now) names.now }
    ensures { IfOk result
        (λ vars. vars.items ≡ map (λ name. record { name = bytes_at text.now name; sort = sort }) names.now) }
{
    let mut vars = Vec::new(alloc);
    for name in names {
        let name = Name::new(alloc, name_in(text, *name))?;
        vars.push(VarDecl { name, sort })?;
    }
    Ok(vars)
}
