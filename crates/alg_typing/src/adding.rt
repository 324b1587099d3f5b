//! Statements that are added to the file so far, or refused at their first fault.

ghost use Rattle.std.specs.Prelude.{◌≡◌, ◌≤◌, ℕ, length, None, Some, IfOk, IfErr, OnOk, OnErr};
ghost use Rattle.alg_terms.specs.Limits.{MAX_TEXT};
ghost use Rattle.alg_terms.specs.Valid.{IsValid};
ghost use Rattle.alg_reader.specs.WellRead.{IsWellKind, IsWellRead};
ghost use Rattle.alg_typing.specs.Ends.{RefusesWith};
ghost use Rattle.alg_typing.specs.Reading.{first_fault};
ghost use Rattle.alg_typing.specs.Resolved.{extended};
ghost use Rattle.alg_typing.specs.Room.{HasRoom};

use crate::Declared;
use crate::scope::Scope;
use alg_reader::{FileEnd, Raw, RawKind};
use alg_terms::{Goal, NoMemory};
use alg_tokens::{Code, Refusal};
use std::alloc::Global;

impl Scope<'_> {
    /// The first fault of a statement. Linear in the statement.
    #[tactic(none)]
    fn first_fault(&self, alloc: Global, raw: &Raw) -> Result<Option<Refusal>, NoMemory>
        requires { IsWellKind self.now.text.now raw.now.kind }
        ensures { IfOk result
            (λ fault. fault ≡ first_fault self.now.declared.now self.now.text.now raw.now) }
    {
        if let Some(at) = raw.too_deep {
            return Ok(Some(Code::Depth.at(at)));
        }
        match self.name_faults(alloc, &raw.kind)? {
            Some(fault) => Ok(Some(fault)),
            None => Ok(self.sort_faults(&raw.kind)),
        }
    }
}

impl Declared {
    /// Adds a declaration or a goal that was read from the text, or tells its first fault, by the names
    /// that are declared so far. Where it fails nothing is changed. Linear in the statement.
    #[tactic(none)]
    pub fn add(&mut self, alloc: Global, text: &str, raw: Raw) -> Result<(), FileEnd>
        requires size { length text.now ≤ MAX_TEXT }
        requires well_read { (at : ℕ) × IsWellRead text.now at raw }
        requires room { HasRoom self.old raw.kind }
        ensures ok { OnOk result
            ((first_fault self.old text.now raw ≡ None) × (self.new ≡ extended self.old text.now raw.kind)) }
        ensures refused { IfErr result
            (λ end. RefusesWith end (λ fault. first_fault self.old text.now raw ≡ Some fault)) }
        ensures err { OnErr result (self.new ≡ self.old) }
    {
        let added = self.add_read(alloc, text, &raw);
        // Dropped by a call, so that the check has one case for it and not one for each kind of node.
        drop(raw);
        added
    }

    /// Adds a statement that was read from the text, or tells its first fault.
    #[tactic(none)]
    fn add_read(&mut self, alloc: Global, text: &str, raw: &Raw) -> Result<(), FileEnd>
        requires size { length text.now ≤ MAX_TEXT }
        requires well_read { (at : ℕ) × IsWellRead text.now at raw.now }
        requires room { HasRoom self.old raw.now.kind }
        ensures ok { OnOk result ((first_fault self.old text.now raw.now ≡ None)
            × (self.new ≡ extended self.old text.now raw.now.kind)) }
        ensures refused { IfErr result
            (λ end. RefusesWith end (λ fault. first_fault self.old text.now raw.now ≡ Some fault)) }
        ensures err { OnErr result (self.new ≡ self.old) }
    {
        match self.first_fault(alloc, text, raw)? {
            Some(fault) => Err(FileEnd::Refused(fault)),
            None => Ok(self.extend(alloc, text, raw)?),
        }
    }

    /// The first fault of a statement, by the names that are declared so far. The file is valid.
    #[tactic(none)]
    fn first_fault(&self, alloc: Global, text: &str, raw: &Raw) -> Result<Option<Refusal>, NoMemory>
        requires { IsWellKind text.now raw.now.kind }
        ensures valid { IsValid self.now }
        ensures fault { IfOk result (λ fault. fault ≡ first_fault self.now text.now raw.now) }
    {
        let _file = self.file();
        let scope = Scope {
            declared: self,
            text,
        };
        scope.first_fault(alloc, raw)
    }

    /// Adds a statement without fault. Where there is no memory nothing is changed.
    fn extend(&mut self, alloc: Global, text: &str, raw: &Raw) -> Result<(), NoMemory>
        requires valid { IsValid self.old }
        requires size { length text.now ≤ MAX_TEXT }
        requires well_read { (at : ℕ) × IsWellRead text.now at raw.now }
        requires room { HasRoom self.old raw.now.kind }
        requires faultless { first_fault self.old text.now raw.now ≡ None }
        ensures ok { OnOk result (self.new ≡ extended self.old text.now raw.now.kind) }
        ensures err { OnErr result (self.new ≡ self.old) }
    {
        let scope = Scope {
            declared: &*self,
            text,
        };
        match &raw.kind {
            RawKind::End | RawKind::Answer(_) | RawKind::Line { .. } | RawKind::Step { .. } => Ok(
                (),
            ),
            RawKind::Sort { kind, name, char0 } => {
                self.add_sort(alloc, text, *name, *kind, *char0)
            }
            RawKind::Hom { name, from, to } => {
                let source = scope.number_at(*from);
                let target = scope.number_at(*to);
                self.add_hom(alloc, text, *name, source, target)
            }
            RawKind::Vars { names, sort } => {
                let number = scope.number_at(*sort);
                self.add_vars(alloc, text, names.items(), number)
            }
            RawKind::Hyp { name, equation } => {
                let resolved = scope.equation_of(alloc, equation)?;
                self.add_hyp(alloc, text, *name, resolved, equation.nonzero)
            }
            RawKind::Goal {
                equation,
                method,
                ..
            } => {
                let equation = scope.equation_of(alloc, equation)?;
                let method = scope.method_of(alloc, method)?;
                self.add_goal(alloc, Goal { equation, method })
            }
        }
    }
}
