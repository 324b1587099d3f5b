//! The basis: lines with their numbers, rising, and an index of their leads.

ghost use Rattle.std.specs.Prelude.{◌≡◌, ◌≢◌, ◌<◌, [], OnOk, option_map};
ghost use Rattle.std.specs.BTreeSet.{insert_key};
ghost use Rattle.std.specs.Vec.{vec_len, vec_capacity};
ghost use Rattle.alg_groebner.specs.Bases.{looked_up};
ghost use Rattle.alg_groebner.specs.Work.{member_cmp, member_at, member_reducer};

use crate::NoMemory;
use crate::leads::lead_of;
use crate::member::Member;
use alg_pairs::LeadIndex;
use alg_poly::Poly;
use std::alloc::Global;
use std::cmp::Ordering;
use std::marker::Model;

/// The basis lines, none of them zero.
#[derive(Debug, Drop)]
pub(crate) struct Basis {
    members: Vec<Member>,
    leads: LeadIndex,
}

impl Model for Basis {
    ghost use Rattle.std.specs.Prelude.{List};
    ghost use Rattle.alg_groebner.specs.declared.member.Member.{Member};
    ghost use Rattle.alg_groebner.specs.Bases.{IsBasis};

    ghost Value = { List Member };

    ghost view = { λ b. b.members.items };

    ghost invariant = { λ b. IsBasis b.members.items b.leads };
}

/// The basis line with this number.
fn find_member(members: &[Member], number: u32) -> Option<&Member>
    ensures { option_map (λ b. b.now) result ≡ member_at members.now number }
{
    for member in members {
        if member.number == number {
            return Some(member);
        }
    }
    None
}

/// The basis line with this number, if there is one.
fn look_up(members: &[Member], number: Option<u32>) -> Option<&Member>
    ensures { option_map (λ b. b.now) result ≡ looked_up members.now number }
{
    match number {
        None => None,
        Some(number) => find_member(members, number),
    }
}

/// Puts a line in its place, where there is room for it.
fn place(members: &mut Vec<Member>, member: Member)
    requires { vec_len members.old < vec_capacity members.old }
    ensures { members.new.items ≡ insert_key member_cmp members.old.items member }
{
    let mut at = 0;
    while at < members.len() {
        match member.number.cmp(&members[at].number) {
            Ordering::Less => break,
            Ordering::Equal => return,
            Ordering::Greater => at += 1,
        }
    }
    match members.insert(at, member) {
        Ok(()) => {}
        Err(_) => unreachable!(),
    }
}

impl Basis {
    /// No lines. It takes no memory.
    pub(crate) fn new(alloc: Global) -> Basis
        ensures { result ≡ [] }
    {
        Basis {
            members: Vec::new(alloc),
            leads: LeadIndex::new(alloc),
        }
    }

    /// The lines.
    pub(crate) fn members(&self) -> &[Member]
        ensures { result.now ≡ self.now }
    {
        &self.members
    }

    /// The line with this number.
    pub(crate) fn member_of(&self, number: u32) -> Option<&Member>
        ensures { option_map (λ b. b.now) result ≡ member_at self.now number }
    {
        find_member(&self.members, number)
    }

    /// The first line whose lead divides that of `p`.
    pub(crate) fn reducer_of(&self, p: &Poly) -> Option<&Member>
        ensures { option_map (λ b. b.now) result ≡ member_reducer self.now p.now }
    {
        match p.terms().first() {
            None => None,
            Some(term) => look_up(&self.members, self.leads.least_divisor(&term.0)),
        }
    }

    /// Puts a line that is not zero in its place, unless it is there.
    pub(crate) fn insert(&mut self, alloc: Global, member: Member) -> Result<(), NoMemory>
        requires { member.poly ≢ [] }
        ensures { OnOk result (self.new ≡ insert_key member_cmp self.old member) }
    {
        let lead = lead_of(&member.poly).copy(alloc)?;
        self.members.reserve(1)?;
        self.leads.insert(member.number, lead)?;
        place(&mut self.members, member);
        Ok(())
    }
}
