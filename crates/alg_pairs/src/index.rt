//! An index of leads, which finds the least line whose lead divides a monomial.

ghost use Rattle.std.specs.Prelude.{◌≡◌, ◌<◌, [], OnOk, OnErr};
ghost use Rattle.std.specs.Vec.{vec_len, vec_capacity};
ghost use Rattle.std.specs.BTreeSet.{insert_key};
ghost use Rattle.alg_pairs.specs.Leads.{line_cmp, least_divisor, RisesFrom};
ghost use Rattle.alg_pairs.specs.Buckets.{is_there};

use crate::NoMemory;
use crate::bucket::{Bucket, file, least_line};
use crate::lead::Lead;
use alg_mono::Mono;
use std::alloc::Global;
use std::cmp::Ordering;
use std::marker::Model;

/// Lines with their leads, each line once, seen as the list of them in the order of the lines.
#[derive(Debug, Drop)]
pub struct LeadIndex {
    alloc: Global,
    leads: Vec<Lead>,
    /// The same leads by their least atoms.
    buckets: Vec<Bucket>,
}

impl Model for LeadIndex {
    ghost use Rattle.std.specs.Prelude.{List};
    ghost use Rattle.alg_pairs.specs.declared.lead.Lead.{Lead};
    ghost use Rattle.alg_pairs.specs.Buckets.{IsIndexed};

    ghost Value = { List Lead };

    ghost view = { λ s. s.leads.items };

    ghost invariant = { λ s. IsIndexed s.leads.items s.buckets.items };
}

/// Puts a lead in its place, where there is room for it.
fn place(leads: &mut Vec<Lead>, lead: Lead)
    requires { vec_len leads.old < vec_capacity leads.old }
    ensures { leads.new.items ≡ insert_key line_cmp leads.old.items lead }
{
    let mut at = 0;
    while at < leads.len() {
        match lead.line.cmp(&leads[at].line) {
            Ordering::Less => break,
            Ordering::Equal => return,
            Ordering::Greater => at += 1,
        }
    }
    match leads.insert(at, lead) {
        Ok(()) => {}
        Err(_) => unreachable!(),
    }
}

/// Whether a line is there.
fn has_line(leads: &[Lead], line: u32) -> bool
    ensures { result ≡ is_there line leads.now }
{
    for lead in leads {
        if lead.line == line {
            return true;
        }
    }
    false
}

impl LeadIndex {
    /// No lines. It takes no memory.
    pub fn new(alloc: Global) -> LeadIndex
        ensures { result ≡ [] }
    {
        LeadIndex {
            alloc,
            leads: Vec::new(alloc),
            buckets: Vec::new(alloc),
        }
    }

    /// Adds a line, unless it is there. Without memory the index is unchanged.
    pub fn insert(&mut self, line: u32, lead: Mono) -> Result<(), NoMemory>
        ensures added { OnOk result (self.new
            ≡ insert_key line_cmp self.old (record { line = line; lead = lead })) }
        ensures kept { OnErr result (self.new ≡ self.old) }
    {
        if has_line(&self.leads, line) {
            return Ok(());
        }
        let copy = lead.copy(self.alloc)?;
        self.leads.reserve(1)?;
        file(self.alloc, &mut self.buckets, Lead { line, lead: copy })?;
        place(&mut self.leads, Lead { line, lead });
        Ok(())
    }

    /// The least line whose lead divides `m`, and `None` exactly where there is none. It looks only
    /// at the leads whose least atom occurs in `m`, and at the lead 1, and takes no memory.
    pub fn least_divisor(&self, m: &Mono) -> Option<u32>
        ensures least { result ≡ least_divisor self.now m.now }
        ensures rises { RisesFrom 0 self.now }
    {
        least_line(&self.buckets, m)
    }
}
