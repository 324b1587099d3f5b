//! Leads by their least atoms.

ghost use Rattle.std.specs.Prelude.{◌≡◌, ◌↔◌, IsTrue, OnOk, OnErr, All, IfSome, slice_get, option_map, Some};
ghost use Rattle.std.specs.Ordering.{nat_cmp};
ghost use Rattle.alg_mono.specs.FiniteMaps.{IsCanonical};
ghost use Rattle.alg_mono.specs.Numbers.{exponents};
ghost use Rattle.alg_pairs.specs.Buckets.{lesser, line_if, least_of, least_in, least_atom, Occurs, IsFiled, Adds, AreSame, before};

use crate::NoMemory;
use crate::lead::Lead;
use alg_mono::Mono;
use std::alloc::Global;

/// The leads with one least atom; without an atom, the lead 1.
#[derive(Debug, Drop)]
pub(crate) struct Bucket {
    pub(crate) atom: Option<u32>,
    pub(crate) leads: Vec<Lead>,
}

/// The least atom of a monomial.
fn least_atom_of(m: &Mono) -> Option<u32>
    ensures value { result ≡ least_atom m.now }
    ensures sound { IsCanonical nat_cmp exponents m.now }
{
    match m.pairs().first() {
        None => None,
        Some(pair) => Some(pair.0),
    }
}

/// Whether a line is less than another, where that is there.
fn is_before(line: u32, least: Option<u32>) -> bool
    ensures { result ≡ before line least }
{
    match least {
        None => true,
        Some(other) => line < other,
    }
}

/// The lesser of a line and that of a lead, where the lead divides `m`.
fn lesser_line(least: Option<u32>, lead: &Lead, m: &Mono) -> Option<u32>
    requires { IsCanonical nat_cmp exponents lead.now.lead }
    ensures { result ≡ lesser least (line_if m.now lead.now) }
{
    if !is_before(lead.line, least) {
        return least;
    }
    if lead.lead.divides(m) {
        return Some(lead.line);
    }
    least
}

impl Bucket {
    /// Whether the atom occurs in `m`.
    fn occurs_in(&self, m: &Mono) -> bool
        ensures { IsTrue result ↔ Occurs self.now.atom m.now }
    {
        match self.atom {
            None => true,
            Some(atom) => m.exponent(atom) > 0,
        }
    }

    /// The lesser of a line and the least whose lead divides `m`.
    pub(crate) fn lesser_of(&self, least: Option<u32>, m: &Mono) -> Option<u32>
        requires { IsFiled self.now }
        ensures { result ≡ lesser least (least_of m.now self.now.leads.items) }
    {
        if !self.occurs_in(m) {
            return least;
        }
        let mut least = least;
        for lead in &self.leads {
            least = lesser_line(least, lead, m);
        }
        least
    }
}

/// The least line whose lead divides `m`.
pub(crate) fn least_line(buckets: &[Bucket], m: &Mono) -> Option<u32>
    requires { All IsFiled buckets.now }
    ensures { result ≡ least_in m.now buckets.now }
{
    let mut least = None;
    for bucket in buckets {
        least = bucket.lesser_of(least, m);
    }
    least
}

/// The bucket of an atom.
fn bucket_of(buckets: &[Bucket], atom: Option<u32>) -> Option<usize>
    ensures { IfSome result (λ i.
        option_map (λ b. b.atom) (slice_get buckets.now i) ≡ Some atom) }
{
    let mut at = 0;
    for bucket in buckets {
        if bucket.atom == atom {
            return Some(at);
        }
        at += 1;
    }
    None
}

/// Puts a lead into the bucket of its least atom.
pub(crate) fn file(alloc: Global, buckets: &mut Vec<Bucket>, lead: Lead) -> Result<(), NoMemory>
    requires { All IsFiled buckets.old.items }
    ensures added { OnOk result (Adds lead buckets.old.items buckets.new.items) }
    ensures filed { All IsFiled buckets.new.items }
    ensures kept { OnErr result (AreSame buckets.old.items buckets.new.items) }
{
    let atom = least_atom_of(&lead.lead);
    if let Some(at) = bucket_of(buckets, atom) {
        buckets[at].leads.push(lead)?;
        return Ok(());
    }
    let mut leads = Vec::new(alloc);
    leads.push(lead)?;
    buckets.push(Bucket { atom, leads })?;
    Ok(())
}
