ghost use Rattle.std.specs.Prelude.{◌≡◌, ◌↔◌, IsTrue, reverse};
ghost use Rattle.std.specs.Ordering.{nat_cmp};
ghost use Rattle.std.specs.Cmp.Lexicographic.{slice_cmp};
ghost use Rattle.alg_mono.specs.Monomials.{entry_cmp, grevlex};

use crate::mono::Mono;
use std::cmp::Ordering;

// How two lists of pairs compare from the last pair down: each pair by its atom, then by its
// exponent, and a list that ends first is less.
fn compare_from_end(a: &[(u32, u32)], b: &[(u32, u32)]) -> Ordering
    ensures { result ≡ slice_cmp (entry_cmp nat_cmp) (reverse a.now) (reverse b.now) }
{
    let mut i = a.len();
    let mut j = b.len();
    while i > 0 && j > 0 {
        let (x, y) = (a[i - 1], b[j - 1]);
        let order = x.0.cmp(&y.0).then(x.1.cmp(&y.1));
        if order != Ordering::Equal {
            return order;
        }
        i -= 1;
        j -= 1;
    }
    i.cmp(&j)
}

impl Mono {
    /// The graded reverse lexicographic order. The greater degree is greater; at equal degree the
    /// monomial with the smaller exponent at the last atom where the two differ is greater.
    /// It takes no memory, and at most one look at each pair for the degrees and one for the rest.
    pub fn cmp_grevlex(&self, other: &Mono) -> Ordering
        ensures { result ≡ grevlex nat_cmp self.now other.now }
    {
        self.degree()
            .cmp(&other.degree())
            .then_with(|| compare_from_end(&other.pairs, &self.pairs))
    }

    /// Whether the two are equal. It takes no memory.
    pub fn same(&self, other: &Mono) -> bool
        ensures { IsTrue result ↔ (self.now ≡ other.now) }
    {
        self.pairs == other.pairs
    }
}
