ghost use Rattle.std.specs.Prelude.{IfOk, IfErr};
ghost use Rattle.std.specs.Ordering.{nat_cmp};
ghost use Rattle.alg_mono.specs.FiniteMaps.{IsCanonical};
ghost use Rattle.alg_mono.specs.Numbers.{exponents};
ghost use Rattle.alg_mono.specs.Places.{IsAt, IsGapFor};

// Where the atom is, or where it would go, by halving.
pub(crate) fn search(pairs: &[(u32, u32)], atom: u32) -> Result<usize, usize>
    requires { IsCanonical nat_cmp exponents pairs.now }
    ensures found { IfOk result (IsAt pairs.now atom) }
    ensures absent { IfErr result (IsGapFor pairs.now atom) }
{
    pairs.binary_search_by_key(&atom, |pair| pair.0)
}
