//! Faults, and the first of several.

ghost use Rattle.std.specs.Prelude.{◌≡◌};
ghost use Rattle.alg_typing.specs.Faults.{earlier_of, fault_if, first_of};

use alg_tokens::{Code, Refusal};

/// A fault at a byte, where there is one.
pub fn fault_where(there: bool, code: Code, at: u32) -> Option<Refusal>
    ensures { result ≡ first_of (fault_if there code at) }
{
    if there { Some(code.at(at)) } else { None }
}

/// Of two, where there are any, the one that comes first.
pub fn earlier(first: Option<Refusal>, second: Option<Refusal>) -> Option<Refusal>
    ensures { result ≡ earlier_of first second }
{
    match (first, second) {
        (None, _) => second,
        (Some(_), None) => first,
        (Some(f), Some(g)) => Some(earlier_fault(f, g)),
    }
}

/// Of two faults, the one at the lesser byte, or at the same byte with the lesser code.
fn earlier_fault(f: Refusal, g: Refusal) -> Refusal
    ensures { Some result ≡ earlier_of (Some f) (Some g) }
{
    if g.at < f.at || (g.at == f.at && g.code < f.code) {
        g
    } else {
        f
    }
}
