//! What names are declared as, and what places want them to be.

/// What a name is declared as, by its number in the file's list of these.
#[derive(Clone, Copy, PartialEq, Eq, Debug)]
pub enum Declaration {
    Sort(u32),
    Hom(u32),
    Var(u32),
    Hyp(u32),
}

impl Declaration {
    ghost use Rattle.std.specs.Prelude.{◌≡◌};
    ghost use Rattle.alg_typing.specs.Names.{number_of};

    /// The number of what is declared.
    pub(crate) fn number(self) -> u32
        ensures { result ≡ number_of self }
    {
        match self {
            Declaration::Sort(number)
            | Declaration::Hom(number)
            | Declaration::Var(number)
            | Declaration::Hyp(number) => number,
        }
    }
}

/// What a place wants a name to be.
#[derive(Clone, Copy, PartialEq, Eq, Debug)]
pub(crate) enum Wanted {
    Sort,
    Hom,
    Var,
    Hyp,
}

impl Wanted {
    ghost use Rattle.std.specs.Prelude.{◌≡◌};
    ghost use Rattle.alg_typing.specs.Wanted.{is_wanted};

    /// Whether what a name is declared as is what the place wants.
    pub(crate) fn is(self, declaration: Declaration) -> bool
        ensures { result ≡ is_wanted self declaration }
    {
        match (self, declaration) {
            (Wanted::Sort, Declaration::Sort(_)) => true,
            (Wanted::Hom, Declaration::Hom(_)) => true,
            (Wanted::Var, Declaration::Var(_)) => true,
            (Wanted::Hyp, Declaration::Hyp(_)) => true,
            _ => false,
        }
    }
}
