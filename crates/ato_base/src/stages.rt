//! The law of stages in which an input is read.
ghost use Rattle.std.specs.Prelude.{◌≡◌};
ghost use Rattle.ato_base.specs.Stages.{Reaches, StandsFrom, IsDetermined, IsLast};

/// Stages of a type, each of which leads to the next or has a first fault of another type.
pub trait Stages<F> {
    ghost leads: { Self → Self → Type 0 };

    ghost has: { Self → F → Type 0 };
}

/// Where each stage leads to one at most, has one fault at most, and never does both, at most one fault stands, and none
/// where a last stage is reached.
pub fn one_fault_stands<S: Stages<F>, F>()
    ensures once { IsDetermined S.leads S.has → (s : S) (f g : F) → StandsFrom S.leads S.has s f → StandsFrom S.leads S.has s g → f ≡ g }
    ensures none { IsDetermined S.leads S.has → (s t : S) (f : F) → IsLast S.leads S.has t → Reaches S.leads s t → StandsFrom S.leads S.has s f → ⊥ }
{}
