//! Equations over a lattice, and their least solution by rounds.

ghost use Rattle.std.specs.Prelude.{◌≡◌, ℕ, ◌<◌, List, length, IfOk, true, false, sum_by, vec_len};
ghost use Rattle.ix_solve.specs.Solutions.{IsBottom, IsMonotone, IsLeastOf, IsSolution, IsLeast};

use ix_lattice::Lattice;
use std::alloc::{AllocError, Global};

/// Equations with numbers from 0 on. Each asks, by all labels, that its own label is high enough.
pub trait Equations {
    type Value: Lattice;

    /// How many equations there are.
    ghost size: { Self → ℕ };

    /// Whether a value is high enough for an equation at labels.
    ghost Asks: { Self → ℕ → List Self.Value → Self.Value → Type 0 };

    fn len(&self) -> usize
        ensures size { result ≡ size self.now };

    /// A value below every value. It takes no memory.
    fn least(&self) -> Self::Value
        ensures bottom { IsBottom Self.Value.Below result };

    /// The least value that is high enough for equation `at`, or want of memory.
    fn apply(
        &self,
        alloc: Global,
        at: usize,
        labels: &[Self::Value],
    ) -> Result<Self::Value, AllocError>
        requires at { at < size self.now }
        requires labels { length labels.now ≡ size self.now }
        ensures value { IfOk result (IsLeastOf Self.Value.Below (Asks self.now at labels.now)) };

    /// What is high enough at labels is so at lower labels, and so is what is above it.
    ghost monotone: { (equations : Self) → IsMonotone Self.Value.Below (Asks equations) };
}

/// The least labels, one for each equation, that are high enough for all equations.
pub fn solve<E: Equations>(alloc: Global, equations: &E) -> Result<Vec<E::Value>, AllocError>
    ensures solution { IfOk result (λ labels.
        IsSolution E.Value.Below (E.size equations.now) (E.Asks equations.now) labels.items) }
    ensures least { IfOk result (λ labels.
        IsLeast E.Value.Below (E.size equations.now) (E.Asks equations.now) labels.items) }
{
    let mut labels = all_least(alloc, equations)?;
    while round(alloc, equations, &mut labels)? {}
    Ok(labels)
}

fn all_least<E: Equations>(alloc: Global, equations: &E) -> Result<Vec<E::Value>, AllocError>
    ensures len { IfOk result (λ labels. vec_len labels ≡ E.size equations.now) }
    ensures least { IfOk result (λ labels.
        IsLeast E.Value.Below (E.size equations.now) (E.Asks equations.now) labels.items) }
{
    let mut labels = Vec::new(alloc);
    for _ in 0..equations.len() {
        labels.push(equations.least())?;
    }
    Ok(labels)
}

/// Applies each equation once, and answers whether a label rose.
fn round<E: Equations>(
    alloc: Global,
    equations: &E,
    labels: &mut Vec<E::Value>,
) -> Result<bool, AllocError>
    requires len { vec_len labels.old ≡ E.size equations.now }
    requires least { IsLeast E.Value.Below (E.size equations.now) (E.Asks equations.now) labels.old.items }
    ensures len { IfOk result (λ _. vec_len labels.new ≡ E.size equations.now) }
    ensures least { IfOk result (λ _.
        IsLeast E.Value.Below (E.size equations.now) (E.Asks equations.now) labels.new.items) }
    ensures quiet { IfOk result (λ rose. rose ≡ false →
        IsSolution E.Value.Below (E.size equations.now) (E.Asks equations.now) labels.new.items) }
    ensures falls { IfOk result (λ rose. rose ≡ true →
        sum_by E.Value.rank labels.new.items < sum_by E.Value.rank labels.old.items) }
{
    let mut rose = false;
    for at in 0..equations.len() {
        let value = equations.apply(alloc, at, labels)?;
        if !value.leq(&labels[at]) {
            labels[at] = labels[at].join(alloc, &value)?;
            rose = true;
        }
    }
    Ok(rose)
}
