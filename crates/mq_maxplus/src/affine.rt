// The maps by which the jobs of a server act on its last departure.
ghost use Rattle.std.specs.Prelude.{◌≡◌};
ghost use Rattle.mq_maxplus.specs.declared.mp.Mp.{Mp as Number};
ghost use Rattle.mq_maxplus.specs.Maxplus.{affine_act, affine_then, CanThen, CanAct};

use crate::Mp;

/// The map `x -> max(x + add, least)`. A job that needs `add` ticks of service applies it to the
/// last departure before it; `least` is the time at which the job would leave an empty server
/// (Greenberg, Lubachevsky and Mitrani, 1991).
#[derive(Clone, Copy, PartialEq, Eq)]
pub struct Affine {
    /// The number added, in ticks.
    pub add: u64,
    /// The least result.
    pub least: Mp,
}

impl Affine {
    /// Returns the composition in which this map acts first. The sums in it must fit.
    #[inline]
    pub fn then(self, next: Affine) -> Affine
        requires { CanThen self next }
        ensures { result ≡ affine_then self next }
    {
        Affine {
            add: self.add + next.add,
            least: self.least.plus(Mp::At(next.add)).max(next.least),
        }
    }

    /// Returns the value of the map at a number. The sum in it must fit.
    #[inline]
    pub fn act(self, x: Mp) -> Mp
        requires { CanAct self x }
        ensures { result ≡ affine_act self x }
    {
        x.plus(Mp::At(self.add)).max(self.least)
    }
}

/// Laws. Acting by a composition is acting by its first map and then by its second, and composition
/// is associative.
pub fn affine_laws()
    ensures acts { (s t : Affine) (x : Number) → affine_act (affine_then s t) x ≡ affine_act t (affine_act s x) }
    ensures joins { (s t u : Affine) → affine_then (affine_then s t) u ≡ affine_then s (affine_then t u) }
{}
