// A number with minus infinity.
ghost use Rattle.std.specs.Prelude.{◌≡◌};
ghost use Rattle.mq_maxplus.specs.Maxplus.{mp_max, mp_or_zero, mp_plus, Fits};

/// A time in ticks, or minus infinity.
#[derive(Clone, Copy, PartialEq, Eq)]
pub enum Mp {
    /// Minus infinity: no time, for example when nothing has happened yet.
    Void,
    /// A time in ticks.
    At(u64),
}

impl Mp {
    /// Returns the greater of two.
    #[inline]
    pub fn max(self, other: Mp) -> Mp
        ensures { result ≡ mp_max self other }
    {
        match (self, other) {
            (Mp::Void, y) => y,
            (x, Mp::Void) => x,
            (Mp::At(x), Mp::At(y)) => Mp::At(if x < y { y } else { x }),
        }
    }

    /// Returns the sum of two, which must fit; minus infinity plus anything is minus infinity.
    #[inline]
    pub fn plus(self, other: Mp) -> Mp
        requires { Fits (mp_plus self other) }
        ensures { result ≡ mp_plus self other }
    {
        match (self, other) {
            (Mp::At(x), Mp::At(y)) => Mp::At(x + y),
            _ => Mp::Void,
        }
    }

    /// Returns the number, or 0 for minus infinity.
    #[inline]
    pub fn or_zero(self) -> u64
        ensures { result ≡ mp_or_zero self }
    {
        match self {
            Mp::Void => 0,
            Mp::At(x) => x,
        }
    }
}
