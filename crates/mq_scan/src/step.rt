// Jobs that act one after another, and what several of them do together.
ghost use Rattle.std.specs.Prelude.{◌≡◌, ℕ, ◌+◌, ◌-◌, ◌<◌, ◌≤◌};
ghost use Rattle.mq_scan.specs.Folds.{extended, fold_to, span};

/// Jobs that act one after another on a carry, as the jobs of a server act on the last departure. What
/// several neighbouring jobs do together is a summary, which lets a scan be cut into blocks. No method
/// takes memory.
pub trait Step {
    /// What one job leaves for the next.
    type Carry: Copy;

    /// What neighbouring jobs do to a carry together.
    type Summary: Copy;

    /// The number of jobs.
    ghost size: { Self → ℕ };

    /// The carry before the first job.
    ghost start: { Self → Self.Carry };

    /// What the job at an index does.
    ghost part: { Self → ℕ → Self.Summary };

    /// What one summary followed by another does.
    ghost joined: { Self.Summary → Self.Summary → Self.Summary };

    /// What a summary makes of a carry.
    ghost acted: { Self.Summary → Self.Carry → Self.Carry };

    /// The two may be composed: the sums in the composition fit.
    ghost can_join: { Self.Summary → Self.Summary → Type 0 };

    /// The summary may act on the carry: the sums in the result fit.
    ghost can_act: { Self.Summary → Self.Carry → Type 0 };

    /// Returns the number of jobs.
    fn count(&self) -> u32
        ensures { result ≡ size self.now };

    /// Returns the carry before the first job.
    fn first(&self) -> Self::Carry
        ensures { result ≡ start self.now };

    /// Returns what the job at an index, below the count, does.
    fn one(&self, at: u32) -> Self::Summary
        requires { at < size self.now }
        ensures { result ≡ part self.now at };

    /// Returns what one summary followed by another does.
    fn then(a: Self::Summary, b: Self::Summary) -> Self::Summary
        requires { can_join a b }
        ensures { result ≡ joined a b };

    /// Returns what a summary makes of a carry.
    fn act(s: Self::Summary, c: Self::Carry) -> Self::Carry
        requires { can_act s c }
        ensures { result ≡ acted s c };

    /// Appends the jobs from one index up to another to those of a summary: one by one, or by a faster way
    /// that a station has.
    fn extend(&self, sum: &mut Self::Summary, from: u32, to: u32)
        requires order { from ≤ to }
        requires inside { to ≤ size self.now }
        requires can { (n : ℕ) → from + n < to → can_join (extended joined (part self.now) sum.old from n) (part self.now (from + n)) }
        ensures { sum.new ≡ extended joined (part self.now) sum.old from (to - from) }
    {
        'joins: for at in from..to {
            *sum = Self::then(*sum, self.one(at));
        }
    }

    /// Lets the job at an index, below the count, act on a carry: by its summary, or by a faster way that
    /// a station has.
    fn advance(&self, carry: &mut Self::Carry, at: u32)
        requires inside { at < size self.now }
        requires can { can_act (part self.now at) carry.old }
        ensures { carry.new ≡ acted (part self.now at) carry.old }
    {
        *carry = Self::act(self.one(at), *carry);
    }

    /// The summaries of neighbouring ranges may be composed.
    ghost spans_join: { (s : Self) (from n m : ℕ) → from + n + m + 2 ≤ size s → can_join (span joined (part s) from n) (span joined (part s) (from + n + 1) m) };

    /// The summary of a range may act on the carry of the fold before it.
    ghost spans_act: { (s : Self) (from n : ℕ) → from + n + 1 ≤ size s → can_act (span joined (part s) from n) (fold_to acted (start s) (part s) from) };

    /// Composition is associative wherever it is allowed.
    ghost joins: { (a b c : Self.Summary) → can_join a b → can_join (joined a b) c → can_join b c → can_join a (joined b c) → joined (joined a b) c ≡ joined a (joined b c) };

    /// Acting by a composition is acting by its first summary and then by its second.
    ghost acts: { (a b : Self.Summary) (c : Self.Carry) → can_join a b → can_act a c → can_act b (acted a c) → can_act (joined a b) c → acted (joined a b) c ≡ acted b (acted a c) };
}

/// Jobs from whose carry a time can be read, such as the last departure.
pub trait Timed: Step {
    /// The time read from a carry.
    ghost time_of: { Self → Self.Carry → ℕ };

    /// The time may be read from the carry.
    ghost can_time: { Self → Self.Carry → Type 0 };

    /// Returns the time read from a carry, in ticks.
    fn time(&self, carry: &Self::Carry) -> u64
        requires { can_time self.now carry.now }
        ensures { result ≡ time_of self.now carry.now };

    /// The time may be read from the carries of the fold.
    ghost folds_time: { (s : Self) (n : ℕ) → n ≤ Self.size s → can_time s (fold_to Self.acted (Self.start s) (Self.part s) n) };
}
