// Laws of each state that a schedule of seats reaches.
ghost use Rattle.std.specs.Prelude.{◌≡◌, ◌≢◌, ℕ, ◌≤◌, slice_index, List};
ghost use Rattle.mq_chain.specs.declared.view.ChainView.{ChainView};
ghost use Rattle.mq_chain.specs.Machine.{Leads, Runs, IsFolded};
ghost use Rattle.mq_chain.specs.Words.{carry_word};

/// Between any two steps of a schedule, each stored carry is the fold of the summaries of its block
/// and those before.
pub fn carries_are_folded()
    ensures { (blocks seats : ℕ) (words : List ℕ) (views : List ChainView) → Runs blocks seats words views → (b : ℕ) → slice_index words (carry_word b) ≢ 0 → IsFolded words b }
{}

/// A sum, best or carry that was stored is the same in each later state of a schedule.
pub fn words_stay()
    ensures { (blocks : ℕ) (words later : List ℕ) (views after : List ChainView) → Leads blocks words views later after → (w : ℕ) → 1 ≤ w → slice_index words w ≢ 0 → slice_index later w ≡ slice_index words w }
{}
