ghost use Rattle.std.specs.Prelude.{ℕ};
ghost use Rattle.mq_rounds.specs.Laws.{GuessesGrow, OneGuessStays, RoundsJudgeEach};
ghost use Rattle.mq_trunk.specs.Rounds.{admission, trunk_rule};

/// Law: if a guess is right on some first arrivals, one round makes one that is right on one more
/// arrival.
pub fn guesses_grow()
    ensures { (servers : ℕ) → GuessesGrow (trunk_rule servers) (admission servers) }
{}

/// Law: a round leaves exactly one guess unchanged, the admission of the trunk group.
pub fn one_guess_stays()
    ensures { (servers : ℕ) → OneGuessStays (trunk_rule servers) (admission servers) }
{}

/// Law: a round admits an arrival exactly if fewer of those before it that the guess admits depart
/// after it than there are servers.
pub fn rounds_judge_each()
    ensures { (servers : ℕ) → RoundsJudgeEach (trunk_rule servers) }
{}
