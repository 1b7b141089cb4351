ghost use Rattle.std.specs.Prelude.{ℕ};
ghost use Rattle.mq_loss.specs.Laws.{GuessedAreServed};
ghost use Rattle.mq_loss.specs.Rounds.{admission, loss_rule};
ghost use Rattle.mq_rounds.specs.Laws.{GuessesGrow, OneGuessStays, RoundsJudgeEach};

/// Law: if a guess is right on some first arrivals, one round makes one that is right on one more
/// arrival.
pub fn guesses_grow()
    ensures { (places : ℕ) → GuessesGrow (loss_rule places) (admission places) }
{}

/// Law: a round leaves exactly one guess unchanged, the admission of the station.
pub fn one_guess_stays()
    ensures { (places : ℕ) → OneGuessStays (loss_rule places) (admission places) }
{}

/// Law: those that a guess admits depart by the server's recurrence.
pub fn guessed_are_served()
    ensures { GuessedAreServed }
{}

/// Law: a round judges each arrival by the departures of those before it that the guess admits.
pub fn rounds_judge_each()
    ensures { (places : ℕ) → RoundsJudgeEach (loss_rule places) }
{}
