// Laws of the definitions.
ghost use Rattle.std.specs.Prelude.{◌≡◌, List, Err};
ghost use Rattle.mq_model.specs.Canonical.{PrintedModelsAreRead};
ghost use Rattle.mq_model.specs.Examples.{AreAnswered};
ghost use Rattle.mq_model.specs.Form.{Word, IsFirstFault, read, whole};
ghost use Rattle.mq_model.specs.Lines.{line};

/// If words aren't a line, then the words before the error begin a line, and with the word at the
/// error they don't.
pub fn first_bad_word()
    ensures { (ws left : List Word) → whole (read line ws) ≡ Err left → IsFirstFault line ws left }
{}

/// The example texts have the listed first errors, and three of them the listed networks.
pub fn examples_are_answered()
    ensures { AreAnswered }
{}

/// The canonical text of a plan is a model without an error, and it declares the plan's network.
pub fn printed_models_are_read()
    ensures { PrintedModelsAreRead }
{}
