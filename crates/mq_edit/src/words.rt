// The words after the program's name.
ghost use Rattle.std.specs.Prelude.{◌≡◌};
ghost use Rattle.mq_base.specs.Text.{texts};
ghost use Rattle.mq_edit.specs.Words.{refuses_words};

use mq_base::any_begins_with_dash;

/// Returns whether these words are refused: there aren't exactly three, or one begins with a dash.
pub fn refuses_words(words: &[&str]) -> bool
    ensures { result ≡ refuses_words (texts words.now) }
{
    words.len() != 3 || any_begins_with_dash(words)
}
