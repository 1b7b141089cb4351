// Which lists of arguments are invalid by their shape alone.
ghost use Rattle.std.specs.Prelude.{◌≡◌, ◌≤◌, ◌∷◌, [], true, length, IsNone, IfSome, nat_lt};
ghost use Rattle.std.specs.List.{list_any};
ghost use Rattle.mq_base.specs.Text.{texts};
ghost use Rattle.mq_words.specs.Words.{begins_with_value as begins_with_value_of, has_word as has_word_of, is_option as is_option_of, is_bad_word as is_bad_word_of, is_unknown as is_unknown_of, left_from, lacks_value as lacks_value_of, refuses_words as refuses_words_of, stands_twice as stands_twice_of, takes_value as takes_value_of, words_left};

use mq_base::begins_with_dash;

// Returns whether an argument is an option that takes a value.
fn takes_value(word: &str) -> bool
    ensures { result ≡ takes_value_of word.now }
{
    matches!(word, "--workers" | "--block" | "--made" | "--report")
}

fn is_option(word: &str) -> bool
    ensures { result ≡ is_option_of word.now }
{
    takes_value(word) || word == "--jobs"
}

fn is_unknown(word: &str) -> bool
    ensures { result ≡ is_unknown_of word.now }
{
    begins_with_dash(word) && !is_option(word)
}

fn is_bad_word(word: &str) -> bool
    ensures { result ≡ is_bad_word_of word.now }
{
    word.is_empty() || is_unknown(word)
}

fn has_bad_word(words: &[&str]) -> bool
    ensures { result ≡ list_any is_bad_word_of (texts words.now) }
{
    let mut left = words;
    while let [first, rest @ ..] = left {
        if is_bad_word(first) {
            return true;
        }
        left = rest;
    }
    false
}

fn has_word(words: &[&str], word: &str) -> bool
    ensures { result ≡ has_word_of word.now (texts words.now) }
{
    let mut left = words;
    while let [first, rest @ ..] = left {
        if *first == word {
            return true;
        }
        left = rest;
    }
    false
}

fn stands_twice(words: &[&str], word: &str) -> bool
    ensures { result ≡ stands_twice_of word.now (texts words.now) }
{
    let mut left = words;
    while let [first, rest @ ..] = left {
        if *first == word && has_word(rest, word) {
            return true;
        }
        left = rest;
    }
    false
}

fn begins_with_value(words: &[&str]) -> bool
    ensures { result ≡ begins_with_value_of (texts words.now) }
{
    match words {
        [first, ..] => !begins_with_dash(first),
        [] => false,
    }
}

fn lacks_value(words: &[&str]) -> bool
    ensures { result ≡ lacks_value_of (texts words.now) }
{
    let mut left = words;
    while let [first, rest @ ..] = left {
        if takes_value(first) && !begins_with_value(rest) {
            return true;
        }
        left = rest;
    }
    false
}

// Returns the arguments after the first one, which is an option's value.
fn behind_value<'a, 'b>(words: &'a [&'b str]) -> &'a [&'b str]
    ensures left { words_left (texts result.now) ≡ left_from true (texts words.now) }
    ensures within { length result.now ≤ length words.now }
{
    match words {
        [_, rest @ ..] => rest,
        [] => words,
    }
}

// Returns the first name, which is neither an option nor its value, and the arguments after it.
fn next_name<'a, 'b>(words: &'a [&'b str]) -> Option<(&'b str, &'a [&'b str])>
    ensures none { IsNone result → words_left (texts words.now) ≡ [] }
    ensures some { IfSome result (λ next. words_left (texts words.now) ≡ next.0.now ∷ words_left (texts next.1.now)) }
{
    let mut left = words;
    while let [first, rest @ ..] = left {
        if takes_value(first) {
            left = behind_value(rest);
        } else if is_option(first) {
            left = rest;
        } else {
            return Some((*first, rest));
        }
    }
    None
}

// Returns whether there are more than two names.
fn has_third_name(words: &[&str]) -> bool
    ensures { result ≡ nat_lt 2 (length (words_left (texts words.now))) }
{
    let Some((_, behind_first)) = next_name(words) else {
        return false;
    };
    let Some((_, behind_second)) = next_name(behind_first) else {
        return false;
    };
    next_name(behind_second).is_some()
}

/// Returns whether the arguments are invalid by their shape alone: an argument is empty or an
/// unknown option, an option is given twice or lacks its value, or more than two other arguments
/// are left.
pub fn refuses_words(words: &[&str]) -> bool
    ensures { result ≡ refuses_words_of (texts words.now) }
{
    has_bad_word(words)
        || stands_twice(words, "--workers")
        || stands_twice(words, "--block")
        || stands_twice(words, "--made")
        || stands_twice(words, "--report")
        || stands_twice(words, "--jobs")
        || lacks_value(words)
        || has_third_name(words)
}
