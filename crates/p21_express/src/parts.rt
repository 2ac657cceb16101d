//! Single words of a schema, and the parts that are skipped: algorithms, rules, WHERE clauses.

ghost use Rattle.std.specs.Prelude.{◌≡◌, ◌<◌, length, IfOk};
ghost use Rattle.p21_express.specs.Word.{begins_name, begins_symbol};
ghost use Rattle.p21_express.specs.Grammar.{is_again};
ghost use Rattle.p21_express.specs.Reader.{words_of, Gives, name_at, word_at, symbol_at, behind_stop, up_to, ends_at, again_of, word_of, if_name, group_at, if_group};

use crate::refusal::Refusal;
use crate::word::Word;

/// Any name, and the words after it. Another word is refused as `Syntax`, and so is the end.
///
/// No clause constrains the kind or the place of the error. The same is true of the other readers of words.
pub fn name<'t, 'a>(words: &'t [Word<'a>]) -> Result<(&'a [u8], &'t [Word<'a>]), Refusal>
    ensures { Gives (λ x. (x.0.now, words_of x.1.now)) result (name_at (words_of words.now)) }
{
    match words.split_first() {
        Some((Word::Name(name), rest)) => Ok((name, rest)),
        _ => Err(Refusal::syntax(words.len())),
    }
}

/// Whether the words go on with this name.
pub fn begins_name(words: &[Word], name: &[u8]) -> bool
    ensures { result ≡ begins_name name.now (words_of words.now) }
{
    match words.split_first() {
        Some((word, _)) => word.is_name(name),
        None => false,
    }
}

/// Whether the words go on with this symbol.
pub fn begins_symbol(words: &[Word], symbol: u8) -> bool
    ensures { result ≡ begins_symbol symbol (words_of words.now) }
{
    match words.split_first() {
        Some((word, _)) => word.is_symbol(symbol),
        None => false,
    }
}

/// The words after this word of the grammar. Another is refused as `Syntax`, and so is the end.
pub fn word<'t, 'a>(words: &'t [Word<'a>], name: &[u8]) -> Result<&'t [Word<'a>], Refusal>
    ensures { Gives (λ x. words_of x.now) result (word_at name.now (words_of words.now)) }
{
    match words.split_first() {
        Some((word, rest)) if word.is_name(name) => Ok(rest),
        _ => Err(Refusal::syntax(words.len())),
    }
}

/// The words after this symbol. Another word is refused as `Syntax`, and so is the end.
pub fn symbol<'t, 'a>(words: &'t [Word<'a>], symbol: u8) -> Result<&'t [Word<'a>], Refusal>
    ensures { Gives (λ x. words_of x.now) result (symbol_at symbol (words_of words.now)) }
{
    match words.split_first() {
        Some((word, rest)) if word.is_symbol(symbol) => Ok(rest),
        _ => Err(Refusal::syntax(words.len())),
    }
}

/// The words up to the first `stop` outside brackets, and those after it. A bracket that closes none is refused as `Syntax`, and so is the end.
#[tactic(auto, unfolding(crate::specs::Reader::up_to))]
pub fn up_to<'t, 'a>(
    words: &'t [Word<'a>],
    stop: u8,
) -> Result<(&'t [Word<'a>], &'t [Word<'a>]), Refusal>
    ensures { Gives (λ x. (words_of x.0.now, words_of x.1.now)) result (up_to stop (words_of words.now)) }
{
    let rest = behind_stop(words, stop)?;
    Ok((&words[..words.len() - rest.len() - 1], rest))
}

/// The words after the first `stop` outside brackets. A bracket that closes none is refused as `Syntax`, and so is the end.
#[tactic(auto, unfolding(crate::specs::Reader::behind_stop))]
pub fn behind_stop<'t, 'a>(words: &'t [Word<'a>], stop: u8) -> Result<&'t [Word<'a>], Refusal>
    // The words after the first such symbol outside brackets.
    ensures same { Gives (λ x. words_of x.now) result (behind_stop stop 0 (words_of words.now)) }
    // They are fewer.
    ensures shorter { IfOk result (λ x. length x.now < length words.now) }
{
    let mut depth: usize = 0;
    let mut rest = words;
    while !rest.is_empty() {
        let word = rest[0];
        if word.is_opening() {
            depth += 1;
        } else if depth == 0 && word.is_symbol(stop) {
            return Ok(&rest[1..]);
        } else if word.is_closing() {
            if depth == 0 {
                return Err(Refusal::syntax(rest.len()));
            }
            depth -= 1;
        }
        rest = &rest[1..];
    }
    Err(Refusal::syntax(0))
}

/// The words after the name that ends what is skipped. Where `again` is a name, each further one opens one more. The
/// end is refused as `Syntax`.
#[tactic(auto, unfolding(crate::specs::Reader::ends_at))]
pub fn behind<'t, 'a>(
    words: &'t [Word<'a>],
    again: Option<&[u8]>,
    last: &[u8],
) -> Result<&'t [Word<'a>], Refusal>
    ensures { Gives (λ x. words_of x.now) result (ends_at (again_of again.entry) last.now 0 (words_of words.now)) }
{
    let mut depth: usize = 0;
    let mut rest = words;
    while !rest.is_empty() {
        let word = rest[0];
        rest = &rest[1..];
        if word.is_name(last) {
            if depth == 0 {
                return Ok(rest);
            }
            depth -= 1;
        } else if is_again(word, again) {
            depth += 1;
        }
    }
    Err(Refusal::syntax(0))
}

fn is_again(word: Word, again: Option<&[u8]>) -> bool
    ensures { result ≡ is_again (again_of again.entry) (word_of word.entry) }
{
    match again {
        Some(name) => word.is_name(name),
        None => false,
    }
}

/// Whether the name stands there, and the words after it.
pub fn if_name<'t, 'a>(words: &'t [Word<'a>], name: &[u8]) -> (bool, &'t [Word<'a>])
    ensures { (result.0, words_of result.1.now) ≡ if_name name.now (words_of words.now) }
{
    match words.split_first() {
        Some((word, rest)) if word.is_name(name) => (true, rest),
        _ => (false, words),
    }
}

/// The words of a group in parentheses, and those after it.
#[tactic(auto, unfolding(crate::specs::Reader::group_at))]
pub(crate) fn group<'t, 'a>(
    words: &'t [Word<'a>],
) -> Result<(&'t [Word<'a>], &'t [Word<'a>]), Refusal>
    ensures { Gives (λ x. (words_of x.0.now, words_of x.1.now)) result (group_at (words_of words.now)) }
{
    up_to(symbol(words, b'(')?, b')')
}

/// The words of a group, or none where no group stands there.
#[tactic(auto, unfolding(crate::specs::Reader::if_group))]
pub(crate) fn if_group<'t, 'a>(
    words: &'t [Word<'a>],
) -> Result<(&'t [Word<'a>], &'t [Word<'a>]), Refusal>
    ensures { Gives (λ x. (words_of x.0.now, words_of x.1.now)) result (if_group (words_of words.now)) }
{
    if begins_symbol(words, b'(') {
        group(words)
    } else {
        Ok(words.split_at(0))
    }
}
