//! The characters of the strings in a schema's text.

ghost use Rattle.std.specs.Prelude.{◌<◌, IfSome};

use p21_algorithm::Source;
use p21_express::Word;
use std::alloc::{AllocError, Global};

/// The characters of a string.
#[derive(Drop)]
enum Characters {
    /// They stand in the text as they are, from a byte on to another.
    Spelled(usize, usize),
    /// They are written in another way.
    Made(Vec<u8>),
    /// One of them is none of the first 256.
    Wide,
}

/// A string of the text.
#[derive(Drop)]
struct Text {
    /// How many words of the text stand from it on.
    place: usize,
    characters: Characters,
}

/// The characters of the strings in a text. An apostrophe is written twice, and encoded strings give the numbers of their characters.
#[derive(Drop)]
pub struct Texts {
    /// In the order of the text.
    all: Vec<Text>,
}

impl Texts {
    /// The characters of the string at a place of this text. `None` where no string stands there, or one of them is none of the first 256.
    pub(crate) fn characters<'a>(&'a self, source: Source<'a>, place: usize) -> Option<&'a [u8]> {
        let text = self.all.get(self.position(place))?;
        if text.place != place {
            return None;
        }
        match &text.characters {
            Characters::Spelled(from, to) => source.text.get(*from..*to),
            Characters::Made(characters) => Some(characters.as_slice()),
            Characters::Wide => None,
        }
    }

    /// How many strings stand before a place.
    fn position(&self, place: usize) -> usize {
        let mut low = 0;
        let mut high = self.all.len();
        while low < high {
            let middle = low + (high - low) / 2;
            if self.all[middle].place > place {
                low = middle + 1;
            } else {
                high = middle;
            }
        }
        low
    }
}

/// A literal without its first and its last byte.
fn inside(literal: &[u8]) -> &[u8] {
    match literal {
        [_, inside @ .., _] => inside,
        _ => &[],
    }
}

/// The strings of a text, by its words in upper case and as it is spelled.
pub fn texts_of(alloc: Global, source: Source, words: &[Word]) -> Result<Texts, AllocError> {
    let mut all = Vec::new(alloc);
    for at in 0..words.len() {
        if let Word::Text = words[at] {
            let place = words.len() - at;
            all.push(Text {
                place,
                characters: characters_at(alloc, source, place)?,
            })?;
        }
    }
    Ok(Texts { all })
}

/// The characters of the string at a place.
fn characters_at(alloc: Global, source: Source, place: usize) -> Result<Characters, AllocError> {
    let literal = source.literal(place);
    let characters = inside(literal);
    if literal.first() == Some(&b'"') {
        return match decoded(alloc, characters)? {
            Some(characters) => Ok(Characters::Made(characters)),
            None => Ok(Characters::Wide),
        };
    }
    if characters.contains(&b'\'') {
        return Ok(Characters::Made(undoubled(alloc, characters)?));
    }
    let from = source.byte_of(place).saturating_add(1);
    Ok(Characters::Spelled(from, from.saturating_add(characters.len())))
}

/// Characters of which each apostrophe stands twice.
fn undoubled(alloc: Global, text: &[u8]) -> Result<Vec<u8>, AllocError> {
    let mut characters = Vec::new(alloc);
    let mut is_second = false;
    for byte in text {
        is_second = *byte == b'\'' && !is_second;
        if !is_second {
            characters.push(*byte)?;
        }
    }
    Ok(characters)
}

/// Characters of which each is written as eight digits of base 16.
fn decoded(alloc: Global, digits: &[u8]) -> Result<Option<Vec<u8>>, AllocError> {
    if digits.len() % 8 != 0 {
        return Ok(None);
    }
    let mut characters = Vec::new(alloc);
    for digits in digits.chunks_exact(8) {
        match code(digits) {
            Some(code) => characters.push(code)?,
            None => return Ok(None),
        }
    }
    Ok(Some(characters))
}

/// The number that eight digits of base 16 write, where it is below 256.
fn code(digits: &[u8]) -> Option<u8> {
    let mut code: u32 = 0;
    for digit in digits {
        code = code * 16 + digit_value(*digit)?;
        if code >= 256 {
            return None;
        }
    }
    u8::try_from(code).ok()
}

/// The value of a digit of base 16.
fn digit_value(digit: u8) -> Option<u32>
    ensures { IfSome result (λ d. d < 16) }
{
    match digit {
        b'0'..=b'9' => Some(u32::from(digit - b'0')),
        b'A'..=b'F' => Some(u32::from(digit - b'A') + 10),
        b'a'..=b'f' => Some(u32::from(digit - b'a') + 10),
        _ => None,
    }
}
