//! Inverse attributes: their names, and what refers by them.

use p21_algorithm::{Owner, Part, Piece};
use p21_express::Word;
use p21_names::InverseForm;

/// An attribute of INVERSE: the entity that declares it, and its name.
#[derive(Clone, Copy)]
pub(crate) struct InverseName<'a> {
    pub(crate) entity: &'a [u8],
    /// The entity after SELF, where it is declared again.
    pub(crate) redeclared_of: Option<&'a [u8]>,
    pub(crate) name: &'a [u8],
}

/// What refers by an inverse attribute.
#[derive(Clone, Copy)]
pub(crate) struct Referring<'a> {
    pub(crate) form: InverseForm,
    /// The entity whose instances refer.
    pub(crate) source: &'a [u8],
    /// The attribute by which they do.
    pub(crate) attribute: &'a [u8],
}

/// The name that a piece of the text declares in INVERSE, newly or again.
pub(crate) fn inverse_name<'a>(piece: &Piece<'_, 'a>) -> Option<InverseName<'a>> {
    if piece.part != Part::Inverse {
        return None;
    }
    let Owner::Entity(entity) = piece.owner else {
        return None;
    };
    let (redeclared_of, name) = declared_name(piece.words)?;
    Some(InverseName {
        entity: entity.text,
        redeclared_of,
        name,
    })
}

/// The first name, or the one after SELF, `\`, an entity and the point, with that entity.
fn declared_name<'a>(words: &[Word<'a>]) -> Option<(Option<&'a [u8]>, &'a [u8])> {
    let first = name_at(words, 0)?;
    if first == b"SELF".as_slice() {
        Some((Some(name_at(words, 2)?), name_at(words, 4)?))
    } else {
        Some((None, first))
    }
}

/// What refers by the inverse attribute that a piece of the text declares.
pub(crate) fn referring_of<'a>(words: &[Word<'a>]) -> Option<Referring<'a>> {
    let colon = symbol_from(words, 0, b':')?;
    let (form, from) = form_from(words, colon.checked_add(1)?)?;
    let of = name_at(words, from)?;
    let attribute = from.checked_add(2)?;
    let behind = attribute.checked_add(1)?;
    let place = if is_symbol(words, behind, b'.') {
        behind.checked_add(1)?
    } else {
        attribute
    };
    Some(Referring {
        form,
        source: of,
        attribute: name_at(words, place)?,
    })
}

/// What the attribute has of those that refer, by the words from a place on, and the place of the entity.
fn form_from(words: &[Word], from: usize) -> Option<(InverseForm, usize)> {
    let name = name_at(words, from)?;
    let form = if name == b"SET".as_slice() {
        InverseForm::Set
    } else if name == b"BAG".as_slice() {
        InverseForm::Bag
    } else {
        return Some((InverseForm::One, from));
    };
    let next = from.checked_add(1)?;
    let of = if is_symbol(words, next, b'[') {
        symbol_from(words, next, b']')?.checked_add(1)?
    } else {
        next
    };
    Some((form, of.checked_add(1)?))
}

/// The place of the first such symbol from a place on.
fn symbol_from(words: &[Word], from: usize, symbol: u8) -> Option<usize> {
    for place in from..words.len() {
        if words[place].is_symbol(symbol) {
            return Some(place);
        }
    }
    None
}

/// Whether the word at a place is this symbol.
fn is_symbol(words: &[Word], at: usize, symbol: u8) -> bool {
    match words.get(at) {
        Some(word) => word.is_symbol(symbol),
        None => false,
    }
}

/// The name that is the word at a place.
fn name_at<'a>(words: &[Word<'a>], at: usize) -> Option<&'a [u8]> {
    match words.get(at)? {
        Word::Name(name) => Some(name),
        _ => None,
    }
}
