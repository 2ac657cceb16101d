//! The words of a schema, and the forms among them that are not supported.

use crate::change::Form;
use crate::edit::Edit;
use crate::heads::{Constraint, Head, Heads};
use crate::lone::LoneTypes;
use crate::met::Mends;
use p21_express::{
    DeclWord, Refusal, Scanned, Word, begins_name, begins_rules, begins_symbol, behind,
    behind_stop, decl_word, if_name, keyword, name, symbol,
};
use std::alloc::{AllocError, Global};
use std::collections::BTreeSet;

/// The names of types that no TYPE declares.
const SIMPLE: [&str; 7] = [
    "INTEGER", "NUMBER", "BOOLEAN", "LOGICAL", "REAL", "STRING", "BINARY",
];

/// The forms that were met in the words of a schema.
#[derive(Drop)]
pub(crate) struct Walk<'s, 'a> {
    scanned: &'s Scanned<'a>,
    /// The text in upper case.
    text: &'a [u8],
    mends: Mends,
    heads: Heads<'a>,
    lone: LoneTypes<'a>,
    /// The types that begin with EXTENSIBLE, at a place, and have items.
    extensible: Vec<(&'a [u8], usize)>,
    /// The types that others add items to.
    extended: BTreeSet<&'a [u8]>,
    /// Whether declarations of other schemas are used.
    has_interface: bool,
}

impl<'s, 'a> Walk<'s, 'a> {
    /// Nothing was met.
    pub(crate) fn new(alloc: Global, text: &'a [u8], scanned: &'s Scanned<'a>) -> Walk<'s, 'a> {
        Walk {
            scanned,
            text,
            mends: Mends::new(alloc),
            heads: Heads::new(alloc),
            lone: LoneTypes::new(alloc),
            extensible: Vec::new(alloc),
            extended: BTreeSet::new(alloc),
            has_interface: false,
        }
    }

    /// What is mended of what was met.
    pub(crate) fn into_mends(self) -> Result<Mends, AllocError> {
        let Walk {
            mut mends,
            heads,
            lone,
            extensible,
            extended,
            has_interface,
            ..
        } = self;
        heads.mend(&mut mends)?;
        lone.mend(&mut mends)?;
        for (name, from) in &extensible {
            if has_interface || extended.contains(name) {
                mends.leave(*from)?;
            } else {
                mends.mend(Form::Extensible, *from, blank(*from, b"EXTENSIBLE"))?;
            }
        }
        Ok(mends)
    }

    /// The place of the first of the last words.
    fn place(&self, rest: &[Word]) -> usize {
        let before = self.scanned.words.len().saturating_sub(rest.len());
        self.scanned.places.get(before).copied().unwrap_or(0)
    }

    /// Meets the forms of a schema, up to the first word that does not fit.
    pub(crate) fn schema(&mut self) -> Result<(), Refusal> {
        let words = self.scanned.words.as_slice();
        let (_, rest) = name(keyword(words, b"SCHEMA")?)?;
        let mut rest = self.version(rest)?;
        for _ in 0..words.len() {
            if begins_name(rest, b"END_SCHEMA") {
                break;
            }
            rest = self.declaration(rest)?;
        }
        Ok(())
    }

    /// What stands after the name of the schema, up to the first declaration.
    fn version<'t>(&mut self, words: &'t [Word<'a>]) -> Result<&'t [Word<'a>], Refusal> {
        let Some((Word::Text, rest)) = words.split_first() else {
            return symbol(words, b';');
        };
        let from = self.place(words);
        let to = from.saturating_add(string_len(self.text.get(from..).unwrap_or(b"".as_slice())));
        self.mends
            .mend(Form::Version, from, Edit::Blank { from, to })?;
        symbol(rest, b';')
    }

    fn declaration<'t>(&mut self, words: &'t [Word<'a>]) -> Result<&'t [Word<'a>], Refusal> {
        let (first, rest) = name(words)?;
        match decl_word(first) {
            DeclWord::Entity => self.entity(rest),
            DeclWord::Type => self.type_decl(rest),
            DeclWord::Function => skipped(rest, Some(b"FUNCTION"), b"END_FUNCTION"),
            DeclWord::Procedure => skipped(rest, Some(b"PROCEDURE"), b"END_PROCEDURE"),
            DeclWord::Rule => skipped(rest, None, b"END_RULE"),
            DeclWord::Constant => skipped(rest, None, b"END_CONSTANT"),
            DeclWord::Unsupported if first == b"SUBTYPE_CONSTRAINT".as_slice() => {
                let from = self.place(words);
                self.constraint(from, rest)
            }
            DeclWord::Unsupported => {
                self.has_interface = true;
                let at = self.place(words);
                self.mends.leave(at)?;
                behind_stop(rest, b';')
            }
            DeclWord::Unknown => Err(Refusal::syntax(words.len())),
        }
    }

    /// A SUBTYPE_CONSTRAINT, which begins at a place.
    fn constraint<'t>(
        &mut self,
        from: usize,
        words: &'t [Word<'a>],
    ) -> Result<&'t [Word<'a>], Refusal> {
        let (_, rest) = name(words)?;
        let (entity, rest) = name(keyword(rest, b"FOR")?)?;
        let rest = symbol(rest, b';')?;
        let (is_abstract, rest) = if_name(rest, b"ABSTRACT");
        let rest = behind(rest, None, b"END_SUBTYPE_CONSTRAINT")?;
        let to = self.place(rest).saturating_add(1);
        self.heads.constrain(Constraint {
            entity,
            is_abstract,
            from,
            to,
        })?;
        symbol(rest, b';')
    }

    /// An entity after the word ENTITY.
    fn entity<'t>(&mut self, words: &'t [Word<'a>]) -> Result<&'t [Word<'a>], Refusal> {
        let (first, rest) = name(words)?;
        let (is_abstract, behind_abstract) = if_name(rest, b"ABSTRACT");
        let head = if is_abstract {
            Head::Abstract
        } else if begins_name(rest, b"SUPERTYPE") {
            Head::Supertype(self.place(rest))
        } else {
            Head::Name(self.place(words).saturating_add(first.len()))
        };
        self.heads.push(first, head)?;
        if is_abstract && ends_head(behind_abstract) {
            let at = self.place(behind_abstract);
            let edit = Edit::Insert {
                at: self.place(rest).saturating_add(b"ABSTRACT".len()),
                words: " SUPERTYPE",
            };
            self.mends.mend(Form::Abstract, at, edit)?;
        }
        let rest = self.attributes(rest)?;
        symbol(behind(rest, None, b"END_ENTITY")?, b';')
    }

    /// What stands after the name of an entity, up to its rules.
    fn attributes<'t>(&mut self, words: &'t [Word<'a>]) -> Result<&'t [Word<'a>], Refusal> {
        let mut rest = behind_stop(words, b';')?;
        for _ in 0..words.len() {
            if begins_rules(rest) && !begins_name(rest, b"INVERSE") {
                break;
            }
            self.renamed(rest)?;
            rest = behind_stop(rest, b';')?;
        }
        Ok(rest)
    }

    /// What is renamed among the names before a colon.
    fn renamed(&mut self, words: &[Word<'a>]) -> Result<(), Refusal> {
        let mut is_behind_name = false;
        for (position, word) in words.iter().enumerate() {
            if word.is_symbol(b':') || word.is_symbol(b';') {
                break;
            }
            if is_behind_name && word.is_name(b"RENAMED") {
                self.rename(words.get(position..).unwrap_or(words))?;
            }
            is_behind_name = matches!(word, Word::Name(_));
        }
        Ok(())
    }

    /// RENAMED, with which some words begin.
    fn rename(&mut self, words: &[Word<'a>]) -> Result<(), Refusal> {
        let from = self.place(words);
        let rest = keyword(words, b"RENAMED")?;
        let (new, _) = name(rest)?;
        let to = self.place(rest).saturating_add(new.len());
        self.mends
            .mend(Form::Renamed, from, Edit::Blank { from, to })?;
        Ok(())
    }

    /// A type after the word TYPE.
    fn type_decl<'t>(&mut self, words: &'t [Word<'a>]) -> Result<&'t [Word<'a>], Refusal> {
        let (first, rest) = name(words)?;
        let rest = symbol(rest, b'=')?;
        self.under(first, rest)?;
        let rest = behind_stop(rest, b';')?;
        symbol(behind(rest, None, b"END_TYPE")?, b';')
    }

    /// What stands under a type.
    fn under(&mut self, declared: &'a [u8], words: &[Word<'a>]) -> Result<(), Refusal> {
        let from = self.place(words);
        let (is_extensible, rest) = if_name(words, b"EXTENSIBLE");
        let generic_from = self.place(rest);
        let (is_generic, rest) = if_name(rest, b"GENERIC_ENTITY");
        let (first, items) = name(rest)?;
        let has_items = begins_symbol(items, b'(') || begins_name(items, b"OF");
        if is_extensible {
            self.extensible(declared, from, has_items)?;
        }
        if is_generic {
            self.generic(generic_from, has_items)?;
        }
        if first == b"SELECT".as_slice() {
            self.lone.push_select(declared)?;
        } else if !is_extensible && !is_generic && begins_symbol(items, b';') && !is_simple(first) {
            self.lone.push_lone(declared, first, from)?;
        }
        self.based_on(items)
    }

    /// EXTENSIBLE at a place, under a type that has items or not.
    fn extensible(
        &mut self,
        declared: &'a [u8],
        from: usize,
        has_items: bool,
    ) -> Result<(), AllocError> {
        if !has_items {
            return self.mends.leave(from);
        }
        self.extensible.push((declared, from))?;
        Ok(())
    }

    /// GENERIC_ENTITY at a place, under a type that has items or not.
    fn generic(&mut self, from: usize, has_items: bool) -> Result<(), AllocError> {
        if !has_items {
            return self.mends.leave(from);
        }
        let edit = blank(from, b"GENERIC_ENTITY");
        self.mends.mend(Form::GenericEntity, from, edit)
    }

    /// The type to which another adds items, where the words go on with BASED_ON.
    fn based_on(&mut self, words: &[Word<'a>]) -> Result<(), Refusal> {
        let at = self.place(words);
        let (is_based, rest) = if_name(words, b"BASED_ON");
        if is_based {
            let (other, _) = name(rest)?;
            self.extended.insert(other)?;
            self.mends.leave(at)?;
        }
        Ok(())
    }
}

/// Whether the words go on with SUBTYPE or a semicolon.
fn ends_head(words: &[Word]) -> bool {
    begins_name(words, b"SUBTYPE") || begins_symbol(words, b';')
}

/// Whether a name is that of a type which no TYPE declares.
fn is_simple(name: &[u8]) -> bool {
    SIMPLE.iter().any(|it| name == it.as_bytes())
}

/// What takes a word out of the text.
fn blank(from: usize, word: &[u8]) -> Edit {
    Edit::Blank {
        from,
        to: from.saturating_add(word.len()),
    }
}

/// A declaration that is skipped, after its first word.
fn skipped<'t, 'a>(
    words: &'t [Word<'a>],
    again: Option<&[u8]>,
    last: &[u8],
) -> Result<&'t [Word<'a>], Refusal> {
    symbol(behind(words, again, last)?, b';')
}

/// How many bytes a string has that begins a text: up to the quote of its kind that closes it. A doubled apostrophe closes none.
fn string_len(text: &[u8]) -> usize {
    let quote = text.first().copied().unwrap_or(b'\'');
    let mut is_open = false;
    for (position, byte) in text.iter().enumerate() {
        if *byte == quote {
            is_open = !is_open;
        } else if !is_open {
            return position;
        }
    }
    text.len()
}
