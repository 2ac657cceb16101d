//! The tokens of an instance, and where each stands.

use crate::attributes::attribute_in;
use crate::explained::Subject;
use crate::walk::Walk;
use p21_schema::AttrId;
use p21_text::Token;
use p21_tree::Piece;
use std::alloc::{AllocError, Global};
use std::collections::BTreeSet;

/// Where in an instance a token stands. Records and parameters are counted from 0.
#[derive(Clone, Copy, PartialEq, Eq)]
pub(crate) enum Spot {
    /// Between records and parameters.
    Between,
    /// The keyword of a record.
    Keyword { rec: u64 },
    /// The first token of a parameter.
    Parameter { rec: u64, attr: u64 },
    /// A further token of a parameter.
    Inside { rec: u64, attr: u64 },
    /// The parenthesis after the parameters of a record.
    Close { rec: u64 },
}

impl Spot {
    /// Whether it is one of a parameter.
    pub(crate) fn is_in(self, rec: u64, attr: u64) -> bool {
        self == (Spot::Parameter { rec, attr }) || self == (Spot::Inside { rec, attr })
    }
}

/// A token of an instance.
#[derive(Clone, Copy)]
pub(crate) struct Placed<'a> {
    pub(crate) token: Token<'a>,
    /// Where it begins, in bytes from the instance's first byte.
    pub(crate) start: usize,
    pub(crate) spot: Spot,
}

/// An instance, by its tokens.
#[derive(Drop)]
pub(crate) struct Instance<'a> {
    pub(crate) subject: Subject<'a>,
    pub(crate) bytes: &'a [u8],
    /// Its place, in bytes from the file's first byte.
    pub(crate) at: usize,
    tokens: Vec<Placed<'a>>,
    keywords: Vec<&'a [u8]>,
}

impl<'a> Instance<'a> {
    /// The instance that a piece of a file is.
    pub(crate) fn read(
        alloc: Global,
        subject: Subject<'a>,
        piece: &Piece<'a>,
    ) -> Result<Instance<'a>, AllocError> {
        let mut tokens = Vec::new(alloc);
        let mut keywords = Vec::new(alloc);
        let mut spots = Spots::new(piece.bytes);
        for _ in 0..piece.bytes.len() {
            let Some(placed) = spots.next() else {
                break;
            };
            tokens.push(placed)?;
            if let (Spot::Keyword { .. }, Some(keyword)) = (placed.spot, keyword_of(placed.token)) {
                keywords.push(keyword)?;
            }
        }
        Ok(Instance {
            subject,
            bytes: piece.bytes,
            at: piece.at as usize,
            tokens,
            keywords,
        })
    }

    /// Its tokens.
    pub(crate) fn tokens(&self) -> &[Placed<'a>] {
        &self.tokens
    }

    /// The first token that stands at a spot.
    pub(crate) fn token_at(&self, spot: Spot) -> Option<Placed<'a>> {
        self.tokens.iter().find(|it| it.spot == spot).copied()
    }

    /// The place of that token; of the instance where there is none.
    pub(crate) fn place_of(&self, spot: Spot) -> usize {
        self.token_at(spot).map_or(0, |it| it.start)
    }

    /// Its name.
    pub(crate) fn name(&self) -> Option<u64> {
        match self.tokens.first()?.token {
            Token::Name(name) => Some(name),
            _ => None,
        }
    }

    /// Whether it is written in the external mapping: as records in parentheses.
    pub(crate) fn is_complex(&self) -> bool {
        matches!(self.tokens.get(2), Some(third) if third.token == Token::LParen)
    }

    /// The keyword of a record, as spelled; a user-defined one with its `!`.
    pub(crate) fn keyword(&self, rec: u64) -> Option<&'a [u8]> {
        keyword_of(self.token_at(Spot::Keyword { rec })?.token)
    }

    /// The keywords of the records, in their order.
    pub(crate) fn keywords(&self) -> &[&'a [u8]] {
        &self.keywords
    }

    /// How many parameters a record has.
    pub(crate) fn parameter_count(&self, rec: u64) -> u64 {
        self.tokens
            .iter()
            .filter(|it| matches!(it.spot, Spot::Parameter { rec: of, .. } if of == rec))
            .count() as u64
    }

    /// The record and the number of the parameter for an attribute.
    pub(crate) fn parameter_for(&self, id: AttrId) -> Option<(u64, u64)> {
        for placed in &self.tokens {
            if let Spot::Parameter { rec, attr } = placed.spot {
                if attribute_in(self, rec, attr).is_some_and(|it| it.id.place() == id.place()) {
                    return Some((rec, attr));
                }
            }
        }
        None
    }

    /// The bytes of a parameter.
    pub(crate) fn parameter(&self, rec: u64, attr: u64) -> &'a [u8] {
        let from = self.place_of(Spot::Parameter { rec, attr });
        let mut tokens = self.tokens.iter();
        let behind = tokens.find(|it| it.start > from && !it.spot.is_in(rec, attr));
        let to = behind.map_or(from, |it| it.start);
        self.bytes
            .get(from..to)
            .unwrap_or(b"".as_slice())
            .trim_ascii_end()
    }

    /// The place of this token in a parameter; of the instance where it is not there.
    pub(crate) fn place_in(&self, rec: u64, attr: u64, token: Token<'_>) -> usize {
        self.tokens
            .iter()
            .find(|it| it.spot.is_in(rec, attr) && it.token == token)
            .map_or(0, |it| it.start)
    }

    /// The integer that a parameter is.
    pub(crate) fn integer_at(&self, rec: u64, attr: u64) -> Option<&'a [u8]> {
        match self.token_at(Spot::Parameter { rec, attr })?.token {
            Token::Int(digits) => Some(digits),
            _ => None,
        }
    }

    /// The first integer in a parameter, up to a typed value.
    pub(crate) fn integer_in(&self, rec: u64, attr: u64) -> Option<&'a [u8]> {
        for placed in self.tokens.iter().filter(|it| it.spot.is_in(rec, attr)) {
            match placed.token {
                Token::Int(digits) => return Some(digits),
                Token::Keyword(_) | Token::UserKeyword(_) => return None,
                _ => {}
            }
        }
        None
    }

    /// The first instance name of a parameter that stood in it before, and its place. A parameter with a list in another is not looked
    /// through.
    pub(crate) fn repeated_in(
        &self,
        alloc: Global,
        rec: u64,
        attr: u64,
    ) -> Result<Option<(u64, usize)>, AllocError> {
        let mut names = BTreeSet::new(alloc);
        for placed in self.tokens.iter().filter(|it| it.spot.is_in(rec, attr)) {
            match placed.token {
                Token::Name(name) if !names.insert(name)? => {
                    return Ok(Some((name, placed.start)));
                }
                Token::LParen if placed.spot == (Spot::Inside { rec, attr }) => return Ok(None),
                _ => {}
            }
        }
        Ok(None)
    }
}

fn keyword_of(token: Token<'_>) -> Option<&[u8]> {
    match token {
        Token::Keyword(keyword) | Token::UserKeyword(keyword) => Some(keyword),
        _ => None,
    }
}

/// The tokens of an instance, from its name on.
#[derive(Clone, Copy)]
struct Spots<'a> {
    walk: Walk<'a>,
    /// How many parentheses are open among the parameters of a record: one, or two in a complex instance.
    level: usize,
    rec: u64,
    attr: u64,
    /// Whether a parameter begins next.
    begins: bool,
}

impl<'a> Spots<'a> {
    /// The tokens of the instance that these bytes are.
    fn new(bytes: &'a [u8]) -> Spots<'a> {
        Spots {
            walk: Walk::new(bytes, 0),
            level: 1,
            rec: 0,
            attr: 0,
            begins: false,
        }
    }

    /// The next token; none after the last.
    fn next(&mut self) -> Option<Placed<'a>> {
        let (open, last) = (self.walk.open(), self.walk.last());
        let lexed = self.walk.next();
        if matches!(lexed.token, Token::End | Token::Bad) {
            return None;
        }
        let spot = if open < self.level {
            self.outside(last, lexed.token)
        } else {
            self.in_record(open, lexed.token)
        };
        Some(Placed {
            token: lexed.token,
            start: lexed.start,
            spot,
        })
    }

    /// Where a token stands that is outside of a record's parentheses.
    fn outside(&mut self, last: Token<'_>, token: Token<'_>) -> Spot {
        match token {
            Token::LParen => {
                if matches!(last, Token::Equals) {
                    self.level = 2;
                } else {
                    self.attr = 0;
                    self.begins = true;
                }
                Spot::Between
            }
            Token::Keyword(_) | Token::UserKeyword(_) => Spot::Keyword { rec: self.rec },
            _ => Spot::Between,
        }
    }

    /// Where a token stands that is inside of them.
    fn in_record(&mut self, open: usize, token: Token<'_>) -> Spot {
        let (rec, attr) = (self.rec, self.attr);
        if open == self.level {
            match token {
                Token::RParen => {
                    self.rec = rec.saturating_add(1);
                    self.begins = false;
                    return Spot::Close { rec };
                }
                Token::Comma => {
                    self.attr = attr.saturating_add(1);
                    self.begins = true;
                    return Spot::Between;
                }
                _ => {}
            }
        }
        if self.begins {
            self.begins = false;
            Spot::Parameter { rec, attr }
        } else {
            Spot::Inside { rec, attr }
        }
    }
}
