//! Sequences of characters.

ghost use Rattle.std.specs.Prelude.{◌≡◌, ◌<◌, ◌≤◌, ◌^◌, ◌++◌, IfOk, length, slice_index};
ghost use Rattle.std.specs.Cmp.Lexicographic.{slice_cmp};
ghost use Rattle.std.specs.Ordering.{nat_cmp};
ghost use Rattle.p21_values.specs.Plain.{codes, part};

use std::alloc::{AllocError, Global};
use std::cmp::Ordering;
use std::rc::Rc;

/// A sequence of characters, each by its code.
#[derive(Drop)]
pub enum Characters<'a> {
    /// Each byte is the code of a character.
    Bytes(&'a [u8]),
    /// Codes that were put together.
    Codes(Rc<Vec<u32>>),
}

impl<'a> Characters<'a> {
    /// The same characters, which are shared. An error says that memory ran out.
    pub fn share(&self) -> Result<Characters<'a>, AllocError>
        ensures { IfOk result (λ c. codes c ≡ codes self.now) }
    {
        match self {
            Characters::Bytes(bytes) => Ok(Characters::Bytes(bytes)),
            Characters::Codes(made) => Ok(Characters::Codes(made.clone()?)),
        }
    }

    /// How many characters there are.
    pub fn len(&self) -> usize
        ensures value { result ≡ length (codes self.now) }
        ensures bound { result < 2 ^ 63 }
    {
        match self {
            Characters::Bytes(bytes) => bytes.len(),
            Characters::Codes(made) => made.len(),
        }
    }

    /// The code of the character at a place, from 0 on.
    pub fn code_at(&self, at: usize) -> u32
        requires { at < length (codes self.now) }
        ensures { result ≡ slice_index (codes self.now) at }
    {
        match self {
            Characters::Bytes(bytes) => u32::from(bytes[at]),
            Characters::Codes(made) => made[at],
        }
    }

    /// The order of two sequences: by the codes at the first place where they differ, and else the shorter is less.
    pub fn order(&self, other: &Characters) -> Ordering
        ensures { result ≡ slice_cmp nat_cmp (codes self.now) (codes other.now) }
    {
        match (self, other) {
            (Characters::Bytes(a), Characters::Bytes(b)) => a.cmp(b),
            _ => self.order_by_code(other),
        }
    }

    /// The same, code by code.
    fn order_by_code(&self, other: &Characters) -> Ordering
        ensures { result ≡ slice_cmp nat_cmp (codes self.now) (codes other.now) }
    {
        for at in 0..self.len().min(other.len()) {
            let order = self.code_at(at).cmp(&other.code_at(at));
            if order != Ordering::Equal {
                return order;
            }
        }
        self.len().cmp(&other.len())
    }

    /// The characters of both, one after the other. An error says that memory ran out.
    pub fn joined<'b>(
        &self,
        alloc: Global,
        other: &Characters,
    ) -> Result<Characters<'b>, AllocError>
        ensures { IfOk result (λ c. codes c ≡ codes self.now ++ codes other.now) }
    {
        let mut made = Vec::new(alloc);
        add_codes(&mut made, self, 0, self.len())?;
        add_codes(&mut made, other, 0, other.len())?;
        Ok(Characters::Codes(Rc::new(alloc, made)?))
    }

    /// The characters from one place up to, but not including, another. An error says that memory ran out.
    pub fn part<'b>(
        &self,
        alloc: Global,
        from: usize,
        to: usize,
    ) -> Result<Characters<'b>, AllocError>
        requires ordered { from ≤ to }
        requires within { to ≤ length (codes self.now) }
        ensures { IfOk result (λ c. codes c ≡ part (codes self.now) from to) }
    {
        let mut made = Vec::new(alloc);
        add_codes(&mut made, self, from, to)?;
        Ok(Characters::Codes(Rc::new(alloc, made)?))
    }
}

/// Adds the codes of a part of characters.
fn add_codes(
    made: &mut Vec<u32>,
    text: &Characters,
    from: usize,
    to: usize,
) -> Result<(), AllocError>
    requires ordered { from ≤ to }
    requires within { to ≤ length (codes text.now) }
    ensures { IfOk result (λ _. made.new.items ≡ made.old.items ++ part (codes text.now) from to) }
{
    for at in from..to {
        made.push(text.code_at(at))?;
    }
    Ok(())
}
