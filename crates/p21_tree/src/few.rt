//! Lists that need no allocation while they are short.

ghost use Rattle.std.specs.Prelude.{◌≡◌, ◌∷◌, [], length, IfOk};
ghost use Rattle.p21_tree.specs.Few.{elements_in};

use std::alloc::{AllocError, Global};
use std::marker::Model;

/// A list that is short. A lone element can lie in the value itself, with no memory of its own.
#[derive(Debug, Drop)]
pub struct Few<T> {
    held: Held<T>,
}

/// Where the elements lie.
#[derive(Debug, Drop)]
enum Held<T> {
    /// A lone one, here.
    Lone([T; 1]),
    /// Any number of them, in a vector.
    Listed(Vec<T>),
}

impl<T> Model for Few<T> {
    ghost use Rattle.std.specs.Prelude.{List};
    ghost use Rattle.std.specs.Coded.{coded_list};
    ghost use Rattle.p21_tree.specs.Few.{elements_in};

    ghost Value = { List T };

    ghost coded = { coded_list T.code };

    ghost view = { λ f. elements_in f.held };
}

impl<T> Few<T> {
    /// One element. It takes no memory.
    pub fn lone(only: T) -> Self
        ensures { result ≡ only ∷ [] }
    {
        Few {
            held: Held::Lone([only]),
        }
    }

    /// Those of a vector. It takes no memory.
    pub fn from_vec(elements: Vec<T>) -> Self
        ensures { result ≡ elements.items }
    {
        Few {
            held: Held::Listed(elements),
        }
    }

    /// All of them.
    pub fn as_slice(&self) -> &[T]
        ensures { result.now ≡ self.now }
    {
        match &self.held {
            Held::Lone(one) => one.as_slice(),
            Held::Listed(elements) => elements.as_slice(),
        }
    }

    /// How many they are.
    pub fn len(&self) -> usize
        ensures { result ≡ length self.now }
    {
        self.as_slice().len()
    }

    /// All of them in a vector. It takes memory where a lone one lies in the value itself, and only there.
    pub fn into_vec(self, alloc: Global) -> Result<Vec<T>, AllocError>
    where
        T: Drop,
        ensures { IfOk result (λ r. r.items ≡ self) }
    {
        listed(alloc, self.held)
    }
}

/// The elements in a vector.
fn listed<T: Drop>(alloc: Global, held: Held<T>) -> Result<Vec<T>, AllocError>
    ensures { IfOk result (λ r. r.items ≡ elements_in held) }
{
    match held {
        Held::Lone([element]) => {
            let mut elements = Vec::with_capacity(alloc, 1)?;
            elements.push(element)?;
            Ok(elements)
        }
        Held::Listed(elements) => Ok(elements),
    }
}
