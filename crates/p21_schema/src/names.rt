//! Names to their places.

ghost use Rattle.std.specs.Prelude.{◌≡◌, ◌<◌, ◌++◌, ◌∷◌, [], length, map, get_or, OnOk, IfOk, MatchOption};
ghost use Rattle.p21_express.specs.Plain.{plain_entity, plain_type};
ghost use Rattle.p21_express.specs.WellFormed.{IsIn, AreDistinct};

use indexmap::IndexSet;
use p21_express::{EntityDecl, TypeDecl};
use p21_hash::{HashKey, KeywordHashing};
use std::alloc::{AllocError, Global};
use std::marker::Model;

/// Names that differ from each other, in order.
pub(crate) struct Names {
    /// By which they are hashed.
    key: HashKey,
    set: IndexSet<Vec<u8>, KeywordHashing>,
}

impl Drop for Names {
    fn drop(self) {
        let Self { key: _, set: _ } = self;
    }
}

impl Model for Names {
    ghost use Rattle.std.specs.Prelude.{ℕ, List, map};

    ghost Value = { List (List ℕ) };

    ghost view = { λ a. map (λ n. n.items) a.set.keys };
}

impl Names {
    pub(crate) fn new(alloc: Global, key: HashKey) -> Names
        ensures { result ≡ [] }
    {
        Names {
            key,
            set: IndexSet::with_hasher(alloc, key.keywords()),
        }
    }

    pub(crate) fn key(&self) -> HashKey {
        self.key
    }

    /// A further name after the others.
    pub(crate) fn push(&mut self, alloc: Global, name: &[u8]) -> Result<(), AllocError>
        requires { ¬ (IsIn self.old name.now) }
        ensures { OnOk result (self.new ≡ self.old ++ name.now ∷ []) }
    {
        self.set.insert(Vec::from_slice(alloc, name)?)?;
        Ok(())
    }

    /// The place of a name, by one hash of it.
    pub(crate) fn place(&self, name: &[u8]) -> Option<usize>
        ensures { MatchOption result (¬ (IsIn self.now name.now)) (λ i. (i < length self.now) × (get_or self.now i [] ≡ name.now)) }
    {
        self.set.get_index_of(name)
    }

    /// The place of a name that is there.
    pub(crate) fn known(&self, name: &[u8]) -> usize
        requires { IsIn self.now name.now }
        ensures { (result < length self.now) × (get_or self.now result [] ≡ name.now) }
    {
        self.place(name).unwrap()
    }
}

/// The names of all entities.
pub(crate) fn entity_names(
    alloc: Global,
    key: HashKey,
    entities: &[EntityDecl],
) -> Result<Names, AllocError>
    requires { AreDistinct (map (λ e. e.name) (map plain_entity entities.now)) }
    ensures { IfOk result (λ names. names ≡ map (λ e. e.name) (map plain_entity entities.now)) }
{
    let mut names = Names::new(alloc, key);
    for entity in entities {
        names.push(alloc, &entity.name)?;
    }
    Ok(names)
}

/// The names of all types.
pub(crate) fn type_names(
    alloc: Global,
    key: HashKey,
    types: &[TypeDecl],
) -> Result<Names, AllocError>
    requires { AreDistinct (map (λ t. t.name) (map plain_type types.now)) }
    ensures { IfOk result (λ names. names ≡ map (λ t. t.name) (map plain_type types.now)) }
{
    let mut names = Names::new(alloc, key);
    for decl in types {
        names.push(alloc, &decl.name)?;
    }
    Ok(names)
}
