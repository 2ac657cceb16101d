//! Kinds of aggregates, and items of enumerations.

ghost use Rattle.std.specs.Prelude.{◌≡◌};
ghost use Rattle.p21_values.specs.Same.{comparison_of, comparison_of_entities, same_item};

/// The kind of an aggregate.
#[derive(Clone, Copy, PartialEq, Eq, Debug, Drop)]
pub enum Kind {
    /// An array, and the index of its first element.
    Array(i64),
    Bag,
    List,
    Set,
    /// What an aggregate initializer gives, which is of the kind that it is used as.
    Initializer,
}

/// Where an item stands: in which enumeration, and at which place among its items.
#[derive(Clone, Copy, PartialEq, Eq, Debug, Drop)]
pub struct ItemPlace {
    pub enumeration: u32,
    pub item: u32,
}

/// An item of an enumeration: the number of its name, and its place where the enumeration is known.
#[derive(Clone, Copy, PartialEq, Eq, Debug, Drop)]
pub struct Item {
    pub name: u32,
    pub place: Option<ItemPlace>,
}

impl Item {
    /// Whether two items are the same: by name, of one enumeration where both are known.
    pub fn is_same(self, other: Item) -> bool
        ensures { result ≡ same_item self other }
    {
        if self.name != other.name {
            return false;
        }
        match (self.place, other.place) {
            (Some(a), Some(b)) => a.enumeration == b.enumeration,
            _ => true,
        }
    }
}

/// How two aggregates are compared, or the attributes of two made instances.
#[derive(Clone, Copy, PartialEq, Eq, Debug, Drop)]
pub(crate) enum Comparison {
    /// By how often they have each value.
    Counted,
    /// Value by value.
    InOrder,
    /// They are never the same.
    Never,
}

impl Comparison {
    /// How two made instances are compared, by the places of their entities.
    pub(crate) fn of_entities(first: u32, second: u32) -> Comparison
        ensures { result ≡ comparison_of_entities first second }
    {
        if first == second {
            Comparison::InOrder
        } else {
            Comparison::Never
        }
    }
}

impl Kind {
    /// How an aggregate of this kind is compared with one of another kind.
    pub(crate) fn comparison(self, other: Kind) -> Comparison
        ensures { result ≡ comparison_of self other }
    {
        match (self, other) {
            (Kind::Bag | Kind::Set, Kind::Array(_) | Kind::List) => Comparison::Never,
            (Kind::Array(_) | Kind::List, Kind::Bag | Kind::Set) => Comparison::Never,
            (Kind::Bag | Kind::Set, _) | (_, Kind::Bag | Kind::Set) => Comparison::Counted,
            (Kind::Array(a), Kind::Array(b)) if a != b => Comparison::Never,
            _ => Comparison::InOrder,
        }
    }
}
