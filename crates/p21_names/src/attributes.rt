//! Attributes that are derived, and attributes by which instances refer.

/// How an attribute of an entity is derived.
#[derive(Clone, Copy, Debug, PartialEq, Eq)]
pub struct Derivation {
    /// The place of the entity in whose DERIVE it stands.
    pub entity: u32,
    /// The entity after SELF, where the attribute is declared again.
    pub redeclared_of: Option<u32>,
    /// The number of its name.
    pub attribute: u32,
    /// The place of its function among the functions: of SELF.
    pub function: usize,
}

/// An attribute that refers to something.
#[derive(Clone, Copy, Debug, PartialEq, Eq)]
pub struct Role {
    /// The place of its entity.
    pub entity: u32,
    /// The number of its name.
    pub attribute: u32,
}

/// What an inverse attribute has of the instances that refer.
#[derive(Clone, Copy, Debug, PartialEq, Eq)]
pub enum InverseForm {
    /// The only one.
    One,
    /// Each as often as it refers.
    Bag,
    /// Each once.
    Set,
}

/// An attribute of INVERSE.
#[derive(Clone, Copy, Debug, PartialEq, Eq)]
pub struct Inverse {
    /// The place of the entity that declares it.
    pub entity: u32,
    /// The entity after SELF, where the attribute is declared again.
    pub redeclared_of: Option<u32>,
    /// The number of its name.
    pub attribute: u32,
    pub form: InverseForm,
    /// The attribute by which others refer.
    pub role: Role,
}

/// The attribute of a number, where there are so many names. `None` for 0, which stands for all attributes.
pub fn role_of(names: usize, number: u32) -> Option<Role> {
    let count = u32::try_from(names).ok()?;
    let place = number.checked_sub(1)?;
    Some(Role {
        entity: place.checked_div(count)?,
        attribute: place.checked_rem(count)?,
    })
}

/// The number of an attribute, where there are so many names.
pub fn number_of(names: usize, role: Role) -> Option<u32> {
    let count = u32::try_from(names).ok()?;
    let before = role.entity.checked_mul(count)?;
    before.checked_add(role.attribute)?.checked_add(1)
}
