//! The terms of a schema, as JSON writes them.

ghost use Rattle.std.specs.Prelude.{◌≡◌, ◌↔◌, IfOk, IsTrue, OnOk, List, ℕ, map, string_bytes};
ghost use Rattle.p21_spelling.specs.Spelled.{AreSpelled};
ghost use Rattle.p21_json.specs.Spelled.{text_of};

use crate::attributes::attribute;
use crate::characters::write_bytes;
use crate::keys::{DeclaredName, all_declared, all_flags, is_taken};
use crate::logical::logical_types;
use p21_schema::{AttrId, EntityId, ResolvedExpr, Schema, Target};
use p21_spelling::Spellings;
use std::alloc::{AllocError, Global};
use std::marker::Model;

/// The names of a schema as texts, in the spelling of its text, and which of its types are of BOOLEAN or LOGICAL.
#[derive(Drop)]
pub struct Terms<'s> {
    schema: &'s Schema,
    entities: Vec<String>,
    attributes: Vec<String>,
    types: Vec<String>,
    logical: Vec<bool>,
    /// Which entity declares each attribute, and its name in upper case.
    declared: Vec<DeclaredName<'s>>,
    /// For each entity whether attributes of its row have the name of one before them.
    taken: Vec<Vec<bool>>,
}

impl<'s> Model for Terms<'s> {
    ghost use Rattle.p21_express.specs.Schema.{Schema as Declared};
    ghost use Rattle.p21_schema.specs.Code.{schema_code};
    ghost use Rattle.p21_json.specs.Terms.{AreTerms};

    ghost Value = { Declared };

    ghost coded = { schema_code };

    ghost view = { λ a. a.schema.now };

    ghost invariant = { AreTerms };
}

impl<'s> Terms<'s> {
    ghost use Rattle.p21_express.specs.Schema.{Expr, named};
    ghost use Rattle.p21_schema.specs.Place.{entity_name, IsEntityOf};
    ghost use Rattle.std.specs.Prelude.{◌<◌, Some, length, slice_get, take};
    ghost use Rattle.p21_express.specs.WellFormed.{Origin};
    ghost use Rattle.p21_schema.specs.Row.{attribute_at, IsAttributeOf, IsRow};
    ghost use Rattle.p21_json.specs.Keys.{AreFlags, full_name, has_name, key_of};
    ghost use Rattle.p21_json.specs.Rows.{AreAttributesOf};
    ghost use Rattle.p21_json.specs.Terms.{IsExpr, IsTarget};
    ghost use Rattle.p21_json.specs.Spelled.{IsSpelled};
    ghost use Rattle.p21_json.specs.Logical.{TakesLogical};

    /// The terms of a schema, by how its text spells them. Memory alone can fail.
    pub fn new(
        alloc: Global,
        schema: &'s Schema,
        spelled: &Spellings,
    ) -> Result<Terms<'s>, AllocError>
        requires { AreSpelled schema.now spelled.now }
        ensures { IfOk result (λ terms. terms ≡ schema.now) }
    {
        let entities = texts(alloc, &spelled.entities)?;
        let attributes = texts(alloc, &spelled.attributes)?;
        let types = texts(alloc, &spelled.types)?;
        let logical = logical_types(alloc, schema)?;
        let declared = all_declared(alloc, schema)?;
        let taken = all_flags(alloc, schema, &declared)?;
        Ok(Terms {
            schema,
            entities,
            attributes,
            types,
            logical,
            declared,
            taken,
        })
    }

    /// The schema.
    pub fn schema(&self) -> &'s Schema
        ensures { result.now ≡ self.now }
    {
        self.schema
    }

    /// The name of an entity.
    pub fn entity(&self, entity: EntityId) -> &str
        requires { IsEntityOf self.now entity }
        // But for the case of letters.
        ensures { IsSpelled result.now (entity_name self.now entity) }
    {
        self.entities[entity.place()].as_str()
    }

    /// The name of an attribute.
    pub fn attribute(&self, attribute: AttrId) -> &str
        requires { IsAttributeOf self.now attribute }
        // But for the case of letters.
        ensures { IsSpelled result.now (attribute_at self.now attribute).name }
    {
        self.attributes[attribute.place()].as_str()
    }

    /// Whether an attribute of a record of an entity has the name of one before it: then its key is its full name.
    pub fn is_repeated(&self, complex: bool, entity: EntityId, position: usize) -> bool
        requires entity { IsEntityOf self.now entity }
        requires position { (os : List Origin) × (AreAttributesOf self.now complex entity os × (position < length os)) }
        ensures { (os : List Origin) → (o : Origin) → AreAttributesOf self.now complex entity os → slice_get os position ≡ Some o → result ≡ has_name (take position os) o.name }
    {
        if complex {
            self.schema.fits();
            return false;
        }
        self.is_taken(entity, position)
    }

    /// The same of an attribute of the row of an entity.
    fn is_taken(&self, entity: EntityId, position: usize) -> bool
        requires entity { IsEntityOf self.now entity }
        requires position { (os : List Origin) × (IsRow self.now (entity_name self.now entity) os × (position < length os)) }
        ensures { (os : List Origin) → (o : Origin) → IsRow self.now (entity_name self.now entity) os → slice_get os position ≡ Some o → result ≡ has_name (take position os) o.name }
    {
        match self.flags(entity).get(position) {
            Some(flag) => *flag,
            None => is_taken(self.schema, &self.declared, entity, position),
        }
    }

    /// What is kept of that for the row of an entity.
    fn flags(&self, entity: EntityId) -> &[bool]
        ensures { AreFlags self.now entity result.now }
    {
        match self.taken.get(entity.place()) {
            Some(flags) => flags.as_slice(),
            None => &[],
        }
    }

    /// The entity that declares an attribute.
    pub fn declaring(&self, attribute: AttrId) -> EntityId
        requires { IsAttributeOf self.now attribute }
        // It is an entity of the schema.
        ensures known { IsEntityOf self.now result }
        // The entity that newly declares the attribute.
        ensures declares { entity_name self.now result ≡ (attribute_at self.now attribute).entity }
    {
        self.declared[attribute.place()].entity
    }

    /// Makes a text of the full name of an attribute: `Entity.attribute`, by the entity that declares it.
    pub fn write_full_name(&self, text: &mut String, attribute: AttrId) -> Result<(), AllocError>
        requires { IsAttributeOf self.now attribute }
        ensures { OnOk result (IsSpelled (string_bytes text.new) (full_name (attribute_at self.now attribute))) }
    {
        text.clear();
        text.push_str(self.entity(self.declaring(attribute)))?;
        text.push('.')?;
        text.push_str(self.attribute(attribute))
    }

    /// Makes a text of the key of an attribute of a record of an entity: its name, or its full name where one before it has this name.
    pub fn write_key(
        &self,
        text: &mut String,
        complex: bool,
        entity: EntityId,
        position: usize,
    ) -> Result<(), AllocError>
        requires entity { IsEntityOf self.now entity }
        requires position { (os : List Origin) × (AreAttributesOf self.now complex entity os × (position < length os)) }
        ensures { (os : List Origin) → (o : Origin) → AreAttributesOf self.now complex entity os → slice_get os position ≡ Some o → OnOk result (IsSpelled (string_bytes text.new) (key_of (take position os) o)) }
    {
        let attribute = attribute(self.schema, complex, entity, position);
        if self.is_repeated(complex, entity, position) {
            return self.write_full_name(text, attribute);
        }
        text.clear();
        text.push_str(self.attribute(attribute))
    }

    /// Makes a text of the name of a type; of a keyword that is no type as it is.
    pub fn write_type(&self, text: &mut String, name: &[u8]) -> Result<(), AllocError>
        // But for the case of letters.
        ensures { OnOk result (IsSpelled (string_bytes text.new) name.now) }
    {
        match self.schema.type_named(name) {
            Some(id) => {
                text.clear();
                text.push_str(self.types[id.place()].as_str())
            }
            None => write_bytes(text, name),
        }
    }

    /// Whether this is a type of BOOLEAN or LOGICAL, or of aggregates of such.
    pub fn is_logical(&self, name: &[u8]) -> bool
        ensures { IsTrue result ↔ TakesLogical self.now (named name.now) }
    {
        match self.schema.type_named(name) {
            Some(id) => self.logical[id.place()],
            None => false,
        }
    }

    /// Whether a type is BOOLEAN or LOGICAL, stands for such, or is an aggregate of such.
    pub(crate) fn takes_logical(&self, texpr: &ResolvedExpr) -> bool
        requires { (e : Expr) × IsExpr self.now texpr.now e }
        ensures { (e : Expr) → IsExpr self.now texpr.now e → (IsTrue result ↔ TakesLogical self.now e) }
    {
        match texpr {
            ResolvedExpr::Boolean => true,
            ResolvedExpr::Logical => true,
            ResolvedExpr::Array { item, .. } => self.takes_logical(item),
            ResolvedExpr::List { item, .. } => self.takes_logical(item),
            ResolvedExpr::Set { item, .. } => self.takes_logical(item),
            ResolvedExpr::Bag { item, .. } => self.takes_logical(item),
            ResolvedExpr::Named(target) => self.is_logical_target(*target),
            ResolvedExpr::Integer => false,
            ResolvedExpr::Number => false,
            ResolvedExpr::Real => false,
            ResolvedExpr::Text(_) => false,
            ResolvedExpr::Binary(_) => false,
        }
    }

    /// Whether what a name stands for is such a type.
    fn is_logical_target(&self, target: Target) -> bool
        requires { (n : List ℕ) × IsTarget self.now target n }
        ensures { (n : List ℕ) → IsTarget self.now target n → (IsTrue result ↔ TakesLogical self.now (named n)) }
    {
        self.schema.fits();
        match target {
            Target::Entity(_) => false,
            Target::Defined(id) => self.logical[id.place()],
        }
    }
}

/// Texts of names.
fn texts(alloc: Global, names: &[Vec<u8>]) -> Result<Vec<String>, AllocError>
    ensures { IfOk result (λ made. map string_bytes made.items ≡ map (λ v. text_of v.items) names.now) }
{
    let mut texts = Vec::with_capacity(alloc, names.len())?;
    for name in names {
        let mut text = String::new(alloc);
        write_bytes(&mut text, name)?;
        texts.push(text)?;
    }
    Ok(texts)
}
