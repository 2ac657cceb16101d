//! A schema as a table.

ghost use Rattle.std.specs.Prelude.{◌≡◌, ◌<◌, ◌≤◌, ◌↔◌, List, Some, length, slice_get, IfOk, IsTrue, MatchOption};

use crate::ancestry::{supertype_ids, supertypes};
use crate::declarations::{Declaration, Known, all_declarations};
use crate::ids::{AttrId, EntityId, TypeId};
use crate::names::{Names, entity_names, type_names};
use crate::resolved::Resolved;
use crate::rows::{Own, Rows, own_attributes};
use crate::rules::Rules;
use crate::selects::{Selects, select_tables};
use crate::under::{is_among, resolved, type_ends};
use p21_express::Declarations;
use p21_graph::{Bits, order, reached_with_itself};
use p21_hash::HashKey;
use std::alloc::{AllocError, Global};
use std::marker::Model;

/// A schema whose declarations fit together, as a table, and the rules under which it is checked.
pub struct Schema {
    declarations: Declarations,
    rules: Rules,
    entity_names: Names,
    type_names: Names,
    supertypes: Vec<Vec<EntityId>>,
    /// For each entity which is it or an ancestor of it.
    ancestry: Bits,
    /// Where the attributes that each entity newly declares stand among those of all entities.
    own: Vec<Own>,
    rows: Rows,
    /// For each attribute its declarations.
    attributes: Vec<Vec<Declaration>>,
    /// The place of the type at which the way from each type ends, by the names that alone stand under types.
    ends: Vec<usize>,
    unders: Vec<Resolved>,
    selects: Selects,
}

impl Model for Schema {
    ghost use Rattle.p21_express.specs.Schema.{Schema as Declared};
    ghost use Rattle.p21_express.specs.Plain.{plain_schema};
    ghost use Rattle.p21_schema.specs.Code.{schema_code};
    ghost use Rattle.p21_schema.specs.Rules.{with_rules};
    ghost use Rattle.p21_schema.specs.Tables.{AreTables};

    ghost Value = { Declared };

    ghost coded = { schema_code };

    ghost view = { λ a. with_rules (plain_schema a.declarations) a.rules };

    ghost invariant = { AreTables };
}

/// As a derive would; written out, it is one call wherever a schema is let go, which a derive takes apart in each such place.
impl Drop for Schema {
    fn drop(self) {
        let Self {
            declarations: _,
            rules: _,
            entity_names: _,
            type_names: _,
            supertypes: _,
            ancestry: _,
            own: _,
            rows: _,
            attributes: _,
            ends: _,
            unders: _,
            selects: _,
        } = self;
    }
}

impl Schema {
    ghost use Rattle.p21_express.specs.Plain.{plain_schema};
    ghost use Rattle.p21_express.specs.WellFormed.{IsEntity, IsType, IsWellFormed, Origin};
    ghost use Rattle.p21_schema.specs.declared.ids.EntityId.{EntityId};
    ghost use Rattle.p21_schema.specs.declared.ids.AttrId.{AttrId};
    ghost use Rattle.p21_schema.specs.declared.ids.TypeId.{TypeId};
    ghost use Rattle.p21_schema.specs.Place.{entity_at, entity_name, IsEntityOf, type_name, IsTypeOf};
    ghost use Rattle.p21_schema.specs.Under.{StandsUnder, IsResolvedIn};
    ghost use Rattle.p21_schema.specs.Items.{HasItem};
    ghost use Rattle.p21_express.specs.Schema.{Underlying};
    ghost use Rattle.p21_schema.specs.Ancestry.{NameEntities, IsA};
    ghost use Rattle.p21_schema.specs.Row.{IsRow, IsAttributeOf, attribute_at, own_attributes};
    ghost use Rattle.p21_schema.specs.Declaration.{Declaration as Declared, AreDeclarations, AreResolvedIn};
    ghost use Rattle.p21_schema.specs.Rules.{with_rules};
    ghost use Rattle.p21_schema.specs.Select.{SelectReaches, ReachesA, ReachesType, ReachesEntity};

    /// The table of declarations that fit together, under these rules. It is refused for lack of memory alone. Names are hashed by a
    /// key that is always the same: whoever knows it can choose names that take long.
    ///
    /// Cost: O(w) for each supertype and each item of a SELECT that is named, where w = n / 64 for n declarations; n
    /// * n / 8 bytes for entities, and for types with what they reach, requested at once. An entity with one
    /// supertype takes its own attributes; one with several, the attributes of their rows in time, and 8 bytes for
    /// each attribute that the row of the first supertype has not. A row of at most 32 attributes is kept whole. A
    /// redeclaration takes one bit an entity, and a look at the names of the entities above.
    pub fn build(
        alloc: Global,
        declarations: Declarations,
        rules: Rules,
    ) -> Result<Schema, AllocError>
        requires { IsWellFormed (plain_schema declarations) }
        // The schema is the declarations, under the rules. That it is refused for out of memory alone is known by
        // review.
        ensures { IfOk result (λ schema. schema ≡ with_rules (plain_schema declarations) rules) }
    {
        Schema::build_with_key(alloc, declarations, rules, HashKey::default())
    }

    /// The same, where names are hashed by this key: those of the schema, and those of a file that is read against it.
    pub fn build_with_key(
        alloc: Global,
        declarations: Declarations,
        rules: Rules,
        key: HashKey,
    ) -> Result<Schema, AllocError>
        requires { IsWellFormed (plain_schema declarations) }
        ensures { IfOk result (λ schema. schema ≡ with_rules (plain_schema declarations) rules) }
    {
        let entity_names = entity_names(alloc, key, &declarations.entities)?;
        let graph = supertypes(alloc, &entity_names, &declarations.entities)?;
        let order = order(alloc, &graph)?;
        let ancestry = reached_with_itself(alloc, &graph, &order)?;
        let (own, lists) = own_attributes(alloc, &declarations)?;
        let rows = Rows::new(alloc, &graph, lists.len(), &own, &order)?;
        let supertypes = supertype_ids(alloc, &graph)?;
        let type_names = type_names(alloc, key, &declarations.types)?;
        let ends = type_ends(alloc, &type_names, &declarations.types)?;
        let unders = resolved(alloc, &entity_names, &type_names, &declarations.types)?;
        let known = Known {
            declarations: &declarations,
            rules,
            entities: &entity_names,
            types: &type_names,
            ancestry: &ancestry,
            own: &own,
        };
        let attributes = all_declarations(alloc, &known, lists)?;
        let selects = select_tables(alloc, &unders, declarations.entities.len())?;
        Ok(Schema {
            declarations,
            rules,
            entity_names,
            type_names,
            supertypes,
            ancestry,
            own,
            rows,
            attributes,
            ends,
            unders,
            selects,
        })
    }

    /// The declarations fit together.
    pub fn fits(&self)
        ensures { IsWellFormed self.now }
    {
        let _ = &self.declarations;
    }

    /// Ids are equal where they name the same.
    pub fn one_id(&self)
        ensures entities { (a b : EntityId) → IsEntityOf self.now a → IsEntityOf self.now b → entity_name self.now a ≡ entity_name self.now b → a ≡ b }
        ensures attributes { (a b : AttrId) → IsAttributeOf self.now a → IsAttributeOf self.now b → attribute_at self.now a ≡ attribute_at self.now b → a ≡ b }
        ensures types { (a b : TypeId) → IsTypeOf self.now a → IsTypeOf self.now b → type_name self.now a ≡ type_name self.now b → a ≡ b }
    {
        let _ = &self.declarations;
    }

    /// The declarations that this is the table of.
    pub fn declared(&self) -> &Declarations
        ensures { (rules : Rules) × (self.now ≡ with_rules (plain_schema result.now) rules) }
    {
        &self.declarations
    }

    /// The name after SCHEMA.
    pub fn name(&self) -> &[u8]
        ensures { result.now ≡ self.now.name }
    {
        &self.declarations.name
    }

    /// Whether a SET or a LIST OF UNIQUE may name no instance twice, by the rules of `build`.
    pub fn distinct(&self) -> bool
        ensures { result ≡ self.now.distinct }
    {
        self.rules.distinct
    }

    /// The key by which names are hashed. Nothing else hangs on it.
    ///
    /// That this is the key is known by review. No contract depends on it.
    pub fn hash_key(&self) -> HashKey {
        self.entity_names.key()
    }

    /// The entity of this name, or `None` where there is none.
    pub fn entity(&self, name: &[u8]) -> Option<EntityId>
        ensures { MatchOption result (¬ (IsEntity self.now name.now)) (λ e. IsEntityOf self.now e × (entity_name self.now e ≡ name.now)) }
    {
        self.entity_names
            .place(name)
            .map(|index| EntityId { index })
    }

    /// The name of an entity.
    pub fn name_of(&self, entity: EntityId) -> &[u8]
        requires { IsEntityOf self.now entity }
        ensures { result.now ≡ entity_name self.now entity }
    {
        &self.declarations.entities[entity.index].name
    }

    /// The entity at this place among those of the schema, in the order of the text, or `None` where there are not so many.
    pub fn entity_at(&self, place: usize) -> Option<EntityId>
        ensures { MatchOption result (length self.now.entities ≤ place) (λ e. IsEntityOf self.now e × (e.index ≡ place)) }
    {
        if place < self.declarations.entities.len() {
            Some(EntityId { index: place })
        } else {
            None
        }
    }

    /// The type of this name, or `None` where there is none.
    pub fn type_named(&self, name: &[u8]) -> Option<TypeId>
        ensures { MatchOption result (¬ (IsType self.now name.now)) (λ t. IsTypeOf self.now t × (type_name self.now t ≡ name.now)) }
    {
        self.type_names.place(name).map(|index| TypeId { index })
    }

    /// The type at this place among those of the schema, in the order of the text, or `None` where there are not so many.
    pub fn type_at(&self, place: usize) -> Option<TypeId>
        ensures { MatchOption result (length self.now.types ≤ place) (λ t. IsTypeOf self.now t × (t.index ≡ place)) }
    {
        if place < self.declarations.types.len() {
            Some(TypeId { index: place })
        } else {
            None
        }
    }

    /// Whether ABSTRACT SUPERTYPE stands after the entity's name.
    pub fn is_abstract(&self, entity: EntityId) -> bool
        requires { IsEntityOf self.now entity }
        ensures { result ≡ (entity_at self.now entity).is_abstract }
    {
        self.declarations.entities[entity.index].is_abstract
    }

    /// The supertypes of an entity, in the order of SUBTYPE OF.
    pub fn supertypes(&self, entity: EntityId) -> &[EntityId]
        requires { IsEntityOf self.now entity }
        ensures { NameEntities self.now result.now (entity_at self.now entity).supertypes }
    {
        &self.supertypes[entity.index]
    }

    /// Whether the first entity is the second, or has it as an ancestor.
    ///
    /// Cost: One bit is read.
    pub fn is_a(&self, entity: EntityId, other: EntityId) -> bool
        requires entity { IsEntityOf self.now entity }
        requires other { IsEntityOf self.now other }
        ensures { IsTrue result ↔ IsA self.now entity other }
    {
        self.ancestry.has(entity.index, other.index)
    }

    /// The number of attributes in the entity's row.
    pub fn row_count(&self, entity: EntityId) -> usize
        requires { IsEntityOf self.now entity }
        ensures { (row : List Origin) × (IsRow self.now (entity_name self.now entity) row × (length row ≡ result)) }
    {
        self.rows.count(entity.index)
    }

    /// An attribute of the entity's row: those of its supertypes' rows in order, then its own, each at its first place.
    ///
    /// Cost: O(1) for a row of at most 32 attributes; otherwise the first supertypes, up to the one that brings the
    /// attribute.
    pub fn row(&self, entity: EntityId, position: usize) -> AttrId
        requires entity { IsEntityOf self.now entity }
        requires position { (row : List Origin) × (IsRow self.now (entity_name self.now entity) row × (position < length row)) }
        // It is an attribute of the schema.
        ensures known { IsAttributeOf self.now result }
        // The attribute at this place of each row of the entity.
        ensures row { (row : List Origin) → IsRow self.now (entity_name self.now entity) row → slice_get row position ≡ Some (attribute_at self.now result) }
    {
        self.rows.attribute(entity.index, position)
    }

    /// The number of explicit attributes that the entity newly declares.
    pub fn own_count(&self, entity: EntityId) -> usize
        requires { IsEntityOf self.now entity }
        ensures { result ≡ length (own_attributes (entity_at self.now entity)) }
    {
        let own = self.own[entity.index];
        own.to - own.from
    }

    /// An explicit attribute that the entity newly declares, in the order of the text.
    pub fn own(&self, entity: EntityId, position: usize) -> AttrId
        requires entity { IsEntityOf self.now entity }
        requires position { position < length (own_attributes (entity_at self.now entity)) }
        // It is an attribute of the schema.
        ensures known { IsAttributeOf self.now result }
        // The attribute at this place.
        ensures own { slice_get (own_attributes (entity_at self.now entity)) position ≡ Some (attribute_at self.now result) }
    {
        let own = self.own[entity.index];
        AttrId {
            index: own.from + position,
        }
    }

    /// What stands under a type. A type's name that stands there alone is followed to what stands under that type.
    pub fn under(&self, id: TypeId) -> &Resolved
        requires { IsTypeOf self.now id }
        ensures { (under : Underlying) × (StandsUnder self.now (type_name self.now id) under × IsResolvedIn self.now result.now under) }
    {
        &self.unders[self.ends[id.index]]
    }

    /// Whether an ENUMERATION stands under the type, and the name is one of its items.
    ///
    /// Cost: The items of the ENUMERATION.
    pub fn has_item(&self, id: TypeId, name: &[u8]) -> bool
        requires { IsTypeOf self.now id }
        ensures { IsTrue result ↔ HasItem self.now (type_name self.now id) name.now }
    {
        self.fits();
        let Resolved::Items(items) = self.under(id) else {
            return false;
        };
        is_among(items, name)
    }

    /// All declarations of an attribute, in the order of the text: the one that newly declares it, and each that declares it
    /// again, explicit or in DERIVE.
    pub fn declarations(&self, attribute: AttrId) -> &[Declaration]
        requires { IsAttributeOf self.now attribute }
        ensures { (ds : List Declared) × (AreDeclarations self.now (attribute_at self.now attribute) ds × AreResolvedIn self.now result.now ds) }
    {
        &self.attributes[attribute.index]
    }

    /// The defined or enumeration type of this name that the SELECT reaches, or `None` where it reaches none. A SELECT
    /// reaches its items, and what the SELECTs among them reach; a type that is no SELECT reaches nothing.
    ///
    /// Cost: One bit is read.
    pub fn select_has(&self, select: TypeId, name: &[u8]) -> Option<TypeId>
        requires { IsTypeOf self.now select }
        ensures { MatchOption result (¬ (ReachesType self.now (type_name self.now select) name.now)) (λ t. IsTypeOf self.now t × ((type_name self.now t ≡ name.now) × ReachesType self.now (type_name self.now select) name.now)) }
    {
        let index = self.type_names.place(name)?;
        if self.selects.types.has(select.index, index) {
            Some(TypeId { index })
        } else {
            None
        }
    }

    /// Whether the SELECT reaches this very entity.
    ///
    /// Cost: One bit is read.
    pub fn select_reaches(&self, select: TypeId, entity: EntityId) -> bool
        requires select { IsTypeOf self.now select }
        requires entity { IsEntityOf self.now entity }
        ensures { IsTrue result ↔ SelectReaches self.now (type_name self.now select) (entity_name self.now entity) }
    {
        self.selects.entities.has(select.index, entity.index)
    }

    /// Whether the SELECT reaches the entity or an ancestor of it.
    ///
    /// Cost: O(n / 64) for n entities.
    pub fn select_admits(&self, select: TypeId, entity: EntityId) -> bool
        requires select { IsTypeOf self.now select }
        requires entity { IsEntityOf self.now entity }
        ensures { IsTrue result ↔ ReachesA self.now (type_name self.now select) (entity_name self.now entity) }
    {
        self.selects
            .entities
            .meets(select.index, &self.ancestry, entity.index)
    }

    /// Whether the SELECT reaches an entity.
    ///
    /// Cost: O(n / 64) for n entities.
    pub fn select_has_entity(&self, select: TypeId) -> bool
        requires { IsTypeOf self.now select }
        ensures { IsTrue result ↔ ReachesEntity self.now (type_name self.now select) }
    {
        self.selects.entities.holds_some(select.index)
    }
}
