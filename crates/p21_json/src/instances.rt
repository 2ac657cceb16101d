//! Instances as JSON.

ghost use Rattle.std.specs.Prelude.{◌≡◌, ◌<◌, ◌∷◌, [], List, OnOk, Some, length, map, slice_get, take};
ghost use Rattle.p21_express.specs.WellFormed.{IsEntity, Origin};
ghost use Rattle.p21_tree.specs.Bodies.{HasBodies, AllHaveBodies};
ghost use Rattle.p21_tree.specs.Plain.{plain, plain_all};
ghost use Rattle.p21_tree.specs.Views.{plain_instance, plain_record};
ghost use Rattle.p21_schema.specs.Place.{IsEntityOf, entity_name};
ghost use Rattle.p21_schema.specs.Row.{IsAttributeOf, attribute_at};
ghost use Rattle.p21_json.specs.Keys.{full_name, key_of};
ghost use Rattle.p21_json.specs.Parts.{key};
ghost use Rattle.p21_json.specs.Rows.{AreAttributesOf};
ghost use Rattle.p21_json.specs.Instances.{member_parts, members_parts, AreKnown, AreRecordsParts, IsBehindName, IsInstanceParts, IsRecordParts};
ghost use Rattle.p21_json.specs.Written.{Adds, AddsSome};

use crate::attributes::{attribute, attribute_count, is_logical};
use crate::line::Line;
use crate::terms::Terms;
use p21_schema::{AttrId, EntityId, Schema};
use p21_tree::{Param, RawInstance, Record};
use std::alloc::AllocError;

impl Line {
    /// Adds an instance.
    pub(crate) fn instance(
        &mut self,
        terms: &Terms<'_>,
        instance: &RawInstance<'_>,
    ) -> Result<(), AllocError>
        requires { AreKnown terms.now (plain_instance instance.now).records }
        ensures { OnOk result (AddsSome terms.now self.old.out self.new.out (IsInstanceParts terms.now (plain_instance instance.now))) }
    {
        self.out.begin_object()?;
        self.out.key("id")?;
        self.out.u64(instance.name)?;
        self.behind_name(terms, instance)?;
        self.out.end_object()
    }

    /// Adds what stands after the name of an instance.
    fn behind_name(
        &mut self,
        terms: &Terms<'_>,
        instance: &RawInstance<'_>,
    ) -> Result<(), AllocError>
        requires { AreKnown terms.now (plain_instance instance.now).records }
        ensures { OnOk result (AddsSome terms.now self.old.out self.new.out (IsBehindName terms.now (plain_instance instance.now) instance.now.complex (plain_instance instance.now).records)) }
    {
        let records = instance.records.as_slice();
        if !instance.complex {
            return self.record(terms, instance, &records[0]);
        }
        self.out.key("records")?;
        self.out.begin_array()?;
        self.records(terms, instance, records)?;
        self.out.end_array()
    }

    /// Adds an object for each record.
    fn records(
        &mut self,
        terms: &Terms<'_>,
        instance: &RawInstance<'_>,
        records: &[Record<'_>],
    ) -> Result<(), AllocError>
        requires { AreKnown terms.now (map plain_record records.now) }
        ensures { OnOk result (AddsSome terms.now self.old.out self.new.out (AreRecordsParts terms.now (plain_instance instance.now) (map plain_record records.now))) }
    {
        for record in records {
            self.out.begin_object()?;
            self.record(terms, instance, record)?;
            self.out.end_object()?;
        }
        Ok(())
    }

    /// Adds the type and the attributes of a record.
    fn record(
        &mut self,
        terms: &Terms<'_>,
        instance: &RawInstance<'_>,
        record: &Record<'_>,
    ) -> Result<(), AllocError>
        requires { IsEntity terms.now record.now.keyword.now }
        ensures { OnOk result (AddsSome terms.now self.old.out self.new.out (IsRecordParts terms.now (plain_instance instance.now) (plain_record record.now))) }
    {
        let schema = terms.schema();
        let entity = known(schema, record.keyword);
        let count = attribute_count(schema, instance.complex, entity);
        self.out.key("type")?;
        self.out.string(terms.entity(entity))?;
        self.out.key("attributes")?;
        self.out.begin_object()?;
        self.members(terms, instance, entity, count, record.params.as_slice())?;
        self.out.end_object()
    }

    /// Adds the members of a record of the entity, which has so many attributes: its parameters by the names of these.
    fn members(
        &mut self,
        terms: &Terms<'_>,
        instance: &RawInstance<'_>,
        entity: EntityId,
        count: usize,
        params: &[Param<'_>],
    ) -> Result<(), AllocError>
        requires entity { IsEntityOf terms.now entity }
        requires count { (os : List Origin) × (AreAttributesOf terms.now instance.now.complex entity os × (count ≡ length os)) }
        requires bodies { AllHaveBodies params.now }
        ensures { (os : List Origin) → AreAttributesOf terms.now instance.now.complex entity os → (count ≡ length os) → OnOk result (Adds terms.now self.old.out self.new.out (members_parts (plain_instance instance.now) [] os (plain_all params.now))) }
    {
        for position in 0..count.min(params.len()) {
            self.member(terms, instance, entity, position, &params[position])?;
        }
        Ok(())
    }

    /// Adds the member of an attribute of a record of the entity; none of a derived one.
    fn member(
        &mut self,
        terms: &Terms<'_>,
        instance: &RawInstance<'_>,
        entity: EntityId,
        position: usize,
        param: &Param<'_>,
    ) -> Result<(), AllocError>
        requires entity { IsEntityOf terms.now entity }
        requires position { (os : List Origin) × (AreAttributesOf terms.now instance.now.complex entity os × (position < length os)) }
        requires bodies { HasBodies (plain param.now) }
        ensures { (os : List Origin) → (o : Origin) → AreAttributesOf terms.now instance.now.complex entity os → slice_get os position ≡ Some o → OnOk result (Adds terms.now self.old.out self.new.out (member_parts (plain_instance instance.now) (key_of (take position os) o) o (plain param.now))) }
    {
        if let Param::Derived = param {
            return Ok(());
        }
        self.key(terms, instance.complex, entity, position)?;
        let attribute = attribute(terms.schema(), instance.complex, entity, position);
        let logical = is_logical(terms, instance, attribute);
        self.value(terms, param, logical)
    }

    /// Adds the key of an attribute of a record of the entity.
    fn key(
        &mut self,
        terms: &Terms<'_>,
        complex: bool,
        entity: EntityId,
        position: usize,
    ) -> Result<(), AllocError>
        requires entity { IsEntityOf terms.now entity }
        requires position { (os : List Origin) × (AreAttributesOf terms.now complex entity os × (position < length os)) }
        ensures { (os : List Origin) → (o : Origin) → AreAttributesOf terms.now complex entity os → slice_get os position ≡ Some o → OnOk result (Adds terms.now self.old.out self.new.out (key (key_of (take position os) o) ∷ [])) }
    {
        let attribute = attribute(terms.schema(), complex, entity, position);
        if terms.is_repeated(complex, entity, position) {
            return self.full_key(terms, attribute);
        }
        self.out.key(terms.attribute(attribute))
    }

    /// Adds the full name of an attribute as a key.
    fn full_key(&mut self, terms: &Terms<'_>, attribute: AttrId) -> Result<(), AllocError>
        requires { IsAttributeOf terms.now attribute }
        ensures { OnOk result (Adds terms.now self.old.out self.new.out (key (full_name (attribute_at terms.now attribute)) ∷ [])) }
    {
        terms.write_full_name(&mut self.text, attribute)?;
        self.out.key(self.text.as_str())
    }
}

/// The entity of a name that is one.
fn known(schema: &Schema, name: &[u8]) -> EntityId
    requires { IsEntity schema.now name.now }
    ensures { IsEntityOf schema.now result × (entity_name schema.now result ≡ name.now) }
{
    schema.entity(name).unwrap()
}
