//! The references of an instance, kept when its tree is dropped, so that they can be checked later.

ghost use Rattle.std.specs.Prelude.{◌≡◌, ◌++◌, ◌↔◌, ℕ, List, Option, Some, None, IsTrue, IfSome, OnOk, length};
ghost use Rattle.p21_express.specs.WellFormed.{Origin};
ghost use Rattle.p21_tree.specs.Plain.{plain};
ghost use Rattle.p21_tree.specs.Sentence.{Instance};
ghost use Rattle.p21_tree.specs.Tree.{reference};
ghost use Rattle.p21_tree.specs.Views.{plain_instance, plain_record};
ghost use Rattle.p21_schema.specs.Declaration.{Declaration as Declared, AreDeclarations, AreResolvedIn};
ghost use Rattle.p21_schema.specs.Place.{IsEntityOf, entity_name};
ghost use Rattle.p21_schema.specs.Row.{IsAttributeOf, attribute_at};
ghost use Rattle.p21_check.specs.Asked.{AskedBy};
ghost use Rattle.p21_check.specs.EntityOf.{IsKnownAs, IsSimpleEntity};
ghost use Rattle.p21_check.specs.Instances.{simple_instance};
ghost use Rattle.p21_check.specs.LocalFault.{IsLocalFault};
ghost use Rattle.p21_check.specs.Referred.{plain_reference, Adds, AreReferencesOf, HasSomewhere, IsNumberOf, IsReferenceOf, Somewhere};
ghost use Rattle.p21_check.specs.Sets.{HasEntity, IsNotDerived, IsSetOf};
ghost use Rattle.p21_check.specs.Walk.{IsAnswered};
ghost use Rattle.p21_check.specs.Wanted.{Asks, IsAsked};
ghost use Rattle.p21_check.specs.declared.referred.Reference.{Reference};

use crate::asked::{asked_by, asked_by_form};
use crate::attributes::{attribute, attribute_count};
use crate::binding::{Binding, binding_of};
use crate::entity_of::Named;
use crate::entity_set::EntitySet;
use crate::walk::may_refer;
use crate::wanted::Wanted;
use p21_schema::{AttrId, Declaration, EntityId, Schema};
use p21_tree::{Param, RawInstance, Record};
use smallvec::SmallVec;
use std::alloc::AllocError;

/// A reference of an instance: a name, and the entity, or the SELECT of which an entity, is wanted there. A file has millions, so it
/// takes 16 bytes.
#[derive(Clone, Copy, Debug, Default)]
pub struct Reference {
    /// The name.
    pub name: u64,
    /// What is wanted: the place of an entity, or the number of entities and the place of a type.
    wanted: u32,
}

const _: () = prove!(size_of::<Reference>() == 16);

/// The references of an instance: of most instances they are few.
pub type References = SmallVec<Reference, 3>;

impl Reference {
    /// Whether the instance of the name, of which this is known, is of an entity that is wanted.
    ///
    /// It is never true where there is no instance of the name.
    ///
    /// Cost: O(1) for an entity, O(w) for a SELECT; of a complex instance so for each record.
    pub fn is_answered(self, schema: &Schema, named: Named<'_, '_>) -> bool
        requires of { IsReferenceOf schema.now self }
        requires known { (found : Option Instance) × IsKnownAs schema.now found named }
        ensures { (by_name : ℕ → Option Instance) → IsKnownAs schema.now (by_name self.name) named.entry → (IsTrue result ↔ IsAnswered schema.now by_name (plain_reference schema.now self)) }
    {
        if let Named::Missing = named {
            return false;
        }
        self.wanted(schema).admits(schema, named)
    }

    /// What is wanted.
    fn wanted(self, schema: &Schema) -> Wanted<'_>
        requires { IsReferenceOf schema.now self }
        ensures asked { IsAsked schema.entry.now result }
        ensures number { IsNumberOf schema.entry.now result self.wanted }
    {
        let number = self.wanted as usize;
        if let Some(entity) = schema.entity_at(number) {
            return Wanted::Entity(entity);
        }
        match schema.type_at(number - entity_count(schema)) {
            Some(select) => Wanted::Select(select),
            None => Wanted::Nothing,
        }
    }
}

/// How many entities the schema has.
fn entity_count(schema: &Schema) -> usize
    ensures { result ≡ length schema.now.entities }
{
    schema.declared().entities.len()
}

/// Adds the references of a simple instance of this entity, which has no fault by itself, after others. Each stands for one that the
/// schema asks for, by a declaration that counts; their order, and how often one is there, mean nothing. Memory alone can fail,
/// as does a reference for an entity or a SELECT whose number is 2^32 or more.
///
/// Cost: O(1) for each parameter, and for each element of a list that may hold references. A reference takes 16
/// bytes.
pub fn push_references(
    schema: &Schema,
    own: EntityId,
    instance: &RawInstance<'_>,
    into: &mut References,
) -> Result<(), AllocError>
    requires own { IsSimpleEntity schema.now (plain_instance instance.now) (Some own) }
    requires local { IsLocalFault schema.now (plain_instance instance.now) None }
    // What is added stands for the references of the instance, and for no others.
    ensures { OnOk result ((rs : List Reference) × (into.new.items ≡ into.old.items ++ rs) × AreReferencesOf schema.now (plain_instance instance.now) rs) }
{
    let records = instance.records.as_slice();
    push_of_record(schema, own, &records[0], into)
}

/// Adds the references of a simple instance, by its record, which is of this entity.
fn push_of_record(
    schema: &Schema,
    own: EntityId,
    one: &Record<'_>,
    into: &mut References,
) -> Result<(), AllocError>
    requires entity { IsEntityOf schema.now own }
    requires named { entity_name schema.now own ≡ one.now.keyword.now }
    requires local { (name : ℕ) × (at : ℕ) × IsLocalFault schema.now (simple_instance name at (plain_record one.now)) None }
    ensures { (name : ℕ) → (at : ℕ) → OnOk result (Adds schema.now (HasSomewhere schema.now (simple_instance name at (plain_record one.now))) into.old.items into.new.items) }
{
    // There are attributes, as many as parameters.
    let _count = attribute_count(schema, false, own);
    let set = EntitySet::Simple(own);
    for (attr, param) in one.params.as_slice().iter().enumerate() {
        let attribute = attribute(schema, false, own, attr);
        push_of_parameter(schema, &set, attribute, param, into)?;
    }
    Ok(())
}

/// Adds the references in a parameter for an attribute.
fn push_of_parameter(
    schema: &Schema,
    set: &EntitySet<'_, '_>,
    attribute: AttrId,
    param: &Param<'_>,
    into: &mut References,
) -> Result<(), AllocError>
    requires set { IsSetOf schema.now set.now }
    requires attribute { IsAttributeOf schema.now attribute }
    ensures { OnOk result (Adds schema.now (Somewhere (AskedBy schema.now (HasEntity schema.now set.now) (attribute_at schema.now attribute) (plain param.now))) into.old.items into.new.items) }
{
    if !may_refer(param) {
        return Ok(());
    }
    schema.fits();
    let declarations = schema.declarations(attribute);
    match binding_of(schema, set, declarations) {
        Binding::Derived => Ok(()),
        Binding::Free => Ok(()),
        Binding::By(lowest) => {
            let wanted = asked_by_form(schema, &lowest.form);
            push_asked(schema, wanted, param, into)
        }
        Binding::Unsaid => push_by_each(schema, set, declarations, param, into),
    }
}

/// Adds the references in a parameter for an attribute that is not derived, by each declaration that counts.
fn push_by_each(
    schema: &Schema,
    set: &EntitySet<'_, '_>,
    declarations: &[Declaration],
    param: &Param<'_>,
    into: &mut References,
) -> Result<(), AllocError>
    requires set { IsSetOf schema.now set.now }
    requires declarations { (ds : List Declared) × AreResolvedIn schema.now declarations.now ds }
    requires not_derived { IsNotDerived schema.now set.now declarations.now }
    ensures { (o : Origin) → (ds : List Declared) → AreDeclarations schema.now o ds → AreResolvedIn schema.now declarations.now ds → OnOk result (Adds schema.now (Somewhere (AskedBy schema.now (HasEntity schema.now set.now) o (plain param.now))) into.old.items into.new.items) }
{
    for declaration in declarations {
        let wanted = asked_by(schema, set, declarations, declaration);
        push_asked(schema, wanted, param, into)?;
    }
    Ok(())
}

/// Adds the references in a parameter that are asked for.
pub(crate) fn push_asked<'s>(
    schema: &'s Schema,
    wanted: Wanted<'s>,
    param: &Param<'_>,
    into: &mut References,
) -> Result<(), AllocError>
    requires { IsAsked schema.now wanted }
    ensures { OnOk result (Adds schema.entry.now (Somewhere (Asks schema.entry.now wanted.entry (plain param.now))) into.old.items into.new.items) }
{
    match param {
        Param::Ref(name) => push_name(schema, wanted, *name, into),
        Param::Items(items) => {
            let of_elements = wanted.elements(schema);
            // Lists of numbers are many and long.
            if of_elements.is_nothing() {
                return Ok(());
            }
            for item in items {
                push_asked(schema, of_elements, item, into)?;
            }
            Ok(())
        }
        Param::Typed(keyword, inner) => {
            let asked = wanted.inside(schema, keyword);
            push_asked(schema, asked, inner, into)
        }
        _ => Ok(()),
    }
}

/// The same of a parameter that is most often no instance name and no list.
#[inline(always)]
pub(crate) fn push_asked_of_leaf<'s>(
    schema: &'s Schema,
    wanted: Wanted<'s>,
    param: &Param<'_>,
    into: &mut References,
) -> Result<(), AllocError>
    requires { IsAsked schema.now wanted }
    ensures { OnOk result (Adds schema.entry.now (Somewhere (Asks schema.entry.now wanted.entry (plain param.now))) into.old.items into.new.items) }
{
    match param {
        Param::Ref(_) => push_asked(schema, wanted, param, into),
        Param::Items(_) => push_asked(schema, wanted, param, into),
        Param::Typed(..) => push_asked(schema, wanted, param, into),
        _ => Ok(()),
    }
}

/// Adds the reference that an instance name is, where one is asked for.
fn push_name(
    schema: &Schema,
    wanted: Wanted<'_>,
    name: u64,
    into: &mut References,
) -> Result<(), AllocError>
    requires { IsAsked schema.now wanted }
    ensures { OnOk result (Adds schema.now (Somewhere (Asks schema.now wanted.entry (reference name))) into.old.items into.new.items) }
{
    if !wanted.is_name() {
        return Ok(());
    }
    let Some(wanted) = number_of(schema, wanted) else {
        return Err(AllocError);
    };
    into.push(Reference { name, wanted })?;
    Ok(())
}

/// The number of the entity or the SELECT of which an instance is asked for, where it fits.
fn number_of(schema: &Schema, wanted: Wanted<'_>) -> Option<u32>
    ensures { IfSome result (IsNumberOf schema.now wanted.entry) }
{
    let number = match wanted {
        Wanted::Entity(entity) => entity.place(),
        Wanted::Select(select) => entity_count(schema).checked_add(select.place())?,
        _ => return None,
    };
    u32::try_from(number).ok()
}
