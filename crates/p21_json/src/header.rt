//! The header as JSON.

ghost use Rattle.std.specs.Prelude.{◌≡◌, ◌≤◌, codes, length, map, IfOk, OnOk};
ghost use Rattle.p21_tree.specs.Bodies.{AllHaveBodies};
ghost use Rattle.p21_tree.specs.Plain.{plain_all};
ghost use Rattle.p21_tree.specs.Views.{plain_entity, plain_preface};
ghost use Rattle.p21_json.specs.Header.{description_keys, entity_parts, header_parts, labelled_parts, name_keys, schema_keys, IsHeaderParts};
ghost use Rattle.p21_json.specs.Lines.{IsLineOf};
ghost use Rattle.p21_json.specs.Written.{Adds};

use crate::line::Line;
use crate::terms::Terms;
use p21_tree::{HeaderEntity, Param, Preface};
use std::alloc::{AllocError, Global};

/// The line of a header that begins with the three entities that the standard asks for: their attributes by their names. Memory alone can
/// fail.
pub fn write_header(
    alloc: Global,
    terms: &Terms<'_>,
    preface: &Preface<'_>,
) -> Result<Vec<u8>, AllocError>
    requires { 3 ≤ length preface.now.entities.items }
    // The print of the tokens of the first three header entities, of each the parameters that the standard names, as
    // far as the file has them (a `*` as null), and a line end. It reads back as these tokens. Further entities and
    // parameters are left out.
    ensures { IfOk result (λ text. IsLineOf terms.now (IsHeaderParts (plain_preface preface.now)) text.items) }
{
    let [description, name, schema, ..] = preface.entities.as_slice() else {
        unreachable!();
    };
    let mut line = Line::new(alloc, Vec::new(alloc));
    line.header(terms, description, name, schema)?;
    line.end()
}

impl Line {
    /// Adds a header.
    fn header(
        &mut self,
        terms: &Terms<'_>,
        description: &HeaderEntity<'_>,
        name: &HeaderEntity<'_>,
        schema: &HeaderEntity<'_>,
    ) -> Result<(), AllocError>
        ensures { OnOk result (Adds terms.now self.old.out self.new.out (header_parts (plain_entity description.now) (plain_entity name.now) (plain_entity schema.now))) }
    {
        self.out.begin_object()?;
        self.out.key("header")?;
        self.out.begin_object()?;
        self.file_description(terms, description)?;
        self.file_name(terms, name)?;
        self.file_schema(terms, schema)?;
        self.out.end_object()?;
        self.out.end_object()
    }

    fn file_description(
        &mut self,
        terms: &Terms<'_>,
        entity: &HeaderEntity<'_>,
    ) -> Result<(), AllocError>
        ensures { OnOk result (Adds terms.now self.old.out self.new.out (entity_parts (codes "file_description") description_keys (plain_entity entity.now))) }
    {
        let keys = ["description", "implementation_level"];
        self.entity(terms, "file_description", &keys, entity)
    }

    fn file_name(&mut self, terms: &Terms<'_>, entity: &HeaderEntity<'_>) -> Result<(), AllocError>
        ensures { OnOk result (Adds terms.now self.old.out self.new.out (entity_parts (codes "file_name") name_keys (plain_entity entity.now))) }
    {
        let keys = [
            "name",
            "time_stamp",
            "author",
            "organization",
            "preprocessor_version",
            "originating_system",
            "authorization",
        ];
        self.entity(terms, "file_name", &keys, entity)
    }

    fn file_schema(
        &mut self,
        terms: &Terms<'_>,
        entity: &HeaderEntity<'_>,
    ) -> Result<(), AllocError>
        ensures { OnOk result (Adds terms.now self.old.out self.new.out (entity_parts (codes "file_schema") schema_keys (plain_entity entity.now))) }
    {
        self.entity(terms, "file_schema", &["schema_identifiers"], entity)
    }

    /// Adds an entity of the header under this word, its parameters by these keys.
    fn entity(
        &mut self,
        terms: &Terms<'_>,
        word: &str,
        keys: &[&str],
        entity: &HeaderEntity<'_>,
    ) -> Result<(), AllocError>
        ensures { OnOk result (Adds terms.now self.old.out self.new.out (entity_parts word.now (map (λ k. k.now) keys.now) (plain_entity entity.now))) }
    {
        self.out.key(word)?;
        self.out.begin_object()?;
        self.labelled(terms, keys, entity.params.as_slice())?;
        self.out.end_object()
    }

    /// Adds values by these keys.
    fn labelled(
        &mut self,
        terms: &Terms<'_>,
        keys: &[&str],
        params: &[Param<'_>],
    ) -> Result<(), AllocError>
        requires { AllHaveBodies params.now }
        ensures { OnOk result (Adds terms.now self.old.out self.new.out (labelled_parts (map (λ k. k.now) keys.now) (plain_all params.now))) }
    {
        for position in 0..keys.len().min(params.len()) {
            self.out.key(keys[position])?;
            self.value(terms, &params[position], false)?;
        }
        Ok(())
    }
}
