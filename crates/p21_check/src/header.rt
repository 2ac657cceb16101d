//! The header section: the types of its three entities, and the name of the schema.

ghost use Rattle.std.specs.Prelude.{◌≡◌, ◌≢◌, ◌∷◌, [], length, ℕ, List, Some, None, MatchOption, MatchResult};
ghost use Rattle.p21_text.specs.Items.{IsBody};
ghost use Rattle.p21_tree.specs.Plain.{plain_all};
ghost use Rattle.p21_tree.specs.Tree.{Trees};
ghost use Rattle.p21_tree.specs.Views.{plain_preface};
ghost use Rattle.p21_check.specs.Header.{BeginsWith, HasSchemaString, IsHeaderFault};

use crate::schema_name::is_schema_name;
use p21_schema::Schema;
use p21_tree::{FaultKind, HeaderEntity, Param, Preface};

/// The keywords of the first three header entities.
const FILE_DESCRIPTION: &[u8] = b"FILE_DESCRIPTION";

const FILE_NAME: &[u8] = b"FILE_NAME";

const FILE_SCHEMA: &[u8] = b"FILE_SCHEMA";

/// Whether the header section is that of a file of this schema.
///
/// It is `HeaderEntities` where the first three header entities are not FILE_DESCRIPTION, FILE_NAME and FILE_SCHEMA in
/// this order, or the parameters of FILE_SCHEMA are not one list of one string; else `WrongSchema` where the name in
/// that string, up to the first space or `{` and with its ASCII letters in upper case, is not the schema's.
pub fn check_header(schema: &Schema, preface: &Preface<'_>) -> Result<(), FaultKind>
    ensures { MatchResult result (λ _. IsHeaderFault schema.now (plain_preface preface.now) None) (λ kind. IsHeaderFault schema.now (plain_preface preface.now) (Some kind)) }
{
    let Some(body) = schema_string(preface) else {
        return Err(FaultKind::HeaderEntities);
    };
    if is_schema_name(body, schema.name()) {
        Ok(())
    } else {
        Err(FaultKind::WrongSchema)
    }
}

/// The body of the string that names the schema, where the header section begins as it must.
fn schema_string<'a>(preface: &Preface<'a>) -> Option<&'a [u8]>
    ensures { MatchOption result ((body : List ℕ) → ¬ (HasSchemaString (plain_preface preface.now) body)) (λ body. HasSchemaString (plain_preface preface.now) body.now × IsBody body.now) }
{
    let schema = file_schema(preface)?;
    let Param::Items(names) = only(schema.params.as_slice())? else {
        return None;
    };
    let Param::Str(body) = only(names)? else {
        return None;
    };
    Some(body)
}

/// The third header entity, where the first three are those that must be there.
fn file_schema<'p, 'a>(preface: &'p Preface<'a>) -> Option<&'p HeaderEntity<'a>>
    ensures { MatchOption result ((params : Trees) → ¬ (BeginsWith (plain_preface preface.now) params)) (λ schema. BeginsWith (plain_preface preface.now) (plain_all schema.now.params)) }
{
    let [description, name, schema, ..] = preface.entities.as_slice() else {
        return None;
    };
    if description.keyword == FILE_DESCRIPTION
        && name.keyword == FILE_NAME
        && schema.keyword == FILE_SCHEMA
    {
        Some(schema)
    } else {
        None
    }
}

/// The only parameter of a list of one.
fn only<'p, 'a>(params: &'p [Param<'a>]) -> Option<&'p Param<'a>>
    ensures { MatchOption result (length params.now ≢ 1) (λ param. params.now ≡ param.now ∷ []) }
{
    let [param] = params else {
        return None;
    };
    Some(param)
}
