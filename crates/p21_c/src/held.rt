//! What a handle leads to.

ghost use Rattle.std.specs.Prelude.{◌≡◌, map};
ghost use Rattle.std.specs.List.{flat_map};
ghost use Rattle.p21_spelling.specs.Spelled.{lower, names_in, own_names};
ghost use Rattle.p21_rules.specs.InverseCount.{AreInverseRulesOf};
ghost use Rattle.p21_rules.specs.NotUnique.{AreRulesOf};

use p21_join::Model;
use p21_json::Terms;
use p21_mend::MendedText;
use p21_rule_text::Rules;
use p21_schema::Schema;
use p21_spelling::Spellings;
use p21_where_findings::WhereRule;

/// A schema, and how its text spells its names.
#[derive(Drop)]
pub struct HeldSchema {
    pub schema: Schema,
    pub spellings: Spellings,
    pub ghost entities: { names_in spellings.entities.items ≡ map (λ e. lower e.name) schema.entities },
    pub ghost attributes: { names_in spellings.attributes.items ≡ map lower (flat_map own_names schema.entities) },
    pub ghost types: { names_in spellings.types.items ≡ map (λ t. lower t.name) schema.types },
}

/// A model, the terms of the schema that its file was checked against, and the file.
#[derive(Drop)]
pub struct HeldModel {
    pub terms: Terms<'static>,
    pub model: Model<'static>,
    pub file: &'static [u8],
}

/// The rules of a schema, and the text that they were read from.
#[derive(Drop)]
pub struct HeldRules {
    pub schema: &'static HeldSchema,
    pub text: &'static [u8],
    pub rules: Rules,
    /// Those of WHERE, in the order of the text.
    pub by_where: Vec<WhereRule>,
    pub ghost unique: { AreRulesOf schema.now.schema rules.unique.items },
    pub ghost inverse: { AreInverseRulesOf schema.now.schema rules.inverse.items },
}

/// What a handle leads to.
#[derive(Drop)]
pub enum Held {
    Schema(HeldSchema),
    Model(HeldModel),
    Rules(HeldRules),
    Mended(MendedText),
    /// What it led to was let go.
    Nothing,
}
