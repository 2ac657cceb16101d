//! The rules of a schema's text.

ghost use Rattle.std.specs.Prelude.{◌++◌, ◌∷◌, List, [], IfErr, IfOk, OnOk, map};
ghost use Rattle.p21_express.specs.Answer.{OnRefusal};
ghost use Rattle.p21_express.specs.Reader.{words_of, Gives};
ghost use Rattle.p21_rules.specs.InverseCount.{AreInverseRulesOf};
ghost use Rattle.p21_rules.specs.NotUnique.{AreRulesOf};
ghost use Rattle.p21_rule_text.specs.Entities.{entities_at, if_whole, plain_clauses};
ghost use Rattle.p21_rule_text.specs.Rules.{AreListed, AreRules, HasNoRules};

use crate::entities::{EntityClauses, entities};
use crate::entity_names::other_entity;
use crate::labels::repeated_label;
use crate::statements::{Known, PassedOver, Statement, push_statements};
use p21_express::{
    Refusal, Scanned, SchemaError, one_word_list, place_at, refused_as, scan, upper_case,
};
use p21_rules::{InverseRule, UniqueRule};
use p21_schema::Schema;
use std::alloc::{AllocError, Global};

/// The rules UNIQUE and the INVERSE attributes of a schema's text.
#[derive(Debug, Drop)]
pub struct Rules {
    /// The rules UNIQUE that can be looked at, in the order of the text.
    pub unique: Vec<UniqueRule>,
    /// The label of each, in upper case, or its number within its entity.
    pub labels: Vec<Vec<u8>>,
    /// The bounds of INVERSE attributes that can be looked at, in the order of the text, without those that every count is within.
    pub inverse: Vec<InverseRule>,
    /// The name of each such attribute, in upper case.
    pub inverse_names: Vec<Vec<u8>>,
    /// The others.
    pub passed_over: Vec<PassedOver>,
}

impl Rules {
    fn new(alloc: Global) -> Rules
        ensures { AreListed [] result }
    {
        Rules {
            unique: Vec::new(alloc),
            labels: Vec::new(alloc),
            inverse: Vec::new(alloc),
            inverse_names: Vec::new(alloc),
            passed_over: Vec::new(alloc),
        }
    }

    /// Adds what a clause states.
    pub(crate) fn push(&mut self, statement: Statement) -> Result<(), AllocError>
        ensures { OnOk result ((ss : List Statement) → AreListed ss self.old → AreListed (ss ++ statement ∷ []) self.new) }
    {
        match statement {
            Statement::Unique(rule, label, mut told) => {
                self.unique.push(rule)?;
                self.labels.push(label)?;
                self.passed_over.append(&mut told)?;
            }
            Statement::Inverse(rule, name) => {
                self.inverse.push(rule)?;
                self.inverse_names.push(name)?;
            }
            Statement::AnyCount => {}
            Statement::PassedOver(passed_over) => self.passed_over.push(passed_over)?,
        }
        Ok(())
    }
}

/// The rules of the text from which a schema was read.
///
/// A rule UNIQUE or an INVERSE attribute that is not of the grammar is refused as `Syntax` at its first word that does not fit, and `RENAMED` after the name
/// of an INVERSE attribute with SELF as `NotSupported`. Then the text of another schema is refused as `UnknownName` at the first entity that is not
/// the schema's at its place, or at its end. Then the second of two rules UNIQUE of one label in an entity is refused as `Repeated`, and then the
/// name of what is no such entity or attribute as `UnknownName`. `Memory` says that there was no memory left.
///
/// No clause says where in the text begins what is not checked (`PassedOver::at`): tested.
///
/// Cost: A copy of the text in upper case, and its words with their places; a bit for each entity for each attribute
/// that is named, and a look at the INVERSE attributes of the schema.
pub fn read_rules(alloc: Global, text: &[u8], schema: &Schema) -> Result<Rules, SchemaError>
    // The rules are those of the text against the schema: what the clauses of its entities state, in their order, and
    // no others.
    ensures rules { IfOk result (AreRules schema.now text.now) }
    // An error other than out of memory means that the text has no rules against the schema. As which kind, and at
    // which place, is tested.
    ensures refused { IfErr result (λ e. OnRefusal e (HasNoRules schema.now text.now)) }
    // Each rule UNIQUE is of an entity and of explicit attributes of the schema.
    ensures unique { IfOk result (λ rules. AreRulesOf schema.now rules.unique.items) }
    // The bounds of each INVERSE attribute are of two entities and of an explicit attribute of the schema.
    ensures inverse { IfOk result (λ rules. AreInverseRulesOf schema.now rules.inverse.items) }
{
    one_word_list();
    let upper = upper_case(alloc, text)?;
    let scanned = scan(alloc, &upper)?;
    match clauses(alloc, &scanned) {
        Ok(clauses) => {
            let known = Known {
                schema,
                clauses: &clauses,
                places: &scanned.places,
            };
            if let Some(other) = other_entity(schema, &clauses) {
                return Err(SchemaError::UnknownName(place_at(&scanned.places, other)));
            }
            if let Some(label) = repeated_label(&clauses) {
                return Err(SchemaError::Repeated(place_at(&scanned.places, label)));
            }
            let mut rules = Rules::new(alloc);
            push_statements(alloc, &mut rules, known)?;
            Ok(rules)
        }
        Err(refusal) => Err(refused_as(refusal, &scanned.places)),
    }
}

/// The clauses of the entities of a text, by its words.
fn clauses<'a>(alloc: Global, scanned: &Scanned<'a>) -> Result<Vec<EntityClauses<'a>>, Refusal>
    ensures { Gives (λ x. map plain_clauses x.items) result (if_whole scanned.now.is_whole (entities_at (words_of scanned.now.words.items))) }
{
    if !scanned.is_whole {
        return Err(Refusal::syntax(0));
    }
    entities(alloc, &scanned.words)
}
