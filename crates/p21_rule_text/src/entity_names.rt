//! Whether the entities of a text are those of a schema.

ghost use Rattle.std.specs.Prelude.{◌≡◌, MatchOption, map};
ghost use Rattle.std.specs.Bool.{MatchBool};
ghost use Rattle.p21_express.specs.Plain.{plain_entity};
ghost use Rattle.p21_rule_text.specs.Entities.{plain_clauses};
ghost use Rattle.p21_rule_text.specs.Rules.{AreOfEntities};

use crate::entities::EntityClauses;
use p21_express::EntityDecl;
use p21_schema::Schema;

/// The first entity whose name is not that of the schema's entity at its place: how many words stand from it on. It is 0 where there are more
/// or fewer.
pub(crate) fn other_entity(schema: &Schema, clauses: &[EntityClauses]) -> Option<usize>
    ensures { let same = AreOfEntities schema.now.entities (map plain_clauses clauses.now) in MatchOption result same (λ place. ¬ same) }
{
    other_of(schema.declared().entities.as_slice(), clauses)
}

/// The same of the entities as they are declared.
fn other_of(entities: &[EntityDecl], clauses: &[EntityClauses]) -> Option<usize>
    ensures { let same = AreOfEntities (map plain_entity entities.now) (map plain_clauses clauses.now) in MatchOption result same (λ place. ¬ same) }
{
    if clauses.len() != entities.len() {
        return Some(0);
    }
    for place in 0..clauses.len() {
        if is_other(&clauses[place], &entities[place]) {
            return Some(clauses[place].place);
        }
    }
    None
}

/// Whether an entity of the text has another name than one that is declared.
fn is_other(clauses: &EntityClauses, declared: &EntityDecl) -> bool
    ensures { let same = (plain_clauses clauses.now).name ≡ (plain_entity declared.now).name in MatchBool result (¬ same) same }
{
    clauses.name != declared.name.as_slice()
}
