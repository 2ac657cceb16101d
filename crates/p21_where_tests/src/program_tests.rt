//! A schema and what its program is, by example.

use p21_algorithm::Source;
use p21_algorithm_reader::{pieces, rules_of};
use p21_evaluate::{Question, Term};
use p21_express::{Word, place_at, read_declarations, scan, upper_case};
use p21_program::{Condition, Owner, Program, Reason, Texts, program_of, texts_of};
use p21_schema::{Rules, Schema};
use std::alloc::{AllocError, Global};
use std::test::Fail;

/// A schema in which each form stands, and each reason to pass a rule over.
const EVERY_FORM: &[u8] = b"SCHEMA every_form;\n\
CONSTANT\n\
  zero : INTEGER := 0;\n\
  prefix : STRING := 'EVERY_FORM' + '.';\n\
  start : LIST [3:3] OF REAL := [0.0, 0., 1.5E-3];\n\
  angle : REAL := ACOS(0.5);\n\
END_CONSTANT;\n\
TYPE label = STRING; END_TYPE;\n\
TYPE colour = ENUMERATION OF (red, green); END_TYPE;\n\
TYPE light = ENUMERATION OF (red, amber); END_TYPE;\n\
TYPE positive = REAL;\n\
WHERE\n\
  above : SELF > 0.0;\n\
  SELF <= 1.0E6;\n\
END_TYPE;\n\
ENTITY point;\n\
  x, y : REAL;\n\
  shade : colour;\n\
DERIVE\n\
  length : REAL := SQRT(x * x + y * y);\n\
INVERSE\n\
  shapes : SET OF shape FOR corners;\n\
WHERE\n\
  near : {-1.0 < x <= 1.0};\n\
  NOT (x :=: y) AND EXISTS(shapes);\n\
  green_one : shade = green;\n\
  red_one : (shade = red) OR (shade = light.red) OR (shade = colour.red);\n\
  used : SIZEOF(USEDIN(SELF, 'EVERY_FORM.SHAPE.CORNERS')) + SIZEOF(USEDIN(SELF, '')) + SIZEOF(USEDIN(SELF, 'EVERY_FORM.NONE.CORNERS')) > 0;\n\
END_ENTITY;\n\
ENTITY shape SUBTYPE OF (point);\n\
  corners : LIST OF point;\n\
  name : label;\n\
WHERE\n\
  group : SELF\\point.x = SELF.y;\n\
  whole : SELF\\point :=: SELF;\n\
  some : SIZEOF(QUERY(c <* corners | (c.x > PI) OR (c.y >= CONST_E))) = zero;\n\
  twice : SIZEOF(QUERY(c <* corners | SIZEOF(QUERY(d <* corners | d.x = c.x)) > 1)) = 0;\n\
  part : name[1:2] IN ['a', 'it''s', ?];\n\
  both : point(1.0, ?, green) || shape([], \"00000061\") :<>: SELF;\n\
  entity_test : 'EVERY_FORM.POINT' IN TYPEOF(SELF);\n\
  folded_test : prefix + 'POINT' IN TYPEOF(SELF);\n\
  type_test : 'EVERY_FORM.LABEL' IN TYPEOF(name);\n\
  set_test : SIZEOF(TYPEOF(SELF) * ['EVERY_FORM.POINT']) = 1;\n\
  second : NVL(corners[LOINDEX(corners) + 1].x, 1.0) > 0;\n\
  truth : TRUE OR UNKNOWN AND FALSE;\n\
  bits : %0101 <> %1;\n\
  called : most(corners, 3) > start[1];\n\
  missing : nowhere > 1;\n\
  missing_attribute : SELF.nothing = 1;\n\
  missing_function : f(1) = 1;\n\
  other : 'OTHER_FORM.POINT' IN TYPEOF(SELF);\n\
  other_role : SIZEOF(USEDIN(SELF, 'OTHER_FORM.SHAPE.CORNERS')) = 0;\n\
  other_name : name <> 'OTHER_FORM.LABEL';\n\
  power : x ** 2 = 1.0;\n\
  long : 123456789012345678901234567890 > 1;\n\
  wide : name = \"00000161\";\n\
  not_here : FORMAT(x, '') = 'a';\n\
  count : most(corners) > 1.0;\n\
  built : SIZEOF(corners, corners) > 1;\n\
  deep : calls_calls(1) > 1;\n\
  constant_angle : angle > 1.0;\n\
  unread : 1 +;\n\
END_ENTITY;\n\
FUNCTION most(l : LIST OF point; n : INTEGER) : REAL;\n\
  CONSTANT\n\
    least : INTEGER := 1;\n\
  END_CONSTANT;\n\
  LOCAL\n\
    r : REAL := 1.0;\n\
    a : ARRAY [1:n] OF REAL;\n\
    p : point;\n\
    b : SET OF REAL := [];\n\
  END_LOCAL;\n\
  IF SIZEOF(l) = 0 THEN\n\
    RETURN (?);\n\
  ELSE\n\
    ;\n\
  END_IF;\n\
  CASE n OF\n\
    0, 1 : r := 2.0;\n\
    least + 1 : BEGIN r := 3.0; b := b + r; END;\n\
    OTHERWISE : r := 4.0;\n\
  END_CASE;\n\
  REPEAT i := 1 TO n BY 2 WHILE i < 10 UNTIL r > 3.0;\n\
    a[i] := l[i].x;\n\
    REPEAT;\n\
      ESCAPE;\n\
    END_REPEAT;\n\
    REPEAT UNTIL SIZEOF(QUERY(q <* l | q.x > i)) > 0;\n\
      SKIP;\n\
    END_REPEAT;\n\
  END_REPEAT;\n\
  a := [0.0 : n, 1.0];\n\
  p\\point.x := a[1];\n\
  RETURN (r);\n\
END_FUNCTION;\n\
FUNCTION calls(n : INTEGER) : INTEGER;\n\
  RETURN (calls_calls(n) + SIN(n));\n\
END_FUNCTION;\n\
FUNCTION calls_calls(n : INTEGER) : INTEGER;\n\
  RETURN (calls(n));\n\
END_FUNCTION;\n\
FUNCTION outer(n : INTEGER) : INTEGER;\n\
  FUNCTION inner(m : INTEGER) : INTEGER;\n\
    RETURN (m);\n\
  END_FUNCTION;\n\
  RETURN (inner(n));\n\
END_FUNCTION;\n\
FUNCTION aliased(n : INTEGER) : INTEGER;\n\
  ALIAS m FOR n;\n\
    m := 1;\n\
  END_ALIAS;\n\
  RETURN (n);\n\
END_FUNCTION;\n\
FUNCTION inserted(l : LIST OF INTEGER) : LIST OF INTEGER;\n\
  INSERT(l, 1, 0);\n\
  RETURN (l);\n\
END_FUNCTION;\n\
RULE plain_rule FOR (shape, point);\n\
WHERE\n\
  few : SIZEOF(shape) < SIZEOF(point);\n\
END_RULE;\n\
RULE rule_with_statements FOR (shape);\n\
  LOCAL\n\
    n : INTEGER := SIZEOF(shape);\n\
  END_LOCAL;\n\
  n := n + 1;\n\
WHERE\n\
  few : n < 2;\n\
  SIZEOF(QUERY(s <* shape | s.x > n)) = 0;\n\
END_RULE;\n\
RULE nobody FOR (stranger);\n\
WHERE\n\
  few : TRUE;\n\
END_RULE;\n\
END_SCHEMA;\n\
";

/// What a rule is, as far as it is looked at.
#[derive(Clone, Copy, Debug, PartialEq, Eq)]
struct Fact {
    owner: Owner,
    before: usize,
    /// `None` where it is evaluated.
    reason: Option<Reason>,
    /// Whether it asks whether something is of an entity, and of which.
    entity: Option<u32>,
}

/// What is looked at of a program.
#[derive(Drop)]
struct Facts {
    rules: Vec<Fact>,
    functions: Vec<Option<Reason>>,
    /// How many variables each function has beside its parameters.
    locals: Vec<usize>,
    derivations: usize,
    /// The byte of the first string that names another schema.
    another_schema: Option<u64>,
}

fn entity_asked(condition: &Condition) -> Option<u32> {
    match condition {
        Condition::Term(Term::Ask(Question::IsEntity(entity), _)) => Some(*entity),
        _ => None,
    }
}

fn reason_of(condition: &Condition) -> Option<Reason> {
    match condition {
        Condition::Term(_) => None,
        Condition::PassedOver(obstacle) => Some(obstacle.reason),
    }
}

fn facts_of(alloc: Global, program: &Program, places: &[usize]) -> Result<Facts, AllocError> {
    let mut facts = Facts {
        rules: Vec::new(alloc),
        functions: Vec::new(alloc),
        locals: Vec::new(alloc),
        derivations: program.derivations.len(),
        another_schema: None,
    };
    for rule in &program.rules {
        facts.rules.push(Fact {
            owner: rule.owner,
            before: rule.before,
            reason: reason_of(&rule.condition),
            entity: entity_asked(&rule.condition),
        })?;
    }
    for obstacle in &program.obstacles {
        facts.functions.push(match obstacle {
            Some(obstacle) => Some(obstacle.reason),
            None => None,
        })?;
    }
    for function in &program.functions {
        facts.locals.push(function.locals)?;
    }
    if let Some(place) = program.another_schema {
        facts.another_schema = Some(place_at(places, place));
    }
    Ok(facts)
}

/// The facts of a text, or `None` where it is no schema.
fn facts_in(alloc: Global, text: &[u8]) -> Result<Option<Facts>, AllocError> {
    let Ok(declarations) = read_declarations(alloc, text) else {
        return Ok(None);
    };
    let schema = Schema::build(alloc, declarations, Rules { distinct: true })?;
    let upper = upper_case(alloc, text)?;
    let scanned = scan(alloc, &upper)?;
    let source = source_of(text, &scanned.places);
    let texts = texts_of(alloc, source, &scanned.words)?;
    let words = scanned.words.as_slice();
    facts_by_words(alloc, &schema, words, source, &texts)
}

/// The text of a schema, with the places of its words.
fn source_of<'s>(text: &'s [u8], places: &'s [usize]) -> Source<'s> {
    Source { text, places }
}

/// The facts of words of a text, or `None` where they are no schema.
fn facts_by_words<'w>(
    alloc: Global,
    schema: &Schema,
    words: &[Word<'w>],
    source: Source<'w>,
    texts: &'w Texts,
) -> Result<Option<Facts>, AllocError> {
    let Ok(pieces) = pieces(alloc, words) else {
        return Ok(None);
    };
    let Ok(rules) = rules_of(alloc, words) else {
        return Ok(None);
    };
    let program = program_of(alloc, schema, &rules, &pieces, source, texts)?;
    Ok(Some(facts_of(alloc, &program, source.places)?))
}

#[test]
fn every_form_and_every_reason(rt: HostRuntime) -> Result<(), Fail> {
    let facts = facts_in(rt.alloc(), EVERY_FORM)?.ok_or("no schema")?;
    let reasons: [Option<Reason>; 15] = [
        Some(Reason::UnknownName),
        Some(Reason::UnknownName),
        Some(Reason::UnknownName),
        Some(Reason::AnotherSchema),
        Some(Reason::AnotherSchema),
        Some(Reason::AnotherSchema),
        Some(Reason::NotComputed),
        Some(Reason::NotComputed),
        Some(Reason::NotComputed),
        Some(Reason::NotComputed),
        Some(Reason::WrongCount),
        Some(Reason::WrongCount),
        Some(Reason::Calls(2)),
        Some(Reason::Calls(9)),
        Some(Reason::NoReading),
    ];
    assert_eq!(rt; facts.rules.len(), 2 + 5 + 14 + 15 + 4);
    for at in 0..facts.rules.len() {
        let fact = facts.rules[at];
        let expected = match at {
            0..=20 => None,
            21..=35 => reasons.get(at.saturating_sub(21)).copied().unwrap_or(None),
            39 => Some(Reason::UnknownName),
            _ => None,
        };
        assert_eq!(rt; fact.reason, expected, "rule {at}");
    }
    Ok(())
}

#[test]
fn owners_and_entity_tests(rt: HostRuntime) -> Result<(), Fail> {
    let facts = facts_in(rt.alloc(), EVERY_FORM)?.ok_or("no schema")?;
    let mut tests: usize = 0;
    for fact in &facts.rules {
        if fact.entity.is_some() {
            tests = tests.saturating_add(1);
            assert_eq!(rt; fact.entity, Some(0));
            assert_eq!(rt; fact.owner, Owner::Entity(1));
        }
    }
    assert_eq!(rt; tests, 2);
    let second = facts.rules.get(1).ok_or("no second rule")?;
    assert_eq!(rt; second.owner, Owner::Type(3));
    assert_eq!(rt; second.before, 1);
    let last = facts.rules.last().ok_or("no rule")?;
    assert_eq!(rt; last.owner, Owner::Global(2));
    Ok(())
}

#[test]
fn functions_in_order(rt: HostRuntime) -> Result<(), Fail> {
    let facts = facts_in(rt.alloc(), EVERY_FORM)?.ok_or("no schema")?;
    let functions: [Option<Reason>; 14] = [
        None,
        Some(Reason::NotComputed),
        Some(Reason::Calls(1)),
        Some(Reason::NotComputed),
        Some(Reason::NotComputed),
        Some(Reason::NotComputed),
        None,
        None,
        None,
        Some(Reason::NotComputed),
        None,
        None,
        None,
        None,
    ];
    assert_eq!(rt; facts.functions.len(), functions.len());
    for at in 0..functions.len() {
        assert_eq!(rt;
            facts.functions.get(at).copied(),
            functions.get(at).copied(),
            "function {at}"
        );
    }
    // A constant, four variables, and one for each of three REPEATs.
    assert_eq!(rt; facts.locals.first().copied(), Some(8));
    assert_eq!(rt; facts.derivations, 1);
    assert_eq!(rt; facts.another_schema.is_some(), true);
    Ok(())
}
