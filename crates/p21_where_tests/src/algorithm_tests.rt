//! Schemas and what is found in them, by example.

use p21_algorithm::{Found, Item};
use p21_algorithm_reader::rules_of;
use p21_express::{Word, scan, upper_case};
use std::alloc::{AllocError, Global};
use std::test::Fail;

/// A schema in which each form stands.
const EVERY_FORM: &[u8] = b"SCHEMA every_form;\n\
CONSTANT\n\
  zero : INTEGER := 0;\n\
  start : LIST [3:3] OF REAL := [0.0, 0., 1.5E-3];\n\
END_CONSTANT;\n\
TYPE label = STRING; END_TYPE;\n\
TYPE positive = REAL;\n\
WHERE\n\
  above : SELF > 0.0;\n\
  SELF <= 1.0E6;\n\
END_TYPE;\n\
ENTITY point;\n\
  x, y : REAL;\n\
  on : OPTIONAL SET [1:?] OF shape;\n\
DERIVE\n\
  length : REAL := SQRT(x ** 2 + y ** 2);\n\
INVERSE\n\
  shapes : SET OF shape FOR corners;\n\
UNIQUE\n\
  only : x, y;\n\
WHERE\n\
  near : {-1.0 < x <= 1.0};\n\
  NOT (x :=: y) AND EXISTS(on);\n\
  wide : x * 2 / 3 DIV 4 MOD 5 - +y + -x <> 7;\n\
END_ENTITY;\n\
ENTITY shape SUBTYPE OF (point);\n\
  corners : LIST OF point;\n\
  colour : label;\n\
DERIVE\n\
  SELF\\point.length RENAMED size : positive := 1.0E+2;\n\
  again : ARRAY [0:SIZEOF(corners) - 1] OF OPTIONAL UNIQUE point := list_to_array(corners);\n\
WHERE\n\
  it : SELF\\point.x = SELF.y;\n\
  text : colour LIKE 'it''s #' XOR (colour = \"000000E4\");\n\
  bits : %0101 <> %1;\n\
  some : SIZEOF(QUERY(c <* corners | (c.x > PI) OR (c.y >= CONST_E))) = 0;\n\
  first : corners[1].x < corners[LOINDEX(corners) + 1].y;\n\
  part : colour[1:2] IN ['a', 'b' : 3, ?];\n\
  both : point(1.0, ?, []) || shape([], 'a') :<>: SELF;\n\
  long : 123456789012345678901234567890 > 1;\n\
  truth : TRUE OR UNKNOWN AND FALSE;\n\
  use : 'EVERY_FORM.POINT' IN TYPEOF(SELF);\n\
END_ENTITY;\n\
FUNCTION list_to_array(l : LIST [0:?] OF GENERIC : t; low, high : INTEGER) : ARRAY [low:high] OF GENERIC : t;\n\
  FUNCTION inner(b : BINARY (8) FIXED) : BOOLEAN;\n\
    ;\n\
    RETURN (b[1] = %1);\n\
  END_FUNCTION;\n\
  PROCEDURE change(VAR a : AGGREGATE : g OF GENERIC_ENTITY : e; n : NUMBER);\n\
  END_PROCEDURE;\n\
  CONSTANT\n\
    most : INTEGER := 10;\n\
  END_CONSTANT;\n\
  LOCAL\n\
    a, b : ARRAY [low:high] OF GENERIC : t;\n\
    r : REAL (6) := 1.0;\n\
    s : STRING (20) := 'none';\n\
    g : GENERIC := ?;\n\
    q : BAG OF LOGICAL;\n\
  END_LOCAL;\n\
  IF SIZEOF(l) = 0 THEN\n\
    RETURN (?);\n\
  ELSE\n\
    IF low > high THEN SKIP; END_IF;\n\
  END_IF;\n\
  CASE low OF\n\
    0, 1 : r := 2.0;\n\
    low + 1 : BEGIN r := 3.0; s[1] := 'x'; END;\n\
    OTHERWISE : ;\n\
  END_CASE;\n\
  CASE high OF\n\
    most : ESCAPE;\n\
  END_CASE;\n\
  REPEAT i := low TO high BY 2 WHILE i < most UNTIL r > 3.0;\n\
    a[i] := l[i - low + 1];\n\
    REPEAT;\n\
      ESCAPE;\n\
    END_REPEAT;\n\
    REPEAT UNTIL TRUE;\n\
      SKIP;\n\
    END_REPEAT;\n\
  END_REPEAT;\n\
  ALIAS p FOR b[1].x;\n\
    p := 1.0;\n\
  END_ALIAS;\n\
  a[1]\\point.x := 2;\n\
  change(a, low);\n\
  INSERT(l, a[1], 0);\n\
  RETURN (a);\n\
END_FUNCTION;\n\
PROCEDURE nothing;\n\
END_PROCEDURE;\n\
PROCEDURE leave(VAR n : INTEGER);\n\
  n := n + 1;\n\
  nothing;\n\
  RETURN;\n\
END_PROCEDURE;\n\
RULE one_shape FOR (shape, point);\n\
  LOCAL\n\
    n : INTEGER := SIZEOF(shape);\n\
  END_LOCAL;\n\
  leave(n);\n\
WHERE\n\
  few : n < 2;\n\
  SIZEOF(point) >= n;\n\
END_RULE;\n\
END_SCHEMA;\n\
";

/// How many things have a reading and how many have none.
fn counted(found: &[Found<'_>]) -> (usize, usize) {
    let mut none: usize = 0;
    for one in found {
        if let Item::PassedOver(_, _, _) = &one.item {
            none = none.saturating_add(1);
        }
    }
    (found.len().saturating_sub(none), none)
}

/// How many things of a schema have a reading and how many have none, or nothing where it is refused.
fn counts(alloc: Global, text: &[u8]) -> Result<Option<(usize, usize)>, AllocError> {
    let upper = upper_case(alloc, text)?;
    let scanned = scan(alloc, &upper)?;
    Ok(counts_of_words(alloc, &scanned.words))
}

/// The same of its words.
fn counts_of_words(alloc: Global, words: &[Word<'_>]) -> Option<(usize, usize)> {
    let Ok(rules) = rules_of(alloc, words) else {
        return None;
    };
    Some(counted(&rules.found))
}

#[test]
fn every_form_has_a_reading(rt: HostRuntime) -> Result<(), Fail> {
    assert_eq!(rt; counts(rt.alloc(), EVERY_FORM)?, Some((24, 0)));
    Ok(())
}

/// A schema with one function, in which something stands within itself so often.
fn nested(
    alloc: Global,
    before: &[u8],
    inside: &[u8],
    after: &[u8],
    count: usize,
) -> Result<Vec<u8>, AllocError> {
    let mut text = Vec::from_slice(alloc, b"SCHEMA s; FUNCTION f : INTEGER; ")?;
    for _ in 0..count {
        text.extend_from_slice(before)?;
    }
    text.extend_from_slice(inside)?;
    for _ in 0..count {
        text.extend_from_slice(after)?;
    }
    text.extend_from_slice(b" END_FUNCTION; END_SCHEMA;")?;
    Ok(text)
}

#[test]
fn at_most_256_stand_within_one_another(rt: HostRuntime) -> Result<(), Fail> {
    let forms: [(&[u8], &[u8], &[u8], usize); 5] = [
        (b"IF a THEN ", b";", b" END_IF;", 255),
        (b"BEGIN ", b";", b" END;", 255),
        (b"CASE a OF 1 : ", b";", b" END_CASE;", 255),
        (b"FUNCTION g : INTEGER; ", b";", b" END_FUNCTION; ;", 255),
        (b"", b"LOCAL x : INTEGER; END_LOCAL; RETURN (1);", b"", 255),
    ];
    for (before, inside, after, most) in forms {
        let text = nested(rt.alloc(), before, inside, after, most)?;
        assert_eq!(rt; counts(rt.alloc(), &text)?, Some((1, 0)));
        let text = nested(rt.alloc(), before, inside, after, most + 1)?;
        let is_nested = !before.is_empty();
        assert_eq!(rt;
            counts(rt.alloc(), &text)?,
            Some(if is_nested { (0, 1) } else { (1, 0) })
        );
    }
    Ok(())
}

/// What has no reading is passed over, and what stands beside it is read.
#[test]
fn passed_over(rt: HostRuntime) -> Result<(), Fail> {
    let texts: [(&[u8], usize, usize); 12] = [
        (
            b"ENTITY e; a : INTEGER; WHERE v : a = a; w : a = a END_ENTITY;",
            1,
            1,
        ),
        (b"TYPE t = INTEGER; WHERE v : SELF > 0; w : END_TYPE;", 1, 1),
        (
            b"CONSTANT c : INTEGER := 1; d : INTEGER := END_CONSTANT; ENTITY e; a : INTEGER; WHERE v : a = a; END_ENTITY;",
            2,
            1,
        ),
        (
            b"ENTITY e; a : INTEGER; WHERE a + ; v : a = a; END_ENTITY;",
            1,
            1,
        ),
        (
            b"ENTITY e; a : INTEGER; WHERE ))); v : a = a; END_ENTITY;",
            1,
            1,
        ),
        (
            b"ENTITY e; a : INTEGER; DERIVE b INTEGER := 1; c : INTEGER := 1; END_ENTITY;",
            1,
            1,
        ),
        (b"TYPE t = INTEGER; WHERE SELF > 0; x : ; END_TYPE;", 1, 1),
        (
            b"CONSTANT c : INTEGER; d : INTEGER := 1; END_CONSTANT;",
            1,
            1,
        ),
        (
            b"FUNCTION f : INTEGER; END_FUNCTION; PROCEDURE p; END_PROCEDURE;",
            1,
            1,
        ),
        (
            b"FUNCTION f : INTEGER; IF a THEN END_IF; END_FUNCTION; FUNCTION g : INTEGER; RETURN (1); END_FUNCTION;",
            1,
            1,
        ),
        (
            b"RULE r FOR (e); WHERE END_RULE; RULE s FOR (e); WHERE a = a; END_RULE;",
            1,
            1,
        ),
        (
            b"FUNCTION f(VAR a : INTEGER) : INTEGER; RETURN (a); END_FUNCTION;",
            0,
            1,
        ),
    ];
    for (part, read, passed) in texts {
        let mut text = Vec::from_slice(rt.alloc(), b"SCHEMA s; ")?;
        text.extend_from_slice(part)?;
        text.extend_from_slice(b" END_SCHEMA;")?;
        assert_eq!(rt;
            counts(rt.alloc(), &text)?,
            Some((read, passed)),
            "{part:?}"
        );
    }
    Ok(())
}

/// A text without the parts of a schema is refused.
#[test]
fn no_schema(rt: HostRuntime) -> Result<(), Fail> {
    let texts: [&[u8]; 5] = [
        b"",
        b"SCHEMA s;",
        b"SCHEMA s; a; END_SCHEMA;",
        b"SCHEMA s; FUNCTION f : INTEGER; RETURN (1); END_SCHEMA;",
        b"SCHEMA s; ENTITY e; a : INTEGER; END_SCHEMA;",
    ];
    for text in texts {
        assert_eq!(rt; counts(rt.alloc(), text)?, None, "{text:?}");
    }
    Ok(())
}
