//! Values by themselves as JSON.

ghost use Rattle.std.specs.Prelude.{◌≡◌, ◌↔◌, ◌++◌, IfOk, IsTrue};
ghost use Rattle.json.specs.Lex.{tokens};
ghost use Rattle.json.specs.Print.{print};
ghost use Rattle.p21_tree.specs.Bodies.{HasBodies};
ghost use Rattle.p21_tree.specs.Plain.{plain};
ghost use Rattle.p21_json.specs.Parts.{value_parts};
ghost use Rattle.p21_json.specs.Values.{IsTextOf};
ghost use Rattle.p21_json.specs.Where.{Where, IsLogicalAt};

use crate::line::Line;
use crate::terms::Terms;
use p21_tree::Param;
use std::alloc::{AllocError, Global};

/// The JSON of a value of a parameter, of which the items of enumerations are of BOOLEAN or LOGICAL, or none. Memory alone can fail.
pub fn write_value(
    alloc: Global,
    terms: &Terms<'_>,
    param: &Param<'_>,
    logical: bool,
) -> Result<Vec<u8>, AllocError>
    requires { HasBodies (plain param.now) }
    // If the caller says rightly whether enumerations there are values of BOOLEAN or LOGICAL, the text is the print
    // of the tokens that the table of values gives for the parameter, names of types but for the case of letters. It
    // reads back as these tokens.
    ensures { (w : Where) → (IsTrue logical ↔ IsLogicalAt terms.now w) → IfOk result (λ text. IsTextOf terms.now (value_parts w (plain param.now)) text.items) }
{
    let mut line = Line::new(alloc, Vec::new(alloc));
    line.value(terms, param, logical)?;
    Ok(line.text())
}

impl Line {
    /// The text with what is written.
    fn text(self) -> Vec<u8>
        ensures text { result.items ≡ self.out.before ++ print self.out.tokens }
        ensures reads_back { tokens (print self.out.tokens) ≡ self.out.tokens }
    {
        let Line { out, text: _ } = self;
        out.into_inner()
    }
}
