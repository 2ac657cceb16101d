//! The values of parameters as JSON.

ghost use Rattle.std.specs.Prelude.{◌≡◌, ◌↔◌, ◌∷◌, ◌++◌, [], drop, IfOk, IsTrue, OnOk};
ghost use Rattle.json.specs.Lex.{tokens};
ghost use Rattle.json.specs.Print.{print};
ghost use Rattle.p21_text.specs.Items.{IsBody};
ghost use Rattle.p21_text.specs.Spelling.{IsBinaryBody};
ghost use Rattle.p21_tree.specs.Bodies.{HasBodies, AllHaveBodies};
ghost use Rattle.p21_tree.specs.Plain.{plain, plain_all};
ghost use Rattle.p21_express.specs.Schema.{Schema};
ghost use Rattle.p21_json.specs.Where.{Where, IsLogicalAt, typed};
ghost use Rattle.p21_json.specs.Parts.{binary_parts, exactly, item, list_parts, logical_token, number, reference_parts, string, typed_parts, value_parts, values_parts};
ghost use Rattle.p21_json.specs.Written.{Adds};

use crate::characters::{write_bytes, write_string};
use crate::numerals::write_numeral;
use crate::terms::Terms;
use json::{Writer, is_number};
use p21_text::binary_bits;
use p21_tree::Param;
use std::alloc::{AllocError, Global};

/// A line in the making.
#[derive(Drop)]
pub(crate) struct Line {
    /// What is written of it.
    pub(crate) out: Writer,
    /// The text that is written next.
    pub(crate) text: String,
}

impl Line {
    /// A line after a text: nothing is written of it.
    pub(crate) fn new(alloc: Global, text: Vec<u8>) -> Line
        ensures before { result.out.before ≡ text.items }
        ensures tokens { result.out.tokens ≡ [] }
    {
        Line {
            out: Writer::new(text),
            text: String::new(alloc),
        }
    }

    /// The text with the line, and a line end.
    pub(crate) fn end(self) -> Result<Vec<u8>, AllocError>
        ensures text { IfOk result (λ made. made.items ≡ self.out.before ++ (print self.out.tokens ++ 10 ∷ [])) }
        ensures reads_back { tokens (print self.out.tokens) ≡ self.out.tokens }
    {
        let Line { out, text: _ } = self;
        let mut text = out.into_inner();
        text.push(b'\n')?;
        Ok(text)
    }

    /// Adds a value of a parameter, of which the items of enumerations are of BOOLEAN or LOGICAL, or none.
    #[cycle(values)]
    pub(crate) fn value(
        &mut self,
        terms: &Terms<'_>,
        param: &Param<'_>,
        logical: bool,
    ) -> Result<(), AllocError>
        requires { HasBodies (plain param.now) }
        ensures { (w : Where) → (IsTrue logical ↔ IsLogicalAt terms.now w) → OnOk result (Adds terms.now self.old.out self.new.out (value_parts w (plain param.now))) }
    {
        match param {
            Param::Absent => self.out.null(),
            Param::Derived => self.out.null(),
            Param::Int(spelled) => self.number(spelled),
            Param::Real(spelled) => self.number(spelled),
            Param::Str(body) => self.string(body),
            Param::Enumeration(spelled) => self.item(spelled, logical),
            Param::Binary(digits) => self.binary(digits),
            Param::Ref(number) => self.reference(*number),
            Param::Items(items) => self.list(terms, items, logical),
            Param::Typed(keyword, inner) => self.typed(terms, keyword, inner),
        }
    }

    /// Adds a list of values.
    #[cycle(values)]
    fn list(
        &mut self,
        terms: &Terms<'_>,
        params: &[Param<'_>],
        logical: bool,
    ) -> Result<(), AllocError>
        requires { AllHaveBodies params.now }
        ensures { (w : Where) → (IsTrue logical ↔ IsLogicalAt terms.now w) → OnOk result (Adds terms.now self.old.out self.new.out (list_parts (values_parts w (plain_all params.now)))) }
    {
        self.out.begin_array()?;
        for param in params {
            self.value(terms, param, logical)?;
        }
        self.out.end_array()
    }

    /// Adds a value of a type.
    #[cycle(values)]
    fn typed(
        &mut self,
        terms: &Terms<'_>,
        keyword: &[u8],
        inner: &Param<'_>,
    ) -> Result<(), AllocError>
        requires { HasBodies (plain inner.now) }
        ensures { OnOk result (Adds terms.now self.old.out self.new.out (typed_parts keyword.now (value_parts (typed keyword.now) (plain inner.now)))) }
    {
        self.out.begin_object()?;
        self.out.key("type")?;
        terms.write_type(&mut self.text, keyword)?;
        self.out.string(self.text.as_str())?;
        self.out.key("value")?;
        self.value(terms, inner, terms.is_logical(keyword))?;
        self.out.end_object()
    }

    /// Adds an integer or a real.
    fn number(&mut self, spelled: &[u8]) -> Result<(), AllocError>
        ensures { (s : Schema) → OnOk result (Adds s self.old.out self.new.out (number spelled.now ∷ [])) }
    {
        write_numeral(&mut self.text, spelled)?;
        if is_number(self.text.as_str()) {
            self.out.number(self.text.as_str())
        } else {
            self.out.string(self.text.as_str())
        }
    }

    /// Adds a string, whose body this is.
    fn string(&mut self, body: &[u8]) -> Result<(), AllocError>
        requires { IsBody body.now }
        ensures { (s : Schema) → OnOk result (Adds s self.old.out self.new.out (string body.now ∷ [])) }
    {
        write_string(&mut self.text, body)?;
        self.out.string(self.text.as_str())
    }

    /// Adds an item of an enumeration, or a value of BOOLEAN or LOGICAL.
    fn item(&mut self, spelled: &[u8], logical: bool) -> Result<(), AllocError>
        ensures { (s : Schema) → (w : Where) → (IsTrue logical ↔ IsLogicalAt s w) → OnOk result (Adds s self.old.out self.new.out (item w spelled.now ∷ [])) }
    {
        if logical {
            return self.logical(spelled);
        }
        write_bytes(&mut self.text, spelled)?;
        self.out.string(self.text.as_str())
    }

    /// Adds a value of BOOLEAN or LOGICAL, by its letter.
    fn logical(&mut self, spelled: &[u8]) -> Result<(), AllocError>
        ensures { (s : Schema) → OnOk result (Adds s self.old.out self.new.out (exactly (logical_token spelled.now) ∷ [])) }
    {
        match spelled.first() {
            Some(b'T') => self.out.boolean(true),
            Some(b'F') => self.out.boolean(false),
            _ => self.out.string("UNKNOWN"),
        }
    }

    /// Adds a binary, whose digits these are.
    fn binary(&mut self, digits: &[u8]) -> Result<(), AllocError>
        requires { IsBinaryBody digits.now }
        ensures { (s : Schema) → OnOk result (Adds s self.old.out self.new.out (binary_parts digits.now)) }
    {
        let bits = u64::try_from(binary_bits(digits)).unwrap_or(u64::MAX);
        write_bytes(&mut self.text, behind_first(digits))?;
        self.out.begin_object()?;
        self.out.key("bits")?;
        self.out.u64(bits)?;
        self.out.key("hex")?;
        self.out.string(self.text.as_str())?;
        self.out.end_object()
    }

    /// Adds an instance name.
    fn reference(&mut self, number: u64) -> Result<(), AllocError>
        ensures { (s : Schema) → OnOk result (Adds s self.old.out self.new.out (reference_parts number)) }
    {
        self.out.begin_object()?;
        self.out.key("ref")?;
        self.out.u64(number)?;
        self.out.end_object()
    }
}

/// What stands after the first byte.
fn behind_first(bytes: &[u8]) -> &[u8]
    ensures { result.now ≡ drop 1 bytes.entry.now }
{
    match bytes.split_first() {
        Some((_, rest)) => rest,
        None => bytes,
    }
}
