//! Strings as bytes.

ghost use Rattle.std.specs.Prelude.{◌≡◌, ◌++◌, OnOk};
ghost use Rattle.p21_text.specs.Items.{IsBody};
ghost use Rattle.p21_rules.specs.Code.{value_code};
ghost use Rattle.p21_rules.specs.Text.{has_replacement, IsTextValue};
ghost use Rattle.p21_rules.specs.Value.{Value};

use crate::code::push_bytes;
use p21_json::write_string;
use std::alloc::AllocError;

/// Whether a text in UTF-8 has the character U+FFFD.
fn has_replacement(text: &[u8]) -> bool
    ensures { result ≡ has_replacement text.now }
{
    for place in 0..text.len() {
        if text[place..].starts_with(&[0xEF, 0xBF, 0xBD]) {
            return true;
        }
    }
    false
}

/// Adds a string: by its characters; by what is written where one of them is U+FFFD, as which also reads what is no character.
pub(crate) fn push_text(code: &mut Vec<u8>, body: &[u8]) -> Result<(), AllocError>
    requires { IsBody body.now }
    ensures { OnOk result ((v : Value) × IsTextValue body.now v × (code.new.items ≡ code.old.items ++ value_code v)) }
{
    let mut text = String::new(*code.allocator());
    write_string(&mut text, body)?;
    if has_replacement(text.as_bytes()) {
        code.push(9)?;
        return push_bytes(code, body);
    }
    code.push(2)?;
    push_bytes(code, text.as_bytes())
}
