//! The texts of parameters.

ghost use Rattle.std.specs.Prelude.{◌≡◌, ◌++◌, OnOk, drop, length, min, string_bytes, take};
ghost use Rattle.p21_tree.specs.Bodies.{HasBodies};
ghost use Rattle.p21_tree.specs.Plain.{plain};
ghost use Rattle.p21_query.specs.Text.{IsTextOf};

use p21_json::{Terms, write_bytes, write_string};
use p21_tree::Param;
use std::alloc::AllocError;

/// Makes a text of a parameter: of an integer, a real or an enumeration as it is spelled, of a string its characters, of a binary its digits,
/// of a typed one the name of its type. Of another the text is empty.
pub fn write_text(terms: &Terms<'_>, text: &mut String, param: &Param<'_>) -> Result<(), AllocError>
    requires { HasBodies (plain param.now) }
    ensures { OnOk result (IsTextOf (plain param.now) (string_bytes text.new)) }
{
    match param {
        Param::Int(spelled) => write_bytes(text, spelled),
        Param::Real(spelled) => write_bytes(text, spelled),
        Param::Str(body) => write_string(text, body),
        Param::Enumeration(spelled) => write_bytes(text, spelled),
        Param::Binary(digits) => write_bytes(text, digits),
        Param::Typed(keyword, _) => terms.write_type(text, keyword),
        Param::Absent | Param::Derived | Param::Ref(_) | Param::Items(_) => {
            text.clear();
            Ok(())
        }
    }
}

/// Copies as much of a text as there is room for.
pub fn copy_front(text: &[u8], room: &mut [u8])
    // The room has as much of the text as there is room for, and after it what it had.
    ensures { room.new ≡ take (length room.old) text.now ++ drop (length text.now) room.old }
{
    let count = text.len().min(room.len());
    room[..count].copy_from_slice(&text[..count]);
}
