//! What follows from the definitions.

ghost use Rattle.std.specs.Prelude.{◌≡◌, ℕ, List, false};
ghost use Rattle.p21_express.specs.Schema.{Expr, Schema};
ghost use Rattle.p21_json.specs.Characters.{text_of_items};
ghost use Rattle.p21_text.specs.Items.{Item, ItemsOf};
ghost use Rattle.p21_tree.specs.Tree.{str};
ghost use Rattle.p21_rules.specs.Means.{Means};
ghost use Rattle.p21_rules.specs.Text.{has_replacement};
ghost use Rattle.p21_rules.specs.Value.{Value};

use p21_text::items_are_unique;

/// Strings of one text without the character U+FFFD are one value, whatever directives spell them and of whatever types they are; and strings of different
/// texts are not.
pub fn one_value_of_a_text()
    // Strings of one text without U+FFFD are one value, whatever directives spell them and of whatever types they
    // are.
    ensures same { (s : Schema) (x y : Expr) (b c : List ℕ) (is js : List Item) (v : Value) → ItemsOf b is → ItemsOf c js → has_replacement (text_of_items is) ≡ false → text_of_items is ≡ text_of_items js → Means s x (str b) v → Means s y (str c) v }
    // Strings of different texts without U+FFFD are different values.
    ensures different { (s : Schema) (x y : Expr) (b c : List ℕ) (is js : List Item) (v : Value) → ItemsOf b is → ItemsOf c js → has_replacement (text_of_items is) ≡ false → Means s x (str b) v → Means s y (str c) v → text_of_items is ≡ text_of_items js }
{
    items_are_unique();
}
