//! Laws of the definitions: what each function ensures holds of every expression and statement. A caller calls one to learn its law.

ghost use Rattle.std.specs.Prelude.{ℕ};
ghost use Rattle.p21_values.specs.declared.operators.BinaryOperator.TheVariants.{And, Or};
ghost use Rattle.p21_evaluate.specs.Laws.{Commutes, ExpressionDeepens, NoneIsTrue, StatementDeepens};

/// What an expression or a statement means within a depth, it means within each greater one.
pub fn depth_plays_no_part()
    ensures expressions { (n m : ℕ) → ExpressionDeepens n m }
    ensures statements { (n m : ℕ) → StatementDeepens n m }
{}

/// AND and OR give what they give in either order of their operands.
pub fn order_plays_no_part()
    ensures and { Commutes And }
    ensures or { Commutes Or }
{}

/// `SIZEOF(QUERY(x <* over | condition)) = 0` is TRUE of an aggregate that is no array exactly where the condition is TRUE of no element.
pub fn none_is_true()
    ensures { NoneIsTrue }
{}
