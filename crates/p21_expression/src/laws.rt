//! What holds of reading expressions, for those that read them among other things.

ghost use Rattle.std.specs.Prelude.{◌≡◌, ◌<◌, ◌≤◌, ℕ, List, Some, length};
ghost use Rattle.p21_express.specs.Word.{Word};
ghost use Rattle.p21_expression.specs.Grammar.{AreQualifiers, IsExpression, IsSimple};
ghost use Rattle.p21_expression.specs.Reader.{all_qualifiers_at, expression_at, simple_at};
ghost use Rattle.p21_expression.specs.Rules.{AreRules, DomainRule, RuleIs, rule_at, rules_at};
ghost use Rattle.p21_expression.specs.Tree.{Qualifier, Tree};

/// An expression takes a word at least, and qualifiers and rules add none. So a loop that reads such things comes to an end.
pub fn reading_takes_words()
    ensures expression { (ws : List Word) (x : Tree × List Word) → expression_at ws ≡ Some x → length x.1 < length ws }
    ensures simple { (ws : List Word) (x : Tree × List Word) → simple_at ws ≡ Some x → length x.1 < length ws }
    ensures qualifiers { (ws : List Word) (x : List Qualifier × List Word) → all_qualifiers_at ws ≡ Some x → length x.1 ≤ length ws }
    ensures rules { (last : List ℕ) (ws : List Word) (x : List DomainRule × List Word) → rules_at last ws ≡ Some x → length x.1 ≤ length ws }
{}

/// What is read is so by the grammar.
pub fn reading_is_grammatical()
    ensures expression { (ws : List Word) (x : Tree × List Word) → expression_at ws ≡ Some x → IsExpression ws x.0 x.1 }
    ensures simple { (ws : List Word) (x : Tree × List Word) → simple_at ws ≡ Some x → IsSimple ws x.0 x.1 }
    ensures qualifiers { (ws : List Word) (x : List Qualifier × List Word) → all_qualifiers_at ws ≡ Some x → AreQualifiers ws x.0 x.1 }
    ensures rule { (ws : List Word) (x : DomainRule × List Word) → rule_at ws ≡ Some x → RuleIs ws x.0 x.1 }
    ensures rules { (last : List ℕ) (ws : List Word) (x : List DomainRule × List Word) → rules_at last ws ≡ Some x → AreRules last ws x.0 x.1 }
{}
