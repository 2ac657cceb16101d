//! The words of the language, which are no names.

ghost use Rattle.std.specs.Prelude.{◌≡◌};
ghost use Rattle.p21_expression.specs.Reserved.{is_reserved, is_operator_word, is_statement_word, is_end_word, is_part_word, is_declaration_word, is_type_word};

/// Whether this is a word that joins operands, or stands for one.
#[tactic(auto, unfolding(crate::specs::Reserved::is_operator_word))]
fn is_operator_word(word: &[u8]) -> bool
    ensures { result ≡ is_operator_word word.now }
{
    if word == b"AND".as_slice() {
        return true;
    }
    if word == b"ANDOR".as_slice() {
        return true;
    }
    if word == b"DIV".as_slice() {
        return true;
    }
    if word == b"FALSE".as_slice() {
        return true;
    }
    if word == b"IN".as_slice() {
        return true;
    }
    if word == b"LIKE".as_slice() {
        return true;
    }
    if word == b"MOD".as_slice() {
        return true;
    }
    if word == b"NOT".as_slice() {
        return true;
    }
    if word == b"OR".as_slice() {
        return true;
    }
    if word == b"QUERY".as_slice() {
        return true;
    }
    if word == b"TRUE".as_slice() {
        return true;
    }
    if word == b"UNKNOWN".as_slice() {
        return true;
    }
    if word == b"XOR".as_slice() {
        return true;
    }
    false
}

/// Whether this is a word with which a statement begins.
#[tactic(auto, unfolding(crate::specs::Reserved::is_statement_word))]
fn is_statement_word(word: &[u8]) -> bool
    ensures { result ≡ is_statement_word word.now }
{
    if word == b"ALIAS".as_slice() {
        return true;
    }
    if word == b"BEGIN".as_slice() {
        return true;
    }
    if word == b"CASE".as_slice() {
        return true;
    }
    if word == b"ESCAPE".as_slice() {
        return true;
    }
    if word == b"IF".as_slice() {
        return true;
    }
    if word == b"REPEAT".as_slice() {
        return true;
    }
    if word == b"RETURN".as_slice() {
        return true;
    }
    if word == b"SKIP".as_slice() {
        return true;
    }
    false
}

/// Whether this is a word that ends what another begins.
#[tactic(auto, unfolding(crate::specs::Reserved::is_end_word))]
fn is_end_word(word: &[u8]) -> bool
    ensures { result ≡ is_end_word word.now }
{
    if word == b"END".as_slice() {
        return true;
    }
    if word == b"END_ALIAS".as_slice() {
        return true;
    }
    if word == b"END_CASE".as_slice() {
        return true;
    }
    if word == b"END_CONSTANT".as_slice() {
        return true;
    }
    if word == b"END_ENTITY".as_slice() {
        return true;
    }
    if word == b"END_FUNCTION".as_slice() {
        return true;
    }
    if word == b"END_IF".as_slice() {
        return true;
    }
    if word == b"END_LOCAL".as_slice() {
        return true;
    }
    if word == b"END_PROCEDURE".as_slice() {
        return true;
    }
    if word == b"END_REPEAT".as_slice() {
        return true;
    }
    if word == b"END_RULE".as_slice() {
        return true;
    }
    if word == b"END_SCHEMA".as_slice() {
        return true;
    }
    if word == b"END_TYPE".as_slice() {
        return true;
    }
    false
}

/// Whether this is a word within a statement or a declaration.
#[tactic(auto, unfolding(crate::specs::Reserved::is_part_word))]
fn is_part_word(word: &[u8]) -> bool
    ensures { result ≡ is_part_word word.now }
{
    if word == b"BY".as_slice() {
        return true;
    }
    if word == b"ELSE".as_slice() {
        return true;
    }
    if word == b"FIXED".as_slice() {
        return true;
    }
    if word == b"FOR".as_slice() {
        return true;
    }
    if word == b"OF".as_slice() {
        return true;
    }
    if word == b"OPTIONAL".as_slice() {
        return true;
    }
    if word == b"OTHERWISE".as_slice() {
        return true;
    }
    if word == b"THEN".as_slice() {
        return true;
    }
    if word == b"TO".as_slice() {
        return true;
    }
    if word == b"UNTIL".as_slice() {
        return true;
    }
    if word == b"VAR".as_slice() {
        return true;
    }
    if word == b"WHERE".as_slice() {
        return true;
    }
    if word == b"WHILE".as_slice() {
        return true;
    }
    false
}

/// Whether this is a word with which a declaration or a part of one begins.
#[tactic(auto, unfolding(crate::specs::Reserved::is_declaration_word))]
fn is_declaration_word(word: &[u8]) -> bool
    ensures { result ≡ is_declaration_word word.now }
{
    if word == b"CONSTANT".as_slice() {
        return true;
    }
    if word == b"DERIVE".as_slice() {
        return true;
    }
    if word == b"ENTITY".as_slice() {
        return true;
    }
    if word == b"FUNCTION".as_slice() {
        return true;
    }
    if word == b"INVERSE".as_slice() {
        return true;
    }
    if word == b"LOCAL".as_slice() {
        return true;
    }
    if word == b"PROCEDURE".as_slice() {
        return true;
    }
    if word == b"RULE".as_slice() {
        return true;
    }
    if word == b"SCHEMA".as_slice() {
        return true;
    }
    if word == b"SUBTYPE".as_slice() {
        return true;
    }
    if word == b"SUPERTYPE".as_slice() {
        return true;
    }
    if word == b"TYPE".as_slice() {
        return true;
    }
    if word == b"UNIQUE".as_slice() {
        return true;
    }
    false
}

/// Whether this is a word with which a type begins.
#[tactic(auto, unfolding(crate::specs::Reserved::is_type_word))]
fn is_type_word(word: &[u8]) -> bool
    ensures { result ≡ is_type_word word.now }
{
    if word == b"AGGREGATE".as_slice() {
        return true;
    }
    if word == b"ARRAY".as_slice() {
        return true;
    }
    if word == b"BAG".as_slice() {
        return true;
    }
    if word == b"BINARY".as_slice() {
        return true;
    }
    if word == b"BOOLEAN".as_slice() {
        return true;
    }
    if word == b"ENUMERATION".as_slice() {
        return true;
    }
    if word == b"GENERIC".as_slice() {
        return true;
    }
    if word == b"INTEGER".as_slice() {
        return true;
    }
    if word == b"LIST".as_slice() {
        return true;
    }
    if word == b"LOGICAL".as_slice() {
        return true;
    }
    if word == b"NUMBER".as_slice() {
        return true;
    }
    if word == b"REAL".as_slice() {
        return true;
    }
    if word == b"SELECT".as_slice() {
        return true;
    }
    if word == b"SET".as_slice() {
        return true;
    }
    if word == b"STRING".as_slice() {
        return true;
    }
    false
}

/// Whether this is a word of the language, in upper case, and so no name. The functions, procedures and constants that the language names are none here:
/// they stand where names stand.
pub fn is_reserved(word: &[u8]) -> bool
    ensures { result ≡ is_reserved word.now }
{
    is_operator_word(word)
        || is_statement_word(word)
        || is_end_word(word)
        || is_part_word(word)
        || is_declaration_word(word)
        || is_type_word(word)
}
