//! Laws of the definitions: what each function ensures holds of every list of tokens. A caller calls one to learn its law.

ghost use Rattle.p21_tree.specs.Fault.{files, instances, pieces, prefaces, tails};
ghost use Rattle.p21_tree.specs.Laws.{FaultsAreOfTokens, HasAnswer, HasOneFaultAtMost, HasOneTree, NoneBeginsAnother, PieceFaultsAreOfTokens, PrefaceFaultsAreOfTokens};
ghost use Rattle.p21_tree.specs.InOrder.{InstanceHasOneSemi, NoFaultBehindSemi, PartsGiveFile, PieceFaultIsOfFile, PieceIsInstance, PrefaceFaultIsOfFile, PrefaceOrFault, TailFaultIsOfFile};

use p21_text::first_is_unique;

/// A list of tokens that ends with the end of the text, or where no token begins, is a file or has a fault; the same
/// of prefaces, pieces and tails.
///
/// Of a list that ends with End or Bad and has neither elsewhere.
pub fn one_answer()
    ensures of_files { HasAnswer files }
    ensures of_prefaces { HasAnswer prefaces }
    ensures of_pieces { HasAnswer pieces }
    ensures of_tails { HasAnswer tails }
{}

/// A list of tokens that is a file has no fault, and one that is none has one fault at most; the same of prefaces,
/// pieces and tails.
pub fn one_fault_at_most()
    ensures of_files { HasOneFaultAtMost files }
    ensures of_prefaces { HasOneFaultAtMost prefaces }
    ensures of_pieces { HasOneFaultAtMost pieces }
    ensures of_tails { HasOneFaultAtMost tails }
{}

/// A list of tokens is one file at most, one preface at most and one instance at most.
pub fn one_tree()
    ensures { HasOneTree }
{}

/// No preface is a proper beginning of another; the same of files, instances, pieces and tails. So a list of tokens
/// begins with one at most.
///
/// No preface is a proper prefix of another preface; the same of instances, pieces, tails and files, each kind by
/// itself.
pub fn one_beginning()
    ensures of_files { NoneBeginsAnother files }
    ensures of_prefaces { NoneBeginsAnother prefaces }
    ensures of_instances { NoneBeginsAnother instances }
    ensures of_pieces { NoneBeginsAnother pieces }
    ensures of_tails { NoneBeginsAnother tails }
{}

/// Reading the preface of a file, its pieces and its tail in order gives the tree of the file, or its fault with the
/// instances that stand whole before it.
pub fn parts_in_order()
    // The tokens of a file begin with a preface; or they do not, and have a fault that is that of the preface and of
    // the file.
    ensures of_preface { PrefaceOrFault }
    // After a preface, reading the pieces and the tail in order gives the tree of the file, or its fault with the
    // instances that are whole before it.
    ensures behind_preface { PartsGiveFile }
{}

/// Reading the parts of a file in order up to the first fault gives the fault of the file, whatever stands after it.
pub fn parts_up_to_fault()
    // The fault of a preface that is not whole before it is the fault of the file, whatever follows it.
    ensures of_prefaces { PrefaceFaultIsOfFile }
    // The same of the fault of a piece before its semicolon, after a preface and whole instances.
    ensures of_pieces { PieceFaultIsOfFile }
    // The same of the fault of the tail.
    ensures of_tails { TailFaultIsOfFile }
    // Tokens that are a piece are, without their End, an instance, and have a semicolon.
    ensures whole { PieceIsInstance }
    // An End right after the first semicolon is no fault of a piece.
    ensures behind { NoFaultBehindSemi }
{}

/// An instance begins with a name, and of its tokens the last, and no other, is a semicolon.
pub fn one_semicolon()
    ensures { InstanceHasOneSemi }
{}

/// A fault that a reader finds in a text is the fault of the text's tokens.
pub fn faults_of_tokens()
    ensures of_files { FaultsAreOfTokens files }
    ensures of_prefaces { PrefaceFaultsAreOfTokens }
    ensures of_pieces { PieceFaultsAreOfTokens }
    ensures of_tails { FaultsAreOfTokens tails }
{
    first_is_unique();
}
