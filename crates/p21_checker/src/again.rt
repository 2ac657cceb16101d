//! Reference faults, told in full: the instances that have them are read again.

ghost use Rattle.std.specs.Prelude.{◌≡◌, ◌≤◌, length, None, IfOk};
ghost use Rattle.p21_cut.specs.Cutter.{plain_piece};
ghost use Rattle.p21_check.specs.LocalFault.{IsLocalFault};
ghost use Rattle.p21_check.specs.References.{IsReferenceFault, named_in};
ghost use Rattle.p21_join.specs.Model.{plain_instances};
ghost use Rattle.p21_outline.specs.Outline.{AreOutlined, outlined_instances};
ghost use Rattle.p21_refs.specs.AllReferenceFaults.{AreReferenceFaults};
ghost use Rattle.p21_tree.specs.Sentence.{Instance};
ghost use Rattle.p21_checker.specs.Again.{AreTexts, IsFaultOf, IsTextOf};

use p21_cut::{Cut, Cutter, pieces_are_unique};
use p21_outline::Outline;
use p21_schema::Schema;
use p21_text::tokens_are_unique;
use p21_tree::{
    Fault, InstanceReader, Piece, TreeError, faults_of_tokens, one_fault_at_most, one_tree,
};
use std::alloc::{AllocError, Global};
use std::thread::Threads;

/// The reference faults of the instances of a file by their outline: of each instance that has one, in their order, its first. The data
/// section begins at a place, and its pieces are the texts of the instances: those of instances that are at fault are read again.
pub(crate) fn reference_faults<R: Threads + Sync>(
    rt: &R,
    alloc: Global,
    schema: &Schema,
    file: &[u8],
    at: usize,
    outline: &Outline<'_>,
) -> Result<Vec<Fault>, AllocError>
    requires within { at ≤ length file.now }
    requires outlined { AreOutlined schema.now outline.now }
    requires texts { AreTexts file.now at 0 (plain_instances (outlined_instances outline.now)) }
    ensures { IfOk result (λ faults. AreReferenceFaults schema.now (plain_instances (outlined_instances outline.now)) (plain_instances (outlined_instances outline.now)) faults.items) }
{
    pieces_are_unique();
    let faulty = outline.faultiness(rt, alloc, schema)?;
    if !faulty.as_slice().contains(&true) {
        return Ok(Vec::new(alloc));
    }
    let mut cutter = Cutter::new(file, at);
    let mut reader = InstanceReader::new(alloc);
    let mut faults = Vec::new(alloc);
    for is_faulty in faulty.as_slice() {
        let Cut::Piece(piece) = cutter.next() else {
            unreachable!()
        };
        if *is_faulty {
            faults.push(fault_of(schema, outline, &mut reader, piece)?)?;
        }
    }
    Ok(faults)
}

/// The reference fault of the instance of a piece, which has one.
fn fault_of<'a>(
    schema: &Schema,
    outline: &Outline<'_>,
    reader: &mut InstanceReader<'a>,
    piece: Piece<'a>,
) -> Result<Fault, AllocError>
    requires outlined { AreOutlined schema.now outline.now }
    requires instance { (i : Instance) × IsTextOf (plain_piece piece) i × IsLocalFault schema.now i None × ¬ (IsReferenceFault schema.now (named_in (plain_instances (outlined_instances outline.now))) i None) }
    ensures { (i : Instance) → IsTextOf (plain_piece piece.entry) i → IfOk result (IsFaultOf schema.now (plain_instances (outlined_instances outline.now)) i) }
{
    tokens_are_unique();
    one_tree();
    one_fault_at_most();
    faults_of_tokens();
    let instance = match reader.read(piece) {
        Ok(instance) => instance,
        Err(TreeError::Grammar(_)) => unreachable!(),
        Err(TreeError::Memory) => return Err(AllocError),
    };
    match outline.reference_fault(schema, &instance) {
        Err(kind) => Ok(Fault {
            kind,
            at: instance.at,
        }),
        Ok(()) => unreachable!(),
    }
}
