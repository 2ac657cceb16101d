//! The beginning of a file, up to its first instance, and the checks of its header.

ghost use Rattle.std.specs.Prelude.{◌≤◌, length, IfOk, IfErr, None};
ghost use Rattle.p21_tree.specs.Views.{plain_preface};
ghost use Rattle.p21_tree.specs.Texts.{BeginsPreface};
ghost use Rattle.p21_check.specs.EntityOf.{AreSimpleEntities};
ghost use Rattle.p21_check.specs.Header.{IsHeaderFault};
ghost use Rattle.p21_join.specs.Joined.{joined};
ghost use Rattle.p21_reader.specs.LocalFault.{IsOpeningFault, IsLocalFaultOfFile, HasNoLocalFault};
ghost use Rattle.p21_reader.specs.Steps.{EndsBehind, OnFault};
ghost use Rattle.p21_join.specs.Model.{instances_of, plain_instances};

use crate::first_fault::add_value;
use crate::judged::judge_local;
use crate::stop::Stop;
use p21_check::check_header;
use p21_cut::{Cut, Cutter, first_tokens_of_file};
use p21_join::{Joiner, Model};
use p21_schema::{EntityId, Schema};
use p21_tree::{Fault, InstanceReader, Preface, parts_up_to_fault, read_preface, read_tail};
use std::alloc::Global;

/// The instances of a file that has no local fault, and the entity of each; else that fault.
pub(crate) fn local_model<'a>(
    alloc: Global,
    schema: &Schema,
    file: &'a [u8],
) -> Result<(Model<'a>, Vec<Option<EntityId>>), Stop>
    ensures ok { IfOk result (λ r. HasNoLocalFault schema.now file.now (plain_instances (instances_of r.0))) }
    ensures entities { IfOk result (λ r. AreSimpleEntities schema.now (plain_instances (instances_of r.0)) r.1.items) }
    ensures fault { IfErr result (λ stop. OnFault stop (IsLocalFaultOfFile schema.now file.now)) }
{
    first_tokens_of_file();
    parts_up_to_fault();
    let preface = checked_preface(alloc, schema, file)?;
    let (joiner, entities, tail) = join_pieces(alloc, schema, file, &preface)?;
    read_tail(file, tail)?;
    Ok((joiner.into_model(), entities))
}

/// The preface of a file, whose header section is that of a file of the schema; else the fault that stands before the instances. Memory
/// alone can be refused beside it.
pub fn checked_preface<'a>(
    alloc: Global,
    schema: &Schema,
    file: &'a [u8],
) -> Result<Preface<'a>, Stop>
    // The file begins with this preface.
    ensures begins { IfOk result (λ preface. BeginsPreface file.now (plain_preface preface)) }
    // The place after it is in the file.
    ensures within { IfOk result (λ preface. preface.data_at ≤ length file.now) }
    // Its header has no fault against the schema.
    ensures header { IfOk result (λ preface. IsHeaderFault schema.now (plain_preface preface) None) }
    // This is the fault before the instances.
    ensures fault { IfErr result (λ stop. OnFault stop (IsOpeningFault schema.now file.now)) }
{
    let preface = read_preface(alloc, file)?;
    match check_header(schema, &preface) {
        Ok(()) => Ok(preface),
        Err(kind) => Err(Stop::Fault(Fault {
            kind,
            at: preface.header_at,
        })),
    }
}

/// The instances of all pieces after a preface, the entity of each, and the place of the tail.
fn join_pieces<'a>(
    alloc: Global,
    schema: &Schema,
    file: &'a [u8],
    preface: &Preface<'a>,
) -> Result<(Joiner<'a>, Vec<Option<EntityId>>, usize), Stop>
    requires begins { BeginsPreface file.now (plain_preface preface.now) }
    requires within { preface.now.data_at ≤ length file.now }
    requires header { IsHeaderFault schema.now (plain_preface preface.now) None }
    ensures ok { IfOk result (λ r. EndsBehind schema.now file.now (plain_preface preface.now) (plain_instances (joined r.0)) r.2) }
    ensures entities { IfOk result (λ r. AreSimpleEntities schema.now (plain_instances (joined r.0)) r.1.items) }
    ensures within { IfOk result (λ r. r.2 ≤ length file.now) }
    ensures fault { IfErr result (λ stop. OnFault stop (IsLocalFaultOfFile schema.now file.now)) }
{
    first_tokens_of_file();
    parts_up_to_fault();
    let mut cutter = Cutter::new(file, preface.data_at as usize);
    let mut reader = InstanceReader::new(alloc);
    let mut joiner = Joiner::with_key(alloc, schema.hash_key());
    let mut entities = Vec::new(alloc);
    loop {
        match cutter.next() {
            Cut::Piece(piece) => {
                let judgement = judge_local(schema, &mut reader, piece)?;
                add_value(&mut joiner, &mut entities, judgement)?;
            }
            Cut::Tail(at) => return Ok((joiner, entities, at as usize)),
        }
    }
}
