//! What stands before the instances of a model.

ghost use Rattle.std.specs.Prelude.{◌≤◌, List, Ok, IfOk, length};
ghost use Rattle.p21_tree.specs.Sentence.{Instance};
ghost use Rattle.p21_tree.specs.Texts.{BeginsPreface};
ghost use Rattle.p21_tree.specs.Views.{plain_preface};
ghost use Rattle.p21_reader.specs.Reading.{IsReading};

use p21_check::check_header;
use p21_reader::one_reading;
use p21_schema::Schema;
use p21_tree::{Preface, TreeError, read_preface};
use std::alloc::{AllocError, Global};

/// What stands before the instances of a file that was read against a schema without a fault. Memory alone can fail.
pub fn preface_of_model<'a>(
    alloc: Global,
    schema: &Schema,
    file: &'a [u8],
) -> Result<Preface<'a>, AllocError>
    requires { (is : List Instance) × IsReading schema.now file.now (Ok is) }
    // It is the preface with which the file begins.
    ensures begins { IfOk result (λ preface. BeginsPreface file.now (plain_preface preface)) }
    // It has three entities at least.
    ensures entities { IfOk result (λ preface. 3 ≤ length preface.entities.items) }
{
    one_reading();
    match read_preface(alloc, file) {
        Ok(preface) => match check_header(schema, &preface) {
            Ok(()) => Ok(preface),
            Err(_) => unreachable!(),
        },
        Err(TreeError::Grammar(_)) => unreachable!(),
        Err(TreeError::Memory) => Err(AllocError),
    }
}
