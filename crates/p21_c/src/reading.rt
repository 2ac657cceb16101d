//! Reading schemas and files, and giving them back.

use crate::codes::{CFault, FAULT, HANDLE, MEMORY, OK, file_fault, schema_fault};
use crate::handle::Handle;
use crate::held::{Held, HeldModel, HeldSchema};
use crate::owner::Owner;
use p21_express::{SchemaError, read_declarations};
use p21_hash::HashKey;
use p21_join::Model;
use p21_json::Terms;
use p21_reader::{ReadError, Reading, read_serial};
use p21_schema::{Rules, Schema};
use p21_spelling::spell_names;
use p21_tree::Fault;
use std::alloc::{AllocError, Global};
use std::ptr::NonNull;

/// Why there is no model.
enum Refusal {
    Fault(Fault),
    Memory,
}

impl From<AllocError> for Refusal {
    ghost use Rattle.p21_c.specs.declared.reading.Refusal.TheVariants.{Memory};
    ghost use Rattle.std.specs.Prelude.{◌≡◌};

    ghost from_gives = { λ _ e. e ≡ Memory };

    fn from(_error: AllocError) -> Refusal {
        Refusal::Memory
    }
}

/// Reads the text of a schema.
///
/// It hands on the results of `read_declarations`, `spell_names` and `Schema::build_with_key`: the schema is the
/// reading of the text.
#[unsafe(no_mangle)]
pub extern "C" fn p21_schema_read(
    alloc: Global,
    text: &[u8],
    key: u64,
    out: &mut *mut u8,
    fault: &mut CFault,
) -> i32 {
    match schema_of(alloc, text, key) {
        Ok(schema) => hand_out(alloc, Held::Schema(schema), out),
        Err(error) => tell_refused(error, fault),
    }
}

/// Tells why the text of a schema is refused.
pub(crate) fn tell_refused(error: SchemaError, fault: &mut CFault) -> i32 {
    match schema_fault(error) {
        Some(told) => {
            *fault = told;
            FAULT
        }
        None => MEMORY,
    }
}

/// Reads a file, and checks it against a schema.
///
/// It hands on the result of `read_serial`: the model is the reading of the file against the schema, or the fault is
/// the first.
#[unsafe(no_mangle)]
pub extern "C" fn p21_read(
    alloc: Global,
    schema: Handle,
    file: &'static [u8],
    out: &mut *mut u8,
    fault: &mut CFault,
) -> i32 {
    let Some(Held::Schema(schema)) = schema.get() else {
        return HANDLE;
    };
    match model_of(alloc, schema, file) {
        Ok(model) => hand_out(alloc, Held::Model(model), out),
        Err(Refusal::Fault(found)) => {
            *fault = file_fault(found);
            FAULT
        }
        Err(Refusal::Memory) => MEMORY,
    }
}

/// Lets go of what a schema or a model holds. The place itself is freed by C.
///
/// Tested.
#[unsafe(no_mangle)]
pub extern "C" fn p21_clear(owner: Owner) {
    if let Some(held) = owner.get() {
        *held = Held::Nothing;
    }
}

/// The schema of a text.
fn schema_of(alloc: Global, text: &[u8], key: u64) -> Result<HeldSchema, SchemaError> {
    let declarations = read_declarations(alloc, text)?;
    let spellings = spell_names(alloc, text, &declarations)?;
    let rules = Rules { distinct: false };
    let schema = Schema::build_with_key(alloc, declarations, rules, HashKey::new(key))?;
    Ok(HeldSchema { schema, spellings })
}

/// The model of a file.
fn model_of(
    alloc: Global,
    schema: &'static HeldSchema,
    file: &'static [u8],
) -> Result<HeldModel, Refusal> {
    let model = read(alloc, &schema.schema, file)?;
    let terms = Terms::new(alloc, &schema.schema, &schema.spellings)?;
    Ok(HeldModel { terms, model, file })
}

/// Reads a file.
fn read<'a>(alloc: Global, schema: &Schema, file: &'a [u8]) -> Result<Model<'a>, Refusal> {
    match read_serial(alloc, schema, file) {
        Ok(reading) => {
            let Reading {
                answer,
                receipts: _,
                returned: _,
                dealt: _,
            } = reading;
            match answer {
                Ok(model) => Ok(model),
                Err(fault) => Err(Refusal::Fault(fault)),
            }
        }
        Err(ReadError::Memory) => Err(Refusal::Memory),
    }
}

/// Hands out the place of what C holds from now on.
pub(crate) fn hand_out(alloc: Global, held: Held, out: &mut *mut u8) -> i32 {
    match Box::new(alloc, held) {
        Ok(boxed) => {
            let place: &'static mut Held = Box::leak(boxed);
            *out = NonNull::from_mut(place).cast::<u8>().as_ptr();
            OK
        }
        Err(_) => MEMORY,
    }
}
