//! Who hears what a run finds.

use p21_express::SchemaError;
use p21_schema::Schema;
use p21_tree::Fault;

/// Who hears how far a run is, and the faults that it finds, before it writes the report. What it does with them is its own affair: no
/// contract of a run hangs on it.
pub trait Listener {
    /// Hears the text of the schema, where it is accepted, before the file is read.
    fn hear_schema(&mut self, _text: &[u8]) {}

    /// Hears that all bytes of the file are there: its instances are read next.
    fn hear_file(&mut self, file: &[u8]);

    /// Hears that the file was checked: its report is made next.
    fn hear_checked(&mut self);

    /// Hears that the report is made: it is written next.
    fn hear_made(&mut self);

    /// Hears the faults of a file that was checked against a schema: those that the report tells, in its order. It is not called for a
    /// file without a fault.
    fn hear(&mut self, schema: &Schema, file: &[u8], faults: &[Fault]);

    /// Hears why the text of a schema is refused: what the report tells.
    fn hear_refused(&mut self, text: &[u8], error: &SchemaError);

    /// Is handed what was read of the file, when the report is made and nothing more is asked of it. It drops it; who ends right after
    /// the run may forget it, and so save the time of going through it.
    fn let_go<T: Drop>(&mut self, _read: T) {}
}

/// Hears and forgets.
#[derive(Clone, Copy, Debug)]
pub struct Silent;

impl Listener for Silent {
    fn hear_file(&mut self, _file: &[u8]) {}

    fn hear_checked(&mut self) {}

    fn hear_made(&mut self) {}

    fn hear(&mut self, _schema: &Schema, _file: &[u8], _faults: &[Fault]) {}

    fn hear_refused(&mut self, _text: &[u8], _error: &SchemaError) {}
}
