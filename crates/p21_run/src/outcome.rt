//! How a run ends.

/// How a run over a schema and a file ended.
#[derive(Clone, Copy, Debug, PartialEq, Eq)]
pub enum Outcome {
    /// The file was read against the schema: the report of its model is written.
    Complete,
    /// The file has a fault: its line is written.
    Faulty,
    /// The schema has a fault: its line is written.
    SchemaRefused,
    /// A reader or the writer failed, or a bound on bytes or calls was passed. A front of the report may be written.
    Device,
    /// Memory was refused, or a thread for a lane. Nothing is written.
    Memory,
}
