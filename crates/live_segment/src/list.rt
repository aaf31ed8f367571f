//! The list of records: what is put on it, who walks along it, and who is given its records.

pub(crate) mod index;
pub(crate) mod keys;
pub(crate) mod publish;
pub(crate) mod sample_records;
pub(crate) mod shared_cursors;
pub(crate) mod walk;
