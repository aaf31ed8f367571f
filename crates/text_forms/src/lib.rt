//! Every text of a reading by one path: a subject, which is what is read, and a form, in which it is written.
//!
//! A [`Subject`] is a reading with its [`Head`]: of an image its header, of a sum what it says beside its reading, and of
//! a reading alone nothing. Each [`Form`] has one text of it, which `specs/Forms.antt` defines over the rows that every
//! text of a reading is made of. Each text is composed in memory and only then written, so a part of a text is written
//! only if the writer fails.
//!
//! [`write_form`] writes the text of a subject, and [`write_text`] that of the image which a reader has left.
#![tactic(auto)]

mod form;
mod head;
mod headed;
mod laws;
mod subject;
mod writing;

pub use form::Form;
pub use head::{Head, SumSaid};
pub use laws::{images_have_their_texts, sums_have_their_reports};
pub use subject::Subject;
pub use writing::{write_form, write_text};
