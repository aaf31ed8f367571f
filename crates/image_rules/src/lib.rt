//! Which records of histograms and of samples the words of an image have (`specs/Records.antt`), and which images may
//! be adopted (`specs/Adoption.antt`).
//!
//! Nothing here runs, and nothing here is about actors: `image_adoption` decides these definitions, and
//! `segment_promises` says what follows from them for a segment that is opened with such words.
#![tactic(auto)]
