//! What was read, and what is wrong with it.

use crate::left_out::path_of;
use crate::origins::Origins;
use fault_texts::{Origin, Source};
use image_reader::Reading;
use persist_report_core::{CliFault, damage_of};
use reading_shows::{Choice, Source as TextSource, first_missing};
use reading_sums::Sums;
use report_streams::{Context, Failure, FaultContext, Noted, failure_of, remedies_of};
use std::alloc::{AllocError, Global};
use sum_texts::Totals;
use text_forms::{Head, Subject};

/// What was read: an image, or a sum.
#[derive(Drop)]
pub struct Found {
    subject: Subject,
    // The sum whole, if it is one.
    totals: Option<Totals>,
    // Whether an image of the sum is not whole.
    is_damaged: bool,
    // Where it comes from, and of an image its bytes, if a copy was kept.
    origins: Origins,
    copy: Option<Vec<u8>>,
}

// The fault of the first name that a choice asks for and that no histogram has, if there is one.
fn missing_in(
    alloc: Global,
    choice: &Choice<'_>,
    reading: &Reading,
) -> Result<Option<CliFault>, AllocError> {
    match first_missing(choice, reading) {
        Some(name) => {
            let name = Vec::from_slice(alloc, name.as_bytes())?;
            Ok(Some(CliFault::NoHistogram(name)))
        }
        None => Ok(None),
    }
}

impl Found {
    // An image that an input had.
    pub(crate) fn of_image<R: AllocGlobal, I: Drop>(
        context: &Context<'_, R>,
        subject: Subject,
        input: Noted<'_, I>,
    ) -> Result<Found, Failure> {
        let origins = Origins::one(context.alloc(), path_of(input.origin()))?;
        Ok(Found {
            subject,
            totals: None,
            is_damaged: false,
            origins,
            copy: input.into_copy(),
        })
    }

    // A sum, of which this many inputs were left out. `NotWhole` if it is not well formed.
    pub(crate) fn of_sum<R: AllocGlobal>(
        context: &Context<'_, R>,
        sums: Sums,
        is_damaged: bool,
        left: u64,
        origins: Origins,
    ) -> Result<Found, Failure> {
        let alloc = context.alloc();
        let Some(subject) = Subject::of_sum(alloc, &sums, left)? else {
            return Err(Failure::NotWhole(remedies_of(context, "NotWhole")));
        };
        let totals = Totals {
            sums,
            of: Vec::new(alloc),
            fold: None,
        };
        Ok(Found {
            subject,
            totals: Some(totals),
            is_damaged,
            origins,
            copy: None,
        })
    }

    /// Returns what its texts are made of.
    pub fn subject(&self) -> &Subject {
        &self.subject
    }

    /// Returns the same, of what is needed no more.
    pub fn into_subject(self) -> Subject {
        self.subject
    }

    /// Returns the sum whole, if it is one.
    pub fn totals(&self) -> Option<&Totals> {
        self.totals.as_ref()
    }

    /// Returns where it comes from, as a web page names it.
    pub fn source(&self) -> TextSource<'_> {
        self.origins.source()
    }

    /// Returns what the lines of a fault are about: where an image comes from and its bytes, if a copy was kept.
    pub fn input(&self) -> Source<'_, '_> {
        Source {
            origin: self.origins.first(),
            bytes: self.copy.as_deref().unwrap_or_default(),
        }
    }

    // The failure of a fault of the image.
    fn image_failure<R: AllocGlobal>(&self, context: &Context<'_, R>, fault: CliFault) -> Failure {
        let known = FaultContext {
            input: self.input(),
            base: None,
            device: Origin::Output,
            reason: None,
        };
        failure_of(context, fault, known)
    }

    // What is wrong with an image.
    fn wrong_image<R: AllocGlobal>(
        &self,
        context: &Context<'_, R>,
        choice: &Choice<'_>,
        wants_whole: bool,
    ) -> Result<(), Failure> {
        let reading = self.subject.reading();
        if wants_whole && let Some(fault) = damage_of(reading) {
            return Err(self.image_failure(context, fault));
        }
        match missing_in(context.alloc(), choice, reading)? {
            Some(fault) => Err(self.image_failure(context, fault)),
            None => Ok(()),
        }
    }

    // What is wrong with a sum, of which this many inputs were left out.
    fn wrong_sum<R: AllocGlobal>(
        &self,
        context: &Context<'_, R>,
        choice: &Choice<'_>,
        wants_whole: bool,
        left: u64,
    ) -> Result<(), Failure> {
        if wants_whole && self.is_damaged {
            return Err(Failure::NotWhole(remedies_of(context, "NotWhole")));
        }
        if let Some(fault) = missing_in(context.alloc(), choice, self.subject.reading())? {
            let lines = remedies_of(context, "NoHistogram");
            return Err(Failure::Explained(fault, lines));
        }
        if left > 0 {
            return Err(Failure::Left);
        }
        Ok(())
    }

    /// Returns what is wrong with it, which comes after a text: it is not whole, and has to be; it lacks a histogram
    /// that is asked for by its name; or inputs were left out of the sum. The first of these is the failure.
    pub fn wrong<R: AllocGlobal>(
        &self,
        context: &Context<'_, R>,
        choice: &Choice<'_>,
        wants_whole: bool,
    ) -> Result<(), Failure> {
        match self.subject.head() {
            Head::Sum(said) => self.wrong_sum(context, choice, wants_whole, said.left),
            Head::Image(_) | Head::Unknown => self.wrong_image(context, choice, wants_whole),
        }
    }
}
