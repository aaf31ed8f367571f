//! What C holds.

ghost use Rattle.std.specs.Prelude.{◌≡◌, false, true, Err, Some, None, IfErr, MatchResult, option_map};
ghost use Rattle.std.specs.Fn.{FnOnceReturnsAtMut};
ghost use Rattle.povundiri_c.specs.Calls.{ByHandle, OnRecorder};
ghost use Rattle.povundiri_c.specs.Followers.{AnswersFollowCall};
ghost use Rattle.povundiri_c.specs.Joins.{AnswersPassed};
ghost use Rattle.povundiri_c.specs.OpaqueBoxes.{is_some};
ghost use Rattle.povundiri_c.specs.Sums.{AnswersAppend};

use crate::contents::Contents;
use crate::joinable_recorder::JoinableRecorder;
use crate::opaque_box::OpaqueBox;
use crate::owned_segment::JoinOrLend;
use crate::status::{EMPTY, NOT_EMPTY};
use crate::types::MergeTotals;
use core::mem::replace;
use std::alloc::Global;

/// A segment, a recorder, a sum, a follower, or nothing. C begins with zeros.
#[repr(C)]
#[derive(Drop)]
pub struct Handle {
    full: bool,
    boxed: OpaqueBox,
    ghost says: { full ≡ is_some boxed.held },
}

impl Handle {
    fn of(boxed: Box<Contents>) -> Handle
        ensures { result.boxed.held ≡ Some boxed.value }
    {
        Handle {
            full: true,
            boxed: OpaqueBox::of(boxed),
        }
    }

    /// Whether it holds something.
    pub(crate) fn is_full(&self) -> bool
        ensures { result ≡ is_some self.now.boxed.held }
    {
        self.full
    }

    /// Fills it.
    pub(crate) fn put(&mut self, boxed: Box<Contents>)
        ensures { self.new.boxed.held ≡ Some boxed.value }
    {
        *self = Handle::of(boxed);
    }

    /// Takes what it holds. It is empty then: `none`, which is empty, takes its place.
    pub(crate) fn take(&mut self, none: Handle) -> Result<Box<Contents>, u32>
        ensures taken { MatchResult result (λ boxed. (self.old.boxed.held ≡ Some boxed.value) × (self.new.boxed.held ≡ None)) (λ _. self.new ≡ self.old) }
        ensures full { is_some none.boxed.held ≡ true → result ≡ Err 4 }
        ensures why { IfErr result (λ status. is_some none.boxed.held ≡ false → (status ≡ 3) × (is_some self.old.boxed.held ≡ false)) }
    {
        if none.full {
            return Err(NOT_EMPTY);
        }
        if !self.full {
            return Err(EMPTY);
        }
        let Handle { full: _, boxed } = replace(self, none);
        Ok(boxed.open())
    }

    /// Does what a recorder is passed to the segment for, in its box. Returns the status, and the box if it comes back.
    pub(crate) fn serve(
        &mut self,
        passed: Box<Contents>,
        request: JoinOrLend,
    ) -> (u32, Option<Box<Contents>>)
        ensures { AnswersPassed request passed.value self.old.boxed.held (result.0, option_map (λ back. back.value) result.1) self.new.boxed.held }
    {
        if !self.full {
            return (EMPTY, Some(passed));
        }
        self.boxed.get_mut().serve(passed, request)
    }

    /// Adds the sum that another handle holds to its own. If one of them holds nothing, the status says so.
    pub(crate) fn add_other(&mut self, other: &mut Handle) -> u32
        ensures answer { AnswersAppend other.old.boxed.held self.old.boxed.held result self.new.boxed.held }
        ensures same { other.new.boxed.held ≡ other.old.boxed.held }
    {
        if !self.full || !other.full {
            return EMPTY;
        }
        self.boxed.get_mut().add_other(other.boxed.get_mut())
    }

    /// Adds what came of an image by the follower that it holds, and by the recorder that another handle holds. If one of
    /// them holds nothing, the status says so.
    pub(crate) fn follow(
        &mut self,
        alloc: Global,
        recorder: &mut Handle,
        words: &[u64],
        most: u64,
        name: &mut [u8],
        totals: &mut MergeTotals,
    ) -> u32
        ensures { AnswersFollowCall words.now most self.old.boxed.held recorder.old.boxed.held result totals.old totals.new name.old name.new self.new.boxed.held recorder.new.boxed.held }
    {
        if !self.full || !recorder.full {
            return EMPTY;
        }
        let recorder = recorder.boxed.get_mut();
        self.boxed
            .get_mut()
            .follow(alloc, recorder, words, most, name, totals)
    }

    /// Calls what it holds, which stays where it is. A handle that holds nothing returns `empty`, and stays so.
    pub(crate) fn call<B, F: FnOnce(&mut Contents) -> B>(&mut self, empty: B, call: F) -> B
    where
        B: Drop,
        requires { F.IsAlwaysCallable call }
        ensures { ByHandle empty (FnOnceReturnsAtMut F.FnOnce call) self.old.boxed.held result self.new.boxed.held }
    {
        if !self.full {
            return empty;
        }
        call(self.boxed.get_mut())
    }

    /// Calls the recorder that it holds, which stays where it is. A handle that holds nothing returns `empty`, and one
    /// that holds anything else `other`: it is unchanged.
    pub(crate) fn call_recorder<B, F: FnOnce(&mut JoinableRecorder) -> B>(
        &mut self,
        empty: B,
        other: B,
        call: F,
    ) -> B
    where
        B: Drop,
        requires { F.IsAlwaysCallable call }
        ensures { ByHandle empty (OnRecorder other (FnOnceReturnsAtMut F.FnOnce call)) self.old.boxed.held result self.new.boxed.held }
    {
        if !self.full {
            return empty;
        }
        self.boxed.get_mut().call_recorder(other, call)
    }
}
