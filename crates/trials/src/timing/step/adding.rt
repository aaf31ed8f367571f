//! An actor that adds sample after sample.

use crate::timing::PAST_PACKED;
use anyhow::{Result, bail};
use bucket_ranges::Spec;
use hist_core::{Answer, Begun, Call, Stepped, World};
use std::alloc::Global;

/// A world of one actor, which adds to a histogram whose counts are in use.
#[derive(Drop)]
pub(crate) struct Adding {
    world: World,
    // For the names of what it adds.
    alloc: Global,
    // From which the values come, in no order.
    state: u32,
}

// Steps the call that began to its end. Returns how many events that takes.
fn finish(world: &mut World) -> Result<u64> {
    let mut events: u64 = 0;
    for _ in 0..u64::MAX {
        events = events.saturating_add(1);
        match world.step(0)? {
            Stepped::More => {}
            Stepped::Done(Answer::Hist(_) | Answer::Added) => return Ok(events),
            Stepped::Done(_) => bail!("a call was refused"),
        }
    }
    Ok(events)
}

// The actor makes a call from its begin to its end.
fn make(world: &mut World, call: &Call) -> Result<u64> {
    match world.begin(0, call)? {
        Begun::Going => finish(world),
        Begun::Ended(_) => bail!("a call needed no event"),
    }
}

impl Adding {
    /// A new world, in which the histogram is made and its counts are in use.
    pub(crate) fn new(alloc: Global) -> Result<Adding> {
        let spec = Spec::Linear {
            min: 1,
            max: 10_000,
            n: 50,
        };
        let mut world = World::new(alloc, 1024, 1024, 7, 1, 2)?;
        make(&mut world, &Call::Hist(Vec::from_slice(alloc, b"H")?, spec))?;
        let first = Call::Add(Vec::from_slice(alloc, b"H")?, 1, PAST_PACKED);
        make(&mut world, &first)?;
        Ok(Adding {
            world,
            alloc,
            state: 1,
        })
    }

    /// Adds this many samples, of values that fall into the buckets in no order. Returns how many events that takes.
    pub(crate) fn add(&mut self, samples: u32) -> Result<u64> {
        let mut events: u64 = 0;
        for _ in 0..samples {
            self.state = self
                .state
                .wrapping_mul(1_664_525)
                .wrapping_add(1_013_904_223);
            let value = ((self.state >> 8) % 10_100) as i32;
            let sample = Call::Add(Vec::from_slice(self.alloc, b"H")?, value, 1);
            events = events.saturating_add(make(&mut self.world, &sample)?);
        }
        Ok(events)
    }
}
