//! How seats at the table are split and joined.

ghost use Rattle.segment_machine.specs.Actor.{offered_of};
ghost use Rattle.segment_machine.specs.Seats.{newcomer, parent, lender, purse, getter, joined, spent};
ghost use Rattle.live_segment.specs.Steps.{Offers, Bounds};

use crate::rule::Announcement;
use atomic_table::{Join, Play, Split};
use segment_machine::Actor;

pub(crate) struct Offer;

impl Play<Announcement, Actor> for Offer {
    ghost then = { Offers };
}

pub(crate) struct Bound;

impl Play<Announcement, Actor> for Bound {
    ghost then = { Bounds };
}

pub(crate) struct Cut;

impl Split<Actor> for Cut {
    ghost left = { parent };

    ghost right = { newcomer };
}

pub(crate) struct Glue;

impl Join<Actor> for Glue {
    ghost both = { joined };

    ghost spent = { spent };
}

// An opener fills a purse with the units that it offered.
pub(crate) struct Fill;

impl Split<Actor> for Fill {
    ghost left = { lender };

    ghost right = { λ opener. purse (offered_of opener.role) };
}

// A purse is poured out to a recorder.
pub(crate) struct Pour;

impl Join<Actor> for Pour {
    ghost both = { λ recorder filled. getter recorder filled.units.share };

    ghost spent = { spent };
}
