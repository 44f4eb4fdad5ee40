//! What the atomic steps on the table do to a seat.
//!
//! A call of a step at `Brand` picks the relation that holds of it, in the function's proof.
use crate::bay::Bay;
use crate::view::View;
use atomic_table::{Join, Play, Split};
use std::marker::Brand;

impl Play<Option<Bay>, View> for Brand {
    ghost use Rattle.mc_shared.specs.Steps.{added};

    ghost then = { added };
}

pub struct Fork;

impl Split<View> for Fork {
    ghost use Rattle.mc_shared.specs.Steps.{maker, newcomer};

    ghost left = { maker };

    ghost right = { newcomer };
}

pub struct Meet;

impl Join<View> for Meet {
    ghost use Rattle.mc_shared.specs.Steps.{met, gone};

    ghost both = { met };

    ghost spent = { gone };
}
