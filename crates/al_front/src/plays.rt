//! What each step tells the one that makes it.
use crate::view::{Entry, View};
use atomic_table::{Join, Play, Split};
use std::marker::PhantomData;

/// The main list is longer by the entry.
pub(crate) struct Appends<E> {
    entry: PhantomData<E>,
}

impl<E: Entry> Play<(), View> for Appends<E> {
    ghost use Rattle.al_front.specs.Rule.{appended};

    ghost then = { appended E.bytes };
}

/// The longer of the two lists that a joined seat has becomes its list.
pub(crate) struct Settles;

impl Play<(), View> for Settles {
    ghost use Rattle.al_front.specs.Rule.{settles};

    ghost then = { settles };
}

/// The greater of the two floors that a joined seat has becomes its floor.
pub(crate) struct Looks;

impl Play<(), View> for Looks {
    ghost use Rattle.al_front.specs.Rule.{looks};

    ghost then = { looks };
}

/// The store's floor is at least the given one.
pub(crate) struct Raises;

impl Play<(), View> for Raises {
    ghost use Rattle.al_front.specs.Rule.{raised};

    ghost then = { raised };
}

/// The first seat of a front becomes the main one and the store's.
pub(crate) struct Parts;

impl Split<View> for Parts {
    ghost use Rattle.al_front.specs.Rule.{as_main, as_store};

    ghost left = { as_main };

    ghost right = { as_store };
}

/// A note leaves a seat, and another seat joins it.
pub(crate) struct Notes;

impl Split<View> for Notes {
    ghost use Rattle.al_front.specs.Rule.{note_of};

    ghost left = { λ v. v };

    ghost right = { note_of };
}

impl Join<View> for Notes {
    ghost use Rattle.al_front.specs.Rule.{met_with, nobody};

    ghost both = { met_with };

    ghost spent = { nobody };
}
