// What each atomic step tells its seat. These types are for proofs alone.
ghost use Rattle.slice_ring.specs.Steps.{saw_word, saw_first, saw_second, claimed, stored_first, stored_second, published, finished, glanced, opened, collected, closed, works_for, takes_back, spent};

use crate::views::{Content, Numbered, View};
use atomic_table::{Join, Play, Split};

pub(crate) struct SeeWord;

impl<J, R, T> Play<Option<Content<J, R>>, View<T>> for SeeWord {
    ghost then = { saw_word };
}

pub(crate) struct SeeFirst;

impl<J, R, T> Play<Option<Content<J, R>>, View<T>> for SeeFirst {
    ghost then = { saw_first };
}

pub(crate) struct SeeSecond;

impl<J, R, T> Play<Option<Content<J, R>>, View<T>> for SeeSecond {
    ghost then = { saw_second };
}

pub(crate) struct Claim;

impl<J: Numbered, R> Play<Option<Content<J, R>>, View<J::Topic>> for Claim {
    ghost then = { claimed J.ticket };
}

pub(crate) struct Finish;

impl<J, R, T> Play<Option<Content<J, R>>, View<T>> for Finish {
    ghost then = { finished };
}

// A load that is kept with the word's place.
pub(crate) struct Glimpse;

impl<J, R, T> Play<Option<Content<J, R>>, View<T>> for Glimpse {
    ghost then = { glanced };
}

pub(crate) struct Open;

impl<J, R, T> Play<Option<Content<J, R>>, View<T>> for Open {
    ghost then = { opened };
}

pub(crate) struct StoreFirst;

impl<J, R, T> Play<Option<Content<J, R>>, View<T>> for StoreFirst {
    ghost then = { stored_first };
}

pub(crate) struct StoreSecond;

impl<J, R, T> Play<Option<Content<J, R>>, View<T>> for StoreSecond {
    ghost then = { stored_second };
}

pub(crate) struct Publish;

impl<J, R, T> Play<Option<Content<J, R>>, View<T>> for Publish {
    ghost then = { published };
}

pub(crate) struct Collect;

impl<J, R: Numbered> Play<Option<Content<J, R>>, View<R::Topic>> for Collect {
    ghost then = { collected R.ticket };
}

pub(crate) struct Close;

impl<J, R, T> Play<Option<Content<J, R>>, View<T>> for Close {
    ghost then = { closed };
}

// The lead makes a worker's seat.
pub(crate) struct Engage;

impl<T> Split<View<T>> for Engage {
    ghost left = { λ v. v };

    ghost right = { works_for };
}

// The lead takes a worker's seat back.
pub(crate) struct Retire;

impl<T> Join<View<T>> for Retire {
    ghost both = { λ v w. takes_back v };

    ghost spent = { spent };
}
