//! Notes, by which calls of one caller come after calls of another.
//!
//! A caller gives a note once its calls have returned, and another heeds it before it goes on. Each
//! loads one word, which nobody waits for, and stores none. The law is `mc_laws`'
//! `who_heeds_a_note_comes_after`.
ghost use Rattle.std.specs.Prelude.{◌≡◌};
ghost use Rattle.mc_shared.specs.Past.{start, made, both};
ghost use Rattle.mc_shared.specs.Steps.{next_name};

use crate::plays::{Fork, Meet};
use crate::rule::Seat;
use crate::store::{Caller, Shared};
use mc_hop::KeyHash;
use std::marker::Model;

/// What a caller had made and seen when it gave the note. It has no bytes.
///
/// Contracts see its store and its past, which is that of a new caller without calls.
#[derive(Drop)]
pub struct Note {
    pub(crate) seat: Seat,
}

impl Model for Note {
    ghost use Rattle.mc_shared.specs.Seats.{Rests};
    ghost use Rattle.mc_shared.specs.Shown.{CallerState, coded_caller};

    ghost Value = { CallerState };

    ghost coded = { coded_caller };

    ghost view = { λ n. record { table = n.seat.table_id; past = n.seat.me.0.past } };

    ghost invariant = { λ n. Rests n.seat.me };
}

impl<K: KeyHash + Drop> Shared<K> {
    /// Returns a note of all that a caller has made or seen. It never fails and takes no memory.
    ///
    /// The giver's past is whole again only once the note is heeded and the taker is joined.
    pub fn note(&self, giver: &mut Caller) -> Note
        requires { giver.old.table ≡ self.now.table }
        ensures kept { (giver.new.table ≡ giver.old.table)
            × (giver.new.past ≡ made giver.old.past (next_name giver.old.past)) }
        ensures note { (result.table ≡ giver.old.table)
            × (result.past ≡ start (next_name giver.old.past) giver.old.past) }
    {
        let seat = self.board.shared.split_seat::<Fork>(&mut giver.seat);
        Note { seat }
    }

    /// Lets a caller's later calls come after all that a note knows.
    ///
    /// It never fails and takes no memory.
    pub fn heed(&self, taker: &mut Caller, note: Note)
        requires { (taker.old.table ≡ self.now.table) × (note.table ≡ self.now.table) }
        ensures { (taker.new.table ≡ taker.old.table)
            × (taker.new.past ≡ both taker.old.past note.past) }
    {
        let Note { seat } = note;
        self.board.shared.join_seat::<Meet>(&mut taker.seat, seat);
    }
}
