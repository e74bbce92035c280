//! What is done with a turn.
ghost use Rattle.std.specs.Prelude.{◌≡◌, ◌<◌, ◌≤◌, ◌^◌, [], ◌∷◌, length, IfOk, IfErr, IfSome, IfNone, Some, None};
ghost use Rattle.lt_face.specs.Limits.{most_workers};
ghost use Rattle.lt_turn.specs.Journal.{Extends, GoesOn};
ghost use Rattle.lt_turn.specs.Rule.{opening_view, holding, caught_up, below, above, joined};
ghost use Rattle.lt_turn.specs.Seats.{view, IsSeatOf, IsIdle, MayGive};

use super::{Seat, Token, Turn};
use crate::cut::{At, Behind, Cut};
use crate::origin::Origin;
use crate::plays::{Compare, Free, Try};
use crate::story::Story;
use atomic_table::{Refused, Table};
use crossbeam_utils::sync::EventCount;
use lt_face::NoMemory;
use std::alloc::Global;
use std::marker::Brand;
use std::snapshot::Snapshot;
use std::sync::Wait;

impl<T: Story> Turn<T> {
    /// A turn over the value, and the seat that has all numbers.
    pub fn new(alloc: Global, value: T, workers: u32) -> Result<(Turn<T>, Seat<T>), NoMemory>
    where
        T: Drop,
        requires workers { (0 < workers) × (workers ≤ most_workers) }
        requires short { length (T.journal value) < 2 ^ 62 }
        ensures { IfOk result (λ r. IsSeatOf r.0 r.1 × (view r.1 ≡ opening_view (T.opening value) (T.journal value) workers)) }
    {
        let origin = Origin {
            value: Snapshot::of(&value),
            workers,
        };
        let left = value.entries();
        let word = 2 * left;
        let Ok(mut slots) = Vec::with_capacity(alloc, 1) else {
            return Err(NoMemory);
        };
        slots.push_reserved(Some(value));
        match Table::new(alloc, &[word], slots, &origin) {
            Ok((table, token)) => Ok((
                Turn {
                    table,
                    freed: EventCount::new(),
                    entered: EventCount::new(),
                },
                Seat {
                    token,
                    first: 0,
                    end: workers,
                    left,
                },
            )),
            Err(Refused { slots: _ }) => Err(NoMemory),
        }
    }

    // One try to take the turn.
    fn try_take(&self, token: &mut Token<T>) -> Option<T>
        requires turn { (token.old.table_id ≡ self.now.table.shared.table_id) × (token.old.me.1 ≡ []) }
        requires some_number { token.old.me.0.first < token.old.me.0.end }
        ensures turn { token.new.table_id ≡ token.old.table_id }
        ensures none { IfNone result (token.new.me ≡ token.old.me) }
        ensures opening { IfSome result (λ x. token.old.me.0.opening ≡ Some (T.opening x)) }
        ensures extends { IfSome result (λ x. Extends token.old.me.0.first token.old.me.0.end token.old.me.0.seen (T.journal x)) }
        ensures goes_on { IfSome result (λ x. GoesOn token.old.me.0.workers token.old.me.0.begun (T.journal x)) }
        ensures view { IfSome result (λ x. token.new.me ≡ (holding token.old.me.0 (T.journal x), (0, None) ∷ [])) }
    {
        let shared = &self.table.shared;
        let word = shared.peek(0);
        if word % 2 != 0 {
            return None;
        }
        let found = shared.compare_exchange::<Try<T>>(token, 0, word, word + 1);
        if found != word {
            return None;
        }
        shared.exchange(token, 0, None)
    }

    /// Waits for the turn, and takes the value.
    pub fn take<R: Wait>(&self, rt: &R, seat: &mut Seat<T>) -> T
        requires turn { IsSeatOf self.now seat.old }
        requires idle { IsIdle (view seat.old) }
        ensures turn { IsSeatOf self.now seat.new }
        ensures opening { (view seat.old).opening ≡ Some (T.opening result) }
        ensures extends { Extends (view seat.old).first (view seat.old).end (view seat.old).seen (T.journal result) }
        ensures goes_on { GoesOn (view seat.old).workers (view seat.old).begun (T.journal result) }
        ensures view { view seat.new ≡ holding (view seat.old) (T.journal result) }
    {
        for _ in rt.forever() {
            if let Some(value) = self.try_take(&mut seat.token) {
                return value;
            }
            self.wait_till_free(rt);
        }
        unreachable!()
    }

    /// Puts the value back and frees the turn.
    pub fn give(&self, seat: &mut Seat<T>, value: T)
        requires turn { IsSeatOf self.now seat.old }
        requires value { (view seat.old).opening ≡ Some (T.opening value) }
        requires journal { MayGive (view seat.old) (T.journal value) }
        requires short { length (T.journal value) < 2 ^ 62 }
        ensures turn { IsSeatOf self.now seat.new }
        ensures view { view seat.new ≡ caught_up (view seat.old) (T.journal value) }
    {
        let shared = &self.table.shared;
        let left = value.entries();
        let word = 2 * left;
        match shared.exchange(&mut seat.token, 0, Some(value)) {
            None => {}
            Some(_) => unreachable!(),
        }
        shared.store::<Free<T>>(&mut seat.token, 0, word);
        self.tell(left != seat.left);
        seat.left = left;
    }

    fn split_by<C: Cut>(&self, token: &mut Token<T>, at: u32) -> Token<T>
        requires cut { at ≡ C.at }
        requires turn { token.old.table_id ≡ self.now.table.shared.table_id }
        requires at { (token.old.me.0.first < C.at) × (C.at < token.old.me.0.end) }
        requires idle { token.old.me.0.taken ≡ None }
        ensures turn { (token.new.table_id ≡ token.old.table_id) × (result.table_id ≡ token.old.table_id) }
        ensures views { (token.new.me ≡ (below C.at token.old.me.0, token.old.me.1)) × (result.me ≡ (above C.at token.old.me.0, [])) }
    {
        let _ = at;
        self.table.shared.split_seat::<At<C>>(token)
    }

    /// A seat of its own for the numbers from `at` on.
    pub fn split(&self, seat: &mut Seat<T>, at: u32) -> Result<Seat<T>, NoMemory>
        requires turn { IsSeatOf self.now seat.old }
        requires at { ((view seat.old).first < at) × (at < (view seat.old).end) }
        requires idle { IsIdle (view seat.old) }
        ensures turn { IsSeatOf self.now seat.new × IfOk result (λ s. IsSeatOf self.now s) }
        ensures low { IfOk result (λ s. (view seat.new) ≡ below at (view seat.old)) }
        ensures high { IfOk result (λ s. view s ≡ above at (view seat.old)) }
        ensures err { IfErr result (λ _. (view seat.new) ≡ (view seat.old)) }
    {
        let token = self.split_by::<Brand>(&mut seat.token, at);
        let end = seat.end;
        let left = seat.left;
        seat.end = at;
        Ok(Seat {
            token,
            first: at,
            end,
            left,
        })
    }

    /// Gives the numbers of `other`, which begin where those of `seat` end, back to `seat`.
    pub fn join(&self, seat: &mut Seat<T>, other: Seat<T>)
        requires turn { IsSeatOf self.now seat.old × IsSeatOf self.now other }
        requires next { (view seat.old).end ≡ (view other).first }
        requires idle { IsIdle (view seat.old) × IsIdle (view other) }
        ensures turn { IsSeatOf self.now seat.new }
        ensures view { view seat.new ≡ joined (view seat.old) (view other) }
        ensures low { Extends (view seat.old).first (view seat.old).end (view seat.old).seen (view seat.new).seen }
        ensures high { Extends (view other).first (view other).end (view other).seen (view seat.new).seen }
    {
        let end = other.end;
        self.table
            .shared
            .join_seat::<Behind>(&mut seat.token, other.into_token());
        self.table.shared.load::<Compare>(&mut seat.token, 0);
        seat.end = end;
    }

    /// The value, whose journal the one seat with all numbers has seen whole.
    pub fn close(self, seat: Seat<T>) -> T
        requires turn { IsSeatOf self seat }
        requires every { ((view seat).first ≡ 0) × ((view seat).end ≡ (view seat).workers) }
        requires idle { IsIdle (view seat) }
        ensures opening { (view seat).opening ≡ Some (T.opening result) }
        ensures journal { T.journal result ≡ (view seat).seen }
        ensures goes_on { GoesOn (view seat).workers (view seat).begun (view seat).seen }
    {
        let Self {
            table,
            freed: _,
            entered: _,
        } = self;
        let mut closed = table.close_with(seat.into_token());
        let value = closed.take(0);
        closed.free();
        match value {
            Some(x) => x,
            None => unreachable!(),
        }
    }
}
