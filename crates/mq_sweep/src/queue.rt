// The queue of the numbers of the models, under the rule that each number that was put was taken or is left.
ghost use Rattle.std.specs.Prelude.{◌≡◌, ◌+◌, ◌-◌, ◌/◌, ◌≤◌, ℕ, List, [], ◌∷◌, ◌++◌, IfOk, IfSome, IfNone};
ghost use Rattle.std.specs.List.{range_with_len};
ghost use Rattle.mq_sweep.specs.QueueRule.{IsTakenOrLeft, seat_state};

use crossbeam_queue::protocol::{Join, Lesson, Outcome, Protocol, Split};
use crossbeam_queue::{Pass, RuledArrayQueue};
use mq_base::OutOfMemory;
use std::alloc::Global;
use std::collections::LinkedList;
use std::marker::Model;
use std::sync::Wait;

/// What a seat knows: what it put, what it took, and its share of the right of 64 that all seats have together. Only contracts use
/// it; no value of it is made.
pub struct Tally {
    pub right: u64,
    pub put: LinkedList<u32>,
    pub taken: LinkedList<u32>,
}

// The rule that no number is lost and none comes twice.
struct Rule;

impl Protocol<u32, Tally> for Rule {
    ghost use Rattle.std.specs.Prelude.{[]};
    ghost use Rattle.mq_sweep.specs.QueueRule.{Balanced, tally};

    ghost holds = { Balanced };

    ghost first = { tally 64 [] [] };
}

// A seat gives half of its right to a new seat.
struct GiveHalf;

impl Split<Tally> for GiveHalf {
    ghost use Rattle.std.specs.Prelude.{[], ◌-◌, ◌/◌};
    ghost use Rattle.mq_sweep.specs.QueueRule.{tally};

    ghost left = { λ v. tally (v.right - v.right / 2) v.put v.taken };

    ghost right = { λ v. tally (v.right / 2) [] [] };
}

// A seat takes over all that another seat has.
struct Both;

impl Join<Tally> for Both {
    ghost use Rattle.std.specs.Prelude.{[], ◌+◌, ◌++◌};
    ghost use Rattle.mq_sweep.specs.QueueRule.{tally};

    ghost both = { λ v w. tally (v.right + w.right) (v.put ++ w.put) (v.taken ++ w.taken) };

    ghost spent = { tally 0 [] [] };
}

// A number is put.
struct Puts;

impl Outcome<u32, Tally> for Puts {
    ghost use Rattle.std.specs.Prelude.{◌≡◌, [], ◌∷◌, ◌++◌};
    ghost use Rattle.mq_sweep.specs.QueueRule.{tally};

    ghost then = { λ v x w. w ≡ tally v.right (v.put ++ x ∷ []) v.taken };
}

impl Lesson<u32, Tally> for Puts {
    ghost use Rattle.mq_sweep.specs.QueueRule.{KnowsLeft};

    ghost fact = { KnowsLeft };
}

// A number is taken.
struct Takes;

impl Outcome<u32, Tally> for Takes {
    ghost use Rattle.std.specs.Prelude.{◌≡◌, [], ◌∷◌, ◌++◌};
    ghost use Rattle.mq_sweep.specs.QueueRule.{tally};

    ghost then = { λ v x w. w ≡ tally v.right v.put (v.taken ++ x ∷ []) };
}

impl Lesson<u32, Tally> for Takes {
    ghost use Rattle.mq_sweep.specs.QueueRule.{KnowsLeft};

    ghost fact = { KnowsLeft };
}

/// A queue of numbers. In contracts it is its identity.
#[derive(Drop)]
pub struct NumberQueue {
    queue: RuledArrayQueue<u32, Tally, Rule>,
}

impl Model for NumberQueue {
    ghost use Rattle.atomic_table.specs.Seated.{TableId, table_id_coded};

    ghost Value = { TableId };

    ghost coded = { table_id_coded };

    ghost view = { λ n. n.queue.table.shared.table_id };
}

/// The right to take numbers from a queue, and to make more seats: a token of one thread, without bytes. Only contracts see what
/// it holds: its share of the right, of 64, what it put, and what it took.
#[derive(Drop)]
pub struct QueueSeat {
    pass: Pass<u32, Tally>,
}

impl Model for QueueSeat {
    ghost use Rattle.std.specs.Prelude.{◌≡◌, []};
    ghost use Rattle.crossbeam_queue.specs.Passes.{view as known};
    ghost use Rattle.mq_sweep.specs.QueueRule.{SeatState, seat_state, seat_code};

    ghost Value = { SeatState };

    ghost coded = { seat_code };

    ghost view = { λ t. seat_state t.pass.table_id (known t.pass).right (known t.pass).put (known t.pass).taken };

    ghost invariant = { λ t. t.pass.me.1 ≡ [] };
}

impl NumberQueue {
    /// Returns a queue of the numbers from 0 up to `count`, without it, and the seat that put them, which has all of the right.
    /// The only error is out of memory.
    pub fn filled<R: Wait>(
        rt: &R,
        alloc: Global,
        count: u32,
    ) -> Result<(NumberQueue, QueueSeat), OutOfMemory>
        requires { 1 ≤ count }
        ensures { IfOk result (λ r. r.1 ≡ seat_state r.0 64 (range_with_len 0 count) []) }
    {
        let (queue, mut pass) = RuledArrayQueue::<u32, Tally, Rule>::ruled(alloc, count as usize)?;
        'puts: for number in 0..count {
            match queue.push_as::<Puts, R>(rt, &mut pass, number) {
                Ok(()) => {}
                Err(_) => unreachable!(),
            }
        }
        Ok((NumberQueue { queue }, QueueSeat { pass }))
    }

    /// Takes a number from the queue and notes it in the seat. If it finds the queue empty, it returns `None`; the contract says
    /// only that the seat is then unchanged.
    pub fn take<R: Wait>(&self, rt: &R, seat: &mut QueueSeat) -> Option<u32>
        requires own { seat.old.table ≡ self.now }
        requires right { 1 ≤ seat.old.right }
        ensures some { IfSome result (λ number. seat.new ≡ seat_state seat.old.table seat.old.right seat.old.put (seat.old.taken ++ number ∷ [])) }
        ensures none { IfNone result (seat.new ≡ seat.old) }
    {
        self.queue.pop_as::<Takes, R>(rt, &mut seat.pass)
    }

    /// Gives half of the seat's right to a new seat.
    pub fn split(&self, seat: &mut QueueSeat) -> QueueSeat
        requires own { seat.old.table ≡ self.now }
        requires two { 2 ≤ seat.old.right }
        ensures left { seat.new ≡ seat_state seat.old.table (seat.old.right - seat.old.right / 2) seat.old.put seat.old.taken }
        ensures given { result ≡ seat_state seat.old.table (seat.old.right / 2) [] [] }
    {
        let pass = self.queue.another::<GiveHalf>(&mut seat.pass);
        QueueSeat { pass }
    }

    /// Adds to a seat the right of another seat of this queue, and what that seat put and took.
    pub fn join(&self, seat: &mut QueueSeat, other: QueueSeat)
        requires own { seat.old.table ≡ self.now }
        requires its { other.table ≡ self.now }
        requires right { 1 ≤ seat.old.right }
        ensures { seat.new ≡ seat_state seat.old.table (seat.old.right + other.right) (seat.old.put ++ other.put) (seat.old.taken ++ other.taken) }
    {
        self.queue.absorb::<Both>(&mut seat.pass, other.pass);
    }

    /// Shows a seat with all of the right that each number that was put was taken or is left, as often as it was put.
    pub fn learn(&self, seat: &mut QueueSeat)
        requires own { seat.old.table ≡ self.now }
        requires every { seat.old.right ≡ 64 }
        ensures same { seat.new ≡ seat.old }
        ensures shared { (left : List ℕ) × IsTakenOrLeft seat.old.put seat.old.taken left }
    {
        self.queue.learn_as::<Takes>(&mut seat.pass);
    }
}
