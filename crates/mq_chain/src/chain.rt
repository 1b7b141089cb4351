// The table of carries and its seats.
ghost use Rattle.std.specs.Prelude.{◌≡◌, ℕ, ◌+◌, ◌-◌, ◌*◌, ◌<◌, ◌≤◌, ◌^◌, [], ◌∷◌, ◌++◌, All, IfOk, IfSome, IfNone, Contains, length, slice_index_or};
ghost use Rattle.mq_maxplus.specs.declared.mp.Mp.TheVariants.{Void};
ghost use Rattle.mq_claims.specs.Counts.{IsAllBelow, IsApart};
ghost use Rattle.mq_chain.specs.Cut.{AreFolded};
ghost use Rattle.mq_chain.specs.Words.{carry_word, word_of, mp_of_word};
ghost use Rattle.mq_chain.specs.Stored.{HasNoSummary, IsShort, with_summary, IsNext, IsClosed};
ghost use Rattle.mq_chain.specs.Rule.{Kept, Draws, Stores, Sees, SeesOnce};
ghost use Rattle.mq_chain.specs.Views.{chain_view};
ghost use Rattle.mq_chain.specs.Seats.{IsSeatOf, seated};

use crate::view::{ChainView, Deal};
use atomic_table::{Join, Play, Seat, Split, Table, TableRule};
use mq_base::{List, OutOfMemory};
use mq_maxplus::{Affine, Mp};
use std::alloc::Global;
use std::marker::{Brand, Model, PhantomData};

struct Rule;

impl TableRule<(), ChainView, Deal> for Rule {
    ghost holds = { λ deal s. Kept deal s };

    ghost first = { λ deal. chain_view deal.seats [] [] [] };
}

struct Draw;

impl Play<(), ChainView> for Draw {
    ghost then = { Draws };
}

struct Put;

impl Play<(), ChainView> for Put {
    ghost then = { Stores };
}

struct Look;

impl Play<(), ChainView> for Look {
    ghost then = { Sees };
}

// A look that shows a seat that it drew no number twice.
struct LookOnce;

impl Play<(), ChainView> for LookOnce {
    ghost then = { SeesOnce };
}

// The right that a split gives away. A split is named by a type, so a type must say how much.
trait Share {
    ghost share: { ℕ };
}

impl Share for Brand {
    ghost share = { 0 };
}

struct GiveAway<N: Share> {
    share: PhantomData<N>,
}

impl<N: Share> Split<ChainView> for GiveAway<N> {
    ghost left = { λ v. chain_view (v.right - N.share) v.draws v.puts v.looks };

    ghost right = { λ v. chain_view N.share [] [] [] };
}

struct Both;

impl Join<ChainView> for Both {
    ghost both = { λ v w. chain_view (v.right + w.right) (v.draws ++ w.draws) (v.puts ++ w.puts) (v.looks ++ w.looks) };

    ghost spent = { chain_view 0 [] [] [] };
}

/// The carries of blocks of jobs, each the last departure after its block, in a table that its seats
/// fill in. The first word gives out the blocks. Each block has one word each for its sum, its best
/// and its carry; a word contains 0 or a value plus 1, and is stored once, by the seat that drew the
/// block. Each call but `new` and `close` has at most two atomic steps, and retries none.
#[derive(Drop)]
pub struct Chain {
    table: Table<(), ChainView, Deal, Rule, Global>,
}

impl Model for Chain {
    ghost use Rattle.std.specs.Prelude.{◌≡◌, ◌+◌, ◌*◌, ◌<◌, ◌^◌};
    ghost use Rattle.mq_chain.specs.Seats.{Chained, chained_code};

    ghost Value = { Chained };

    ghost coded = { chained_code };

    ghost view = { λ c. record { table = c.table.shared.table_id; blocks = c.table.shared.key.blocks; seats = c.table.shared.key.seats } };

    ghost invariant = { λ c. (c.table.shared.table_id.words ≡ 3 * c.table.shared.key.blocks + 1) × (c.table.shared.table_id.slots ≡ 0) × (c.table.shared.key.blocks < 2 ^ 32) };
}

/// The right to draw blocks, and what was done with them: a token of one thread. Only contracts see
/// its right (at least 1), the blocks that it drew, what it stored and what its looks found; they
/// take no memory.
#[derive(Drop)]
pub struct ChainSeat {
    seat: Seat<(), ChainView>,
}

impl Model for ChainSeat {
    ghost use Rattle.std.specs.Prelude.{◌≡◌, ◌≤◌, []};
    ghost use Rattle.mq_chain.specs.Seats.{Seated, seated_code, seated};

    ghost Value = { Seated };

    ghost coded = { seated_code };

    ghost view = { λ s. seated s.seat.table_id s.seat.me.0.right s.seat.me.0.draws s.seat.me.0.puts s.seat.me.0.looks };

    ghost invariant = { λ s. (1 ≤ s.seat.me.0.right) × (s.seat.me.1 ≡ []) };
}

// The carry that a word contains.
fn mp_of(word: u64) -> Mp
    ensures { result ≡ mp_of_word word }
{
    if word == 0 {
        Mp::Void
    } else {
        Mp::At(word - 1)
    }
}

impl Chain {
    /// Returns a table of 1 to 16,384 blocks with nothing stored, and its first seat, which has the
    /// right to make `seats` seats in all, at least 1. The only error is that memory runs out, as for
    /// `close`; no other call takes memory.
    pub fn new(alloc: Global, blocks: u32, seats: u32) -> Result<(Chain, ChainSeat), OutOfMemory>
        requires some_blocks { 1 ≤ blocks }
        requires most { blocks ≤ 16384 }
        requires some_seats { 1 ≤ seats }
        ensures { IfOk result (λ r. (r.0.blocks ≡ blocks) × (r.0.seats ≡ seats) × (r.1 ≡ seated r.0.table seats [] [] [])) }
    {
        let deal = Deal {
            blocks: blocks as u64,
            seats: seats as u64,
        };
        let words = Vec::from_elem(alloc, 0u64, 3 * blocks as usize + 1)?;
        let (table, seat) = Table::of_words(alloc, words.as_slice(), &deal)?;
        Ok((Chain { table }, ChainSeat { seat }))
    }

    /// Gives `share` of the seat's right to a new seat, at least 1 and less than all of it. Each block
    /// that the seat drew must be one of the table's.
    pub fn split(&self, seat: &mut ChainSeat, share: u32) -> ChainSeat
        requires own { IsSeatOf self.now seat.old }
        requires early { All (λ d. d < self.now.blocks) seat.old.draws }
        requires some { 1 ≤ share }
        requires rest { share < seat.old.right }
        ensures left { seat.new ≡ seated seat.old.table (seat.old.right - share) seat.old.draws seat.old.puts seat.old.looks }
        ensures given { result ≡ seated seat.old.table share [] [] [] }
    {
        self.split_by::<Brand>(seat, share)
    }

    // Gives away the share that the type says.
    fn split_by<N: Share>(&self, seat: &mut ChainSeat, share: u32) -> ChainSeat
        requires share { share ≡ N.share }
        requires own { IsSeatOf self.now seat.old }
        requires early { All (λ d. d < self.now.blocks) seat.old.draws }
        requires some { 1 ≤ share }
        requires rest { share < seat.old.right }
        ensures left { seat.new ≡ seated seat.old.table (seat.old.right - share) seat.old.draws seat.old.puts seat.old.looks }
        ensures given { result ≡ seated seat.old.table share [] [] [] }
    {
        let seat = self.table.shared.split_seat::<GiveAway<N>>(&mut seat.seat);
        ChainSeat { seat }
    }

    /// Takes over the right of another seat of this table, and all that it drew, stored and saw. No
    /// block was drawn by both.
    pub fn join(&self, seat: &mut ChainSeat, other: ChainSeat)
        requires own { IsSeatOf self.now seat.old }
        requires its { IsSeatOf self.now other }
        ensures apart { IsApart seat.old.draws other.draws }
        ensures joined { seat.new ≡ seated seat.old.table (seat.old.right + other.right) (seat.old.draws ++ other.draws) (seat.old.puts ++ other.puts) (seat.old.looks ++ other.looks) }
    {
        self.table
            .shared
            .join_seat::<Both>(&mut seat.seat, other.seat);
        self.table.shared.load::<LookOnce>(&mut seat.seat, 0);
    }

    /// Returns the carry of each block, `Void` if none was stored; the seat must have the whole right.
    /// If the stored summaries are those of some jobs cut into blocks, each carry is the one of their
    /// fold. If memory runs out, table and seat are dropped.
    pub fn close(self, alloc: Global, seat: ChainSeat) -> Result<List<Mp>, OutOfMemory>
        requires own { IsSeatOf self seat }
        requires whole { seat.right ≡ self.seats }
        ensures len { IfOk result (λ l. length l ≡ self.blocks) }
        ensures drawn { IfOk result (λ _. IsAllBelow seat.draws) }
        ensures each { IfOk result (λ l. (b : ℕ) → b < self.blocks → IsClosed seat.puts seat.looks b (slice_index_or l b Void)) }
        ensures folded { IfOk result (λ l. AreFolded seat.puts self.blocks l) }
    {
        let blocks = (self.table.word_count() - 1) / 3;
        let mut carries = Vec::with_capacity(alloc, blocks)?;
        let closed = self.table.close_with(seat.seat);
        'reads: for b in 0..blocks {
            let Ok(()) = carries.push(mp_of(closed.word(3 * b + 3))) else {
                unreachable!()
            };
        }
        closed.free();
        Ok(List::from_vec(carries))
    }

    /// Draws the next block, which no other seat draws, and returns it. It is greater than all that
    /// the seat drew before, which must be blocks of the table, and is appended to them. It may be
    /// past the table's last block.
    pub fn draw(&self, seat: &mut ChainSeat) -> u64
        requires own { IsSeatOf self.now seat.old }
        requires early { All (λ d. d < self.now.blocks) seat.old.draws }
        ensures fresh { All (λ d. d < result) seat.old.draws }
        ensures drawn { seat.new ≡ seated seat.old.table seat.old.right (seat.old.draws ++ result ∷ []) seat.old.puts seat.old.looks }
    {
        self.table.shared.fetch_add::<Draw>(&mut seat.seat, 0, 1)
    }

    /// Looks once for the carry of a block, by one load of its word, and adds what it found to the
    /// seat's looks. Returns a carry, below 2^63, exactly if the word contains one, and always if the
    /// seat has stored or seen one there.
    pub fn carry(&self, seat: &mut ChainSeat, b: u32) -> Option<u64>
        requires own { IsSeatOf self.now seat.old }
        requires inside { b < self.now.blocks }
        ensures look { seat.new ≡ seated seat.old.table seat.old.right seat.old.draws seat.old.puts (seat.old.looks ++ (carry_word b, word_of result) ∷ []) }
        ensures short { IfSome result (λ v. v < 2 ^ 63) }
        ensures put { IfNone result ((x : ℕ) → ¬ Contains seat.old.puts (carry_word b, x + 1)) }
        ensures seen { IfNone result ((x : ℕ) → ¬ Contains seat.old.looks (carry_word b, x + 1)) }
    {
        let word = 3 * b as usize + 3;
        let found = self.table.shared.load::<Look>(&mut seat.seat, word);
        if found == 0 { None } else { Some(found - 1) }
    }

    /// Stores the sum and then the best of a block that the seat drew. Both are below 2^63, and each
    /// is stored once.
    pub fn put_summary(&self, seat: &mut ChainSeat, b: u32, summary: Affine)
        requires own { IsSeatOf self.now seat.old }
        requires inside { b < self.now.blocks }
        requires drew { Contains seat.old.draws b }
        requires fresh { HasNoSummary seat.old.puts b }
        requires short { IsShort summary }
        ensures { seat.new ≡ seated seat.old.table seat.old.right seat.old.draws (with_summary seat.old.puts b summary) seat.old.looks }
    {
        let Mp::At(best) = summary.least else {
            unreachable!()
        };
        let word = 3 * b as usize;
        let shared = &self.table.shared;
        shared.store::<Put>(&mut seat.seat, word + 1, summary.add + 1);
        shared.store::<Put>(&mut seat.seat, word + 2, best + 1);
    }

    /// Stores the carry of a block that the seat drew, once, after its summary. The carry is what the
    /// summary makes of the carry before it, which the seat has seen, and is below 2^63.
    pub fn put_carry(&self, seat: &mut ChainSeat, b: u32, carry: u64)
        requires own { IsSeatOf self.now seat.old }
        requires inside { b < self.now.blocks }
        requires drew { Contains seat.old.draws b }
        requires fresh { (x : ℕ) → ¬ Contains seat.old.puts (carry_word b, x) }
        requires next { IsNext seat.old.puts seat.old.looks b carry }
        requires short { carry < 2 ^ 63 }
        ensures { seat.new ≡ seated seat.old.table seat.old.right seat.old.draws (seat.old.puts ++ (carry_word b, carry + 1) ∷ []) seat.old.looks }
    {
        let word = 3 * b as usize + 3;
        self.table
            .shared
            .store::<Put>(&mut seat.seat, word, carry + 1);
    }
}
