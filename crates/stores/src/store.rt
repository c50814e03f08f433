// A store of records of one kind, in memory that it is lent.
ghost use Rattle.std.specs.Prelude.{◌≡◌, ℕ, ◌+◌, ◌<◌, ◌≤◌, length, MatchResult, MatchOption, ◌≢◌, Some, slice_set};
ghost use Rattle.std.specs.List.{slice_get};
ghost use Rattle.faults.specs.declared.layers.StoreFault.TheVariants.{Full};
ghost use Rattle.stores.specs.Numbers.{record_at, held, room, numbers_limit, Distinct, Entered, Refused};

use faults::StoreFault;
use format::{Amount, VALUE_END};
use records::Record;

// A word can number this many records.
const NUMBERS_LIMIT: u32 = VALUE_END - 1;

// The records are in the first slots, as many as a count says. By a rule of the project the slots are lent and the count is kept
// elsewhere.
#[derive(Drop)]
pub struct Store<'a, R> {
    pub slots: &'a mut [R],
}

// Where the wanted record stands. A function of its own: within `enter` the check did not prove what `position` says.
fn find<R: Record>(records: &[R], wanted: R) -> Option<usize>
    ensures { MatchOption result ((k : ℕ) → slice_get records.now k ≢ Some wanted) (λ i. slice_get records.now i ≡ Some wanted) }
{
    records.iter().position(|record| record.same(&wanted))
}

// The number of the record at a place.
fn number_at(place: usize) -> Amount
    requires { place < numbers_limit }
    ensures { result.number ≡ place + 1 }
{
    Amount {
        number: place as u32 + 1,
    }
}

impl<R: Record> Store<'_, R> {
    // The records in store.
    fn held(&self, count: u32) -> &[R]
        ensures { result.now ≡ held count self.now.slots.now }
    {
        let count = (count.min(NUMBERS_LIMIT) as usize).min(self.slots.len());
        &self.slots[..count]
    }

    // The record under a number.
    pub fn get(&self, count: u32, number: Amount) -> Option<R>
        ensures { result ≡ record_at (held count self.now.slots.now) number.number }
    {
        let place = number.number.checked_sub(1)?;
        self.held(count).get(place as usize).copied()
    }

    // Writes a record behind the last, if there is room.
    fn add(&mut self, count: &mut u32, entry: R) -> Result<Amount, StoreFault>
        ensures added { MatchResult result (λ n. (count.old < numbers_limit) × (count.old < length self.old.slots.now) × (n.number ≡ count.old + 1)) (λ f. (f ≡ Full) × (room self.old.slots.now ≤ count.old)) }
        ensures counted { MatchResult result (λ _. count.new ≡ count.old + 1) (λ _. count.new ≡ count.old) }
        ensures written { MatchResult result (λ _. self.new.slots.now ≡ slice_set self.old.slots.now count.old entry) (λ _. self.new.slots.now ≡ self.old.slots.now) }
        ensures lender { self.new.slots.ghost_name ≡ self.old.slots.ghost_name }
    {
        let next = *count as usize;
        if *count >= NUMBERS_LIMIT || next >= self.slots.len() {
            return Err(StoreFault::Full);
        }
        self.slots[next] = entry;
        *count += 1;
        Ok(number_at(next))
    }

    // The number of a record: its own where it is in store, else the next, behind the last. Without room nothing changes.
    pub fn enter(&mut self, count: &mut u32, entry: R) -> Result<Amount, StoreFault>
        ensures answer { MatchResult result (λ n. Entered count.old (held count.old self.old.slots.now) entry n.number count.new (held count.new self.new.slots.now)) (λ f. (f ≡ Full) × Refused count.old self.old.slots.now entry count.new self.new.slots.now) }
        ensures stays { held count.old self.new.slots.now ≡ held count.old self.old.slots.now }
        ensures distinct { Distinct (held count.old self.old.slots.now) → Distinct (held count.new self.new.slots.now) }
        ensures size { length self.new.slots.now ≡ length self.old.slots.now }
        ensures lender { self.new.slots.ghost_name ≡ self.old.slots.ghost_name }
    {
        match find(self.held(*count), entry) {
            Some(place) => Ok(number_at(place)),
            None => self.add(count, entry),
        }
    }
}
