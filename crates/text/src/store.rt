// Stores of numbers: a number, a part, a number written. What lies outside is left out.
ghost use Rattle.std.specs.Prelude.{◌≡◌, get_or, set, take, drop};
ghost use Rattle.text.specs.Dump.{entry as entry_of};

use terms::EVENT_SIZE;

// The number at a place, and 0 where there is none.
pub fn number_at(store: &[u64], i: usize) -> u64
    ensures { result ≡ get_or store.now i 0 }
{
    store.get(i).copied().unwrap_or(0)
}

// Writes a number, if there is such a place.
pub fn set_number(store: &mut [u64], i: usize, v: u64)
    ensures { store.new ≡ set store.old i v }
{
    if i < store.len() {
        store[i] = v;
    }
}

// The numbers from a place on, as many as there are of so many.
pub fn numbers_of(store: &[u64], place: u64, count: u64) -> &[u64]
    ensures { result.now ≡ take count (drop place store.now) }
{
    let size = store.len() as u64;
    let start = place.min(size);
    let end = start + count.min(size - start);
    &store[start as usize..end as usize]
}

// The numbers of the event i.
pub fn entry(events: &[u64], i: u64) -> &[u64]
    ensures { result.now ≡ entry_of events.now i }
{
    let size = EVENT_SIZE as u64;
    numbers_of(events, size.saturating_mul(i), size)
}
