//! Places of numbers.

ghost use Rattle.std.specs.Prelude.{◌≡◌, ◌≢◌, ◌<◌, ◌^◌, ℕ, IfSome, None, length, slice_index, true};
ghost use Rattle.tdf_cluster_net.specs.Numbers.{IsAmong};

/// Whether a number stands at a place.
fn is_at(numbers: &[u32], place: usize, number: u32) -> bool
    ensures inside { result ≡ true → place < length numbers.now }
    ensures is { result ≡ true → slice_index numbers.now place ≡ number }
{
    if place >= numbers.len() {
        return false;
    }
    numbers[place] == number
}

/// The place that a number has if none is left out from the first one on.
fn place_in_turn(numbers: &[u32], number: u32) -> usize {
    if numbers.len() == 0 {
        return 0;
    }
    number.saturating_sub(numbers[0]) as usize
}

/// The first place of a number, found by a look at each.
fn looked_up(numbers: &[u32], number: u32) -> Option<usize>
    ensures inside { IfSome result (λ i. i < length numbers.now) }
    ensures is { IfSome result (λ i. slice_index numbers.now i ≡ number) }
    ensures none { result ≡ None → (i : ℕ) → i < length numbers.now
        → slice_index numbers.now i ≢ number }
{
    for i in 0..numbers.len() {
        if numbers[i] == number {
            return Some(i);
        }
    }
    None
}

/// A place of a number among some. One that is in turn, or among rising ones, takes no look at each.
pub fn place_in(numbers: &[u32], number: u32) -> Option<usize>
    ensures inside { IfSome result (λ i. i < length numbers.now) }
    ensures is { IfSome result (λ i. slice_index numbers.now i ≡ number) }
    ensures none { result ≡ None → (i : ℕ) → i < length numbers.now
        → slice_index numbers.now i ≢ number }
{
    let place = place_in_turn(numbers, number);
    if is_at(numbers, place, number) {
        return Some(place);
    }
    let place = numbers.partition_point(|other| *other < number);
    if is_at(numbers, place, number) {
        return Some(place);
    }
    looked_up(numbers, number)
}

/// The place of a number that is there.
pub(crate) fn place_of(numbers: &[u32], number: u32) -> u32
    requires few { length numbers.now < 2 ^ 32 }
    requires there { IsAmong numbers.now number }
    ensures inside { result < length numbers.now }
    ensures is { slice_index numbers.now result ≡ number }
{
    match place_in(numbers, number) {
        Some(place) => place as u32,
        None => 0,
    }
}
