// Tables of entries over lent slices: one text for placing an entry, striking one that matches a key
// and counting those that match. A place is `None` where it is empty, and an empty place matches nothing.
#![tactic(auto)]

ghost use Rattle.std.specs.Prelude.{◌≡◌, ◌+◌, ◌<◌, Bool, true, [], ◌∷◌, length, position, is_none, is_some, is_ok, if◌then◌else◌, Some, codes, nat_lt};
ghost use Rattle.slots.specs.Entries.{entries, first, hit, placed, struck, times};

use std::error::Error;
use std::fmt;

// An entry that can be told by a key.
pub trait Matches<K> {
    // which entries match a key
    ghost fits: { K → Self → Bool };

    // Whether this entry matches `key`.
    fn matches(&self, key: &K) -> bool
        ensures { result ≡ fits key.now self.now };
}

// The refusal of a table that has no empty place.
#[derive(Clone, Copy, PartialEq, Eq, Debug)]
pub struct Full;

impl fmt::Display for Full {
    ghost output = { λ _. Some (codes "no place is empty") };

    fn fmt<W: fmt::Write>(&self, f: &mut fmt::Formatter<W>) -> fmt::Result {
        f.write_str("no place is empty")
    }
}

impl Error for Full {}

// The first empty place.
fn first_empty<E>(slots: &[Option<E>]) -> Option<usize>
    ensures { result ≡ position is_none slots.now }
{
    slots.iter().position(|slot| slot.is_none())
}

// Puts `entry` into the first empty place; a full table is refused and stays as it is.
pub fn place<E: Copy>(slots: &mut [Option<E>], entry: E) -> Result<(), Full>
    ensures after { slots.new ≡ placed entry slots.old }
    ensures test { is_ok result ≡ nat_lt (length (entries slots.old)) (length slots.old) }
    ensures room { (q : E → Bool) → ((e : E) → q e ≡ true) → times q slots.old < length slots.old → is_ok result ≡ true }
    ensures counts { (q : E → Bool) → times q slots.new ≡ times q slots.old + (if is_ok result then times q (Some entry ∷ []) else 0) }
{
    let empty = first_empty(slots).ok_or(Full)?;
    // by index, here and in `strike`: `iter_mut().find` here and `get_mut` there were tried, and what they leave of the
    // other places was not proved
    slots[empty] = Some(entry);
    Ok(())
}

// Whether a place has an entry that matches `key`.
fn hits<K, E: Matches<K>>(slot: &Option<E>, key: &K) -> bool
    ensures { result ≡ hit (E.Matches.fits key.now) slot.now }
{
    slot.as_ref().is_some_and(|entry| entry.matches(key))
}

// How many entries match `key`. A loop: `filter` with `count` takes up to seven times as long, and a `map` to 0 and 1
// with `sum` twice.
pub fn count<K, E: Matches<K>>(slots: &[Option<E>], key: &K) -> usize
    ensures { result ≡ times (E.Matches.fits key.now) slots.now }
{
    let mut n = 0;
    for slot in slots {
        if hits(slot, key) {
            n += 1;
        }
    }
    n
}

// The first place whose entry matches `key`.
fn find<K, E: Matches<K>>(slots: &[Option<E>], key: &K) -> Option<usize>
    ensures { result ≡ position (hit (E.Matches.fits key.now)) slots.now }
{
    slots.iter().position(|slot| hits(slot, key))
}

// The first entry that matches `key`.
pub fn first<K, E: Matches<K> + Copy>(slots: &[Option<E>], key: &K) -> Option<E>
    ensures { result ≡ first (E.Matches.fits key.now) slots.now }
{
    *slots.iter().find(|slot| hits(*slot, key))?
}

// Takes the first entry that matches `key` out and returns it. The places behind it move up by one, so
// the others keep their order, and the last place is empty. Where none matches, nothing changes.
pub fn strike<K, E: Matches<K> + Copy>(slots: &mut [Option<E>], key: &K) -> Option<E>
    ensures value { result ≡ first (E.Matches.fits key.now) slots.old }
    ensures after { slots.new ≡ struck (E.Matches.fits key.now) slots.old }
    ensures finds { is_some result ≡ nat_lt 0 (times (E.Matches.fits key.now) slots.old) }
    ensures counts { (q : E → Bool) → times q slots.new + times q (result ∷ []) ≡ times q slots.old }
{
    let at = find(slots, key)?;
    let gone = slots[at].take();
    slots[at..].rotate_left(1);
    gone
}

// The key that the entries equal to one match.
#[derive(Clone, Copy)]
pub struct Exactly<E>(pub E);

impl<E: PartialEq> Matches<Exactly<E>> for E {
    ghost fits = { λ k e. E.PartialEq.eq e k.0 };

    fn matches(&self, key: &Exactly<E>) -> bool {
        *self == key.0
    }
}

// The key that every entry matches.
#[derive(Clone, Copy)]
pub struct Every;

impl<E> Matches<Every> for E {
    ghost fits = { λ _ _. true };

    fn matches(&self, _key: &Every) -> bool {
        true
    }
}
