// Sets of numbers below 64 as one number each: k is in the set where bit k is 1.
ghost use Rattle.std.specs.Prelude.{◌≡◌, ℕ, ◌<◌, ◌^◌, eqb};
ghost use Rattle.table.specs.Sets.{bit, In, set_size};
ghost use Rattle.table.specs.Tests.Tell.{Tells};

// Whether k is in the set.
pub(crate) fn has(set: u64, k: usize) -> bool
    requires { k < set_size }
    ensures { result ≡ eqb (bit set k) 1 }
{
    (set >> k) % 2 == 1
}

// The set of k alone.
pub(crate) fn single(k: usize) -> u64
    requires { k < set_size }
    ensures { result ≡ 2 ^ k }
{
    1 << k
}

// Whether all of the one set are in the other.
pub(crate) fn within(a: u64, b: u64) -> bool
    ensures { Tells result ((k : ℕ) → In a k → In b k) }
{
    a | b == b
}
