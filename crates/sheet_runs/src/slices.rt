// A slice before and after: it holds numbers of its own, and a sum over its places tells whether any of them changed.
const PRIME: usize = 1000003;

// Gives every place of a slice a number of its own.
pub(crate) fn mark(out: &mut [u16]) {
    for (i, place) in out.iter_mut().enumerate() {
        *place = (i % 65521) as u16;
    }
}

// A sum over all places of a slice, in which every place counts on its own.
pub(crate) fn sum(out: &[u16]) -> usize {
    let total = out
        .iter()
        .fold(7, |total, x| 31 * (total % PRIME) + usize::from(*x));
    total % PRIME
}
