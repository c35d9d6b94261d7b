// The tokens of a tail.
ghost use Rattle.judge.specs.Tails.{FirstNot};

// The place of the first token that is not below `terms`, if there is one.
pub(crate) fn first_strange(tail: &[u16], terms: usize) -> Option<usize>
    ensures { FirstNot terms tail.now result }
{
    tail.iter().position(|t| terms <= usize::from(*t))
}
