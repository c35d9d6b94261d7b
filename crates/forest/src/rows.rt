// The look-ups of a table that passes: rows of entries, built once. See `specs/Rows.antt`.
ghost use Rattle.std.specs.Prelude.{◌≡◌, ◌+◌, ◌*◌, ◌<◌, ◌≤◌, length, get_or, MatchOption};
ghost use Rattle.forest.specs.Rows.{row_of};

// What a table that passes does, lent to the forest for all tokens of a tail.
#[derive(Clone, Copy)]
pub struct LookUps<'a> {
    // The rules by which states reduce: a row for each token, with an entry for each state.
    pub acts: &'a [u16],
    // The go targets: a row for each symbol, with an entry for each state.
    pub go: &'a [u16],
    // The lengths of the rules' right sides.
    pub lens: &'a [u16],
    // The rules' left sides.
    pub lefts: &'a [u16],
    // How many states there are.
    pub states: usize,
}

// What an entry of a row means: 0 stands for none, any other number for one less.
// The rows stay numbers: `look_ups`, which is public, promises each entry, and options take twice the room.
pub fn meant(entry: u16) -> Option<usize>
    ensures { MatchOption result (entry ≡ 0) (λ v. (entry ≡ v + 1) × (v < 65535)) }
{
    match entry {
        0 => None,
        _ => Some(usize::from(entry) - 1),
    }
}

// Row k of rows of so many entries each.
fn row(rows: &[u16], width: usize, k: usize) -> &[u16]
    requires { k * width + width ≤ length rows.now }
    ensures { result.now ≡ row_of rows.now width k }
{
    let from = k * width;
    &rows[from..from + width]
}

impl<'a> LookUps<'a> {
    // The rules by which the states reduce on a token.
    pub(crate) fn actions(&self, token: usize) -> &'a [u16]
        requires { token * self.now.states + self.now.states ≤ length self.now.acts.now }
        ensures { result.now ≡ row_of self.now.acts.now self.now.states token }
    {
        row(self.acts, self.states, token)
    }

    // The go targets of a symbol.
    pub(crate) fn targets(&self, symbol: usize) -> &'a [u16]
        requires { symbol * self.now.states + self.now.states ≤ length self.now.go.now }
        ensures { result.now ≡ row_of self.now.go.now self.now.states symbol }
    {
        row(self.go, self.states, symbol)
    }

    // How many symbols a rule's right side has.
    pub(crate) fn length(&self, rule: usize) -> usize
        requires { rule < length self.now.lens.now }
        ensures { result ≡ get_or self.now.lens.now rule 0 }
    {
        usize::from(self.lens[rule])
    }

    // A rule's left side.
    pub(crate) fn left(&self, rule: usize) -> usize
        requires { rule < length self.now.lefts.now }
        ensures { result ≡ get_or self.now.lefts.now rule 0 }
    {
        usize::from(self.lefts[rule])
    }
}
