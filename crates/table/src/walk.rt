// The lines of a table read one after the other, and the places of its rules and states noted.
ghost use Rattle.std.specs.Prelude.{◌≡◌};
ghost use Rattle.table.specs.Aheads.{SetsRead};
ghost use Rattle.table.specs.Lined.{rules_with, Notable, Reads};

use crate::states::{Body, Reached, line_at};
use crate::{Sizes, Unread};
use lines::{Due, Shape};

// A rule line's place is noted.
#[tactic(auto, unfolding(crate::specs::Lined::rules_with))]
fn note_rule(s: Shape, at: usize, rule_at: &mut [u16; Shape::MAX_RULES])
    requires { Notable s at }
    ensures { rule_at.new ≡ rules_with s rule_at.old at }
{
    if let Due::Rule = s.due {
        rule_at[s.rules] = at as u16;
    }
}

// The same shape, made of its fields: a shape copied whole would take along the bytes between its fields, which is
// slow.
fn renewed(s: Shape) -> Shape
    ensures { result ≡ s }
{
    Shape {
        due: s.due,
        terms: s.terms,
        nonterms: s.nonterms,
        rules: s.rules,
        rules_left: s.rules_left,
        states: s.states,
        states_left: s.states_left,
        items_left: s.items_left,
        gos_left: s.gos_left,
        above: s.above,
    }
}

// The sizes that a shape says.
impl From<Shape> for Sizes {
    ghost use Rattle.table.specs.Lined.{sizes_of};

    ghost from_gives = { λ s z. z ≡ sizes_of s };

    fn from(s: Shape) -> Sizes {
        Sizes {
            terms: s.terms,
            nonterms: s.nonterms,
            rules: s.rules,
            states: s.states,
        }
    }
}

// All lines of a table: those before the states one by one, then those of the states. If there is room for all
// look-ahead sets, they are noted.
pub(crate) fn read_lines(
    table: &[u16],
    rule_at: &mut [u16; Shape::MAX_RULES],
    state_at: &mut [u16; Shape::MAX_STATES],
    sets: &mut [u64],
) -> Result<Sizes, Unread>
    ensures reads { Reads table.now rule_at.new state_at.new result }
    ensures sets_read { SetsRead table.now state_at.new sets.new result }
{
    if Shape::MAX_NUMBERS < table.len() {
        return Err(Unread::TooLong);
    }
    let mut lengths = [0u8; Shape::MAX_RULES];
    let mut s = Shape::start();
    let mut at = 0;
    let mut line = 0;
    while let Some(numbers) = line_at(table, at) {
        if let Due::State = s.due {
            let body = Body {
                numbers: table,
                sizes: Sizes::from(s),
                lengths: &lengths,
            };
            return body.read_states(Reached { at, line }, state_at, sets);
        }
        let Some(next) = s.accept(&mut lengths, numbers) else {
            return Err(Unread::Unfit(line));
        };
        note_rule(s, at, rule_at);
        s = renewed(next);
        at += 1 + numbers.len();
        line += 1;
    }
    Err(Unread::Unfit(line))
}
