// The shape that comes next: what a line's numbers, which fit, change in it.
ghost use Rattle.std.specs.Prelude.{◌≡◌, ◌<◌};
ghost use Rattle.lines.specs.Limits.{max_rules};
ghost use Rattle.lines.specs.Lines.{less};
ghost use Rattle.lines.specs.Shape.{body_shape, due_while, settled_shape, rule_shape, next_shape};

use crate::fits::at;
use crate::shape::{Due, Shape};

// The one while some are left, and then the other.
fn due_while(left: usize, some: Due, none: Due) -> Due
    ensures { result ≡ due_while left some none }
{
    if left == 0 { none } else { some }
}

impl Shape {
    // After a rule line: another one, or the count of states.
    #[tactic(auto, using(crate::proofs::ShapeLaws::less_one))]
    fn after_rule(self) -> Shape
        requires { self.rules < max_rules }
        ensures { result ≡ rule_shape self }
    {
        let rules_left = self.rules_left.saturating_sub(1);
        Shape {
            due: due_while(rules_left, Due::Rule, Due::States),
            terms: self.terms,
            nonterms: self.nonterms,
            rules: self.rules + 1,
            rules_left,
            ..Shape::start()
        }
    }

    // After the count of states: the first state.
    fn after_states(self, states: usize) -> Shape
        ensures { result ≡ body_shape Due.State self states states 0 0 0 }
    {
        Shape {
            due: Due::State,
            rules_left: 0,
            states,
            states_left: states,
            items_left: 0,
            gos_left: 0,
            above: 0,
            ..self
        }
    }

    // After a state line: its items.
    fn after_state(self, items_left: usize, gos_left: usize) -> Shape
        ensures { result ≡ body_shape Due.Item self self.states (less self.states_left) items_left gos_left 0 }
    {
        Shape {
            due: Due::Item,
            rules_left: 0,
            states_left: self.states_left.saturating_sub(1),
            items_left,
            gos_left,
            above: 0,
            ..self
        }
    }

    // What is due in a state of which item lines and go lines are left; with none left the state is finished.
    #[tactic(auto, unfolding(crate::specs::Shape::settled_shape))]
    fn settled(self, items_left: usize, gos_left: usize, above: usize) -> Shape
        ensures { result ≡ settled_shape self items_left gos_left above }
    {
        let (due, above) = match (items_left, gos_left) {
            (0, 0) => (due_while(self.states_left, Due::State, Due::End), 0),
            (0, _) => (Due::Go, above),
            _ => (Due::Item, above),
        };
        Shape {
            due,
            rules_left: 0,
            items_left,
            gos_left,
            above,
            ..self
        }
    }

    // The shape with a line's numbers taken in.
    #[tactic(auto, using(crate::proofs::ShapeLaws::less_one), unfolding(crate::specs::Shape::next_shape))]
    pub(crate) fn next(self, numbers: &[u16]) -> Shape
        requires { self.due ≡ Due.Rule → self.rules < max_rules }
        ensures { result ≡ next_shape self numbers.now }
    {
        let first = at(numbers, 0);
        match self.due {
            Due::Terms => Shape {
                due: Due::Nonterms,
                terms: first,
                ..Shape::start()
            },
            Due::Nonterms => Shape {
                due: Due::Rules,
                terms: self.terms,
                nonterms: first,
                ..Shape::start()
            },
            Due::Rules => Shape {
                due: Due::Rule,
                terms: self.terms,
                nonterms: self.nonterms,
                rules_left: first,
                ..Shape::start()
            },
            Due::Rule => self.after_rule(),
            Due::States => self.after_states(first),
            Due::State => self.after_state(first, at(numbers, 1)),
            Due::Item => self.settled(self.items_left.saturating_sub(1), self.gos_left, self.above),
            Due::Go => self.settled(self.items_left, self.gos_left.saturating_sub(1), first + 1),
            // Not `self`: a copy of the whole moves the bytes between its fields too, and reading took 10 to 22%
            // longer.
            Due::End => Shape {
                due: Due::End,
                ..self
            },
        }
    }
}
