// One line's numbers taken in: the shape that comes next, or none where the line is unfit.
ghost use Rattle.std.specs.Prelude.{◌≡◌, true};
ghost use Rattle.lines.specs.Shape.{fits_shape, next_shape, lengths_with, accepted, lengths_after};

use crate::fits;
use crate::shape::{Due, Shape};

impl Shape {
    // Whether the numbers of the line that is due fit, after rules whose right sides have these lengths.
    // Inlined: a call would lay the shape in memory for each line, and short lines took 27% more instructions.
    #[tactic(auto, unfolding(crate::specs::Shape::fits_due))]
    #[inline(always)]
    pub fn line_fits(&self, lengths: &[u8; Shape::MAX_RULES], numbers: &[u16]) -> bool
        ensures { result ≡ fits_shape self.now lengths.now numbers.now }
    {
        match self.due {
            Due::Terms => fits::fits_one(Shape::MAX_TERMS, numbers),
            Due::Nonterms => fits::fits_one(Shape::MAX_NONTERMS, numbers),
            Due::Rules => fits::fits_one(Shape::MAX_RULES, numbers),
            Due::Rule => {
                self.rules < Shape::MAX_RULES && fits::fits_rule(self.terms, self.nonterms, numbers)
            }
            Due::States => fits::fits_one(Shape::MAX_STATES, numbers),
            Due::State => fits::fits_state(numbers),
            Due::Item => fits::fits_item_of(self.terms, self.rules, lengths, numbers),
            Due::Go => fits::fits_go(self.terms, self.nonterms, self.states, self.above, numbers),
            Due::End => false,
        }
    }

    // The shape after a line whose numbers fit. A rule line sets the length of its right side.
    #[tactic(auto, using(crate::proofs::ShapeLaws::rule_known), unfolding(crate::specs::Shape::lengths_with))]
    pub fn take_in(self, lengths: &mut [u8; Shape::MAX_RULES], numbers: &[u16]) -> Shape
        requires { fits_shape self lengths.old numbers.now ≡ true }
        ensures value { result ≡ next_shape self numbers.now }
        ensures lengths_after { lengths.new ≡ lengths_with self lengths.old numbers.now }
    {
        if let Due::Rule = self.due {
            lengths[self.rules] = (numbers.len() - 1) as u8;
        }
        self.next(numbers)
    }

    // One line's numbers. A rule line that is accepted sets the length of its right side.
    #[tactic(auto, unfolding(crate::specs::Shape::accepted, crate::specs::Shape::lengths_after))]
    pub fn accept(self, lengths: &mut [u8; Shape::MAX_RULES], numbers: &[u16]) -> Option<Shape>
        ensures value { result ≡ accepted self lengths.old numbers.now }
        ensures lengths_after { lengths.new ≡ lengths_after self lengths.old numbers.now }
    {
        if self.line_fits(lengths, numbers) {
            Some(self.take_in(lengths, numbers))
        } else {
            None
        }
    }
}
