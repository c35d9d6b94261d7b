// The table's own type: which line is due, what the lines before it said, and the limits.
ghost use Rattle.std.specs.Prelude.{◌≡◌};
ghost use Rattle.lines.specs.Shape.{limits, start_shape};

// Which line is due.
#[derive(Clone, Copy, Debug, PartialEq, Eq)]
pub enum Due {
    Terms,
    Nonterms,
    Rules,
    Rule,
    States,
    State,
    Item,
    Go,
    End,
}

// What the lines so far said. The lengths of the rules' right sides stand beside it, in a lent array.
#[derive(Clone, Copy, Debug, PartialEq, Eq)]
pub struct Shape {
    pub due: Due,
    pub terms: usize,
    pub nonterms: usize,
    // Rule lines accepted so far, and still to come.
    pub rules: usize,
    pub rules_left: usize,
    // All states, and those still to come after the one being read.
    pub states: usize,
    pub states_left: usize,
    // Item lines and go lines still to come in the state being read.
    pub items_left: usize,
    pub gos_left: usize,
    // The least symbol that the next go line of the state may have.
    pub above: usize,
}

// The limits as values.
#[derive(Clone, Copy, Debug, PartialEq, Eq)]
pub struct Limits {
    pub terms: usize,
    pub nonterms: usize,
    pub rules: usize,
    pub right: usize,
    pub states: usize,
    pub items: usize,
    pub gos: usize,
    pub bytes: usize,
    pub numbers: usize,
    pub tail: usize,
    pub stride: usize,
    pub line: usize,
}

impl Shape {
    // Kinds of tokens.
    pub const MAX_TERMS: usize = 63;

    pub const MAX_NONTERMS: usize = 32;

    pub const MAX_RULES: usize = 64;

    // Symbols on a right side.
    pub const MAX_RIGHT: usize = 8;

    pub const MAX_STATES: usize = 128;

    // Items of a state.
    pub const MAX_ITEMS: usize = 200;

    // Go lines of a state.
    pub const MAX_GOS: usize = 96;

    // Bytes of a sheet.
    pub const MAX_BYTES: usize = 60000;

    // Numbers of a table.
    pub const MAX_NUMBERS: usize = 60000;

    // Tokens of a tail.
    pub const MAX_TAIL: usize = 4096;

    // Words of room for a node.
    pub const STRIDE: usize = 8;

    // Numbers of a line that fits: an item's rule and dot, the kinds and the end mark.
    pub const MAX_LINE: usize = 3 + Shape::MAX_TERMS;

    // The limits, all at once: they are those of the specification.
    pub fn limits() -> Limits
        ensures { result ≡ limits }
    {
        Limits {
            terms: Shape::MAX_TERMS,
            nonterms: Shape::MAX_NONTERMS,
            rules: Shape::MAX_RULES,
            right: Shape::MAX_RIGHT,
            states: Shape::MAX_STATES,
            items: Shape::MAX_ITEMS,
            gos: Shape::MAX_GOS,
            bytes: Shape::MAX_BYTES,
            numbers: Shape::MAX_NUMBERS,
            tail: Shape::MAX_TAIL,
            stride: Shape::STRIDE,
            line: Shape::MAX_LINE,
        }
    }

    // Nothing was accepted yet: the first line is due.
    pub fn start() -> Shape
        ensures { result ≡ start_shape }
    {
        Shape {
            due: Due::Terms,
            terms: 0,
            nonterms: 0,
            rules: 0,
            rules_left: 0,
            states: 0,
            states_left: 0,
            items_left: 0,
            gos_left: 0,
            above: 0,
        }
    }
}
