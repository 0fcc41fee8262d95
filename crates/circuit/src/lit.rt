ghost use Rattle.std.specs.Prelude.{◌≡◌};

/// A wire of a circuit with a sign. Wire 0 is the constant yes.
#[derive(Clone, Copy, Debug, PartialEq, Eq, Hash, Drop)]
pub struct Lit {
    pub(crate) wire: u32,
    pub(crate) negated: bool,
}

impl Lit {
    /// The literal that holds in every world of every circuit.
    pub const YES: Lit = Lit {
        wire: 0,
        negated: false,
    };

    /// The literal that holds in no world of any circuit.
    pub const NO: Lit = Lit {
        wire: 0,
        negated: true,
    };

    /// The wire: 0 for the constant, and otherwise one that a gate makes.
    pub fn wire(self) -> u32
        ensures { result ≡ self.wire }
    {
        self.wire
    }

    /// Whether the literal holds where the wire doesn't.
    pub fn negated(self) -> bool
        ensures { result ≡ self.negated }
    {
        self.negated
    }
}

/// What makes a wire.
#[derive(Clone, Copy, Debug, PartialEq, Eq, Hash, Drop)]
pub enum Gate {
    /// The value of the world at this place, from 0, or no past its end.
    Input {
        /// The place.
        number: u32,
    },
    /// Holds where both hold.
    And {
        /// One part, on a lower wire.
        left: Lit,
        /// The other part, on a lower wire.
        right: Lit,
    },
}
