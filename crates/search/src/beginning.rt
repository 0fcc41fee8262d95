// How a search begins.

use crate::first_variables::FirstVariables;

/// What a search decides as long as conflicts say nothing: which variables come first, and their signs.
#[derive(Clone, Copy, Debug)]
pub(crate) struct Beginning {
    pub first: FirstVariables,
    // The number of a mixture of signs; all variables are false first where it is 0.
    mixture: u64,
}

impl Beginning {
    /// Each variable is false first.
    pub fn all_false(first: FirstVariables) -> Beginning {
        Beginning { first, mixture: 0 }
    }

    /// The lowest variables come first. In each mixture, by its number from 1 on, about half of them are true first.
    pub fn mixed(number: u64) -> Beginning {
        Beginning {
            first: FirstVariables::Lowest,
            mixture: number,
        }
    }

    /// Whether a variable is true first: a bit of its number and the mixture's, mixed as in splitmix64 (Steele, Lea and Flood
    /// 2014).
    pub fn sign(self, variable: u32) -> bool {
        if self.mixture == 0 {
            return false;
        }
        let variable = u64::from(variable).wrapping_mul(0x9e37_79b9_7f4a_7c15);
        let mixed = variable.wrapping_add(self.mixture.wrapping_mul(0xbf58_476d_1ce4_e5b9));
        let mixed = (mixed ^ (mixed >> 31)).wrapping_mul(0x94d0_49bb_1331_11eb);
        (mixed ^ (mixed >> 29)) & 1 == 1
    }
}
