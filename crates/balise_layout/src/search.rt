//! The search for an occurrence of a variable.

ghost use Rattle.std.specs.Prelude.{◌≡◌};
ghost use Rattle.balise_layout.specs.Search.{searching};

use crate::fault::LayoutFault;
use crate::visit::Visit;
use balise_rules::Var;

/// Looks for an occurrence of a variable, and keeps how many bits there are from it on.
#[derive(Drop)]
pub struct Search {
    /// The variable.
    pub var: Var,
    /// How many occurrences still come before it.
    pub skip: u32,
    /// How many bits there are from it on, once it is found.
    pub found: Option<usize>,
}

impl Search {
    /// For occurrence `k`, from 0, of a variable.
    pub fn new(var: Var, k: u32) -> Search
        ensures { result ≡ searching var k }
    {
        Search {
            var,
            skip: k,
            found: None,
        }
    }
}

impl Visit for Search {
    ghost use Rattle.balise_layout.specs.Search.{look};
    ghost use Rattle.std.specs.Prelude.{false};

    ghost allocates = { false };

    ghost step = { look };

    fn see(&mut self, left: usize, var: Var, _value: u32) -> Result<(), LayoutFault> {
        if self.found.is_none() && var == self.var {
            if self.skip == 0 {
                self.found = Some(left);
            } else {
                self.skip -= 1;
            }
        }
        Ok(())
    }
}
