//! One value for each sampler of a cluster.

use std::marker::Model;
use tdf_fixed::Raw;

/// One value for each sampler of a cluster, by rising actor. Only [`Inputs::new`] takes memory.
#[derive(Drop)]
pub struct Inputs {
    values: Vec<Raw>,
}

impl Model for Inputs {
    ghost use Rattle.std.specs.Prelude.{List};
    ghost use Rattle.tdf_fixed.specs.declared.raw.Raw.{Raw};

    ghost Value = { List Raw };

    ghost view = { λ a. a.values.items };
}

ghost use Rattle.std.specs.Prelude.{◌≡◌, ◌<◌, length, replicate, slice_get, slice_set, pos, IfOk, Some};

use std::alloc::Global;
use tdf_base::Memory;

impl Inputs {
    /// A 0 for each of this number of samplers.
    ///
    /// # Errors
    /// Out of memory.
    pub fn new(alloc: Global, samplers: u32) -> Result<Inputs, Memory>
        ensures { IfOk result (λ inputs.
            inputs ≡ replicate samplers (record { num = pos 0; frac = 0 })) }
    {
        Ok(Inputs {
            values: vec![in alloc; Raw { num: 0, frac: 0 }; samplers as usize]?,
        })
    }

    /// The value of sampler `i` of the cluster, by rising actor.
    pub fn value(&self, i: u32) -> Raw
        requires { i < length self.now }
        ensures { slice_get self.now i ≡ Some result }
    {
        self.values[i as usize]
    }

    /// Sets the value of sampler `i`.
    pub(crate) fn set(&mut self, i: u32, value: Raw)
        requires { i < length self.old }
        ensures { self.new ≡ slice_set self.old i value }
    {
        self.values[i as usize] = value;
    }
}
