ghost use Rattle.std.specs.Prelude.{◌≡◌};

use packing_laws::{BinType, Instance, Item, ItemCap};
use std::marker::Model;

/// The parts of an instance, whose limits are not tested.
#[derive(Drop)]
pub struct Parts {
    dims: u32,
    types: Vec<BinType>,
    items: Vec<Item>,
    caps: Vec<ItemCap>,
}

impl Model for Parts {
    ghost use Rattle.packing_laws.specs.Instances.{InstanceValue};

    ghost Value = { InstanceValue };

    ghost view = { λ s. record { dims = s.dims; types = s.types.items; items = s.items.items; caps = s.caps.items } };
}

impl Parts {
    ghost use Rattle.packing_laws.specs.Instances.{InstanceValue, IsInstance};

    pub fn new(dims: u32, types: Vec<BinType>, items: Vec<Item>, caps: Vec<ItemCap>) -> Parts
        ensures { result ≡ record { dims = dims; types = types.items; items = items.items; caps = caps.items } }
    {
        Parts {
            dims,
            types,
            items,
            caps,
        }
    }

    /// The instance of these parts.
    pub fn into_instance(self) -> Instance
        requires { IsInstance self }
        ensures { result ≡ self }
    {
        match Instance::with_caps(self.dims, self.types, self.items, self.caps) {
            Some(instance) => instance,
            None => unreachable!(),
        }
    }
}
