ghost use Rattle.std.specs.Prelude.{◌≡◌, ℕ, List};

use crate::limits::is_instance;
use crate::numbers::{Numbers, Vectors};
use arc_num::{MAX_CAP, MAX_DIMS, MAX_ITEMS, MAX_TYPES, MAX_UNITS};
use std::marker::Model;

/// A type of bins: how much a bin holds in each dimension, what it costs, and how many there are, if that is limited.
#[derive(Clone, Debug, PartialEq, Eq, Drop)]
pub struct BinType {
    /// What a bin holds, a number for each dimension, in the units of the weights: 0 to 2,147,483,647 each.
    pub cap: Numbers,
    /// What each bin costs that is used: 0 to 2,147,483,647.
    pub cost: u32,
    /// How many bins there are, 0 to 2,147,483,647; none where there is no limit.
    pub limit: Option<u32>,
}

/// An item: how many units are asked for, and its forms, of which each unit takes one.
#[derive(Clone, Debug, PartialEq, Eq, Drop)]
pub struct Item {
    /// How many units are asked for, in all forms together: 0 to 1,000,000.
    pub demand: u32,
    /// The weight vectors, 1 to 64, each with a number from 0 to 2,147,483,647 for each dimension, and not all 0.
    pub forms: Vectors,
}

/// A cap: at most `count` units of an item, whatever their forms, are in one bin. Items are numbered from 1.
#[derive(Clone, Copy, Debug, PartialEq, Eq)]
pub struct ItemCap {
    /// The number of the item, from 1.
    pub item: u32,
    /// How many units of it a bin holds at most: 1 to 1,000,000.
    pub count: u32,
}

/// An instance of vector packing, within the limits.
#[derive(Debug, Drop)]
pub struct Instance {
    dims: u32,
    types: Vec<BinType>,
    items: Vec<Item>,
    caps: Vec<ItemCap>,
}

impl Model for Instance {
    ghost use Rattle.packing_laws.specs.Instances.{InstanceValue, IsInstance};

    ghost Value = { InstanceValue };

    ghost view = { λ s. record { dims = s.dims; types = s.types.items; items = s.items.items; caps = s.caps.items } };

    ghost invariant = { λ s. IsInstance (record { dims = s.dims; types = s.types.items; items = s.items.items; caps = s.caps.items }) };
}

impl Instance {
    ghost use Rattle.std.specs.Prelude.{◌≡◌, ◌≢◌, ◌+◌, ◌≤◌, ◌↔◌, All, Contains, IsSome, IsNone, IfSome, [], length};
    ghost use Rattle.packing_laws.specs.Instances.{InstanceValue, IsInstance, IsBinType, IsItem, IsCap, IsAmong, type_at, item_at, units_of};

    /// An instance without caps. None where a number is outside the limits, a vector has not `dims` numbers, or a form
    /// is zero in every dimension.
    pub fn new(dims: u32, types: Vec<BinType>, items: Vec<Item>) -> Option<Instance>
        ensures made { IsSome result ↔ IsInstance (record { dims = dims; types = types.items; items = items.items; caps = [] }) }
        ensures value { IfSome result (λ I. I ≡ record { dims = dims; types = types.items; items = items.items; caps = [] }) }
    {
        let caps = Vec::new(*types.allocator());
        Instance::with_caps(dims, types, items, caps)
    }

    /// An instance with caps. None as for `new`, and where an item that is capped does not exist, a cap is not from 1 to
    /// 1,000,000, the items of the caps do not ascend, or dimensions and caps together are more than 32.
    pub fn with_caps(
        dims: u32,
        types: Vec<BinType>,
        items: Vec<Item>,
        caps: Vec<ItemCap>,
    ) -> Option<Instance>
        ensures made { IsSome result ↔ IsInstance (record { dims = dims; types = types.items; items = items.items; caps = caps.items }) }
        ensures value { IfSome result (λ I. I ≡ record { dims = dims; types = types.items; items = items.items; caps = caps.items }) }
    {
        if is_instance(dims, &types, &items, &caps) {
            Some(Instance {
                dims,
                types,
                items,
                caps,
            })
        } else {
            None
        }
    }

    /// Does nothing: it tells a caller that the limits hold.
    pub fn known(&self)
        ensures { IsInstance self.now }
    {
        let _dims = self.dims;
    }

    pub fn dims(&self) -> u32
        ensures value { result ≡ self.now.dims }
        ensures known { IsAmong result MAX_DIMS }
    {
        self.dims
    }

    pub fn types(&self) -> &[BinType]
        ensures value { result.now ≡ self.now.types }
        ensures count { IsAmong (length result.now) MAX_TYPES }
        ensures known { All (IsBinType self.now.dims) result.now }
    {
        self.types.as_slice()
    }

    pub fn items(&self) -> &[Item]
        ensures value { result.now ≡ self.now.items }
        ensures count { length result.now ≤ MAX_ITEMS }
        ensures known { All (IsItem self.now.dims) result.now }
    {
        self.items.as_slice()
    }

    /// The caps, by ascending items. Dimensions and caps together are at most 32.
    pub fn caps(&self) -> &[ItemCap]
        ensures value { result.now ≡ self.now.caps }
        ensures room { self.now.dims + length result.now ≤ MAX_DIMS }
        ensures known { All (IsCap (length self.now.items)) result.now }
    {
        self.caps.as_slice()
    }

    pub fn cap_count(&self) -> u32
        ensures value { result ≡ length self.now.caps }
        ensures room { self.now.dims + result ≤ MAX_DIMS }
    {
        self.caps.len() as u32
    }

    /// How many units of the item with this number, from 1, may be in one bin. None where the item has no cap or does
    /// not exist.
    pub fn cap_of(&self, i: u32) -> Option<u32>
        ensures none { IsNone result ↔ All (λ k. k.item ≢ i) self.now.caps }
        ensures some { IfSome result (λ most. Contains self.now.caps (record { item = i; count = most })) }
        ensures known { IfSome result (λ most. IsAmong most MAX_CAP) }
    {
        for cap in &self.caps {
            if cap.item == i {
                return Some(cap.count);
            }
        }
        None
    }

    pub fn type_count(&self) -> u32
        ensures value { result ≡ length self.now.types }
        ensures known { IsAmong result MAX_TYPES }
    {
        self.types.len() as u32
    }

    pub fn item_count(&self) -> u32
        ensures value { result ≡ length self.now.items }
        ensures known { result ≤ MAX_ITEMS }
    {
        self.items.len() as u32
    }

    /// The demands, added up: at most 1,000,000,000.
    pub fn units(&self) -> u32
        ensures value { result ≡ units_of self.now }
        ensures known { result ≤ MAX_UNITS }
    {
        let mut units = 0;
        for item in &self.items {
            units += item.demand;
        }
        units
    }

    /// The type with this number, from 1.
    pub fn bin_type(&self, t: u32) -> Option<&BinType>
        ensures some { IsSome result ↔ IsAmong t (length self.now.types) }
        ensures value { IfSome result (λ x. x.now ≡ type_at self.now t) }
        ensures known { IfSome result (λ x. IsBinType self.now.dims x.now) }
    {
        if t == 0 {
            None
        } else {
            self.types.get(t as usize - 1)
        }
    }

    /// The item with this number, from 1.
    pub fn item(&self, i: u32) -> Option<&Item>
        ensures some { IsSome result ↔ IsAmong i (length self.now.items) }
        ensures value { IfSome result (λ x. x.now ≡ item_at self.now i) }
        ensures known { IfSome result (λ x. IsItem self.now.dims x.now) }
    {
        if i == 0 {
            None
        } else {
            self.items.get(i as usize - 1)
        }
    }
}
