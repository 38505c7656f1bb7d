//! Instances of vector packing, packings of them, what these cost, and costs that no packing goes below.
#![tactic(auto)]

mod apart;
mod checks;
mod costs;
mod fault;
mod floors;
mod instances;
mod joining;
mod laws;
mod limits;
mod numbers;
mod packings;
mod places;
mod single;
mod sources;
mod tidying;

pub use apart::units_apart;
pub use checks::{fits, is_packing};
pub use costs::cost;
pub use fault::ReadFault;
pub use floors::material_bound;
pub use instances::{BinType, Instance, Item, ItemCap};
pub use joining::join_bins;
pub use laws::{
    best_type_gives_floor, empty_bins_can_go, floors_come_out, material_is_floor,
    no_place_no_packing, packings_fit, single_is_reached,
};
pub use numbers::{Numbers, Vectors};
pub use packings::{Bin, Count, Counts, Packing};
pub use places::{homeless_item, vector_fits};
pub use single::single_cost;
pub use sources::{MaterialSource, material_source};
pub use tidying::tidy;
