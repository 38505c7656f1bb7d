//! The flow model of an instance over its numbered arcs: ranges of arcs, flows, and the model as a program of rows and
//! columns.
#![tactic(auto)]

mod boxes;
mod checks;
mod flows;
mod known;
mod laws;
mod models;
mod places;
mod programs;
mod tallies;
mod three_units;

pub use boxes::{FlowBox, root_box, upper};
pub use checks::{first_bad, is_flow};
pub use flows::{Flow, FlowRow};
pub use laws::{
    boxes_split, conserved_is_balanced, examples_come_out, flows_lie_in_root, models_are_programs,
    packings_are_flows, prices_add_up, solutions_are_flows,
};
pub use models::{arc_name, moves, program_of, push_item_rows, unit_cost};
pub use programs::{Column, Entry, Name, Program, Row, RowKind};
pub use tallies::Tally;
pub use three_units::{graph_of_two, three_of_one};
