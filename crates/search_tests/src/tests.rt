mod fixtures;
mod leaves;
mod masters;
mod searches;
mod states;
mod trees;
