mod fixtures;
mod flows;
mod graphs;
mod models;
mod packings;
