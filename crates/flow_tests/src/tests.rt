mod extracts;
mod fixtures;
mod flows;
mod graphs;
mod programs;
mod solutions;
