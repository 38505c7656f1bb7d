mod compressions;
mod fixtures;
mod images;
mod level_graphs;
mod weights;
