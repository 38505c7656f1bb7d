mod bounds;
mod laws;
mod lines;
mod needs;
