mod bases;
mod pools;
