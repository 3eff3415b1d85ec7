mod look_ups;
mod names;
mod trees;
