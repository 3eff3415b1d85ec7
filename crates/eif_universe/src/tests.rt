mod class_numbers;
mod text_faults;
mod trees;
mod universes;
