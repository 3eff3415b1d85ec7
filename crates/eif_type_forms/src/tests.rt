mod forms;
mod resolving;
mod types;
