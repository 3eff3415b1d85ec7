mod conformance;
mod faults;
mod forms;
mod lineage;
mod trees;
